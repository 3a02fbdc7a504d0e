//! Paired prediction of a channel.

ghost use Rattle.std.specs.Prelude.{◌≡◌, ◌∷◌, ◌+◌, ◌-◌, take, ◌<◌, ◌≤◌, ◌↔◌, ◌^◌, pos, neg_ℤ, ◌≤ℤ◌, length, FitsSigned, IfSome, IfNone, IsSome, OnSome, IsTrue, All, false};
ghost use Rattle.std.specs.Int.{w32};
ghost use Rattle.mlp_arith.specs.Words.{clear};
ghost use Rattle.mlp_predict.specs.Prediction.{predicted, restored, reduced, past_after, past_of, outputs_of, residuals_of, with_state, latest, AreSmall, zeros};
ghost use Rattle.mlp_predict.specs.Filters.{filters_of, differences_of, AreFilters, IsState};

use crate::alone::{put_differences, restore_behind};
use crate::filters::{shift_of, taps, taps_back};
use crate::history::History;
use crate::lines::restore_between;
use crate::reducing::reduce_behind;
use crate::sample::{difference_of, dot, output_of, residual_of};
use mlp_arith::floor_by;
use mlp_syntax::{Filter, FilterState};
use std::marker::Model;

/// The latest `F` outputs and `I` differences of a channel, `F` and `I` from 1 to 16.
#[derive(Drop)]
pub struct Predictor<const F: usize, const I: usize> {
    outputs: History<F>,
    differences: History<I>,
}

impl<const F: usize, const I: usize> Model for Predictor<F, I> {
    ghost use Rattle.mlp_predict.specs.Prediction.{Past};
    ghost use Rattle.std.specs.Prelude.{length, ◌≡◌};

    ghost Value = { Past };

    ghost view = { λ p. record { outputs = p.outputs; differences = p.differences } };

    ghost invariant = { λ p. (length p.outputs ≡ F) × (length p.differences ≡ I) };
}

impl<const F: usize, const I: usize> Predictor<F, I> {
    /// A channel at a restart: its past is zeros.
    pub fn new() -> Predictor<F, I>
        requires fir_room { F ≤ 16 }
        requires iir_room { I ≤ 16 }
        ensures { result ≡ zeros F I }
    {
        Predictor {
            outputs: History::new(),
            differences: History::new(),
        }
    }

    /// A restart: the past is zeros again.
    pub fn reset(&mut self)
        requires fir_room { F ≤ 16 }
        requires iir_room { I ≤ 16 }
        ensures { self.new ≡ zeros F I }
    {
        self.outputs.clear();
        self.differences.clear();
    }

    /// The latest `F` outputs, the latest first.
    pub fn outputs(&self) -> &[i32]
        ensures value { result.now ≡ self.now.outputs }
        ensures count { length result.now ≡ F }
    {
        self.outputs.as_slice()
    }

    /// The latest `I` differences, the latest first.
    pub fn differences(&self) -> &[i32]
        ensures value { result.now ≡ self.now.differences }
        ensures count { length result.now ≡ I }
    {
        self.differences.as_slice()
    }

    /// The prediction of the next output: the weighted sum of the past over 2^shift, rounded down.
    pub fn predict(&self, fir: &Filter<F>, iir: &Filter<I>) -> i64
        requires fir_room { F ≤ 16 }
        requires iir_room { I ≤ 16 }
        requires filters { AreFilters fir.now iir.now }
        ensures value { result ≡ predicted (filters_of fir.now iir.now) self.now }
        ensures low { neg_ℤ (pos (2 ^ 51)) ≤ℤ result }
        ensures high { result ≤ℤ pos (2 ^ 51) }
    {
        let fir_taps: [i32; F] = taps(fir.coeffs.as_slice(), fir.coeff_shift);
        let iir_taps: [i32; I] = taps(iir.coeffs.as_slice(), iir.coeff_shift);
        self.predicted(&fir_taps, &iir_taps, shift_of(fir, iir))
    }

    /// The output for a residual, which both histories take: the residual is added to the prediction, the low `step`
    /// bits are cleared, and the sum is wrapped to 32 bits. The difference is what the output has above the prediction.
    pub fn restore(&mut self, fir: &Filter<F>, iir: &Filter<I>, step: u8, residual: i32) -> i32
        requires any_output { 0 < F }
        requires any_difference { 0 < I }
        requires fir_room { F ≤ 16 }
        requires iir_room { I ≤ 16 }
        requires filters { AreFilters fir.now iir.now }
        requires step { step < 16 }
        ensures value { result ≡ restored (filters_of fir.now iir.now) self.old step residual }
        ensures past { self.new ≡ latest F I (past_after (filters_of fir.now iir.now) self.old result) }
    {
        let fir_taps: [i32; F] = taps(fir.coeffs.as_slice(), fir.coeff_shift);
        let iir_taps: [i32; I] = taps(iir.coeffs.as_slice(), iir.coeff_shift);
        self.restored(&fir_taps, &iir_taps, shift_of(fir, iir), step, residual)
    }

    /// The residual of a sample, which both histories take, or None where it hasn't 32 signed bits, and the histories
    /// stay.
    /// `restore` of the residual gives back a sample without low `step` bits, and leaves the same histories.
    pub fn reduce(&mut self, fir: &Filter<F>, iir: &Filter<I>, step: u8, sample: i32) -> Option<i32>
        requires any_output { 0 < F }
        requires any_difference { 0 < I }
        requires fir_room { F ≤ 16 }
        requires iir_room { I ≤ 16 }
        requires filters { AreFilters fir.now iir.now }
        requires step { step < 16 }
        ensures fits { IsSome result ↔ FitsSigned w32 (reduced (filters_of fir.now iir.now) self.old step sample) }
        ensures value { IfSome result (λ r. r ≡ reduced (filters_of fir.now iir.now) self.old step sample) }
        ensures back { IfSome result
            (λ r. clear step sample ≡ sample → restored (filters_of fir.now iir.now) self.old step r ≡ sample) }
        ensures past { OnSome result
            (self.new ≡ latest F I (past_after (filters_of fir.now iir.now) self.old sample)) }
        ensures none { IfNone result (self.new ≡ self.old) }
    {
        let fir_taps: [i32; F] = taps(fir.coeffs.as_slice(), fir.coeff_shift);
        let iir_taps: [i32; I] = taps(iir.coeffs.as_slice(), iir.coeff_shift);
        self.reduced(&fir_taps, &iir_taps, shift_of(fir, iir), step, sample)
    }

    /// Replaces the latest differences by the values of a state times 2^shift, the first becoming the latest.
    pub fn set_state(&mut self, state: &FilterState)
        requires few { length state.now.values.items ≤ I }
        requires state { IsState state.now }
        ensures { self.new ≡ with_state (differences_of state.now) self.old }
    {
        self.differences
            .replace_latest(state.values.as_slice(), state.shift);
    }

    /// The same channel once more.
    #[inline]
    pub fn copied(&self) -> Predictor<F, I>
        ensures { result ≡ self.now }
    {
        Predictor {
            outputs: self.outputs.copied(),
            differences: self.differences.copied(),
        }
    }

    /// The prediction by prepared coefficients.
    #[inline]
    fn predicted<const M: usize, const K: usize>(
        &self,
        fir: &[i32; M],
        iir: &[i32; K],
        shift: u8,
    ) -> i64
        requires fir_known { M ≤ F }
        requires iir_known { K ≤ I }
        requires filters { AreSmall (record { fir = fir.now; iir = iir.now; shift = shift }) }
        ensures value { result ≡ predicted (record { fir = fir.now; iir = iir.now; shift = shift }) self.now }
        ensures low { neg_ℤ (pos (2 ^ 51)) ≤ℤ result }
        ensures high { result ≤ℤ pos (2 ^ 51) }
    {
        let sum = dot(fir, self.outputs.as_slice()) + dot(iir, self.differences.as_slice());
        floor_by(shift, sum)
    }

    /// Puts an output and its difference in front.
    #[inline]
    fn take(&mut self, output: i32, difference: i32)
        requires any_output { 0 < F }
        requires any_difference { 0 < I }
        requires fir_room { F ≤ 16 }
        requires iir_room { I ≤ 16 }
        ensures { self.new
            ≡ record {
              outputs = output ∷ take (F - 1) self.old.outputs;
              differences = difference ∷ take (I - 1) self.old.differences;
            } }
    {
        self.outputs.push(output);
        self.differences.push(difference);
    }

    /// One output by prepared coefficients.
    #[inline]
    fn restored<const M: usize, const K: usize>(
        &mut self,
        fir: &[i32; M],
        iir: &[i32; K],
        shift: u8,
        step: u8,
        residual: i32,
    ) -> i32
        requires any_output { 0 < F }
        requires any_difference { 0 < I }
        requires fir_room { F ≤ 16 }
        requires iir_room { I ≤ 16 }
        requires fir_known { M ≤ F }
        requires iir_known { K ≤ I }
        requires filters { AreSmall (record { fir = fir.now; iir = iir.now; shift = shift }) }
        requires step { step < 16 }
        ensures value { result
            ≡ restored (record { fir = fir.now; iir = iir.now; shift = shift }) self.old step residual }
        ensures past { self.new
            ≡ latest F I (past_after (record { fir = fir.now; iir = iir.now; shift = shift }) self.old result) }
    {
        let prediction = self.predicted(fir, iir, shift);
        let output = output_of(step, prediction, residual);
        self.take(output, difference_of(output, prediction));
        output
    }

    /// One residual by prepared coefficients.
    #[inline]
    fn reduced<const M: usize, const K: usize>(
        &mut self,
        fir: &[i32; M],
        iir: &[i32; K],
        shift: u8,
        step: u8,
        sample: i32,
    ) -> Option<i32>
        requires any_output { 0 < F }
        requires any_difference { 0 < I }
        requires fir_room { F ≤ 16 }
        requires iir_room { I ≤ 16 }
        requires fir_known { M ≤ F }
        requires iir_known { K ≤ I }
        requires filters { AreSmall (record { fir = fir.now; iir = iir.now; shift = shift }) }
        requires step { step < 16 }
        ensures fits { IsSome result
            ↔ FitsSigned w32 (reduced (record { fir = fir.now; iir = iir.now; shift = shift }) self.old step sample) }
        ensures value { IfSome result
            (λ r. r ≡ reduced (record { fir = fir.now; iir = iir.now; shift = shift }) self.old step sample) }
        ensures past { OnSome result (self.new
            ≡ latest F I (past_after (record { fir = fir.now; iir = iir.now; shift = shift }) self.old sample)) }
        ensures none { IfNone result (self.new ≡ self.old) }
    {
        let prediction = self.predicted(fir, iir, shift);
        let residual = residual_of(step, prediction, sample)?;
        self.take(sample, difference_of(sample, prediction));
        Some(residual)
    }

    /// A block of residuals by prepared coefficients; false where some residual hasn't 32 signed bits.
    fn reduce_by<const M: usize, const K: usize>(
        &mut self,
        fir: &[i32; M],
        iir: &[i32; K],
        shift: u8,
        step: u8,
        samples: &[i32],
        residuals: &mut [i32],
    ) -> bool
        requires any_output { 0 < F }
        requires any_difference { 0 < I }
        requires fir_room { F ≤ 16 }
        requires iir_room { I ≤ 16 }
        requires fir_known { M ≤ F }
        requires iir_known { K ≤ I }
        requires filters { AreSmall (record { fir = fir.now; iir = iir.now; shift = shift }) }
        requires step { step < 16 }
        requires room { length samples.now ≡ length residuals.old }
        ensures fit { IsTrue result
            ↔ All (FitsSigned w32)
            (residuals_of (record { fir = fir.now; iir = iir.now; shift = shift }) self.old step samples.now) }
        ensures values { IsTrue result →
            residuals.new
            ≡ residuals_of (record { fir = fir.now; iir = iir.now; shift = shift }) self.old step samples.now }
        ensures past { IsTrue result →
            self.new
            ≡ latest F I (past_of (record { fir = fir.now; iir = iir.now; shift = shift }) self.old samples.now) }
    {
        let _ = &self.outputs;
        for i in 0..samples.len() {
            match self.reduced(fir, iir, shift, step, samples[i]) {
                Some(residual) => residuals[i] = residual,
                None => return false,
            }
        }
        true
    }

    /// A block of outputs, by sums of `M` and `K` products, in lines of `L` values.
    fn restore_with<const M: usize, const K: usize, const L: usize>(
        &mut self,
        fir: &Filter<F>,
        iir: &Filter<I>,
        step: u8,
        block: &mut [i32],
    )
        requires fir_room { F ≤ 16 }
        requires iir_room { I ≤ 16 }
        requires fir_products { M ≤ 16 }
        requires iir_products { K ≤ 16 }
        requires fir_few { length fir.now.coeffs.items ≤ M }
        requires iir_few { length iir.now.coeffs.items ≤ K }
        requires filters { AreFilters fir.now iir.now }
        requires step { step < 16 }
        requires line { L ≤ 176 }
        requires most { 16 + length block.old ≤ L }
        ensures outputs { block.new ≡ outputs_of (filters_of fir.now iir.now) self.old step block.old }
        ensures past { self.new ≡ latest F I (past_of (filters_of fir.now iir.now) self.old block.new) }
    {
        let fir_taps: [i32; M] = taps_back(fir.coeffs.as_slice(), fir.coeff_shift);
        let iir_taps: [i32; K] = taps_back(iir.coeffs.as_slice(), iir.coeff_shift);
        let mut outputs = [0; L];
        let mut differences = [0; L];
        restore_between(
            &fir_taps,
            &iir_taps,
            shift_of(fir, iir),
            step,
            self.outputs.as_slice(),
            self.differences.as_slice(),
            &mut outputs,
            &mut differences,
            block,
        );
        let end = 16 + block.len();
        self.outputs.replace_all(&outputs[..end]);
        self.differences.replace_all(&differences[..end]);
    }

    /// A block of outputs without an IIR, by sums of `M` products, in a line of `L` values.
    fn restore_simply<const M: usize, const L: usize>(
        &mut self,
        fir: &Filter<F>,
        iir: &Filter<I>,
        step: u8,
        block: &mut [i32],
    )
        requires any_difference { 0 < I }
        requires fir_room { F ≤ 16 }
        requires iir_room { I ≤ 16 }
        requires products { M ≤ 16 }
        requires few { length fir.now.coeffs.items ≤ M }
        requires none { length iir.now.coeffs.items ≡ 0 }
        requires filters { AreFilters fir.now iir.now }
        requires step { step < 16 }
        requires line { L ≤ 176 }
        requires most { 16 + length block.old ≤ L }
        ensures outputs { block.new ≡ outputs_of (filters_of fir.now iir.now) self.old step block.old }
        ensures past { self.new ≡ latest F I (past_of (filters_of fir.now iir.now) self.old block.new) }
    {
        let fir_taps: [i32; M] = taps_back(fir.coeffs.as_slice(), fir.coeff_shift);
        let shift = shift_of(fir, iir);
        let mut outputs = [0; L];
        restore_behind(
            &fir_taps,
            shift,
            step,
            self.outputs.as_slice(),
            &mut outputs,
            block,
        );
        let line = &outputs[..16 + block.len()];
        put_differences(&fir_taps, shift, line, &mut self.differences);
        self.outputs.replace_all(line);
    }

    /// As `restore_block`, in lines of `L` values.
    fn restore_in<const L: usize>(
        &mut self,
        fir: &Filter<F>,
        iir: &Filter<I>,
        step: u8,
        block: &mut [i32],
    )
        requires any_output { 0 < F }
        requires any_difference { 0 < I }
        requires fir_room { F ≤ 16 }
        requires iir_room { I ≤ 16 }
        requires filters { AreFilters fir.now iir.now }
        requires step { step < 16 }
        requires line { L ≤ 176 }
        requires most { 16 + length block.old ≤ L }
        ensures outputs { block.new ≡ outputs_of (filters_of fir.now iir.now) self.old step block.old }
        ensures past { self.new ≡ latest F I (past_of (filters_of fir.now iir.now) self.old block.new) }
    {
        let order = fir.coeffs.as_slice().len();
        let iir_order = iir.coeffs.as_slice().len();
        if iir_order == 0 {
            return match order {
                0..=2 => self.restore_simply::<2, L>(fir, iir, step, block),
                3..=4 => self.restore_simply::<4, L>(fir, iir, step, block),
                5..=8 => self.restore_simply::<8, L>(fir, iir, step, block),
                _ => self.restore_simply::<16, L>(fir, iir, step, block),
            };
        }
        if iir_order > 4 {
            return self.restore_with::<16, 16, L>(fir, iir, step, block);
        }
        match order {
            0..=2 => self.restore_with::<2, 4, L>(fir, iir, step, block),
            3..=4 => self.restore_with::<4, 4, L>(fir, iir, step, block),
            5..=8 => self.restore_with::<8, 4, L>(fir, iir, step, block),
            _ => self.restore_with::<16, 4, L>(fir, iir, step, block),
        }
    }

    /// Replaces a block of residuals by the outputs that `restore` gives for them one after another.
    pub fn restore_block(&mut self, fir: &Filter<F>, iir: &Filter<I>, step: u8, block: &mut [i32])
        requires any_output { 0 < F }
        requires any_difference { 0 < I }
        requires fir_room { F ≤ 16 }
        requires iir_room { I ≤ 16 }
        requires filters { AreFilters fir.now iir.now }
        requires step { step < 16 }
        requires most { length block.old ≤ 160 }
        ensures outputs { block.new ≡ outputs_of (filters_of fir.now iir.now) self.old step block.old }
        ensures past { self.new ≡ latest F I (past_of (filters_of fir.now iir.now) self.old block.new) }
    {
        // Short lines are cheaper to clear.
        if block.len() <= 48 {
            return self.restore_in::<64>(fir, iir, step, block);
        }
        self.restore_in::<176>(fir, iir, step, block)
    }

    /// A block of residuals, by sums of `M` and `K` products; false where some residual hasn't 32 signed bits.
    fn reduce_with<const M: usize, const K: usize>(
        &mut self,
        fir: &Filter<F>,
        iir: &Filter<I>,
        step: u8,
        samples: &[i32],
        residuals: &mut [i32],
    ) -> bool
        requires any_output { 0 < F }
        requires any_difference { 0 < I }
        requires fir_room { F ≤ 16 }
        requires iir_room { I ≤ 16 }
        requires fir_known { M ≤ F }
        requires iir_known { K ≤ I }
        requires fir_few { length fir.now.coeffs.items ≤ M }
        requires iir_few { length iir.now.coeffs.items ≤ K }
        requires filters { AreFilters fir.now iir.now }
        requires step { step < 16 }
        requires room { length samples.now ≡ length residuals.old }
        ensures fit { IsTrue result
            ↔ All (FitsSigned w32) (residuals_of (filters_of fir.now iir.now) self.old step samples.now) }
        ensures values { IsTrue result →
            residuals.new ≡ residuals_of (filters_of fir.now iir.now) self.old step samples.now }
        ensures past { IsTrue result →
            self.new ≡ latest F I (past_of (filters_of fir.now iir.now) self.old samples.now) }
    {
        let fir_taps: [i32; M] = taps(fir.coeffs.as_slice(), fir.coeff_shift);
        let iir_taps: [i32; K] = taps(iir.coeffs.as_slice(), iir.coeff_shift);
        self.reduce_by(
            &fir_taps,
            &iir_taps,
            shift_of(fir, iir),
            step,
            samples,
            residuals,
        )
    }

    /// A block of residuals without an IIR, by sums of `M` products; false where some residual hasn't 32 signed bits.
    fn reduce_simply<const M: usize>(
        &mut self,
        fir: &Filter<F>,
        iir: &Filter<I>,
        step: u8,
        samples: &[i32],
        residuals: &mut [i32],
    ) -> bool
        requires any_difference { 0 < I }
        requires fir_room { F ≤ 16 }
        requires iir_room { I ≤ 16 }
        requires products { M ≤ 16 }
        requires few { length fir.now.coeffs.items ≤ M }
        requires none { length iir.now.coeffs.items ≡ 0 }
        requires filters { AreFilters fir.now iir.now }
        requires step { step < 16 }
        requires most { length samples.now ≤ 160 }
        requires room { length samples.now ≡ length residuals.old }
        ensures fit { IsTrue result
            ↔ All (FitsSigned w32) (residuals_of (filters_of fir.now iir.now) self.old step samples.now) }
        ensures values { IsTrue result →
            residuals.new ≡ residuals_of (filters_of fir.now iir.now) self.old step samples.now }
        ensures past { IsTrue result →
            self.new ≡ latest F I (past_of (filters_of fir.now iir.now) self.old samples.now) }
    {
        let fir_taps: [i32; M] = taps_back(fir.coeffs.as_slice(), fir.coeff_shift);
        let shift = shift_of(fir, iir);
        let mut outputs = [0; 176];
        let latest = self.outputs.as_slice();
        if !reduce_behind(
            &fir_taps,
            shift,
            step,
            latest,
            &mut outputs,
            samples,
            residuals,
        ) {
            return false;
        }
        let line = &outputs[..16 + samples.len()];
        put_differences(&fir_taps, shift, line, &mut self.differences);
        self.outputs.replace_all(line);
        true
    }

    /// As `reduce_through`, with sums of products that fit filters with an IIR.
    fn reduce_paired(
        &mut self,
        fir: &Filter<F>,
        iir: &Filter<I>,
        step: u8,
        samples: &[i32],
        residuals: &mut [i32],
    ) -> bool
        requires any_output { 0 < F }
        requires any_difference { 0 < I }
        requires fir_room { F ≤ 16 }
        requires iir_room { I ≤ 16 }
        requires filters { AreFilters fir.now iir.now }
        requires step { step < 16 }
        requires room { length samples.now ≡ length residuals.old }
        ensures fit { IsTrue result
            ↔ All (FitsSigned w32) (residuals_of (filters_of fir.now iir.now) self.old step samples.now) }
        ensures values { IsTrue result →
            residuals.new ≡ residuals_of (filters_of fir.now iir.now) self.old step samples.now }
        ensures past { IsTrue result →
            self.new ≡ latest F I (past_of (filters_of fir.now iir.now) self.old samples.now) }
    {
        let order = fir.coeffs.as_slice().len();
        let iir_order = iir.coeffs.as_slice().len();
        match (order, iir_order) {
            (0, 1) => return self.reduce_with::<0, 1>(fir, iir, step, samples, residuals),
            (1, 1) => return self.reduce_with::<1, 1>(fir, iir, step, samples, residuals),
            (2, 1) => return self.reduce_with::<2, 1>(fir, iir, step, samples, residuals),
            _ => {}
        }
        if F < 4 || I < 4 || order > 4 || iir_order > 4 {
            return self.reduce_with::<F, I>(fir, iir, step, samples, residuals);
        }
        if iir_order > 2 {
            return self.reduce_with::<4, 4>(fir, iir, step, samples, residuals);
        }
        self.reduce_with::<4, 2>(fir, iir, step, samples, residuals)
    }

    /// As `reduce_block`, but at `false` the histories aren't used again.
    fn reduce_through(
        &mut self,
        fir: &Filter<F>,
        iir: &Filter<I>,
        step: u8,
        samples: &[i32],
        residuals: &mut [i32],
    ) -> bool
        requires any_output { 0 < F }
        requires any_difference { 0 < I }
        requires fir_room { F ≤ 16 }
        requires iir_room { I ≤ 16 }
        requires filters { AreFilters fir.now iir.now }
        requires step { step < 16 }
        requires room { length samples.now ≡ length residuals.old }
        ensures fit { IsTrue result
            ↔ All (FitsSigned w32) (residuals_of (filters_of fir.now iir.now) self.old step samples.now) }
        ensures values { IsTrue result →
            residuals.new ≡ residuals_of (filters_of fir.now iir.now) self.old step samples.now }
        ensures past { IsTrue result →
            self.new ≡ latest F I (past_of (filters_of fir.now iir.now) self.old samples.now) }
    {
        let order = fir.coeffs.as_slice().len();
        if iir.coeffs.as_slice().len() > 0 {
            return self.reduce_paired(fir, iir, step, samples, residuals);
        }
        if samples.len() > 160 {
            return self.reduce_with::<F, 0>(fir, iir, step, samples, residuals);
        }
        match order {
            0 => self.reduce_simply::<0>(fir, iir, step, samples, residuals),
            1 => self.reduce_simply::<1>(fir, iir, step, samples, residuals),
            2 => self.reduce_simply::<2>(fir, iir, step, samples, residuals),
            3 => self.reduce_simply::<3>(fir, iir, step, samples, residuals),
            4 => self.reduce_simply::<4>(fir, iir, step, samples, residuals),
            5 => self.reduce_simply::<5>(fir, iir, step, samples, residuals),
            6 => self.reduce_simply::<6>(fir, iir, step, samples, residuals),
            7 => self.reduce_simply::<7>(fir, iir, step, samples, residuals),
            8 => self.reduce_simply::<8>(fir, iir, step, samples, residuals),
            _ => self.reduce_simply::<16>(fir, iir, step, samples, residuals),
        }
    }

    /// Puts the residuals that `reduce` gives for a block of samples one after another. Where one of them hasn't
    /// 32 signed bits, the answer is false, the histories stay, and nothing is said of `residuals`.
    pub fn reduce_block(
        &mut self,
        fir: &Filter<F>,
        iir: &Filter<I>,
        step: u8,
        samples: &[i32],
        residuals: &mut [i32],
    ) -> bool
        requires any_output { 0 < F }
        requires any_difference { 0 < I }
        requires fir_room { F ≤ 16 }
        requires iir_room { I ≤ 16 }
        requires filters { AreFilters fir.now iir.now }
        requires step { step < 16 }
        requires room { length samples.now ≡ length residuals.old }
        ensures fit { IsTrue result
            ↔ All (FitsSigned w32) (residuals_of (filters_of fir.now iir.now) self.old step samples.now) }
        ensures values { IsTrue result →
            residuals.new ≡ residuals_of (filters_of fir.now iir.now) self.old step samples.now }
        ensures past { IsTrue result →
            self.new ≡ latest F I (past_of (filters_of fir.now iir.now) self.old samples.now) }
        ensures stays { result ≡ false → self.new ≡ self.old }
    {
        let mut channel = self.copied();
        if !channel.reduce_through(fir, iir, step, samples, residuals) {
            return false;
        }
        *self = channel;
        true
    }

    /// The residuals of `reduce_block`, from histories that stay in any case.
    pub fn residuals(
        &self,
        fir: &Filter<F>,
        iir: &Filter<I>,
        step: u8,
        samples: &[i32],
        residuals: &mut [i32],
    ) -> bool
        requires any_output { 0 < F }
        requires any_difference { 0 < I }
        requires fir_room { F ≤ 16 }
        requires iir_room { I ≤ 16 }
        requires filters { AreFilters fir.now iir.now }
        requires step { step < 16 }
        requires room { length samples.now ≡ length residuals.old }
        ensures fit { IsTrue result
            ↔ All (FitsSigned w32) (residuals_of (filters_of fir.now iir.now) self.now step samples.now) }
        ensures values { IsTrue result →
            residuals.new ≡ residuals_of (filters_of fir.now iir.now) self.now step samples.now }
    {
        let mut channel = self.copied();
        channel.reduce_through(fir, iir, step, samples, residuals)
    }
}
