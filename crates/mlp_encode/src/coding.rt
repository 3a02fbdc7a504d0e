//! What is sent of a channel in a block.
ghost use Rattle.std.specs.Prelude.{◌≡◌, ◌≤◌, ◌<◌, ◌-◌, ℕ, All, length, map, false};
ghost use Rattle.arrayvec.specs.ArrayVec.{array_vec_len};
ghost use Rattle.mlp_arith.specs.Words.{clear};
ghost use Rattle.mlp_arith.specs.Ranges.{Is26};
ghost use Rattle.mlp_params.specs.Filters.{order_of};
ghost use Rattle.mlp_params.specs.States.{IsChannelState};
ghost use Rattle.mlp_fold.specs.Mix.{at};
ghost use Rattle.mlp_encode.specs.Coding.{column, code_by, channel_sent};
ghost use Rattle.mlp_encode.specs.Pushed.{with_code, with_codes};

use mlp_fold::CodedFrame;
use mlp_params::ChannelState;
use mlp_predict::Predictor;
use mlp_residual::code_of;
use mlp_search::{Choice, choose, reduced};
use mlp_syntax::{ChannelParams, Code, FrameCode};

/// The value of a channel in a frame.
fn value_at(channel: usize, frame: &CodedFrame) -> i32
    requires { channel < 8 }
    ensures { result ≡ at frame.now.values channel }
{
    frame.values[channel]
}

/// The samples of a channel.
pub(crate) fn column(channel: usize, frames: &[CodedFrame], out: &mut [i32])
    requires channel { channel < 8 }
    requires room { length out.old ≡ length frames.now }
    ensures { out.new ≡ column channel frames.now }
{
    for i in 0..frames.len() {
        out[i] = value_at(channel, &frames[i]);
    }
}

/// The code of a residual. Where there is none it is 0.
fn code_by(book: u8, b: u8, offset: i16, step: u8, residual: i32) -> Code
    requires book { book ≤ 3 }
    requires b { b < 32 }
    requires step { step < 16 }
    ensures { result ≡ code_by book b offset step residual }
{
    code_of(book, b, offset, step, residual).unwrap_or(Code { symbol: 0, low: 0 })
}

/// Puts a code behind those of a frame.
fn push_code(code: Code, frame: &mut FrameCode)
    requires { array_vec_len frame.old.codes < 8 }
    ensures { frame.new ≡ with_code code frame.old }
{
    frame.codes.push(code);
}

/// Puts the code of a residual in a book behind those of a frame.
#[inline]
fn push_residual(book: u8, choice: &Choice, step: u8, residual: &i32, frame: &mut FrameCode)
    requires book { book ≤ 3 }
    requires low { choice.now.low < 32 }
    requires step { step < 16 }
    requires room { array_vec_len frame.old.codes < 8 }
    ensures { let b = choice.now.low - step in
        frame.new ≡ with_code (code_by book b choice.now.offset step residual.now) frame.old }
{
    let b = choice.low.saturating_sub(step);
    push_code(code_by(book, b, choice.offset, step, *residual), frame);
}

/// Puts the codes of residuals in a book behind those of the frames.
#[inline(always)]
fn push_residuals(book: u8, choice: &Choice, step: u8, residuals: &[i32], frames: &mut [FrameCode])
    requires book { book ≤ 3 }
    requires low { choice.now.low < 32 }
    requires step { step < 16 }
    requires count { length residuals.now ≡ length frames.old }
    requires room { All (λ f. array_vec_len f.codes < 8) frames.old }
    ensures { let b = choice.now.low - step in
        frames.new ≡ with_codes (map (code_by book b choice.now.offset step) residuals.now) frames.old }
{
    for i in 0..frames.len() {
        push_residual(book, choice, step, &residuals[i], &mut frames[i]);
    }
}

/// The same, with a loop of its own for each book that has symbols.
fn push_codes(book: u8, choice: &Choice, step: u8, residuals: &[i32], frames: &mut [FrameCode])
    requires book { book ≤ 3 }
    requires low { choice.now.low < 32 }
    requires step { step < 16 }
    requires count { length residuals.now ≡ length frames.old }
    requires room { All (λ f. array_vec_len f.codes < 8) frames.old }
    ensures { let b = choice.now.low - step in
        frames.new ≡ with_codes (map (code_by book b choice.now.offset step) residuals.now) frames.old }
{
    if book == 1 {
        push_residuals(1, choice, step, residuals, frames);
        return;
    }
    if book == 2 {
        push_residuals(2, choice, step, residuals, frames);
        return;
    }
    if book == 3 {
        push_residuals(3, choice, step, residuals, frames);
        return;
    }
    push_residuals(book, choice, step, residuals, frames);
}

/// What is sent of a channel in a block: its parameters, and its codes, which are put behind those of the frames. The
/// residuals stand in a buffer of `N` values.
pub(crate) fn send_channel<const N: usize>(
    force: &ChannelState,
    step: u8,
    filters: bool,
    samples: &[i32],
    past: &mut Predictor<8, 4>,
    frames: &mut [FrameCode],
) -> Option<ChannelParams>
    requires force { IsChannelState force.now }
    requires step { step ≤ 8 }
    requires few { length samples.now ≤ N }
    requires most { N ≤ 160 }
    requires samples { All Is26 samples.now }
    requires whole { All (λ x. clear step x ≡ x) samples.now }
    requires fir { filters ≡ false → order_of force.now.fir ≡ 0 }
    requires iir { filters ≡ false → order_of force.now.iir ≡ 0 }
    requires count { length samples.now ≡ length frames.old }
    requires room { All (λ f. array_vec_len f.codes < 8) frames.old }
    ensures given { let sent = channel_sent force.now past.old step filters samples.now in
        result ≡ sent.given }
    ensures codes { let sent = channel_sent force.now past.old step filters samples.now in
        frames.new ≡ with_codes sent.codes frames.old }
    ensures past { let sent = channel_sent force.now past.old step filters samples.now in
        past.new ≡ sent.past }
{
    let mut line = [0; N];
    let residuals = &mut line[..samples.len()];
    let choice = choose(force, past, step, filters, samples);
    let given = reduced(force, past, step, &choice, samples, residuals);
    push_codes(choice.book, &choice, step, residuals, frames);
    given
}
