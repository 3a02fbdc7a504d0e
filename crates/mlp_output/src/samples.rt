//! The samples of frames, at their places.
ghost use Rattle.std.specs.Prelude.{◌≡◌, ◌<◌, ◌≤◌, length, All, map, take, replicate, true, bit_xor};
ghost use Rattle.mlp_output.specs.Output.{samples_of, placed, check_from, check_of};
ghost use Rattle.mlp_output.specs.Frames.{check_of_sums};

use mlp_arith::sample24;

/// Puts the samples of one frame at their places, and adds each to the sum of its channel.
#[inline(always)]
fn put_frame(
    shifts: &[u8],
    assign: &[u8],
    frame: &[i32; 10],
    row: &mut [i32; 8],
    sums: &mut [u32; 8],
)
    requires shifts { All (λ shift. shift ≤ 7) shifts.now }
    requires places { All (λ a. a ≤ 7) assign.now }
    requires same { length assign.now ≡ length shifts.now }
    requires few { length shifts.now ≤ 8 }
    ensures row { row.new ≡ placed assign.now (samples_of shifts.now frame.now) }
    ensures check { check_of_sums 0 sums.new
        ≡ bit_xor (check_of_sums 0 sums.old) (check_from 0 (samples_of shifts.now frame.now)) }
{
    *row = [0; 8];
    for c in (0..shifts.len()).rev() {
        let sample = sample24(frame[c], shifts[c]);
        row[usize::from(assign[c])] = sample;
        sums[c] ^= sample.cast_unsigned();
    }
}

/// The check of what was summed in each channel.
#[inline(always)]
fn check_of_sums(sums: &[u32; 8]) -> u32
    ensures { result ≡ check_of_sums 0 sums.now }
{
    let mut check = 0;
    for c in (0..8).rev() {
        check ^= (sums[c] & 0xff_ffff) << c;
    }
    check
}

/// Puts the samples of many frames at their places, and adds them to the check. Sums of whole words are cut to 24 bits
/// once, behind the last frame.
#[inline(always)]
fn put_all(
    shifts: &[u8],
    assign: &[u8],
    frames: &[[i32; 10]],
    rows: &mut [[i32; 8]],
    check: &mut u32,
)
    requires shifts { All (λ shift. shift ≤ 7) shifts.now }
    requires places { All (λ a. a ≤ 7) assign.now }
    requires same { length assign.now ≡ length shifts.now }
    requires few { length shifts.now ≤ 8 }
    requires room { length rows.old ≡ length frames.now }
    ensures rows { rows.new ≡ map (placed assign.now) (map (samples_of shifts.now) frames.now) }
    ensures check { check.new ≡ check_of check.old (map (samples_of shifts.now) frames.now) }
{
    let mut sums = [0; 8];
    for i in 0..frames.len() {
        put_frame(shifts, assign, &frames[i], &mut rows[i], &mut sums);
    }
    *check ^= check_of_sums(&sums);
}

/// The output channels in order.
const IN_ORDER: [u8; 8] = [0, 1, 2, 3, 4, 5, 6, 7];

/// Whether no sample of `C` channels is shifted, and each stands at the output channel of its own number.
fn are_plain<const C: usize>(shifts: &[u8], assign: &[u8]) -> bool
    requires { C ≤ 8 }
    ensures shifts { result ≡ true → shifts.now ≡ replicate C 0 }
    ensures assign { result ≡ true → assign.now ≡ take C IN_ORDER }
{
    let unshifted = [0; C];
    shifts == unshifted.as_slice() && assign == &IN_ORDER[..C]
}

/// The same as `put_all`, of `C` channels.
fn put_each<const C: usize>(
    shifts: &[u8],
    assign: &[u8],
    frames: &[[i32; 10]],
    rows: &mut [[i32; 8]],
    check: &mut u32,
)
    requires shifts { All (λ shift. shift ≤ 7) shifts.now }
    requires places { All (λ a. a ≤ 7) assign.now }
    requires count { length shifts.now ≡ C }
    requires same { length assign.now ≡ C }
    requires few { C ≤ 8 }
    requires room { length rows.old ≡ length frames.now }
    ensures rows { rows.new ≡ map (placed assign.now) (map (samples_of shifts.now) frames.now) }
    ensures check { check.new ≡ check_of check.old (map (samples_of shifts.now) frames.now) }
{
    // Copies that nothing else writes stay in registers.
    let mut own_shifts = [0; C];
    if are_plain::<C>(shifts, assign) {
        put_all(&own_shifts, &IN_ORDER[..C], frames, rows, check);
        return;
    }
    own_shifts.copy_from_slice(&shifts[..C]);
    let mut own_assign = [0; C];
    own_assign.copy_from_slice(&assign[..C]);
    put_all(&own_shifts, &own_assign, frames, rows, check);
}

/// Puts the samples of each frame at their places, and adds them to the check. The usual numbers of channels have loops
/// of their own.
pub fn put_samples(
    shifts: &[u8],
    assign: &[u8],
    frames: &[[i32; 10]],
    rows: &mut [[i32; 8]],
    check: &mut u32,
)
    requires shifts { All (λ shift. shift ≤ 7) shifts.now }
    requires places { All (λ a. a ≤ 7) assign.now }
    requires same { length assign.now ≡ length shifts.now }
    requires few { length shifts.now ≤ 8 }
    requires room { length rows.old ≡ length frames.now }
    ensures rows { rows.new ≡ map (placed assign.now) (map (samples_of shifts.now) frames.now) }
    ensures check { check.new ≡ check_of check.old (map (samples_of shifts.now) frames.now) }
{
    match shifts.len() {
        2 => put_each::<2>(shifts, assign, frames, rows, check),
        6 => put_each::<6>(shifts, assign, frames, rows, check),
        8 => put_each::<8>(shifts, assign, frames, rows, check),
        _ => put_all(shifts, assign, frames, rows, check),
    }
}
