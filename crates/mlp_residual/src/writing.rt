//! Writing the frames of a block.
//!
//! Each call appends the text of its value, and answers `Full` exactly where the bits would pass 65,520; then the
//! writer has its old bits and perhaps a part of the new ones, and isn't used again.
ghost use Rattle.std.specs.Prelude.{◌≡◌, ◌≤◌, ◌<◌, ◌^◌, [], All, IsTrue, length, false};
ghost use Rattle.mlp_layout.specs.Layout.{Layout, made, part, number_of};
ghost use Rattle.mlp_layout.specs.Combined.{flag, chosen, series};
ghost use Rattle.mlp_layout.specs.Writing.{Writes};
ghost use Rattle.mlp_books.specs.Books.{symbol_in};
ghost use Rattle.mlp_params.specs.States.{IsState};
ghost use Rattle.mlp_residual.specs.Frames.{bypass_bits, code, codes_in, frame, coded_frames, frames_of, steps_fit, IsCoded};

use crate::frames::{ChannelCode, Coding};
use crate::in_force::coding_in_force;
use mlp_bits::{BitWriter, Full};
use mlp_books::put_code_in;
use mlp_layout::{put_all, put_flag};
use mlp_params::State;
use mlp_syntax::{Code, FrameCode};

/// A bit where there is one.
#[tactic(auto, unfolding(mlp_layout::specs::Layout::made, mlp_layout::specs::Combined::chosen))]
fn put_bit_if(there: bool, bit: bool, w: &mut BitWriter) -> Result<(), Full>
    ensures { Writes w.old w.new result ((chosen there flag (made false)).spelling bit) }
{
    if there {
        put_flag(bit, w)
    } else {
        put_all(&[], w)
    }
}

/// The bypass bits of the matrices that have one.
fn put_bypass(rows: &[bool], bypass: u8, w: &mut BitWriter) -> Result<(), Full>
    requires { length rows.now ≤ 8 }
    ensures { Writes w.old w.new result ((bypass_bits rows.now).spelling bypass) }
{
    let _place = w.place();
    for i in 0..rows.len() {
        put_bit_if(rows[i], (bypass >> i) & 1 == 1, w)?;
    }
    Ok(())
}

/// The code of a channel.
fn put_code(channel: ChannelCode, value: Code, w: &mut BitWriter) -> Result<(), Full>
    requires coded { IsCoded channel }
    requires fits { (code channel).Fits value }
    ensures { Writes w.old w.new result ((code channel).spelling value) }
{
    put_code_in(
        channel.book,
        value.symbol,
        value.low,
        u32::from(channel.low),
        w,
    )
}

/// The codes of the channels.
fn put_codes(channels: &[ChannelCode], codes: &[Code], w: &mut BitWriter) -> Result<(), Full>
    requires coded { All IsCoded channels.now }
    requires same { length codes.now ≡ length channels.now }
    requires fits { (codes_in channels.now).Fits codes.now }
    ensures { Writes w.old w.new result ((codes_in channels.now).spelling codes.now) }
{
    let _place = w.place();
    for i in 0..channels.len() {
        put_code(channels[i], codes[i], w)?;
    }
    Ok(())
}

/// One frame.
fn put_frame(coding: &Coding, value: &FrameCode, w: &mut BitWriter) -> Result<(), Full>
    requires coded { All IsCoded coding.now.channels.items }
    requires fits { (frame coding.now).Fits value.now }
    ensures { Writes w.old w.new result ((frame coding.now).spelling value.now) }
{
    put_bypass(&coding.bypass, value.bypass, w)?;
    put_codes(&coding.channels, &value.codes, w)
}

/// Writes frames that fit their coding.
///
/// # Errors
///
/// `Full` exactly where the bits would pass 65,520.
pub fn write_coded(coding: &Coding, frames: &[FrameCode], w: &mut BitWriter) -> Result<(), Full>
    requires coded { All IsCoded coding.now.channels.items }
    requires fits { (coded_frames coding.now (length frames.now)).Fits frames.now }
    ensures { Writes w.old w.new result ((coded_frames coding.now (length frames.now)).spelling frames.now) }
{
    let _place = w.place();
    for i in 0..frames.len() {
        put_frame(coding, &frames[i], w)?;
    }
    Ok(())
}

/// Writes frames by the parameters in force, which they fit.
///
/// # Errors
///
/// `Full` exactly where the bits would pass 65,520.
#[tactic(auto, unfolding(crate::specs::Frames::frames_of))]
pub fn write_frames(state: &State, frames: &[FrameCode], w: &mut BitWriter) -> Result<(), Full>
    requires state { IsState state.now }
    requires low { IsTrue (steps_fit state.now) }
    requires fits { (frames_of state.now (length frames.now)).Fits frames.now }
    ensures { Writes w.old w.new result ((frames_of state.now (length frames.now)).spelling frames.now) }
{
    let coding = coding_in_force(state);
    write_coded(&coding, frames, w)
}
