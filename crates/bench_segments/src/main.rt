//! Writes a segment with a restart and one without, reads each so many times, and prints a sum of the latter's codes.
#![tactic(auto)]

ghost use Rattle.std.specs.Prelude.{◌≤◌, length, IfSome, OnOk};
ghost use Rattle.mlp_substream.specs.Blocks.{FitsPlace, IsPlace};

use mlp_bits::{BitWriter, Full, restart_check};
use mlp_books::{Book1, Book2, Book3, write_symbol};
use mlp_params::State;
use mlp_substream::{Known, Place, read_segment_into};
use mlp_syntax::{Broken, FrameCode, Kind, Segment};
use std::{env, io};

/// The header of a restart of channels from 0 on, up to its check. All but their numbers is 0.
fn put_header(channels: u32, w: &mut BitWriter) -> Result<(), Full> {
    let greatest = channels.saturating_sub(1).min(7);
    for (value, width) in [
        (0x31EA, 14),
        (0, 20),
        (greatest, 4),
        (greatest, 4),
        (0, 27),
        (0, 28),
        (0, 16),
    ] {
        w.put(value, width)?;
    }
    for channel in 0..=greatest {
        w.put(channel, 6)?;
    }
    Ok(())
}

/// The check of the header: it is written by itself for that, up to a whole byte.
fn check_of_header(channels: u32) -> Result<u32, Full> {
    let mut w = BitWriter::new();
    put_header(channels, &mut w)?;
    let count = w.place();
    w.put(0, (8 - count % 8) % 8)?;
    if w.place() % 8 != 0 {
        return Err(Full);
    }
    let bytes = w.bytes();
    if bytes.len() < (count as usize).div_ceil(8) {
        return Err(Full);
    }
    Ok(u32::from(restart_check(bytes, 0, count)))
}

/// The parameters: the block size, and of each channel the book and the number of low bits. The books come in turn.
fn put_parameters(channels: u32, low: u32, frames: u32, w: &mut BitWriter) -> Result<(), Full> {
    for (value, width) in [(0, 1), (1, 1), (frames.min(511), 9), (0, 3)] {
        w.put(value, width)?;
    }
    for channel in 0..channels {
        for (value, width) in [(1, 1), (0, 3), (channel % 3 + 1, 2), (low.min(31), 5)] {
            w.put(value, width)?;
        }
    }
    Ok(())
}

/// Writes a symbol near the middle of a book, and low bits, as a number gives them.
fn put_code(book: u32, low: u32, number: u32, w: &mut BitWriter) -> Result<(), Full> {
    let low = low.min(24);
    let near = 4 + number % 4 + number / 16 % 4;
    match book {
        1 => write_symbol::<Book1>(near, w)?,
        2 => write_symbol::<Book2>(near, w)?,
        _ => write_symbol::<Book3>(near, w)?,
    }
    w.put(number / 256 % (1 << low), low)
}

/// The frames of a block.
fn put_frames(channels: u32, low: u32, frames: u32, w: &mut BitWriter) -> Result<(), Full> {
    let mut seed: u32 = 1;
    for _ in 0..frames {
        for channel in 0..channels {
            seed = seed.wrapping_mul(1103515245).wrapping_add(12345);
            put_code(channel % 3 + 1, low, seed / 256, w)?;
        }
    }
    Ok(())
}

/// A restart and parameters where they are wanted, and one block behind them.
fn put_segment(
    restarts: bool,
    channels: u32,
    low: u32,
    frames: u32,
    w: &mut BitWriter,
) -> Result<(), Full> {
    if restarts {
        w.put(3, 2)?;
        put_header(channels, w)?;
        w.put(check_of_header(channels)? % 256, 8)?;
        put_parameters(channels, low, frames, w)?;
    } else {
        w.put(0, 1)?;
    }
    put_frames(channels, low, frames, w)?;
    w.put(1, 1)?;
    w.put(0, (16 - w.place() % 16) % 16)
}

/// A sum of the codes.
fn sum_of(frames: &[FrameCode]) -> u32 {
    let mut sum: u32 = 0;
    for frame in frames {
        for code in &frame.codes {
            sum = sum
                .wrapping_mul(31)
                .wrapping_add(u32::from(code.symbol) ^ code.low);
        }
    }
    sum
}

/// Reads a segment of a unit of so many frames so many times, behind what is in force.
fn read(
    place: &Place,
    state: &mut Option<State>,
    bytes: &[u8],
    times: u32,
    out: &mut Segment,
) -> Result<(), Broken>
    requires place { IsPlace place.now }
    requires state { IfSome state.old (λ s. FitsPlace place.now.format place.now.unit_frames s) }
    requires bytes { length bytes.now ≤ 8190 }
    ensures { OnOk result (IfSome state.new (λ s. FitsPlace place.now.format place.now.unit_frames s)) }
{
    let known = Known::default();
    for _ in 0..times {
        read_segment_into(place, &known, state, bytes, false, out)?;
    }
    Ok(())
}

/// Reads the one segment and the other, into one record.
fn read_both(
    unit_frames: u16,
    restart: &[u8],
    plain: &[u8],
    restarts: u32,
    times: u32,
) -> Result<u32, Broken>
    requires least { 8 ≤ unit_frames }
    requires most { unit_frames ≤ 160 }
    requires restart { length restart.now ≤ 8190 }
    requires plain { length plain.now ≤ 8190 }
{
    let mut place = Place {
        format: Kind::Fba,
        unit_frames,
        major: true,
    };
    let mut segment = Segment::default();
    let mut state = None;
    read(&place, &mut state, restart, restarts, &mut segment)?;
    place.major = false;
    read(&place, &mut state, plain, times, &mut segment)?;
    Ok(sum_of(&segment.codes))
}

/// The sum of the codes that are read, 0 where the segments can't be written or read.
fn run(channels: u32, low: u32, frames: u16, restarts: u32, times: u32) -> u32
    requires least { 8 ≤ frames }
    requires most { frames ≤ 160 }
{
    let mut restart = BitWriter::new();
    let mut plain = BitWriter::new();
    if put_segment(true, channels, low, u32::from(frames), &mut restart).is_err()
        || put_segment(false, channels, low, u32::from(frames), &mut plain).is_err()
    {
        return 0;
    }
    if restart.place() % 8 != 0 || plain.place() % 8 != 0 {
        return 0;
    }
    let restart = restart.bytes();
    let plain = plain.bytes();
    if restart.len() > 8190 || plain.len() > 8190 {
        return 0;
    }
    read_both(frames, restart, plain, restarts, times).unwrap_or(0)
}

fn main(rt: HostRuntime) -> io::Result<()> {
    let words: Vec<String> = env::args(&rt)?.skip(1).collect(rt.alloc())?;
    if words.len() < 5 {
        println!(rt; "usage: CHANNELS LOW-BITS FRAMES RESTARTS TIMES")?;
        return Ok(());
    }
    let channels = words[0].parse::<u32>().unwrap_or(0).min(8);
    let low = words[1].parse::<u32>().unwrap_or(0).min(24);
    let frames = words[2].parse::<u16>().unwrap_or(0).max(8).min(160);
    let restarts = words[3].parse::<u32>().unwrap_or(0).max(1);
    let times = words[4].parse::<u32>().unwrap_or(0);
    println!(rt; "{}", run(channels, low, frames, restarts, times))?;
    Ok(())
}
