//! Unpacks or packs a block of 160 frames many times, and prints a sum of what that gives.
#![tactic(auto)]

ghost use Rattle.std.specs.Prelude.{◌≡◌, ◌⊎◌, ◌≤◌, ◌*◌, length};

use arrayvec::ArrayVec;
use mlp_pcm::{pack, unpack};
use mlp_syntax::Frames;
use std::{env, io};

/// Bytes of a generator.
fn noise() -> [u8; 3840] {
    let mut seed: u32 = 1;
    let mut bytes = [0; 3840];
    for i in 0..3840 {
        seed = seed.wrapping_mul(1664525).wrapping_add(1013904223);
        bytes[i] = (seed >> 24) as u8;
    }
    bytes
}

/// The bytes of 160 frames.
fn block(bytes: &[u8], width: u8, channels: u8) -> &[u8]
    requires bytes { length bytes.now ≡ 3840 }
    requires width { (width ≡ 2) ⊎ (width ≡ 3) }
    requires channels { (1 ≤ channels) × (channels ≤ 8) }
    ensures { length result.now ≡ 160 * (channels * width) }
{
    let size = channels as usize * width as usize;
    &bytes[..160 * size]
}

/// Unpacks a block so many times.
fn unpacked(width: u8, channels: u8, count: u32) -> i32
    requires width { (width ≡ 2) ⊎ (width ≡ 3) }
    requires channels { (1 ≤ channels) × (channels ≤ 8) }
{
    let bytes = noise();
    let block = block(&bytes, width, channels);
    let mut frames = Frames::default();
    let mut sum: i32 = 0;
    for _ in 0..count {
        if unpack(block, width, width * 8, channels, &mut frames).is_ok() {
            sum = sum.wrapping_add(last(&frames));
        }
    }
    sum
}

/// The first channel's latest sample.
fn last(frames: &Frames) -> i32 {
    let rows = frames.rows.as_slice();
    if rows.is_empty() {
        return 0;
    }
    rows[rows.len() - 1][0]
}

/// Packs a block so many times.
fn packed(width: u8, channels: u8, count: u32) -> i32
    requires width { (width ≡ 2) ⊎ (width ≡ 3) }
    requires channels { (1 ≤ channels) × (channels ≤ 8) }
{
    let bytes = noise();
    let mut frames = Frames::default();
    if unpack(
        block(&bytes, width, channels),
        width,
        width * 8,
        channels,
        &mut frames,
    )
    .is_err()
    {
        return 0;
    }
    let mut out = ArrayVec::new();
    let mut sum: i32 = 0;
    for _ in 0..count {
        if pack(&frames, width * 8, &mut out).is_ok() {
            let bytes = out.as_slice();
            sum = sum.wrapping_add(bytes.len() as i32);
            if !bytes.is_empty() {
                sum = sum.wrapping_add(i32::from(bytes[bytes.len() - 1]));
            }
        }
    }
    sum
}

fn run(kernel: &str, width: u8, channels: u8, count: u32) -> i32
    requires width { (width ≡ 2) ⊎ (width ≡ 3) }
    requires channels { (1 ≤ channels) × (channels ≤ 8) }
{
    if kernel == "pack" {
        return packed(width, channels, count);
    }
    unpacked(width, channels, count)
}

fn main(rt: HostRuntime) -> io::Result<()> {
    let words: Vec<String> = env::args(&rt)?.skip(1).collect(rt.alloc())?;
    if words.len() < 4 {
        println!(rt; "usage: KERNEL BITS CHANNELS BLOCKS")?;
        return Ok(());
    }
    let width = if words[1].as_str() == "16" { 2 } else { 3 };
    let channels = words[2].parse::<u8>().unwrap_or(0).clamp(1, 8);
    let count = words[3].parse::<u32>().unwrap_or(0);
    println!(rt; "{}", run(&words[0], width, channels, count))?;
    Ok(())
}
