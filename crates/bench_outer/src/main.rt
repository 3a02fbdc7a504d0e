//! Reads the outer parts of access units without a major sync, or takes only their parity up to a directory's end, so many
//! times, and prints a sum of what it gives.
#![tactic(auto)]

ghost use Rattle.std.specs.Prelude.{◌≤◌, length};

use mlp_bits::nibble_parity;
use mlp_syntax::MajorSync;
use mlp_unit::{frame, read_outer};
use std::{env, io};

/// A silent first unit of TrueHD.
const FIRST: [u8; 58] = [
    0xD0, 0x1D, 0, 0, 0xF8, 0x72, 0x6F, 0xBA, 0, 0, 0x80, 1, 0xB7, 0x52, 0, 0, 0, 0, 0x97, 0x6F,
    0x10, 0, 0, 0, 0, 0, 0, 0, 0, 0, 0x64, 0x21, 0x20, 0x0C, 0xF1, 0xEA, 0x0E, 0x10, 1, 0x10, 0, 0,
    0, 0, 0, 0, 0, 0, 0, 3, 0x98, 0x8A, 4, 0, 0x80, 0x10, 0x38, 0xC5,
];

/// Units behind it: the check nibble makes each timing's parity fit.
fn units() -> [[u8; 18]; 16] {
    let mut units = [[
        0xC0, 9, 0, 0x28, 0x60, 6, 0, 0, 0, 0, 0, 0, 0, 0, 0, 0, 0, 0,
    ]; 16];
    for i in 0..16 {
        let timing = i as u8;
        units[i][2] = timing;
        units[i][0] = (12 ^ timing).wrapping_mul(16);
    }
    units
}

/// The parity of a unit whose directory ends at this byte. Nothing else is in this call.
#[inline(never)]
fn parity_of(unit: &[u8], end: usize) -> u8
    requires start { 4 ≤ end }
    requires end { end ≤ length unit.now }
{
    nibble_parity(&unit[..4], &unit[4..end])
}

/// Reads a unit.
fn read(unit: &[u8], first: &MajorSync) -> u32
    requires { first.now.substreams ≤ 4 }
{
    if frame(unit) != Ok(unit.len()) {
        return 0;
    }
    match read_outer(unit, Some(first)) {
        Ok(outer) => u32::from(outer.head.timing).wrapping_add(outer.body),
        Err(_) => 0,
    }
}

/// Takes the parity of a unit whose directory ends at this byte.
fn parity(unit: &[u8], end: usize) -> u32 {
    if frame(unit) != Ok(unit.len()) || end < 4 || end > unit.len() {
        return 0;
    }
    u32::from(parity_of(unit, end))
}

/// Reads the units in turn, so many in all.
fn read_all(first: &MajorSync, count: u32) -> u32
    requires { first.now.substreams ≤ 4 }
{
    let units = units();
    let mut sum: u32 = 0;
    for i in 0..count {
        sum = sum.wrapping_add(read(&units[i as usize % 16], first));
    }
    sum
}

/// Takes the parities of the units in turn, so many in all.
fn parity_of_all(end: usize, count: u32) -> u32 {
    let units = units();
    let mut sum: u32 = 0;
    for i in 0..count {
        sum = sum.wrapping_add(parity(&units[i as usize % 16], end));
    }
    sum
}

fn run(what: &str, end: usize, count: u32) -> u32 {
    if what == "parity" {
        return parity_of_all(end, count);
    }
    if frame(&FIRST) != Ok(58) {
        return 0;
    }
    let Ok(outer) = read_outer(&FIRST, None) else {
        return 0;
    };
    let Some(first) = &outer.major else {
        return 0;
    };
    if first.substreams > 4 {
        return 0;
    }
    read_all(first, count)
}

fn main(rt: HostRuntime) -> io::Result<()> {
    let words: Vec<String> = env::args(&rt)?.skip(1).collect(rt.alloc())?;
    if words.len() < 3 {
        println!(rt; "usage: read|parity END UNITS")?;
        return Ok(());
    }
    let end = words[1].parse::<usize>().unwrap_or(0);
    let count = words[2].parse::<u32>().unwrap_or(0);
    println!(rt; "{}", run(&words[0], end, count))?;
    Ok(())
}
