//! Reading the restart header. Source: the MLP substream syntax as publicly documented.
ghost use Rattle.std.specs.Prelude.{◌≡◌, ◌==◌, ◌+◌, ◌≤◌, ◌<◌, [], Ok, IfOk};
ghost use Rattle.std.specs.List.{list_any};
ghost use Rattle.mlp_layout.specs.Combined.{series};
ghost use Rattle.mlp_layout.specs.Reading.{Gives};
ghost use Rattle.mlp_layout.specs.Allowed.{Allowed};
ghost use Rattle.mlp_params.specs.RestartHeader.{restart, restart_fields, assigned, channel_limit, noise_limit};

use arrayvec::ArrayVec;
use mlp_bits::BitReader;
use mlp_layout::{broken, byte, flag, number, word};
use mlp_syntax::{Broken, Field, Kind, Restart};

fn channel_limit(kind: Kind) -> u8
    ensures value { result ≡ channel_limit kind }
    ensures most { result ≤ 7 }
{
    match kind {
        Kind::Fbb => 5,
        Kind::Fba => 7,
    }
}

fn noise_limit(kind: Kind) -> u8
    ensures { result ≡ noise_limit kind }
{
    match kind {
        Kind::Fbb => 0,
        Kind::Fba => 1,
    }
}

fn is_given(before: &[u8], channel: u8) -> bool
    ensures { result ≡ list_any (λ b. b == channel) before.now }
{
    before.iter().any(|b| *b == channel)
}

#[tactic(auto, unfolding(mlp_layout::specs::Layout::ruled))]
fn read_channel(max_matrix: u8, before: &[u8], r: &mut BitReader) -> Result<u8, Broken>
    ensures { Gives (λ x. x) r.old r.new result ((assigned max_matrix before.now).read r.old.all r.old.place) }
{
    let at = r.place();
    let channel = byte(6, r)?;
    if channel > max_matrix || is_given(before, channel) {
        return Err(broken(Field::ChannelAssign, at));
    }
    Ok(channel)
}

fn read_assigned(max_matrix: u8, r: &mut BitReader) -> Result<ArrayVec<u8, 8>, Broken>
    requires { max_matrix ≤ 7 }
    ensures { Gives (λ v. v.items) r.old r.new result
        ((series (assigned max_matrix) (max_matrix + 1) []).read r.old.all r.old.place) }
{
    let mut assign: ArrayVec<u8, 8> = ArrayVec::new();
    for _ in 0..max_matrix + 1 {
        let channel = read_channel(max_matrix, &assign, r)?;
        assign.push(channel);
    }
    Ok(assign)
}

#[tactic(auto, unfolding(mlp_layout::specs::Layout::part, mlp_layout::specs::Layout::ruled, mlp_layout::specs::Layout::made, mlp_layout::specs::Combined::fixed, crate::specs::RestartHeader::restart_fields))]
fn read_fields(format: Kind, r: &mut BitReader) -> Result<Restart, Broken>
    ensures { Gives (λ x. x) r.old r.new result ((restart_fields format).read r.old.all r.old.place) }
{
    let at = r.place();
    let sync = word(13, r)?;
    if sync != 0x18F5 {
        return Err(broken(Field::RestartWord, at));
    }
    let at = r.place();
    let kind = byte(1, r)?;
    if kind > noise_limit(format) {
        return Err(broken(Field::RestartKind, at));
    }
    let output_timing = word(16, r)?;
    let min = byte(4, r)?;
    let at = r.place();
    let max = byte(4, r)?;
    if min > max || max > channel_limit(format) {
        return Err(broken(Field::ChannelRange, at));
    }
    let at = r.place();
    let max_matrix = byte(4, r)?;
    if max_matrix != max {
        return Err(broken(Field::MatrixChannel, at));
    }
    let noise_shift = byte(4, r)?;
    let seed = number(23, r)?;
    let carried_a = number(19, r)?;
    let at = r.place();
    let data_check = flag(r)?;
    if data_check {
        return Err(broken(Field::DataCheck, at));
    }
    let lossless = byte(8, r)?;
    let carried_b = word(16, r)?;
    let assign = read_assigned(max_matrix, r)?;
    Ok(Restart {
        kind,
        output_timing,
        min,
        max,
        max_matrix,
        noise_shift,
        seed,
        carried_a,
        data_check,
        lossless,
        carried_b,
        assign,
    })
}

/// Reads a restart header.
///
/// # Errors
///
/// The first rule that fails in the order of its fields, from `RestartWord` up to `RestartCheck`, or `SegmentShort` at
/// the first field whose bits aren't all there; places are bits from the reader's first.
pub fn read_restart(kind: Kind, r: &mut BitReader) -> Result<Restart, Broken>
    ensures allowed { IfOk result (λ h. Allowed (restart kind) h) }
    ensures read { Gives (λ x. x) r.old r.new result ((restart kind).read r.old.all r.old.place) }
{
    let first = r.place();
    let header = read_fields(kind, r)?;
    let at = r.place();
    let sum = r.restart_check_since(first);
    let check = byte(8, r)?;
    if check != sum {
        return Err(broken(Field::RestartCheck, at));
    }
    Ok(header)
}
