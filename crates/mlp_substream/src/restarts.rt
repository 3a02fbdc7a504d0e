//! Reading the flags and the restart with which a block begins.
//! Source: the MLP substream syntax as publicly documented.
ghost use Rattle.std.specs.Prelude.{◌≡◌, ◌+◌, ◌≤◌, ◌<◌, ◌||◌, ◌&&◌, nat_le, IfOk, IfSome};
ghost use Rattle.mlp_bits.specs.Bits.{bit};
ghost use Rattle.mlp_layout.specs.Reading.{Gives};
ghost use Rattle.mlp_layout.specs.Combined.{first_fault};
ghost use Rattle.mlp_layout.specs.Allowed.{Allowed};
ghost use Rattle.mlp_params.specs.RestartHeader.{restart};
ghost use Rattle.mlp_substream.specs.Restarts.{flags, agrees, all_covered, covers, restart_rules, judged_restart};

use crate::known::Known;
use mlp_bits::BitReader;
use mlp_layout::{broken, flag};
use mlp_params::read_restart;
use mlp_syntax::{Broken, Field, Kind, Restart};

/// The parameter flag and the restart flag of a block.
#[tactic(auto, unfolding(mlp_layout::specs::Layout::part, mlp_layout::specs::Layout::ruled, mlp_layout::specs::Layout::made, mlp_layout::specs::Combined::chosen, mlp_layout::specs::Combined::under, crate::specs::Restarts::flags))]
pub fn read_flags(due: bool, r: &mut BitReader) -> Result<(bool, bool), Broken>
    ensures read { Gives (λ f. f) r.old r.new result ((flags due).read r.old.all r.old.place) }
    ensures due { IfOk result (λ f. f.1 ≡ due) }
{
    let at = r.place();
    let given = flag(r)?;
    if !given {
        if due {
            return Err(broken(Field::RestartMissing, at));
        }
        return Ok((false, false));
    }
    let restarts = flag(r)?;
    if due && !restarts {
        return Err(broken(Field::RestartMissing, at));
    }
    if restarts && !due {
        return Err(broken(Field::RestartPlace, at + 1));
    }
    Ok((true, restarts))
}

fn agrees(known: Option<u8>, n: u8) -> bool
    ensures { result ≡ agrees known n }
{
    match known {
        None => true,
        Some(m) => n == m,
    }
}

fn is_covered(covered: u8, min: u8, max: u8, channel: u8) -> bool
    requires { channel < 8 }
    ensures { result ≡ (bit covered channel || (nat_le min channel && nat_le channel max)) }
{
    (covered >> channel) % 2 == 1 || min <= channel && channel <= max
}

/// Whether each channel below the count is covered.
#[tactic(auto, using(crate::proofs::RestartReading::covered_fails), unfolding(crate::specs::Restarts::all_covered))]
fn all_covered(covered: u8, min: u8, max: u8, count: u8) -> bool
    requires { count ≤ 8 }
    ensures { result ≡ all_covered covered min max count }
{
    for channel in 0..count {
        if !is_covered(covered, min, max, channel) {
            return false;
        }
    }
    true
}

fn covers(known: Option<u8>, header: &Restart) -> bool
    requires { header.now.max_matrix ≤ 7 }
    ensures { result ≡ covers known header.now }
{
    match known {
        None => true,
        Some(covered) => all_covered(covered, header.min, header.max, header.max_matrix + 1),
    }
}

/// The first rule on a restart header that fails by what is known from elsewhere, and its bit in the header.
fn restart_fault(known: &Known, header: &Restart) -> Option<(Field, u32)>
    requires { header.now.max_matrix ≤ 7 }
    ensures value { result ≡ first_fault (restart_rules known.now) header.now }
    ensures near { IfSome result (λ f. f.1 ≤ 89) }
{
    if !agrees(known.max_matrix, header.max_matrix) {
        return Some((Field::ChannelsChanged, 38));
    }
    if !covers(known.covered, header) {
        return Some((Field::Uncovered, 38));
    }
    if !agrees(known.lossless, header.lossless) {
        return Some((Field::LosslessCheck, 89));
    }
    None
}

/// A restart header, with the rules on it that other segments and other units decide.
pub fn read_judged(known: &Known, format: Kind, r: &mut BitReader) -> Result<Restart, Broken>
    ensures read { Gives (λ x. x) r.old r.new result ((judged_restart known.now format).read r.old.all r.old.place) }
    ensures allowed { IfOk result (λ h. Allowed (restart format) h) }
{
    let first = r.place();
    let header = read_restart(format, r)?;
    match restart_fault(known, &header) {
        None => Ok(header),
        Some((field, behind)) => Err(broken(field, first + behind)),
    }
}
