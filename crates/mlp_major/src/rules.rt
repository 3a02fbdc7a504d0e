//! The rules on a major sync.
ghost use Rattle.std.specs.Option.{option_copied};
ghost use Rattle.std.specs.Prelude.{Some, None, ◌≡◌, ◌≤◌, IsTrue, MatchResult, OnOk, IfErr};
ghost use Rattle.mlp_layout.specs.Combined.{first_fault};
ghost use Rattle.mlp_major.specs.MajorSync.{is_rate, rate_of, most_substreams, is_unchanged, format_rules, rules, is_same_kind, IsUsable};

use mlp_layout::broken;
use mlp_syntax::{Broken, Field, FormatInfo, MajorSync};

fn is_rate(code: u8) -> bool
    ensures { result ≡ is_rate code }
{
    code != 15 && code % 8 <= 2
}

/// The rate code, that of the first group in MLP.
pub fn rate_of(format: &FormatInfo) -> u8
    ensures { result ≡ rate_of format.now }
{
    match format {
        FormatInfo::Fbb(f) => f.rate1,
        FormatInfo::Fba(f) => f.rate,
    }
}

fn most_substreams(format: &FormatInfo) -> u8
    ensures { result ≡ most_substreams format.now }
{
    match format {
        FormatInfo::Fbb(_) => 2,
        FormatInfo::Fba(_) => 4,
    }
}

fn is_unchanged(first: Option<&MajorSync>, major: &MajorSync) -> bool
    ensures { result ≡ is_unchanged (option_copied first.entry) major.now }
{
    match first {
        None => true,
        Some(first) => {
            rate_of(&major.format) == rate_of(&first.format) && major.substreams == first.substreams
        }
    }
}

/// The rules on the format info, in their order. Bits are counted from the sync's first.
fn check_format(format: &FormatInfo) -> Result<(), Broken>
    ensures rules { MatchResult result (λ x. first_fault format_rules format.now ≡ None)
        (λ e. first_fault format_rules format.now ≡ Some (e.field, e.bit)) }
    ensures near { IfErr result (λ e. e.bit ≤ 128) }
    ensures rate { OnOk result (IsTrue (is_rate (rate_of format.now))) }
{
    match format {
        FormatInfo::Fba(f) => {
            if !is_rate(f.rate) {
                return Err(broken(Field::Rate, 32));
            }
        }
        FormatInfo::Fbb(f) => {
            if !is_rate(f.rate1) {
                return Err(broken(Field::Rate, 40));
            }
            if f.quant1 > 2 {
                return Err(broken(Field::Quant, 32));
            }
            if f.rate2 != 15 && f.rate2 != f.rate1 {
                return Err(broken(Field::GroupRate, 44));
            }
        }
    }
    Ok(())
}

/// The rules on all fields but the signature, in their order. Bits are counted from the sync's first.
pub fn check_rules(first: Option<&MajorSync>, major: &MajorSync) -> Result<(), Broken>
    ensures rules { MatchResult result (λ x. first_fault (rules (option_copied first.entry)) major.now ≡ None)
        (λ e. first_fault (rules (option_copied first.entry)) major.now ≡ Some (e.field, e.bit)) }
    ensures near { IfErr result (λ e. e.bit ≤ 128) }
    ensures usable { OnOk result (IsUsable major.now) }
{
    check_format(&major.format)?;
    if major.substreams == 0 || major.substreams > most_substreams(&major.format) {
        return Err(broken(Field::Substreams, 128));
    }
    if !is_unchanged(first, major) {
        return Err(broken(Field::SyncChanged, 0));
    }
    Ok(())
}

/// Whether this first word is that of the stream's first sync.
pub fn is_same_kind(first: Option<&MajorSync>, word: u32) -> bool
    ensures { result ≡ is_same_kind (option_copied first.entry) word }
{
    match first {
        None => true,
        Some(first) => match first.format {
            FormatInfo::Fbb(_) => word == 0xF8726FBB,
            FormatInfo::Fba(_) => word == 0xF8726FBA,
        },
    }
}
