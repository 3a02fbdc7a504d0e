//! The words of the command line.
ghost use Rattle.std.specs.Prelude.{◌≡◌, ◌≤◌, ◌⊎◌, map, string_bytes, length, IfSome};
ghost use Rattle.std.specs.Option.{option_map};
ghost use Rattle.mlp_io.specs.Limit.{limit};
ghost use Rattle.mlp_tool.specs.Words.{verb_of, word_of, options_of, option_of, value_of, are_options, presentation_given, bits_given, number_given, kind_given, mix_given, profile_given, units_given, seed_given, command_of, with_options, plain, IsKnown};

use crate::numbers::number_of;
use crate::values::{
    bits_of, channels_of, depth_of, kind_of, mix_of, presentation_of, rate_of, seed_of, units_of,
};
use mlp_fold::{Mix, Profile};
use mlp_syntax::Kind;

/// The command's name.
#[derive(Clone, Copy, Debug, PartialEq, Eq)]
pub enum Verb {
    DecodeRaw,
    DecodeWav,
    Extract,
    List,
    Check,
    Cut,
    Recover,
    Retime,
    EncodeRaw,
    EncodeWav,
    Gen,
}

/// An option's name.
#[derive(Clone, Copy, Debug, PartialEq, Eq)]
pub enum Name {
    Presentation,
    Bits,
    First,
    Count,
    Format,
    Rate,
    Channels,
    Mix,
    Units,
    Seed,
}

/// A command and its options.
#[derive(Clone, Copy, Debug, PartialEq, Eq)]
pub enum Command {
    /// Write the samples of a presentation, in 16 or 24 bits each.
    DecodeRaw {
        presentation: u8,
        bits: u8,
    },
    /// Write them as a WAVE file.
    DecodeWav {
        presentation: u8,
        bits: u8,
    },
    /// Write the stream of a presentation.
    Extract {
        presentation: u8,
    },
    /// Write a line for each access unit.
    List,
    /// Decode a presentation, and write what the stream is.
    Check {
        presentation: u8,
    },
    /// Write `count` access units from the one of number `first` on, byte for byte.
    Cut {
        first: u64,
        count: u64,
    },
    /// Write the samples of a presentation in those restart intervals that are intact.
    Recover {
        presentation: u8,
    },
    /// Write the stream with the timings of the earliest schedule.
    Retime,
    /// Write the stream of raw PCM of a profile.
    EncodeRaw {
        profile: Profile,
    },
    /// Write the stream of a WAVE file's PCM.
    EncodeWav {
        kind: Kind,
        mix: Mix,
    },
    /// Make `units` access units of a profile by a seed, and write what came of them.
    Gen {
        profile: Profile,
        units: u64,
        seed: u32,
    },
}

fn verb_of(word: &str) -> Option<Verb>
    ensures { result ≡ verb_of word.now }
{
    match word {
        "decode-raw" => Some(Verb::DecodeRaw),
        "decode-wav" => Some(Verb::DecodeWav),
        "extract" => Some(Verb::Extract),
        "list" => Some(Verb::List),
        "check" => Some(Verb::Check),
        "cut" => Some(Verb::Cut),
        "recover" => Some(Verb::Recover),
        "retime" => Some(Verb::Retime),
        "encode-raw" => Some(Verb::EncodeRaw),
        "encode-wav" => Some(Verb::EncodeWav),
        "gen" => Some(Verb::Gen),
        _ => None,
    }
}

fn word_of(name: Name) -> &'static str
    ensures { result.now ≡ word_of name }
{
    match name {
        Name::Presentation => "--presentation",
        Name::Bits => "--bits",
        Name::First => "--first",
        Name::Count => "--count",
        Name::Format => "--format",
        Name::Rate => "--rate",
        Name::Channels => "--channels",
        Name::Mix => "--mix",
        Name::Units => "--units",
        Name::Seed => "--seed",
    }
}

/// The options of a command.
fn options_of(verb: Verb) -> &'static [Name]
    ensures { result.now ≡ options_of verb }
{
    match verb {
        Verb::DecodeRaw | Verb::DecodeWav => &[Name::Presentation, Name::Bits],
        Verb::Extract | Verb::Check | Verb::Recover => &[Name::Presentation],
        Verb::List | Verb::Retime => &[],
        Verb::Cut => &[Name::First, Name::Count],
        Verb::EncodeRaw => &[
            Name::Format,
            Name::Rate,
            Name::Channels,
            Name::Bits,
            Name::Mix,
        ],
        Verb::EncodeWav => &[Name::Format, Name::Mix],
        Verb::Gen => &[
            Name::Format,
            Name::Rate,
            Name::Channels,
            Name::Bits,
            Name::Mix,
            Name::Units,
            Name::Seed,
        ],
    }
}

/// The option that a word names, among these.
fn option_of(names: &[Name], word: &str) -> Option<Name>
    ensures { result ≡ option_of names.now word.now }
{
    for name in names {
        if word == word_of(*name) {
            return Some(*name);
        }
    }
    None
}

/// The value of an option.
fn value_of(name: Name, words: &[String]) -> Option<&str>
    ensures { option_map (λ w. w.now) result ≡ value_of name (map string_bytes words.now) }
{
    match words {
        [word, value, rest @ ..] => {
            if word.as_str() == word_of(name) {
                return Some(value.as_str());
            }
            value_of(name, rest)
        }
        _ => None,
    }
}

/// Whether the words are options among these with their values, each at most once.
fn are_options(names: &[Name], words: &[String]) -> bool
    ensures { result ≡ are_options names.now (map string_bytes words.now) }
{
    match words {
        [] => true,
        [_] => false,
        [word, _, rest @ ..] => {
            let Some(name) = option_of(names, word.as_str()) else {
                return false;
            };
            value_of(name, rest).is_none() && are_options(names, rest)
        }
    }
}

/// The presentation that an option names.
fn presentation_given(words: &[String]) -> Option<u8>
    ensures form { result ≡ presentation_given (map string_bytes words.now) }
    ensures small { IfSome result (λ k. k ≤ 2) }
{
    presentation_of(value_of(Name::Presentation, words)?)
}

/// The bits of a sample, 24 where no option names them.
fn bits_given(words: &[String]) -> Option<u8>
    ensures form { result ≡ bits_given (map string_bytes words.now) }
    ensures known { IfSome result (λ bits. (bits ≡ 16) ⊎ (bits ≡ 24)) }
{
    match value_of(Name::Bits, words) {
        None => Some(24),
        Some(word) => bits_of(word),
    }
}

/// The number that an option names.
fn number_given(name: Name, words: &[String]) -> Option<u64>
    ensures { result ≡ number_given name (map string_bytes words.now) }
{
    number_of(value_of(name, words)?)
}

/// The format that an option names.
fn kind_given(words: &[String]) -> Option<Kind>
    ensures { result ≡ kind_given (map string_bytes words.now) }
{
    kind_of(value_of(Name::Format, words)?)
}

/// The mix that an option names, each channel by itself where none does.
fn mix_given(words: &[String]) -> Option<Mix>
    ensures { result ≡ mix_given (map string_bytes words.now) }
{
    match value_of(Name::Mix, words) {
        None => Some(Mix::Split),
        Some(word) => mix_of(word),
    }
}

/// The profile that options name, which may be one that can't be encoded.
fn profile_given(words: &[String]) -> Option<Profile>
    ensures { result ≡ profile_given (map string_bytes words.now) }
{
    let kind = kind_given(words)?;
    let rate = rate_of(value_of(Name::Rate, words)?)?;
    let channels = channels_of(value_of(Name::Channels, words)?)?;
    let depth = depth_of(value_of(Name::Bits, words)?)?;
    let mix = mix_given(words)?;
    Some(Profile {
        kind,
        rate,
        channels,
        depth,
        mix,
    })
}

/// The access units that an option names.
fn units_given(words: &[String]) -> Option<u64>
    ensures form { result ≡ units_given (map string_bytes words.now) }
    ensures range { IfSome result (λ units. (1 ≤ units) × (units ≤ 100000)) }
{
    units_of(value_of(Name::Units, words)?)
}

/// The seed that an option names.
fn seed_given(words: &[String]) -> Option<u32>
    ensures { result ≡ seed_given (map string_bytes words.now) }
{
    seed_of(value_of(Name::Seed, words)?)
}

/// The command of this name with these options.
fn command_of(words: &[String], verb: Verb) -> Option<Command>
    ensures form { result ≡ command_of (map string_bytes words.now) verb }
    ensures known { IsKnown result }
{
    match verb {
        Verb::DecodeRaw => {
            let presentation = presentation_given(words)?;
            let bits = bits_given(words)?;
            Some(Command::DecodeRaw { presentation, bits })
        }
        Verb::DecodeWav => {
            let presentation = presentation_given(words)?;
            let bits = bits_given(words)?;
            Some(Command::DecodeWav { presentation, bits })
        }
        Verb::Extract => {
            let presentation = presentation_given(words)?;
            Some(Command::Extract { presentation })
        }
        Verb::List => Some(Command::List),
        Verb::Check => {
            let presentation = presentation_given(words)?;
            Some(Command::Check { presentation })
        }
        Verb::Cut => {
            let first = number_given(Name::First, words)?;
            let count = number_given(Name::Count, words)?;
            Some(Command::Cut { first, count })
        }
        Verb::Recover => {
            let presentation = presentation_given(words)?;
            Some(Command::Recover { presentation })
        }
        Verb::Retime => Some(Command::Retime),
        Verb::EncodeRaw => {
            let profile = profile_given(words)?;
            Some(Command::EncodeRaw { profile })
        }
        Verb::EncodeWav => {
            let kind = kind_given(words)?;
            let mix = mix_given(words)?;
            Some(Command::EncodeWav { kind, mix })
        }
        Verb::Gen => {
            let profile = profile_given(words)?;
            let units = units_given(words)?;
            let seed = seed_given(words)?;
            Some(Command::Gen {
                profile,
                units,
                seed,
            })
        }
    }
}

/// The same, where these are options of it.
fn with_options(words: &[String], verb: Verb) -> Option<Command>
    ensures form { result ≡ with_options (map string_bytes words.now) verb }
    ensures known { IsKnown result }
{
    if !are_options(options_of(verb), words) {
        return None;
    }
    command_of(words, verb)
}

/// The command, where the words are of a plain form.
pub fn plain(words: &[String]) -> Option<Command>
    ensures form { result ≡ plain (map string_bytes words.now) }
    ensures known { IsKnown result }
{
    let [word, rest @ ..] = words else {
        return None;
    };
    let verb = verb_of(word.as_str())?;
    with_options(rest, verb)
}
