//! The values of options.
ghost use Rattle.std.specs.Prelude.{◌≡◌, ◌≤◌, ◌⊎◌, IfSome};
ghost use Rattle.mlp_tool.specs.Values.{presentation_of, bits_of, kind_of, rate_of, channels_of, depth_of, mix_of, units_of, seed_of};

use crate::numbers::number_within;
use mlp_fold::Mix;
use mlp_syntax::Kind;

/// The presentation that a word names.
pub fn presentation_of(word: &str) -> Option<u8>
    ensures form { result ≡ presentation_of word.now }
    ensures small { IfSome result (λ k. k ≤ 2) }
{
    match word {
        "0" => Some(0),
        "1" => Some(1),
        "2" => Some(2),
        _ => None,
    }
}

/// The bits of a sample that a word names.
pub fn bits_of(word: &str) -> Option<u8>
    ensures form { result ≡ bits_of word.now }
    ensures known { IfSome result (λ bits. (bits ≡ 16) ⊎ (bits ≡ 24)) }
{
    match word {
        "16" => Some(16),
        "24" => Some(24),
        _ => None,
    }
}

/// The format that a word names.
pub fn kind_of(word: &str) -> Option<Kind>
    ensures { result ≡ kind_of word.now }
{
    match word {
        "mlp" => Some(Kind::Fbb),
        "truehd" => Some(Kind::Fba),
        _ => None,
    }
}

/// The samples a second that a word names.
pub fn rate_of(word: &str) -> Option<u32>
    ensures { result ≡ rate_of word.now }
{
    match word {
        "44100" => Some(44100),
        "48000" => Some(48000),
        "88200" => Some(88200),
        "96000" => Some(96000),
        "176400" => Some(176_400),
        "192000" => Some(192_000),
        _ => None,
    }
}

/// The channels that a word names.
pub fn channels_of(word: &str) -> Option<u8>
    ensures { result ≡ channels_of word.now }
{
    match word {
        "2" => Some(2),
        "6" => Some(6),
        "8" => Some(8),
        _ => None,
    }
}

/// The bits of a sample of PCM that a word names.
pub fn depth_of(word: &str) -> Option<u8>
    ensures { result ≡ depth_of word.now }
{
    match word {
        "16" => Some(16),
        "20" => Some(20),
        "24" => Some(24),
        _ => None,
    }
}

/// The mix that a word names.
pub fn mix_of(word: &str) -> Option<Mix>
    ensures { result ≡ mix_of word.now }
{
    match word {
        "split" => Some(Mix::Split),
        "fold" => Some(Mix::Fold),
        "bypass" => Some(Mix::Bypass),
        "side" => Some(Mix::Side),
        _ => None,
    }
}

/// The access units to make that a word names.
pub fn units_of(word: &str) -> Option<u64>
    ensures form { result ≡ units_of word.now }
    ensures range { IfSome result (λ units. (1 ≤ units) × (units ≤ 100000)) }
{
    number_within(word, 1, 100_000)
}

/// The seed that a word names.
pub fn seed_of(word: &str) -> Option<u32>
    ensures { result ≡ seed_of word.now }
{
    let seed = number_within(word, 0, u64::from(u32::MAX))?;
    Some(seed as u32)
}
