//! Numbers among the words.
ghost use Rattle.std.specs.Prelude.{◌≡◌, ◌≤◌, IfSome};
ghost use Rattle.mlp_io.specs.Limit.{limit};
ghost use Rattle.mlp_tool.specs.Numbers.{with_digit, with_digits, begins_well, number_of, number_within};

/// The greatest number.
const LIMIT: u64 = 1 << 40;

/// A number with one more digit behind it.
fn with_digit(number: u64, digit: u8) -> Option<u64>
    requires { number ≤ limit }
    ensures digit { result ≡ with_digit number digit }
    ensures small { IfSome result (λ n. n ≤ limit) }
{
    if !digit.is_ascii_digit() {
        return None;
    }
    let longer = 10 * number + u64::from(digit - b'0');
    if longer > LIMIT {
        return None;
    }
    Some(longer)
}

/// Whether there are digits, and the first of several isn't 0.
fn begins_well(digits: &[u8]) -> bool
    ensures { result ≡ begins_well digits.now }
{
    match digits {
        [] => false,
        [_] => true,
        [first, ..] => *first != b'0',
    }
}

fn with_digits(digits: &[u8]) -> Option<u64>
    ensures { result ≡ with_digits 0 digits.now }
{
    let mut number: u64 = 0;
    for digit in digits {
        number = with_digit(number, *digit)?;
    }
    Some(number)
}

/// The number that a word names, up to 2^40.
pub fn number_of(word: &str) -> Option<u64>
    ensures { result ≡ number_of word.now }
{
    let digits = word.as_bytes();
    if !begins_well(digits) {
        return None;
    }
    with_digits(digits)
}

/// The number from `least` to `most` that a word names.
pub fn number_within(word: &str, least: u64, most: u64) -> Option<u64>
    ensures form { result ≡ number_within least most word.now }
    ensures range { IfSome result (λ n. (least ≤ n) × (n ≤ most)) }
{
    let number = number_of(word)?;
    if least <= number && number <= most {
        Some(number)
    } else {
        None
    }
}
