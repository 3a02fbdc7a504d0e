//! Whether the next unit is there.
ghost use Rattle.std.specs.Prelude.{◌≡◌, ◌≤◌, ◌<◌, length};
ghost use Rattle.mlp_outline.specs.Next.{words_of, is_open};

use mlp_bits::BitReader;

/// The length in words that the first four bytes tell.
fn words_of(next: &[u8]) -> usize
    requires { 4 ≤ length next.now }
    ensures value { result ≡ words_of next.now }
    ensures small { result < 4096 }
{
    let mut r = BitReader::new(&next[..4]);
    r.skip(4);
    r.peek(12) as usize
}

/// Whether the next unit depends on bytes behind these: there are fewer than four, or fewer than a length of two words
/// at least says.
pub fn is_open(next: &[u8]) -> bool
    ensures { result ≡ is_open next.now }
{
    if next.len() < 4 {
        return true;
    }
    let words = words_of(next);
    words >= 2 && next.len() < 2 * words
}
