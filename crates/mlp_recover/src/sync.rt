//! The places where a restart interval may begin.
ghost use Rattle.std.specs.Prelude.{◌≡◌, ◌+◌, ◌≤◌, ◌<◌, true, length, IfSome, MatchOption};
ghost use Rattle.mlp_recover.specs.Sync.{has_sync_at, NoSyncIn};

use mlp_bits::word_at;
use mlp_major::SYNC;

/// Whether a unit that begins at this byte would have a major sync.
fn has_sync_at(bytes: &[u8], place: usize) -> bool
    requires { place + 8 ≤ length bytes.now }
    ensures { result ≡ has_sync_at bytes.now place }
{
    let word = word_at(bytes, place);
    ((word >> 1) % (1 << 31)) as u32 == SYNC
}

/// The first byte from `from` on at which a unit with a major sync may begin.
pub fn next_sync(bytes: &[u8], from: usize) -> Option<usize>
    requires { from ≤ length bytes.now }
    ensures none { MatchOption result (NoSyncIn bytes.now from (length bytes.now)) (NoSyncIn bytes.now from) }
    ensures there { IfSome result (λ place. has_sync_at bytes.now place ≡ true) }
    ensures within { IfSome result (λ place. (from ≤ place) × (place < length bytes.now)) }
{
    if bytes.len() < 8 {
        return None;
    }
    for place in from..bytes.len() - 7 {
        if has_sync_at(bytes, place) {
            return Some(place);
        }
    }
    None
}
