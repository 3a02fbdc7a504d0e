//! Copies between two slices.
ghost use Rattle.std.specs.Prelude.{◌≡◌, ◌≤◌, ◌+◌, ◌-◌, min, length, take, ◌++◌};

/// Copies bytes from the front, at most so many, and says how many.
pub fn copy_front(rest: &[u8], most: usize, buf: &mut [u8]) -> usize
    ensures count { result ≡ min most (min (length rest.now) (length buf.old)) }
    ensures taken { take result buf.new ≡ take result rest.now }
{
    let count = most.min(rest.len()).min(buf.len());
    buf[..count].copy_from_slice(&rest[..count]);
    count
}

/// Copies bytes into the room from a place on, at most so many, and says how many.
pub(crate) fn copy_at(room: &mut [u8], at: usize, most: usize, piece: &[u8]) -> usize
    requires { at ≤ length room.old }
    ensures count { result ≡ min most (min (length room.old - at) (length piece.now)) }
    ensures front { take (at + result) room.new ≡ take at room.old ++ take result piece.now }
{
    copy_front(piece, most, &mut room[at..])
}
