//! Text in a list.
ghost use Rattle.std.specs.Prelude.{◌≡◌, ◌+◌, ◌≤◌, ◌++◌, length, decimal};

use arrayvec::ArrayVec;
use itoa::Buffer;

/// Puts bytes behind others.
pub fn put_text<const N: usize>(out: &mut ArrayVec<u8, N>, text: &[u8])
    requires { length out.old.items + length text.now ≤ N }
    ensures { out.new.items ≡ out.old.items ++ text.now }
{
    let _ = out.try_extend_from_slice(text);
}

/// Puts a number in decimal digits, of which there are at most 20, behind bytes.
pub fn put_number<const N: usize>(out: &mut ArrayVec<u8, N>, number: u64)
    requires { length out.old.items + 20 ≤ N }
    ensures text { out.new.items ≡ out.old.items ++ decimal number }
    ensures short { length out.new.items ≤ length out.old.items + 20 }
{
    let mut buffer = Buffer::new();
    put_text(out, buffer.format(number).as_bytes());
}
