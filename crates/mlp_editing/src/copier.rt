//! The session that copies its input.
ghost use Rattle.std.specs.Prelude.{◌≡◌, take};
ghost use Rattle.mlp_editing.specs.Copying.{piece_of};

use mlp_stream::{Refusal, Session};
use mlp_syntax::UnitBytes;
use std::marker::Model;

/// The most bytes that are copied at once.
const PIECE: usize = 4096;

/// Copies its input in pieces. To a contract it is the number of pieces so far.
#[derive(Drop)]
pub struct Copier {
    pieces: u64,
}

impl Model for Copier {
    ghost use Rattle.std.specs.Prelude.{ℕ};

    ghost Value = { ℕ };

    ghost view = { λ s. s.pieces };
}

/// Replaces `out` by the next piece, and answers its size.
fn put_piece(next: &[u8], out: &mut UnitBytes) -> usize
    ensures size { result ≡ piece_of next.now }
    ensures piece { out.new.items ≡ take (piece_of next.now) next.now }
{
    let size = next.len().min(PIECE);
    out.clear();
    let _ = out.try_extend_from_slice(&next[..size]);
    size
}

impl Copier {
    /// A session that has copied nothing.
    pub fn open() -> Copier
        ensures { result ≡ 0 }
    {
        Copier { pieces: 0 }
    }
}

impl Session for Copier {
    ghost use Rattle.mlp_editing.specs.Copying.{copy_step, copy_last, copy_count};
    ghost use Rattle.mlp_editing.specs.CopyLaws.{copy_lawful};

    ghost step = { copy_step };

    ghost last = { copy_last };

    ghost count = { copy_count };

    ghost lawful = { copy_lawful };

    fn waits(&self, next: &[u8]) -> bool {
        next.len() < PIECE
    }

    fn unit(&mut self, next: &[u8], out: &mut UnitBytes) -> Result<usize, Refusal> {
        let size = put_piece(next, out);
        self.pieces += 1;
        Ok(size)
    }

    fn end(&self, out: &mut UnitBytes) -> Result<(), Refusal> {
        out.clear();
        Ok(())
    }
}
