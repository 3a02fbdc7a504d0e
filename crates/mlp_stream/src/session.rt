//! A session: a command at work on a stream, one unit at a time.
ghost use Rattle.std.specs.Prelude.{◌≡◌, ℕ, ◌<◌, ◌↔◌, Bool, true, false, List, length, Result, IsTrue};
ghost use Rattle.mlp_stream.specs.Moves.{Move, moved, said, IsSession};
ghost use Rattle.mlp_io.specs.Limit.{limit};
ghost use Rattle.mlp_stream.specs.declared.refusal.Refusal.{Refusal};

use crate::refusal::Refusal;
use mlp_syntax::UnitBytes;

/// A command that takes units from a stream and puts bytes out.
pub trait Session {
    /// What it does with these bytes, where they are all that is left (true) or may go on (false).
    ghost step: { Self → Bool → List ℕ → Move Self };

    /// What comes out at the end, or the refusal.
    ghost last: { Self → Result (List ℕ) Refusal };

    /// The number of units that it has taken.
    ghost count: { Self → ℕ };

    /// Whether the next unit depends on bytes after these.
    fn waits(&self, next: &[u8]) -> bool
        requires { 0 < length next.now }
        ensures { IsTrue result ↔ (step self.now false next.now ≡ Move.Waits) };

    /// Takes the next unit, of whose bytes `next` has all or as many as are left, replaces `out` by what comes of it,
    /// and says how many bytes it took.
    ///
    /// # Errors
    ///
    /// The refusal of the unit.
    fn unit(&mut self, next: &[u8], out: &mut UnitBytes) -> Result<usize, Refusal>
        requires some { 0 < length next.now }
        requires room { count self.old < limit }
        ensures { step self.old true next.now ≡ moved result out.new.items self.new };

    /// Ends, and replaces `out` by what comes of it.
    ///
    /// # Errors
    ///
    /// The refusal of what was taken, which isn't whole.
    fn end(&self, out: &mut UnitBytes) -> Result<(), Refusal>
        ensures { last self.now ≡ said result out.new.items };

    ghost lawful: { IsSession step count };
}
