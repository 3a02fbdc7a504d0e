//! The session of `list`.
ghost use Rattle.std.specs.Prelude.{◌≡◌};

use crate::list_line::unit_line;
use mlp_answers::{no_unit, refusal_of};
use mlp_outline::Outliner;
use mlp_stream::{Refusal, Session};
use mlp_syntax::UnitBytes;
use std::marker::Model;

/// Writes a line for each access unit. To a contract it is its reader of outer parts.
#[derive(Drop)]
pub struct List {
    outliner: Outliner,
}

impl Model for List {
    ghost use Rattle.mlp_outline.specs.Outlining.{Outlined};

    ghost Value = { Outlined };

    ghost view = { λ s. s.outliner };
}

impl List {
    ghost use Rattle.mlp_outline.specs.Outlining.{nothing_read};

    /// A session that has taken no unit.
    pub fn open() -> List
        ensures { result ≡ nothing_read }
    {
        List {
            outliner: Outliner::open(),
        }
    }
}

impl Session for List {
    ghost use Rattle.mlp_sessions.specs.Listing.{list_step, list_last, list_count};
    ghost use Rattle.mlp_sessions.specs.ListLaws.{list_lawful};

    ghost step = { list_step };

    ghost last = { list_last };

    ghost count = { list_count };

    ghost lawful = { list_lawful };

    fn waits(&self, next: &[u8]) -> bool {
        self.outliner.waits(next)
    }

    fn unit(&mut self, next: &[u8], out: &mut UnitBytes) -> Result<usize, Refusal> {
        let number = self.outliner.units();
        match self.outliner.unit(next) {
            Ok((size, outer)) => {
                unit_line(number, &next[..size], &outer, out);
                Ok(size)
            }
            Err(refusal) => Err(refusal_of(refusal)),
        }
    }

    fn end(&self, out: &mut UnitBytes) -> Result<(), Refusal> {
        out.clear();
        if self.outliner.units() == 0 {
            return Err(no_unit());
        }
        Ok(())
    }
}
