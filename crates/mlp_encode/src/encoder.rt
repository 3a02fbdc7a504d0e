//! The encoder.
ghost use Rattle.std.specs.Prelude.{◌≡◌, ◌↔◌, ◌<◌, ◌^◌, [], Ok, Err, OnOk, OnErr, IfOk, IfErr, IsErrOf};
ghost use Rattle.mlp_syntax.specs.declared.refusal.ProfileFault.{ProfileFault};
ghost use Rattle.mlp_fold.specs.Profile.{checked};
ghost use Rattle.mlp_encode.specs.Left.{Going, going};
ghost use Rattle.mlp_encode.specs.Unit.{AreNext, next_sent};
ghost use Rattle.mlp_encode.specs.Encoding.{answered};

use crate::progress::{Progress, Scratch, send_next};
use mlp_fold::Profile;
use mlp_syntax::{Frames, Memory, NoRoom, ProfileFault, UnitBytes};
use std::alloc::Global;
use std::marker::Model;

/// Why no encoder was opened.
#[derive(Clone, Copy, Debug, PartialEq, Eq)]
pub enum OpenRefusal {
    Memory,
    BadProfile(ProfileFault),
}

/// An encoder of PCM, one access unit after the other.
#[derive(Drop)]
pub struct Encoder {
    progress: Progress,
    scratch: Scratch,
    refusal: Option<NoRoom>,
}

impl Model for Encoder {
    ghost use Rattle.std.specs.Prelude.{◌≡◌, None};
    ghost use Rattle.mlp_encode.specs.Left.{Left};
    ghost use Rattle.mlp_encode.specs.Encoding.{left_of, IsEncoding};

    ghost Value = { Left };

    ghost view = { λ e. left_of e.refusal e.progress };

    ghost invariant = { λ e. e.refusal ≡ None → IsEncoding e.progress };
}

impl Encoder {
    /// An encoder that has sent no unit. It takes all memory that it ever needs.
    ///
    /// # Errors
    ///
    /// `BadProfile` exactly where the profile can't be encoded, with its fault, and `Memory` where there is none.
    pub fn open(alloc: Global, profile: Profile) -> Result<Encoder, OpenRefusal>
        ensures is { IfOk result (λ e. e ≡ Ok (going profile)) }
        ensures bad { (f : ProfileFault) →
            IsErrOf result (OpenRefusal.BadProfile f) ↔ (checked profile ≡ Err f) }
    {
        profile.check().map_err(OpenRefusal::BadProfile)?;
        let progress = Progress::open(alloc, profile).map_err(|_| OpenRefusal::Memory)?;
        Ok(Encoder {
            progress,
            scratch: Scratch::new(),
            refusal: None,
        })
    }

    /// The same, in place. It takes no memory.
    ///
    /// # Errors
    ///
    /// The fault of a profile that can't be encoded. Nothing is changed then.
    pub fn reset(&mut self, profile: Profile) -> Result<(), ProfileFault>
        ensures value { result ≡ checked profile }
        ensures is { OnOk result (self.new ≡ Ok (going profile)) }
        ensures kept { OnErr result (self.new ≡ self.old) }
    {
        profile.check()?;
        self.progress.reset(profile);
        self.refusal = None;
        Ok(())
    }

    /// Sends the next unit, of these frames: as many as a unit has, or fewer in the last unit of TrueHD, of the profile's
    /// channels and depth. Replaces `out` by it.
    ///
    /// # Errors
    ///
    /// `NoRoom` exactly where the units so far have no schedule. Then `out` is empty, and every later call answers the same.
    pub fn unit(&mut self, frames: &Frames, last: bool, out: &mut UnitBytes) -> Result<(), NoRoom>
        requires frames { (g : Going) → self.old ≡ Ok g →
            AreNext g.profile frames.now.rows.items last }
        requires count { (g : Going) → self.old ≡ Ok g → g.units < 2 ^ 40 }
        ensures sent { next_sent self.old frames.now.rows.items last
            ≡ answered result out.new.items self.new }
        ensures none { OnErr result (out.new.items ≡ []) }
        ensures held { IfErr result (λ r. self.new ≡ Err r) }
    {
        if let Some(refusal) = self.refusal {
            out.clear();
            return Err(refusal);
        }
        match send_next(
            &mut self.progress,
            &frames.rows,
            last,
            &mut self.scratch,
            out,
        ) {
            Ok(()) => Ok(()),
            Err(refusal) => {
                out.clear();
                self.refusal = Some(refusal);
                Err(refusal)
            }
        }
    }
}
