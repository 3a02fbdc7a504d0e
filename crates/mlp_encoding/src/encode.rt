//! The session that encodes PCM.
ghost use Rattle.std.specs.Prelude.{◌≡◌, Ok, OnOk, OnErr, IfOk};
ghost use Rattle.mlp_fold.specs.Profile.{checked};
ghost use Rattle.mlp_encoding.specs.Encoding.{encoding};

use crate::part::{is_open, is_seen, less, pcm_in, read_unit};
use crate::sizes::full_size;
use arrayvec::ArrayVec;
use mlp_encode::Encoder;
use mlp_fold::Profile;
use mlp_stream::{Refusal, Session};
use mlp_syntax::{Frames, Memory, NoRoom, PcmFault, ProfileFault, UnitBytes};
use std::alloc::Global;
use std::marker::Model;

/// The bytes behind the data that are passed over at once.
const PAGE: usize = 4096;

/// Encodes PCM, one access unit at a time. To a contract it is what the units sent so far leave, the bytes of data
/// still to come, and how often it took bytes.
#[derive(Drop)]
pub struct Encode {
    encoder: Encoder,
    profile: Profile,
    frames: Frames,
    to_come: Option<u64>,
    units: u64,
    moves: u64,
    refusal: Option<NoRoom>,
}

impl Model for Encode {
    ghost use Rattle.mlp_encoding.specs.Encoding.{Encoding, IsEncode};

    ghost Value = { Encoding };

    ghost view = { λ s. record { left = s.encoder; to_come = s.to_come; moves = s.moves } };

    ghost invariant = { λ s. IsEncode s.profile s.units s.moves s.refusal s.encoder };
}

impl Encode {
    /// A session that has sent no unit, of PCM of so many bytes if a header told. It takes all memory that it ever
    /// needs.
    ///
    /// # Errors
    ///
    /// `Memory` where there is none.
    pub fn open(alloc: Global, profile: Profile, size: Option<u64>) -> Result<Encode, Memory>
        requires { checked profile ≡ Ok tt }
        ensures { IfOk result (λ s. s ≡ encoding profile size) }
    {
        match Encoder::open(alloc, profile) {
            Ok(encoder) => Ok(Encode {
                encoder,
                profile,
                frames: Frames {
                    channels: 0,
                    rows: ArrayVec::new(),
                },
                to_come: size,
                units: 0,
                moves: 0,
                refusal: None,
            }),
            Err(_) => Err(Memory),
        }
    }

    /// The same, in place. It takes no memory.
    ///
    /// # Errors
    ///
    /// The fault of a profile that can't be encoded. Nothing is changed then.
    pub fn reset(&mut self, profile: Profile, size: Option<u64>) -> Result<(), ProfileFault>
        ensures value { result ≡ checked profile }
        ensures is { OnOk result (self.new ≡ encoding profile size) }
        ensures kept { OnErr result (self.new ≡ self.old) }
    {
        match self.encoder.reset(profile) {
            Ok(()) => {
                self.profile = profile;
                self.to_come = size;
                self.units = 0;
                self.moves = 0;
                self.refusal = None;
                Ok(())
            }
            Err(fault) => Err(fault),
        }
    }
}

impl Session for Encode {
    ghost use Rattle.mlp_encoding.specs.Encoding.{encode_step, encode_last, encode_count};
    ghost use Rattle.mlp_encoding.specs.EncodeLaws.{encode_lawful};

    ghost step = { encode_step };

    ghost last = { encode_last };

    ghost count = { encode_count };

    ghost lawful = { encode_lawful };

    fn waits(&self, next: &[u8]) -> bool {
        if self.refusal.is_some() {
            return false;
        }
        if self.to_come == Some(0) {
            return next.len() < PAGE;
        }
        let seen = is_seen(self.to_come, next);
        is_open(&self.profile, seen, pcm_in(self.to_come, next))
    }

    fn unit(&mut self, next: &[u8], out: &mut UnitBytes) -> Result<usize, Refusal> {
        if let Some(refusal) = self.refusal {
            return Err(Refusal::NoRoom(refusal));
        }
        if self.to_come == Some(0) {
            out.clear();
            self.moves += 1;
            return Ok(next.len().min(PAGE));
        }
        let pcm = pcm_in(self.to_come, next);
        let full = full_size(&self.profile);
        let last = pcm.len() <= full;
        let part = &pcm[..full.min(pcm.len())];
        match read_unit(&self.profile, self.units, part, last, &mut self.frames) {
            Ok(()) => {}
            Err(fault) => return Err(Refusal::Pcm(fault)),
        }
        match self.encoder.unit(&self.frames, last, out) {
            Ok(()) => {
                self.to_come = less(part.len(), self.to_come);
                self.units += 1;
                self.moves += 1;
                Ok(part.len())
            }
            Err(no_room) => {
                self.refusal = Some(no_room);
                Err(Refusal::NoRoom(no_room))
            }
        }
    }

    fn end(&self, out: &mut UnitBytes) -> Result<(), Refusal> {
        out.clear();
        if let Some(refusal) = self.refusal {
            return Err(Refusal::NoRoom(refusal));
        }
        if self.units == 0 {
            return Err(Refusal::Pcm(PcmFault::Empty));
        }
        Ok(())
    }
}
