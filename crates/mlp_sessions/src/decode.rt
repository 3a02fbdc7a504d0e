//! The session of `decode-raw`.
ghost use Rattle.std.specs.Prelude.{◌≡◌, ◌+◌, ◌^◌, ◌<◌, ◌≤◌, ◌⊎◌, length, Ok, Err, IfOk, IfErr};
ghost use Rattle.mlp_sessions.specs.Playing.{player, places, played};
ghost use Rattle.mlp_unit.specs.AccessUnit.{stream_rate};

use arrayvec::ArrayVec;
use mlp_answers::refusal_of;
use mlp_pcm::pack_unit;
use mlp_present::Decoder;
use mlp_stream::{Refusal, Session};
use mlp_syntax::UnitBytes;
use mlp_unit::stream_rate;
use std::marker::Model;

/// Writes the samples of each access unit. To a contract it is its decoder, the bits of a sample, and the number of frames so
/// far.
#[derive(Drop)]
pub struct Decode {
    decoder: Decoder,
    frames: ArrayVec<[i32; 8], 160>,
    bits: u8,
    given: u64,
}

impl Model for Decode {
    ghost use Rattle.std.specs.Prelude.{◌≡◌, ◌*◌, ◌≤◌, ◌⊎◌};
    ghost use Rattle.mlp_unit.specs.Written.{FirstUsable};
    ghost use Rattle.mlp_sessions.specs.Playing.{Player};

    ghost Value = { Player };

    ghost view = { λ s. record { held = s.decoder; bits = s.bits; frames = s.given } };

    ghost invariant = { λ s. ((s.bits ≡ 16) ⊎ (s.bits ≡ 24)) × (s.given ≤ 160 * s.decoder.units)
        × FirstUsable s.decoder.left.sync };
}

/// The channels of a frame, which has places for 8.
fn places(channels: u8) -> u8
    ensures { result ≡ places channels }
{
    if channels < 8 { channels } else { 8 }
}

/// Replaces `out` by the samples of these frames, before which so many frames came, and answers the number of all.
fn put_frames(
    frames: &[[i32; 8]],
    channels: u8,
    bits: u8,
    before: u64,
    out: &mut UnitBytes,
) -> Result<u64, Refusal>
    requires bits { (bits ≡ 16) ⊎ (bits ≡ 24) }
    requires few { length frames.now ≤ 160 }
    requires before { before + 160 < 2 ^ 64 }
    ensures ok { IfOk result (λ all. (played bits (places channels) before frames.now ≡ Ok out.new.items)
        × (all ≡ before + length frames.now)) }
    ensures err { IfErr result (λ refusal. played bits (places channels) before frames.now ≡ Err refusal) }
{
    match pack_unit(frames, places(channels), bits, out) {
        Ok(()) => Ok(before + frames.len() as u64),
        Err(frame) => Err(Refusal::LowBits {
            frame: before + u64::from(frame),
        }),
    }
}

impl Decode {
    /// A session that has taken no unit, for a presentation from 0 to 2 and samples of 16 or 24 bits.
    pub fn open(presentation: u8, bits: u8) -> Decode
        requires exists { presentation ≤ 2 }
        requires bits { (bits ≡ 16) ⊎ (bits ≡ 24) }
        ensures { result ≡ player presentation bits }
    {
        Decode {
            decoder: Decoder::open(presentation),
            frames: ArrayVec::new(),
            bits,
            given: 0,
        }
    }

    /// The same as `open`, in place.
    pub fn reset(&mut self, presentation: u8, bits: u8)
        requires exists { presentation ≤ 2 }
        requires bits { (bits ≡ 16) ⊎ (bits ≡ 24) }
        ensures { self.new ≡ player presentation bits }
    {
        self.decoder.reset(presentation);
        self.bits = bits;
        self.given = 0;
    }

    /// The number of channels of the frames that come out, 0 to 8; 0 where no unit was taken.
    pub fn channels(&self) -> u8
        ensures { result ≡ places self.now.held.channels }
    {
        places(self.decoder.channels())
    }

    /// The sampling rate in hertz, 44100 to 192000; 0 where no unit was taken.
    pub fn rate(&self) -> u32
        ensures rate { result ≡ stream_rate self.now.held.left.sync }
        ensures most { result ≤ 192000 }
    {
        stream_rate(self.decoder.major())
    }
}

impl Session for Decode {
    ghost use Rattle.mlp_sessions.specs.Playing.{decode_step, decode_last, decode_count};
    ghost use Rattle.mlp_sessions.specs.PlayLaws.{decode_lawful};

    ghost step = { decode_step };

    ghost last = { decode_last };

    ghost count = { decode_count };

    ghost lawful = { decode_lawful };

    fn waits(&self, next: &[u8]) -> bool {
        self.decoder.waits(next)
    }

    fn unit(&mut self, next: &[u8], out: &mut UnitBytes) -> Result<usize, Refusal> {
        match self.decoder.unit(next, &mut self.frames) {
            Ok(size) => {
                let channels = self.decoder.channels();
                self.given = put_frames(&self.frames, channels, self.bits, self.given, out)?;
                Ok(size)
            }
            Err(refusal) => Err(refusal_of(refusal)),
        }
    }

    fn end(&self, out: &mut UnitBytes) -> Result<(), Refusal> {
        out.clear();
        match self.decoder.end() {
            Ok(()) => Ok(()),
            Err(refusal) => Err(refusal_of(refusal)),
        }
    }
}
