//! What an encoder can be asked for.
use mlp_syntax::{Kind, ProfileFault};

/// How the channels of PCM frames are coded.
#[derive(Clone, Copy, Debug, PartialEq, Eq)]
pub enum Mix {
    /// Each channel by itself: a presentation is its first channels.
    Split,
    /// The front channels less a part of the others, so that the smaller presentations are mixes of all channels.
    Fold,
    /// The channels behind the first two without their lowest bits, which are sent beside them.
    Bypass,
    /// The difference of two channels.
    Side,
}

impl Mix {
    ghost use Rattle.std.specs.Prelude.{◌≡◌, ◌≤◌, IsTrue};
    ghost use Rattle.mlp_fold.specs.Profile.{suits, IsShape};

    /// Whether the mix suits so many channels of so many bits. With at most eight channels and 16 to 24 bits that is
    /// all that coding asks for.
    pub fn suits(self, channels: u8, depth: u8) -> bool
        ensures value { result ≡ suits self channels depth }
        ensures shape { IsTrue result → channels ≤ 8 → IsShape self channels depth }
    {
        match self {
            Mix::Split => true,
            Mix::Fold => channels == 6 || channels == 8,
            Mix::Bypass => channels == 6 && depth == 24,
            Mix::Side => channels == 2,
        }
    }
}

/// What an encoder can be asked for.
#[derive(Clone, Copy, Debug, PartialEq, Eq)]
pub struct Profile {
    pub kind: Kind,
    /// Samples a second.
    pub rate: u32,
    pub channels: u8,
    /// Bits of a sample.
    pub depth: u8,
    pub mix: Mix,
}

impl Profile {
    ghost use Rattle.std.specs.Prelude.{◌≡◌, IfOk};
    ghost use Rattle.mlp_fold.specs.Profile.{checked, has_channels, has_rate, has_depth, AreMixed};

    /// Whether there are 2, 6 or 8 channels, 8 in TrueHD alone.
    fn has_channels(&self) -> bool
        ensures { result ≡ has_channels self.now.kind self.now.channels }
    {
        match self.kind {
            Kind::Fbb => self.channels == 2 || self.channels == 6,
            Kind::Fba => self.channels == 2 || self.channels == 6 || self.channels == 8,
        }
    }

    /// Whether the rate is one of the six, and at most 96 kHz with 8 channels.
    fn has_rate(&self) -> bool
        ensures { result ≡ has_rate self.now.rate self.now.channels }
    {
        let rate = self.rate;
        let known = rate == 44100
            || rate == 48000
            || rate == 88200
            || rate == 96000
            || rate == 176400
            || rate == 192000;
        known && !(self.channels == 8 && 96000 < rate)
    }

    /// Whether a sample has 16, 20 or 24 bits.
    fn has_depth(&self) -> bool
        ensures { result ≡ has_depth self.now.depth }
    {
        self.depth == 16 || self.depth == 20 || self.depth == 24
    }

    /// Whether it can be encoded: the first of channels, rate, depth and mix that isn't so is the fault. What passes
    /// can be coded and presented.
    pub fn check(&self) -> Result<(), ProfileFault>
        ensures value { result ≡ checked self.now }
        ensures mixed { IfOk result (λ _. AreMixed self.now.mix self.now.depth self.now.channels) }
    {
        if !self.has_channels() {
            return Err(ProfileFault::Channels);
        }
        if !self.has_rate() {
            return Err(ProfileFault::Rate);
        }
        if !self.has_depth() {
            return Err(ProfileFault::Depth);
        }
        if !self.mix.suits(self.channels, self.depth) {
            return Err(ProfileFault::MixShape);
        }
        Ok(())
    }
}
