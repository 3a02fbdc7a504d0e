//! How fast a stream arrives, and how much of it a player holds.
ghost use Rattle.std.specs.Prelude.{◌≡◌, ◌*◌, ◌^◌, ◌<◌, ◌≤◌};
ghost use Rattle.mlp_fifo.specs.Pace.{IsRate, unit_of, bits_a_second, peak_of, size_of, pace_of, IsUsual};
ghost use Rattle.mlp_fifo.specs.Schedule.{out_of, duration_of};

use mlp_syntax::Kind;

/// The numbers that a schedule depends on. Times are in sample periods.
#[derive(Clone, Copy, Debug, PartialEq, Eq)]
pub struct Pace {
    /// The sample periods of an access unit.
    pub unit: u64,
    /// How many units later than it may begin to arrive a unit is output.
    pub latency: u64,
    /// The peak data rate, in sixteenths of a bit per sample period.
    pub peak: u32,
    /// The bytes that the player's buffer holds.
    pub size: u32,
}

impl Pace {
    /// The pace of a stream of this kind at one of the six rates.
    #[tactic(auto, unfolding(crate::specs::Pace::unit_of, crate::specs::Pace::size_of, crate::specs::Pace::pace_of))]
    pub fn of(kind: Kind, rate: u32) -> Pace
        requires { IsRate rate }
        ensures { result ≡ pace_of kind rate }
    {
        let unit = if rate <= 48000 {
            40
        } else if rate <= 96000 {
            80
        } else {
            160
        };
        let size = match kind {
            Kind::Fbb => 90_000,
            Kind::Fba => 120_000,
        };
        Pace {
            unit,
            latency: 90,
            peak: peak(kind, rate),
            size,
        }
    }

    /// The sample period in which a unit is output.
    #[tactic(auto, using(crate::proofs::Paces::output_below), unfolding(crate::specs::Schedule::out_of))]
    pub(crate) fn output(self, unit: u64) -> u64
        requires { IsUsual self × (unit ≤ 2 ^ 40) }
        ensures is { result ≡ out_of self unit }
        ensures below { result < 2 ^ 48 }
    {
        (self.latency + unit) * self.unit
    }

    /// The least sample period in which a unit may begin to arrive.
    #[tactic(auto, using(crate::proofs::Paces::start_below))]
    pub(crate) fn start(self, unit: u64) -> u64
        requires { IsUsual self × (unit ≤ 2 ^ 40) }
        ensures is { result ≡ unit * self.unit }
        ensures below { result < 2 ^ 48 }
    {
        unit * self.unit
    }

    /// The sample periods that a unit takes to arrive.
    #[tactic(auto, unfolding(crate::specs::Schedule::duration_of))]
    pub(crate) fn duration(self, bytes: u32) -> u64
        requires { IsUsual self × (bytes ≤ 8190) }
        ensures is { result ≡ duration_of self bytes }
        ensures below { result < 2 ^ 21 }
    {
        u64::from((128 * bytes).div_ceil(self.peak))
    }
}

/// The peak data rate of a stream of this kind at one of the six rates, in sixteenths of a bit per sample period.
#[tactic(auto, unfolding(crate::specs::Pace::peak_of))]
pub fn peak(kind: Kind, rate: u32) -> u32
    requires { IsRate rate }
    ensures { result ≡ peak_of kind rate }
{
    let bits_a_second = match kind {
        Kind::Fbb => 9_600_000,
        Kind::Fba => 18_000_000,
    };
    (16 * bits_a_second - 8) / rate
}
