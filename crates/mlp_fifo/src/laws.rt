//! What holds of the definitions.
ghost use Rattle.std.specs.Prelude.{◌≡◌, [], ◌∷◌, ℕ, map};
ghost use Rattle.mlp_syntax.specs.declared.major.Kind.{Kind};
ghost use Rattle.mlp_syntax.specs.declared.major.Kind.TheVariants.{Fbb, Fba};
ghost use Rattle.mlp_fifo.specs.Pace.{rates, unit_of, peak_of};
ghost use Rattle.mlp_fifo.specs.Schedule.{DurationIsEnough, DurationIsLeast, HasEarliest, EarliestIsOne};
ghost use Rattle.mlp_fifo.specs.Schedule.{EarliestBegins, SingleRatesTakeTurns, ShorterIsSchedule};
ghost use Rattle.mlp_fifo.specs.LeftFifo.{Leaves};
ghost use Rattle.mlp_fifo.specs.Timed.{LeavesTimed, HasOneTiming, ShorterIsTimed};
ghost use Rattle.mlp_fifo.specs.Placed.{emptied, EachPlaced, AllPlaced, AllHaveRoom};
ghost use Rattle.mlp_fifo.specs.Checked.{empty_checker, EachChecked};
ghost use Rattle.mlp_fifo.specs.Fitting.{FittingIsTimed};

/// The access units and peak data rates of the six rates.
#[tactic(auto, unfolding(crate::specs::Pace::unit_of, crate::specs::Pace::peak_of))]
pub fn law_rates()
    ensures units { map unit_of rates ≡ 40 ∷ 40 ∷ 80 ∷ 80 ∷ 160 ∷ 160 ∷ [] }
    ensures fbb { map (peak_of Fbb) rates ≡ 3482 ∷ 3199 ∷ 1741 ∷ 1599 ∷ 870 ∷ 799 ∷ [] }
    ensures fba { map (peak_of Fba) rates ≡ 6530 ∷ 5999 ∷ 3265 ∷ 2999 ∷ 1632 ∷ 1499 ∷ [] }
{}

/// A unit's duration is the least number of sample periods in which its bits come at the peak data rate.
#[tactic(auto, unfolding(crate::specs::Schedule::duration_of))]
pub fn law_duration()
    ensures enough { DurationIsEnough }
    ensures least { DurationIsLeast }
{}

/// Where units have a schedule they have an earliest one, which has one list of times. It begins with the earliest
/// schedule of the units before.
pub fn law_earliest()
    ensures exists { HasEarliest }
    ensures only { EarliestIsOne }
    ensures prefix { EarliestBegins }
{}

/// At 44100 and 48000 samples a second units that are not too long each begin at their turn, and there is always room.
pub fn law_single_rates()
    ensures { SingleRatesTakeTurns }
{}

/// At most one list of times has the timings of given units.
pub fn law_one_timing()
    ensures { HasOneTiming }
{}

/// A schedule stays one, and timings stay those of a stream, where units get shorter.
pub fn law_shorter()
    ensures schedule { ShorterIsSchedule }
    ensures timed { ShorterIsTimed }
{}

/// Placing units one after the other gives the times of their earliest schedule, or refuses the first that has no room:
/// then the units up to it have no schedule, and those before it have one.
pub fn law_placed()
    ensures none { (kind : Kind) (rate : ℕ) → Leaves kind rate [] (emptied kind rate) }
    ensures each { EachPlaced }
    ensures all { AllPlaced }
    ensures room { AllHaveRoom }
{}

/// What a checked unit leaves is what the units so far leave.
pub fn law_checked()
    ensures none { (kind : Kind) (rate : ℕ) → LeavesTimed kind rate [] (empty_checker kind rate) }
    ensures each { EachChecked }
{}

/// Timings of the earliest schedule are those of a stream.
pub fn law_fitting()
    ensures { FittingIsTimed }
{}
