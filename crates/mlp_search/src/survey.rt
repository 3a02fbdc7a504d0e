//! What one pass over values tells of them.

ghost use Rattle.std.specs.Prelude.{◌≡◌, ◌≤◌, ◌<◌, length, map, unsigned_abs};
ghost use Rattle.mlp_arith.specs.Words.{floor_by};
ghost use Rattle.mlp_search.specs.Candidates.{least_from, least_of, greatest_from, greatest_of};
ghost use Rattle.mlp_search.specs.Folded.{negative};
ghost use Rattle.mlp_search.specs.Survey.{IsSurvey};

/// What one pass over values tells of them.
#[derive(Drop)]
pub struct Survey {
    pub least: i32,
    pub greatest: i32,
    /// How many are negative.
    pub negatives: u32,
    /// No more than the sum of their sizes.
    pub sizes: u32,
}

/// A residual in quantisation steps.
fn in_steps(step: u8, residual: &i32) -> i32
    requires { step < 32 }
    ensures { result ≡ floor_by step residual.now }
{
    *residual >> step
}

/// The first residual in quantisation steps, or 0.
fn first_of(step: u8, residuals: &[i32]) -> i32
    requires { step < 32 }
    ensures least { let vs = map (floor_by step) residuals.now in least_from result vs ≡ least_of vs }
    ensures greatest { let vs = map (floor_by step) residuals.now in greatest_from result vs ≡ greatest_of vs }
{
    if residuals.is_empty() {
        return 0;
    }
    in_steps(step, &residuals[0])
}

/// 1 for a negative value.
fn negative(value: i32) -> u32
    ensures value { result ≡ negative value }
    ensures few { result ≤ 1 }
{
    if value < 0 { 1 } else { 0 }
}

/// No more than the size of a value.
fn size(value: i32) -> u32
    ensures value { result ≤ unsigned_abs value }
    ensures few { result ≤ 12582912 }
{
    value.unsigned_abs().min(12582912)
}

/// Looks at residuals in quantisation steps.
pub(crate) fn survey_of(step: u8, residuals: &[i32]) -> Survey
    requires step { step < 32 }
    requires few { length residuals.now ≤ 160 }
    ensures { IsSurvey (map (floor_by step) residuals.now) result }
{
    let mut least = first_of(step, residuals);
    let mut greatest = least;
    let mut negatives: u32 = 0;
    let mut sizes: u32 = 0;
    for residual in residuals {
        let value = in_steps(step, residual);
        least = least.min(value);
        greatest = greatest.max(value);
        negatives += negative(value);
        sizes += size(value);
    }
    Survey {
        least,
        greatest,
        negatives,
        sizes,
    }
}
