//! What holds of costs and choices.

ghost use Rattle.std.specs.Prelude.{◌≡◌, ◌≤◌, ◌+◌, ◌*◌, ℕ, ℤ, Bool, true, false, List, length, All, Some, IfSome, IfNone};
ghost use Rattle.mlp_arith.specs.Words.{clear};
ghost use Rattle.mlp_arith.specs.Ranges.{Is26};
ghost use Rattle.mlp_syntax.specs.declared.segment.Code.{Code};
ghost use Rattle.mlp_layout.specs.Combined.{signed_of, group};
ghost use Rattle.mlp_layout.specs.Allowed.{Allowed};
ghost use Rattle.mlp_params.specs.declared.state.ChannelState.{ChannelState};
ghost use Rattle.mlp_params.specs.Applied.{channel_applied};
ghost use Rattle.mlp_params.specs.Filters.{order_of};
ghost use Rattle.mlp_params.specs.Parameters.{channel};
ghost use Rattle.mlp_params.specs.States.{IsChannelState};
ghost use Rattle.mlp_predict.specs.Prediction.{Past};
ghost use Rattle.mlp_predict.specs.Filters.{filters_of, AreFilters};
ghost use Rattle.mlp_residual.specs.Coding.{Spells, Counts};
ghost use Rattle.mlp_search.specs.declared.pair.Pair.{Pair};
ghost use Rattle.mlp_search.specs.declared.choice.Choice.{Choice};
ghost use Rattle.mlp_search.specs.Candidates.{pair_of};
ghost use Rattle.mlp_search.specs.Given.{IsPair, given, given_by};
ghost use Rattle.mlp_search.specs.Cost.{code_for, bits_for, parameter_bits, parameter_sum, cost_of};
ghost use Rattle.mlp_search.specs.Least.{chosen, IsLeast};

/// The filters of each number can be written and used.
pub fn law_pairs()
    ensures written { (force : ChannelState) (step : ℕ) (samples : List ℤ) (n : ℕ) →
        IsChannelState force → IfSome (pair_of force step samples n) IsPair }
    ensures usable { (pair : Pair) → IsPair pair → AreFilters pair.fir pair.iir }
{}

/// The codes that a cost counts are those of the residuals, and the parameters take the bits of a
/// sum in closed form.
pub fn law_cost()
    ensures code { (book b : ℕ) (offset : ℤ) (step : ℕ) (r : ℤ) →
        IfSome (code_for book b offset step r) (λ c. Spells book b offset step r c) }
    ensures no_code { (book b : ℕ) (offset : ℤ) (step : ℕ) (r : ℤ) →
        IfNone (code_for book b offset step r) ((c : Code) → Spells book b offset step r c → ⊥) }
    ensures codes { (book b : ℕ) (offset : ℤ) (step : ℕ) (rs : List ℤ) →
        Counts book b offset step rs (bits_for book b offset step rs) }
    ensures parameters { (force : ChannelState) (pair : Pair) (c : Choice) → IsPair pair →
        (signed_of 15).Fits c.offset → parameter_bits force pair c ≡ parameter_sum force pair c }
{}

/// At most one choice is the least.
pub fn law_least()
    ensures { (force : ChannelState) (past : Past) (step : ℕ) (filters : Bool) (samples : List ℤ)
        (c d : Choice) →
        IsLeast (cost_of force past step filters samples) c →
        IsLeast (cost_of force past step filters samples) d → c ≡ d }
{}

/// Over samples of 26 signed bits without low `step` bits the choice is the least, and costs at most
/// 34 bits and 26 a sample. Without `filters` those in force must be absent.
pub fn law_there()
    ensures least { (force : ChannelState) (past : Past) (step : ℕ) (filters : Bool)
        (samples : List ℤ) →
        IsChannelState force → step ≤ 8 → All Is26 samples → All (λ x. clear step x ≡ x) samples →
        (filters ≡ false → order_of force.fir ≡ 0) → (filters ≡ false → order_of force.iir ≡ 0) →
        IsLeast (cost_of force past step filters samples) (chosen force past step filters samples) }
    ensures cheap { (force : ChannelState) (past : Past) (step : ℕ) (filters : Bool)
        (samples : List ℤ) →
        IsChannelState force → step ≤ 8 → All Is26 samples → All (λ x. clear step x ≡ x) samples →
        (filters ≡ false → order_of force.fir ≡ 0) → (filters ≡ false → order_of force.iir ≡ 0) →
        (chosen force past step filters samples).bits ≤ 34 + 26 * length samples }
{}

/// Behind what a choice gives the filters of its number are in force, and a choice that has a cost
/// gives what can be written.
pub fn law_given()
    ensures filters { (force : ChannelState) (step : ℕ) (samples : List ℤ) (c : Choice) (pair : Pair) →
        IsChannelState force → pair_of force step samples c.filter ≡ Some pair →
        let behind : ChannelState = channel_applied force (given force pair c) in
        filters_of behind.fir behind.iir ≡ filters_of pair.fir pair.iir }
    ensures allowed { (force : ChannelState) (past : Past) (step : ℕ) (filters : Bool)
        (samples : List ℤ) (c : Choice) (n : ℕ) →
        IsChannelState force → cost_of force past step filters samples c ≡ Some n →
        Allowed (group true (channel 0xFF force)) (given_by force step samples c) }
{}
