//! What holds of the layouts.
ghost use Rattle.mlp_layout.specs.Layout.{IsLayout};
ghost use Rattle.std.specs.Prelude.{◌≡◌, ℕ, List, ◌∷◌};
ghost use Rattle.mlp_params.specs.declared.state.State.{State};
ghost use Rattle.mlp_params.specs.RestartHeader.{restart};
ghost use Rattle.mlp_params.specs.Parameters.{params};
ghost use Rattle.mlp_params.specs.InForce.{in_force};
ghost use Rattle.mlp_params.specs.Applied.{applied};
ghost use Rattle.mlp_syntax.specs.declared.restart.Restart.{Restart};
ghost use Rattle.mlp_syntax.specs.declared.params.Params.{Params};
ghost use Rattle.mlp_syntax.specs.declared.major.Kind.{Kind};

/// What is read as a restart header stands there, and what stands there is read; so it is with what fails.
pub fn law_restart()
    ensures { (format : Kind) → IsLayout (restart format) }
{}

/// So it is with the parameters of a block, whatever is in force before it.
pub fn law_params()
    ensures { (s : State) → IsLayout (params s) }
{}

/// What is in force behind one more block is one step from what was in force before it.
pub fn law_in_force()
    ensures { (format : Kind) (unit_frames : ℕ) (r : Restart) (given : List Params) (p : Params)
        → in_force format unit_frames r (p ∷ given) ≡ applied (in_force format unit_frames r given) p }
{}
