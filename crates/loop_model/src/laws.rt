//! The laws of loops and of their maps, as the contracts of functions that do nothing.

ghost use Rattle.std.specs.Prelude.{◌≡◌, ℕ, List, [], length, map, get_or};
ghost use Rattle.algebra.specs.Fraction.{Fraction, ℚ};
ghost use Rattle.polynomials.specs.Terms.{value_at};
ghost use Rattle.loops.specs.Effect.{start_from};
ghost use Rattle.loops.specs.Run.{effect, IsState};
ghost use Rattle.loops.specs.Map.{start_map, branch_map};
ghost use Rattle.loops.specs.WellFormed.{IsWellFormed};
ghost use Rattle.loops.specs.Limits.{IsWithinLimits};
ghost use Rattle.poly.specs.Seen.{terms_in};
ghost use Rattle.poly.specs.Standing.{AllStandFor};
ghost use Rattle.loop_model.specs.FracPoly.{FracPoly};
ghost use Rattle.loop_model.specs.View.{program_of};
ghost use Rattle.loop_model.specs.declared.loop_.Loop.{Loop};

/// The values at a state of polynomials that stand for a map are what the branch does there, and what `start_from` makes of the state.
pub fn maps_are_effects()
    ensures branch { (lp : Loop) (index : ℕ) (maps : List FracPoly) (s : List Fraction) →
        let program = program_of lp in let branch = get_or program.branches index [] in
        AllStandFor (length program.names) maps (branch_map program branch) → IsState program s →
        map (λ p. value_at ℚ (terms_in p) s) maps ≡ effect program branch s }
    ensures start { (lp : Loop) (maps : List FracPoly) (s : List Fraction)
        → let program = program_of lp in
        AllStandFor (length program.names) maps (start_map program) → IsState program s →
        map (λ p. value_at ℚ (terms_in p) s) maps ≡ start_from ℚ (λ c. c) program s }
{}

/// Each loop is well formed and within the limits of texts.
pub fn loops_are_well_formed()
    ensures formed { (lp : Loop) → IsWellFormed (program_of lp) }
    ensures limited { (lp : Loop) → IsWithinLimits (program_of lp) }
{}
