//! The law of searches that nothing stops, as the contract of a function that does nothing.
ghost use Rattle.std.specs.Prelude.{◌≡◌, ◌≤◌, ℕ, Ok, codes};
ghost use Rattle.loop_model.specs.Maps.{AreFree};
ghost use Rattle.loop_text.specs.LoopReader.{loop_of};
ghost use Rattle.closing.specs.Worked.{squaring};
ghost use Rattle.closing_commands.specs.declared.evidence.Evidence.{Evidence};
ghost use Rattle.closing_commands.specs.DegreeClauses.{HasLimit, HasWide, IsWithin};

/// The causes of `basis` and `cert` up to a degree are none that every loop meets, and the premises under which they say yes are met, by
/// `vars x; branch { x=x*x; }`, which isn't solvable, up to degree 1: no map and no closing passes a limit, no number may not fit, each sample
/// tells something, no element is missing, and no search goes beyond two units.
pub fn squaring_is_searched()
    ensures reads { loop_of (codes "vars x; branch { x=x*x; }") ≡ Ok squaring }
    ensures free { AreFree squaring }
    ensures limit { ¬ (HasLimit squaring 1) }
    ensures wide { (evidence : Evidence) → ¬ (HasWide squaring 1 evidence) }
    ensures within { (evidence : Evidence) (budget : ℕ) → 2 ≤ budget
        → IsWithin squaring 1 evidence budget }
{}
