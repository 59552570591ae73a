//! The laws of counter-runs of equations, each as the contract of a function that does nothing.

ghost use Rattle.std.specs.Prelude.{ℕ, ◌≤◌, List, length};
ghost use Rattle.loops.specs.Program.{Expr, Program};
ghost use Rattle.command_parts.specs.Equations.{Holds, HoldsAfter};
ghost use Rattle.replay_commands.specs.CounterHeadline.{IsQuestion, ShowsCounterRun};

/// An equation that a counter-run is shown of doesn't hold at the end of every run of the same loop.
/// One that doesn't hold there isn't one that holds after each word; no length is told within which a
/// word counters it.
pub fn counter_runs_refute_equations()
    ensures refutes { (text equation said : List ℕ) (n : ℕ) (l : Program (Expr ℕ)) (e : Expr ℕ)
        → ShowsCounterRun text equation n said → IsQuestion text equation l e → Holds l e → ⊥ }
    ensures holds { (l : Program (Expr ℕ)) (e : Expr ℕ)
        → ((n : ℕ) (w : List ℕ) → length w ≤ n → HoldsAfter l e w) → Holds l e }
{}
