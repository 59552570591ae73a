//! The law that the causes of refusals are none that every polynomial meets, as the contract of a
//! function that does nothing.

ghost use Rattle.std.specs.Prelude.{ℕ, List, []};
ghost use Rattle.loops.specs.Program.{Expr, Program};
ghost use Rattle.counter_run.specs.Costs.{IsTooCostly};
ghost use Rattle.counter_run.specs.Causes.{IsLimitWord};
ghost use Rattle.counter_run.specs.Answers.{IsNone, IsWideCause};

/// For the polynomial 0 no word passes a limit, none costs too much, and none has a number that may not
/// fit: it is answered that no word counters it, where the loop's maps can be formed.
pub fn zero_is_refused_for_no_word()
    ensures limit { (program : Program (Expr ℕ)) (w : List ℕ) → IsLimitWord program [] w → ⊥ }
    ensures cost { (program : Program (Expr ℕ)) (n : ℕ) (w : List ℕ)
        → IsTooCostly program [] n w → ⊥ }
    ensures wide { (program : Program (Expr ℕ)) (n : ℕ) (w : List ℕ)
        → IsWideCause program [] n w → ⊥ }
    ensures none { (program : Program (Expr ℕ)) (n : ℕ) → IsNone program [] n }
{}
