//! The laws of replays of a loop: what is replayed is a run, one function each.

ghost use Rattle.std.specs.Prelude.{◌≡◌, ◌≢◌, ◌⊎◌, ℕ, List, length, Some, None, Ok, Err};
ghost use Rattle.algebra.specs.Fraction.{Fraction};
ghost use Rattle.loops.specs.Program.{Expr, Program};
ghost use Rattle.loops.specs.Run.{IsStart, run_end, states};
ghost use Rattle.loop_runs.specs.Replay.{count, start, no_branch, wide, replay_of};

/// What is replayed is a run: the numbers are a start, each letter has a branch, and the states are those of the run.
pub fn replays_are_runs<At>()
    ensures start { (program : Program (Expr At)) (s : List Fraction) (word : List ℕ)
        (answer : List (List Fraction)) →
        replay_of program s word ≡ Ok answer → IsStart program s }
    ensures run { (program : Program (Expr At)) (s : List Fraction) (word : List ℕ)
        (answer : List (List Fraction)) →
        replay_of program s word ≡ Ok answer →
        (end : List Fraction) × (run_end program word s ≡ Some end) }
    ensures states { (program : Program (Expr At)) (s : List Fraction) (word : List ℕ)
        (answer : List (List Fraction)) →
        replay_of program s word ≡ Ok answer → answer ≡ states program word s }
{}

/// A run is replayed through its states, or a number on the way doesn't fit.
pub fn runs_are_replayed<At>()
    ensures { (program : Program (Expr At)) (s : List Fraction) (word : List ℕ)
        (end : List Fraction) →
        IsStart program s → run_end program word s ≡ Some end →
        (replay_of program s word ≡ Ok (states program word s))
        ⊎ ((step : ℕ) × (var : ℕ) × (replay_of program s word ≡ Err (wide step var))) }
{}

/// What is refused for another reason than a number that doesn't fit is no run.
pub fn refusals_are_no_runs<At>()
    ensures count { (program : Program (Expr At)) (s : List Fraction) (word : List ℕ)
        (values variables : ℕ) →
        replay_of program s word ≡ Err (count values variables) →
        (values ≡ length s) × (variables ≡ length program.names) × (values ≢ variables) }
    ensures start { (program : Program (Expr At)) (s : List Fraction) (word : List ℕ) (var : ℕ) →
        replay_of program s word ≡ Err (start var) → IsStart program s → ⊥ }
    ensures no_branch { (program : Program (Expr At)) (s : List Fraction) (word : List ℕ)
        (index : ℕ) →
        replay_of program s word ≡ Err (no_branch index) → run_end program word s ≡ None }
{}
