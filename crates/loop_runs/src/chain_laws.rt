//! The laws of replays of loops in sequence, each as the contract of a function that does nothing.

ghost use Rattle.std.specs.Prelude.{◌≡◌, ◌≢◌, ◌⊎◌, ℕ, List, [], ◌∷◌, length, Some, None, Ok, Err};
ghost use Rattle.algebra.specs.Fraction.{Fraction};
ghost use Rattle.loops.specs.Program.{Expr, Program};
ghost use Rattle.loops.specs.Run.{IsStart};
ghost use Rattle.loops.specs.Chain.{Chain, stages_of, chain_end, chain_states};
ghost use Rattle.loop_runs.specs.Replay.{count, start, no_branch, wide, replay_of};
ghost use Rattle.loop_runs.specs.ChainReplay.{chain_replay_of};

/// What is replayed is a run of the chain: the numbers are a start, each letter is the number of a branch of its own loop,
/// and the states are those of the run.
pub fn chain_replays_are_runs<At>()
    ensures { (c : Chain (Expr At)) (s : List Fraction) (words : List (List ℕ))
        (found : List (List Fraction)) → length words ≡ length (stages_of c)
        → chain_replay_of c s words ≡ Ok found
        → IsStart c.first s
        × ((end : List Fraction) × (chain_end c.first (stages_of c) words s ≡ Some end))
        × (found ≡ chain_states c.first (stages_of c) words s) }
{}

/// A run of the chain is replayed through its states, or a number on the way doesn't fit.
pub fn chain_runs_are_replayed<At>()
    ensures { (c : Chain (Expr At)) (s : List Fraction) (words : List (List ℕ))
        (end : List Fraction) → IsStart c.first s
        → chain_end c.first (stages_of c) words s ≡ Some end
        → (chain_replay_of c s words ≡ Ok (chain_states c.first (stages_of c) words s))
        ⊎ ((step : ℕ) × (var : ℕ) × (chain_replay_of c s words ≡ Err (wide step var))) }
{}

/// What is refused for another reason than a number that doesn't fit is no run of the chain.
pub fn chain_refusals_are_no_runs<At>()
    ensures count { (c : Chain (Expr At)) (s : List Fraction) (words : List (List ℕ))
        (values variables : ℕ) → length words ≡ length (stages_of c)
        → chain_replay_of c s words ≡ Err (count values variables) →
        (values ≡ length s) × (variables ≡ length c.first.names) × (values ≢ variables) }
    ensures start { (c : Chain (Expr At)) (s : List Fraction) (words : List (List ℕ)) (var : ℕ)
        → length words ≡ length (stages_of c)
        → chain_replay_of c s words ≡ Err (start var) → IsStart c.first s → ⊥ }
    ensures no_branch { (c : Chain (Expr At)) (s : List Fraction) (words : List (List ℕ))
        (index : ℕ) → length words ≡ length (stages_of c)
        → chain_replay_of c s words ≡ Err (no_branch index)
        → chain_end c.first (stages_of c) words s ≡ None }
{}

/// A chain of one loop is replayed as the loop is.
pub fn chains_of_one_loop_are_replayed_as_loops<At>()
    ensures { (program : Program (Expr At)) (s : List Fraction) (w : List ℕ)
        → chain_replay_of (record { first = program; further = [] }) s (w ∷ [])
        ≡ replay_of program s w }
{}
