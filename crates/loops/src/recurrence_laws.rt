//! The laws of sequences that are given by recurrences, and of the loop that they are, one function each.

ghost use Rattle.std.specs.Prelude.{◌≡◌, ◌↔◌, ℕ, ◌<◌, ◌+◌, List, get_or, length, replicate, Some};
ghost use Rattle.algebra.specs.Fraction.{Fraction, ℚ};
ghost use Rattle.polynomials.specs.Terms.{Terms};
ghost use Rattle.loops.specs.Program.{Expr};
ghost use Rattle.loops.specs.Run.{IsStart, Run, run_end};
ghost use Rattle.loops.specs.WellFormed.{IsWellFormed};
ghost use Rattle.loops.specs.Sequences.{Sequence, AreFormed, order};
ghost use Rattle.loops.specs.Turning.{program_of, first_places};
ghost use Rattle.loops.specs.Solutions.{window, at_index, IsSolution};
ghost use Rattle.loops.specs.Relations.{values_at_places, IsRelation, IsShown};

/// The loop of well-formed sequences is well formed.
pub fn loops_are_well_formed<At>()
    ensures { (qs : List (Sequence (Expr At))) → AreFormed qs → IsWellFormed (program_of qs) }
{}

/// There are sequences that the recurrences give, and no others.
pub fn recurrences_give_one_solution<At>()
    ensures some { (qs : List (Sequence (Expr At)))
        → ((fs : ℕ → ℕ → Fraction) × IsSolution qs fs) }
    ensures one { (qs : List (Sequence (Expr At))) (fs gs : ℕ → ℕ → Fraction)
        → IsSolution qs fs → IsSolution qs gs
        → (j n : ℕ) → j < length qs → fs j n ≡ gs j n }
{}

/// The end of the run with n letters has at each place of each sequence f its value f(n + i); each run is one of these.
pub fn ends_of_runs_are_windows<At>()
    ensures end { (qs : List (Sequence (Expr At))) → AreFormed qs → (fs : ℕ → ℕ → Fraction)
        → IsSolution qs fs → (s : List Fraction) → IsStart (program_of qs) s → (n : ℕ)
        → run_end (program_of qs) (replicate n 1) s ≡ Some (window fs n qs) }
    ensures word { (qs : List (Sequence (Expr At))) → (r : Run (program_of qs))
        → r.word ≡ replicate (length r.word) 1 }
    ensures place { (qs : List (Sequence (Expr At))) (fs : ℕ → ℕ → Fraction) (n j i : ℕ)
        (q : Sequence (Expr At)) → j < length qs → i < order (get_or qs j q)
        → get_or (window fs n qs) (get_or (first_places 0 qs) j 0 + i) ℚ.zero ≡ fs j (n + i) }
    ensures index { (qs : List (Sequence (Expr At))) (fs : ℕ → ℕ → Fraction) (n : ℕ)
        → values_at_places (first_places 0 qs) (window fs n qs) ≡ at_index fs n qs }
{}

/// The relations of sequences are those of their loop at the places of the sequences themselves.
pub fn relations_are_those_of_the_loop<At>()
    ensures { (qs : List (Sequence (Expr At))) → AreFormed qs → (p : Terms Fraction)
        → IsRelation qs p ↔ IsShown (program_of qs) (first_places 0 qs) p }
{}
