//! The laws of programs, their maps, runs, invariants and certificates, one function each.

ghost use Rattle.std.specs.Prelude.{◌≡◌, ◌≢◌, ◌↔◌, ℕ, suc, ◌+◌, ◌<◌, List, [], ◌++◌, map, get_or, take, length, All};
ghost use Rattle.algebra.specs.Fraction.{Fraction, ℚ};
ghost use Rattle.polynomials.specs.Terms.{Terms, Same, constant, times, value_at};
ghost use Rattle.polynomials.specs.Polynomial.{Arity};
ghost use Rattle.loops.specs.Program.{Expr, Program, Statement, Equation};
ghost use Rattle.loops.specs.Effect.{after_branch, start_from};
ghost use Rattle.loops.specs.Run.{effect, run_end, IsState, IsStart, Run, states};
ghost use Rattle.loops.specs.Inv.{Inv};
ghost use Rattle.loops.specs.Map.{branch_map, start_map};
ghost use Rattle.loops.specs.Expressions.{in_one, without_locals};
ghost use Rattle.loops.specs.Certificate.{Certificate, SameCertificate, Verdict, IsValid, IsVerdict, IsOver, element};
ghost use Rattle.loops.specs.WellFormed.{IsStatement, local_places, SetsFirst, IsWellFormed};

/// The values of the maps at a state are the state after the branch, and what `start_from` makes of the state.
pub fn maps_are_effects<At>()
    ensures branch { (program : Program (Expr At)) (branch : List (Statement (Expr At)))
        (s : List Fraction) → IsState program s
        → map (λ p. value_at ℚ p s) (branch_map program branch) ≡ effect program branch s }
    ensures start { (program : Program (Expr At)) (s : List Fraction) → IsState program s
        → map (λ p. value_at ℚ p s) (start_map program) ≡ start_from ℚ (λ c. c) program s }
{}

/// Where a branch sets each local name before it uses it, the variables after it don't depend on what the local names were. Without local
/// names an effect is what the statements do.
pub fn local_names_need_no_value<At>()
    ensures value { (program : Program (Expr At)) (branch : List (Statement (Expr At)))
        (s l : List Fraction) → let m = length program.names in let k = length program.locals in
        All (IsStatement (m + k)) branch → SetsFirst (local_places m k) branch
        → IsState program s → length l ≡ k
        → take m (after_branch ℚ (λ c. c) branch (s ++ l)) ≡ effect program branch s }
    ensures none { (program : Program (Expr At)) (branch : List (Statement (Expr At)))
        (s : List Fraction) → length program.locals ≡ 0 → IsState program s
        → effect program branch s ≡ after_branch ℚ (λ c. c) branch s }
{}

/// A program has the effects, the runs and the invariants of the one without local names in which each branch sets the variables to the
/// expressions that they stand for at its end.
pub fn local_names_stand_for_expressions<At>()
    ensures effect { (program : Program (Expr At)) (branch : List (Statement (Expr At)))
        (s : List Fraction) → IsState program s
        → effect (without_locals program) (in_one program branch) s ≡ effect program branch s }
    ensures run { (program : Program (Expr At)) (word : List ℕ) (s : List Fraction)
        → IsState program s
        → run_end (without_locals program) word s ≡ run_end program word s }
    ensures invariants { (program : Program (Expr At)) (p : Terms Fraction)
        → Inv program p ↔ Inv (without_locals program) p }
    ensures formed { (program : Program (Expr At)) → 0 < length program.names
        → IsWellFormed program → IsWellFormed (without_locals program) }
{}

/// `start_from` makes a start of each state, each start is made of itself, and its free variables alone decide it.
pub fn starts_are_made_of_free_variables<At>()
    ensures made { (program : Program (Expr At)) → IsWellFormed program → (s : List Fraction)
        → IsState program s → IsStart program (start_from ℚ (λ c. c) program s) }
    ensures itself { (program : Program (Expr At)) (s : List Fraction) → IsStart program s
        → start_from ℚ (λ c. c) program s ≡ s }
    ensures free { (program : Program (Expr At)) → IsWellFormed program → (s t : List Fraction)
        → IsState program s → IsState program t
        → ((i : ℕ) → All (λ (e : Equation (Expr At)). i ≢ e.name) program.init
        → get_or s i ℚ.zero ≡ get_or t i ℚ.zero)
        → start_from ℚ (λ c. c) program s ≡ start_from ℚ (λ c. c) program t }
{}

/// The end of a run is a state, and the last of the run's states, of which there is one more than letters.
pub fn runs_go_through_states<At>()
    ensures end { (program : Program (Expr At)) (r : Run program) → IsState program r.end }
    ensures count { (program : Program (Expr At)) (r : Run program)
        → length (states program r.word r.start) ≡ suc (length r.word) }
    ensures last { (program : Program (Expr At)) (r : Run program) (d : List Fraction)
        → get_or (states program r.word r.start) (length r.word) d ≡ r.end }
{}

/// Each listed polynomial of a valid certificate is an invariant.
pub fn certificates_list_invariants<At>()
    ensures { (program : Program (Expr At)) (c : Certificate) → IsOver program c → IsValid program c
        → (i : ℕ) → i < length c.basis → Inv program (element c i) }
{}

/// Each certificate has exactly one verdict, and certificates with the same polynomials have the same one.
pub fn certificates_have_one_verdict<At>()
    ensures some { (program : Program (Expr At)) (c : Certificate)
        → ((v : Verdict) × IsVerdict program c v) }
    ensures one { (program : Program (Expr At)) (c : Certificate) (v w : Verdict)
        → IsVerdict program c v → IsVerdict program c w → v ≡ w }
    ensures same { (program : Program (Expr At)) (c d : Certificate) (v : Verdict)
        → IsOver program c → IsOver program d → SameCertificate c d → IsVerdict program c v
        → IsVerdict program d v }
{}

/// The invariants are an ideal of polynomials, and one is none of a well-formed program.
pub fn invariants_are_an_ideal<At>()
    ensures same { (program : Program (Expr At)) (p q : Terms Fraction)
        → Arity (length program.names) q → Same ℚ p q → Inv program p → Inv program q }
    ensures zero { (program : Program (Expr At)) → Inv program [] }
    ensures sum { (program : Program (Expr At)) (p q : Terms Fraction) → Inv program p
        → Inv program q → Inv program (p ++ q) }
    ensures multiple { (program : Program (Expr At)) (p q : Terms Fraction)
        → Arity (length program.names) p → Inv program q → Inv program (times ℚ p q) }
    ensures one { (program : Program (Expr At)) → IsWellFormed program
        → Inv program (constant (length program.names) ℚ.one) → ⊥ }
{}
