//! The laws of closures, each as the contract of a function that does nothing.

ghost use Rattle.std.specs.Prelude.{◌≡◌, ◌↔◌, ◌≤◌, ℕ, ℤ, pos, ◌+ℤ◌, ◌*ℤ◌, List, [], ◌∷◌, map, length, sum, None};
ghost use Rattle.algebra.specs.Each.{Each};
ghost use Rattle.algebra.specs.Ring.{operations};
ghost use Rattle.algebra.proofs.IntRing.{ℤ_ring};
ghost use Rattle.algebra.specs.Fraction.{Fraction, ℚ, rationals};
ghost use Rattle.polynomials.specs.Terms.{Terms, monomial_at};
ghost use Rattle.polynomials.specs.Order.{grevlex};
ghost use Rattle.polynomials.specs.Polynomial.{Arity, AllArity, IsPolynomial};
ghost use Rattle.ideals.specs.Members.{IsMember};
ghost use Rattle.machines.specs.Journal.{Entry, units_of};
ghost use Rattle.machines.specs.Run.{IsRun, HasEnded};
ghost use Rattle.machines.specs.Collect.{collect};
ghost use Rattle.machines.specs.Division as division;
ghost use Rattle.machines.specs.Reduced.{IsReducedFor};
ghost use Rattle.loops.specs.Program.{Expr, Program};
ghost use Rattle.loops.specs.Inv.{Inv};
ghost use Rattle.loops.specs.WellFormed.{IsWellFormed};
ghost use Rattle.rounds.specs.Round.{IsClosed};
ghost use Rattle.rounds.specs.Journal.{IsAnswered};
ghost use Rattle.rounds.specs.Results.{LeadsTo};
ghost use Rattle.rounds.specs.Word.{IsLetter, after_iteration};
ghost use Rattle.corollaries.specs.Counter.{IsFirstWord};
ghost use Rattle.closures.specs.Follows.{IsOut};
ghost use Rattle.closures.specs.Closing.{State, Step, fresh, move_of, moves, Candidate, closed, countered};
ghost use Rattle.closures.specs.Ends.{HoldsAt, ComesNext, IsClosure, IsFirstCounter};
ghost use Rattle.closures.specs.Monomials.{monomials_up_to, AreAscending, AreMonomialsUpTo};
ghost use Rattle.closures.specs.Modulo.{IsMultiple, AreCongruent, IsResidueOf, AreResidues, IsSampleRow, IsIndependentModulo, IsTriangularFrom, IsCombinationModulo};
ghost use Rattle.closures.specs.UpTo.{low_part, AreDistinct, AreTidy, HasStandard, HasNoCombination, IsReducedUpTo};
ghost use Rattle.loops.specs.Certificate.{Certificate, IsValid};
ghost use Rattle.closures.specs.Certified.{IsProofBy};
ghost use Rattle.closures.specs.Closure.{InClosure, GeneratesClosure, IsIdeal, IsClosedUnderBranches, IsZeroFromStart};

/// The closure of a list is an ideal that has the list and that each branch leads into itself, and it lies in each such ideal: those that a list generates, and that of all invariants.
pub fn closures_are_least<At>()
    ensures has { (program : Program (Expr At)) (P : List (Terms Fraction))
        → AllArity (length program.names) P → Each (InClosure program P) P }
    ensures ideal { (program : Program (Expr At)) (P : List (Terms Fraction))
        → AllArity (length program.names) P
        → IsIdeal (length program.names) (InClosure program P) }
    ensures kept { (program : Program (Expr At)) (P : List (Terms Fraction))
        → AllArity (length program.names) P → IsClosedUnderBranches program (InClosure program P) }
    ensures least { (program : Program (Expr At)) (P gs : List (Terms Fraction))
        → AllArity (length program.names) P → AllArity (length program.names) gs
        → IsClosed program gs → Each (IsMember ℚ (length program.names) gs) P
        → (q : Terms Fraction) → InClosure program P q
        → IsMember ℚ (length program.names) gs q }
    ensures invariants { (program : Program (Expr At)) (P : List (Terms Fraction))
        → Each (Inv program) P → (q : Terms Fraction) → InClosure program P q → Inv program q }
{}

/// All of a list are invariants exactly where each member of its closure, composed with the start map, is 0, and exactly where each of one list that generates the closure is.
pub fn closures_decide_invariants<At>()
    ensures members { (program : Program (Expr At)) → IsWellFormed program
        → (P : List (Terms Fraction)) → AllArity (length program.names) P
        → Each (Inv program) P
        ↔ ((q : Terms Fraction) → InClosure program P q → IsZeroFromStart program q) }
    ensures generators { (program : Program (Expr At)) → IsWellFormed program
        → (P gs : List (Terms Fraction)) → AllArity (length program.names) P
        → GeneratesClosure program P gs
        → Each (Inv program) P ↔ Each (IsZeroFromStart program) gs }
{}

/// While a candidate of a closing is divided, the list is a reduced basis of members of the closure that are 0 at the starts; while it is completed, its elements are 0 at the starts. The ideal of the list that divides has all that became of the polynomials in the words before the candidate's, and the candidate differs from what it comes from by a member.
pub fn closings_keep_what_becomes<At>()
    ensures { (program : Program (Expr At)) (P : List (Terms Fraction))
        → Each (IsPolynomial ℚ grevlex (length program.names)) P
        → (es : List Entry) (s : State) → IsRun (moves program P) fresh es s
        → HoldsAt program P s }
{}

/// A closing that ends with a list has found the reduced basis of the closure: so all that it began with are invariants. One that ends with a candidate has found the first word that counters one of them.
pub fn closings_decide<At>()
    ensures closed { (program : Program (Expr At)) (P : List (Terms Fraction))
        → Each (IsPolynomial ℚ grevlex (length program.names)) P
        → (es : List Entry) (gs : List (Terms Fraction)) → ComesNext program P es (closed gs)
        → IsClosure program P gs }
    ensures invariants { (program : Program (Expr At)) (P : List (Terms Fraction))
        → Each (IsPolynomial ℚ grevlex (length program.names)) P
        → (es : List Entry) (gs : List (Terms Fraction)) → ComesNext program P es (closed gs)
        → Each (Inv program) P }
    ensures countered { (program : Program (Expr At)) (P : List (Terms Fraction))
        → Each (IsPolynomial ℚ grevlex (length program.names)) P
        → (es : List Entry) (x : Candidate) (q : Terms Fraction)
        → ComesNext program P es (countered x q) → IsFirstCounter program P x q }
    ensures first { (program : Program (Expr At)) → IsWellFormed program
        → (p : Terms Fraction) → IsPolynomial ℚ grevlex (length program.names) p
        → (es : List Entry) (x : Candidate) (q : Terms Fraction)
        → ComesNext program (p ∷ []) es (countered x q) → IsFirstWord program p x.word }
{}

/// Invariants with distinct leads, of degree at most d, no term of which another's lead divides, are the part of the reduced basis of all invariants up to d, where the monomials that no lead divides have no combination that is an invariant.
pub fn standard_monomials_tell_the_reduced_list<At>()
    ensures { (program : Program (Expr At)) (d : ℕ) (gs : List (Terms Fraction))
        (es : List (List ℕ)) → Each (Inv program) gs → AreTidy (length program.names) d gs
        → HasStandard (length program.names) d gs es
        → HasNoCombination (length program.names) es (Inv program)
        → IsReducedUpTo (length program.names) d gs (Inv program) }
{}

/// Where the rows of the values of distinct monomials, at the ends of some runs, are independent modulo a number above 1, no combination of these monomials but 0 is an invariant.
pub fn independent_rows_leave_no_combination<At>()
    ensures { (program : Program (Expr At)) (k : ℕ) → 2 ≤ k → (es : List (List ℕ))
        → AreDistinct es → (rows : List (List ℤ))
        → Each (IsSampleRow program (pos k) es) rows
        → IsIndependentModulo (pos k) (length es) rows
        → HasNoCombination (length program.names) es (Inv program) }
{}

/// Rows are independent modulo a number where rows in echelon, whose pivots have inverses modulo it, are combinations of them.
pub fn pivots_make_rows_independent()
    ensures { (q : ℤ) (rows stored : List (List ℤ)) → IsTriangularFrom q 0 stored
        → Each (IsCombinationModulo q rows) stored
        → IsIndependentModulo q (length stored) rows }
{}

/// Residues add up and multiply, so the values of monomials at a state have those of the state's numbers.
pub fn residues_compute()
    ensures sum { (q : ℤ) (f g : Fraction) (a b : ℤ) → IsResidueOf q f a → IsResidueOf q g b
        → IsResidueOf q (ℚ.add f g) (a +ℤ b) }
    ensures product { (q : ℤ) (f g : Fraction) (a b : ℤ) → IsResidueOf q f a → IsResidueOf q g b
        → IsResidueOf q (ℚ.mul f g) (a *ℤ b) }
    ensures zero { (q a : ℤ) → IsResidueOf q ℚ.zero a → IsMultiple q a }
    ensures row { (q : ℤ) (s : List Fraction) (xs : List ℤ) → AreResidues q s xs
        → (es : List (List ℕ)) → AreResidues q (map (monomial_at ℚ s) es)
        (map (monomial_at (operations ℤ_ring) xs) es) }
{}

/// The residues of a fraction are the numbers that are congruent to one of them.
pub fn residues_are_congruent()
    ensures same { (q : ℤ) (f : Fraction) (a b : ℤ) → IsResidueOf q f a → AreCongruent q a b
        → IsResidueOf q f b }
    ensures agree { (q : ℤ) (f : Fraction) (a b : ℤ) → IsResidueOf q f a → IsResidueOf q f b
        → AreCongruent q a b }
{}

/// The monomials up to a degree are all that have at most this degree, in ascending order; so each stands there once.
pub fn monomials_up_to_a_degree_are_all()
    ensures all { (m d : ℕ) → AreMonomialsUpTo m d (monomials_up_to m d) }
    ensures distinct { (es : List (List ℕ)) → AreAscending es → AreDistinct es }
{}

/// A closing has one end, with one journal, and where it ends within a budget it is never out of it. That of one polynomial ends with a list only for an invariant and with a candidate only for none: so it agrees with the division by the basis of all invariants. By its list the division of what an iteration makes of a member ends with nothing.
pub fn closings_have_one_end<At>()
    ensures one { (program : Program (Expr At)) (P : List (Terms Fraction))
        (es fs : List Entry) (a b : Step) → move_of program P a ≡ None
        → move_of program P b ≡ None → ComesNext program P es a → ComesNext program P fs b
        → (es ≡ fs) × (a ≡ b) }
    ensures enough { (program : Program (Expr At)) (P : List (Terms Fraction))
        (es fs : List Entry) (a : Step) (n : ℕ) → move_of program P a ≡ None
        → ComesNext program P es a → units_of es ≤ n → IsOut program P n fs → ⊥ }
    ensures refuted { (program : Program (Expr At)) → IsWellFormed program
        → (p : Terms Fraction) → IsPolynomial ℚ grevlex (length program.names) p
        → (es : List Entry) (x : Candidate) (q : Terms Fraction)
        → ComesNext program (p ∷ []) es (countered x q) → ¬ (Inv program p) }
    ensures agrees { (program : Program (Expr At)) → IsWellFormed program
        → (p : Terms Fraction) → IsPolynomial ℚ grevlex (length program.names) p
        → (es fs : List Entry) (k : ℕ) (bs gs : List (Terms Fraction))
        (s : division.State Fraction) (x : Candidate) (q : Terms Fraction)
        → IsAnswered program p es k bs s
        → (ComesNext program (p ∷ []) fs (closed gs) → s.current ≡ None)
        × (ComesNext program (p ∷ []) fs (countered x q) → ¬ (s.current ≡ None)) }
    ensures divisions { (program : Program (Expr At)) (P : List (Terms Fraction))
        → Each (IsPolynomial ℚ grevlex (length program.names)) P → (es : List Entry)
        (gs : List (Terms Fraction)) → ComesNext program P es (closed gs) → (b : ℕ)
        → IsLetter program b → (q : Terms Fraction) → Arity (length program.names) q
        → IsMember ℚ (length program.names) gs q → (s : division.State Fraction)
        → LeadsTo (division.next rationals grevlex gs)
        (division.initial_state gs (collect rationals grevlex (after_iteration program b q))) s
        → HasEnded (division.next rationals grevlex gs) s → s.current ≡ None }
{}

/// The certificate of a closing is valid: members of the ideal of its list, which stands among them, with the cofactors of their divisions at its places.
pub fn closings_have_certificates<At>()
    ensures { (program : Program (Expr At)) (P : List (Terms Fraction))
        → Each (IsPolynomial ℚ grevlex (length program.names)) P → (es : List Entry)
        (gs : List (Terms Fraction)) → ComesNext program P es (closed gs) → (ks : List ℕ)
        (c : Certificate) → IsProofBy program gs ks c → IsValid program c }
{}

/// A search that ends with a closing has found the part of the reduced basis of all invariants up to the degree: its elements are closed, and the standard monomials have rows at ends of runs that pivots show independent modulo a number.
pub fn closed_searches_find_the_reduced_list<At>()
    ensures { (program : Program (Expr At)) (d : ℕ) (P : List (Terms Fraction))
        → AreTidy (length program.names) d P → (journal : List Entry)
        (gs : List (Terms Fraction)) → ComesNext program P journal (closed gs)
        → (es : List (List ℕ)) → HasStandard (length program.names) d P es → AreDistinct es
        → (k : ℕ) → 2 ≤ k → (rows stored : List (List ℤ))
        → Each (IsSampleRow program (pos k) es) rows → IsTriangularFrom (pos k) 0 stored
        → Each (IsCombinationModulo (pos k) rows) stored → length stored ≡ length es
        → IsReducedUpTo (length program.names) d P (Inv program) }
{}

/// The list that is reduced up to a degree is one, and of a reduced basis its elements up to the degree are it. Those of two loops over as many
/// variables are the same exactly where the invariants up to the degree are.
pub fn lists_up_to_a_degree_are_one<At>()
    ensures one { (program : Program (Expr At)) (d : ℕ) (gs hs : List (Terms Fraction))
        → IsReducedUpTo (length program.names) d gs (Inv program)
        → IsReducedUpTo (length program.names) d hs (Inv program) → gs ≡ hs }
    ensures low { (program : Program (Expr At)) (d : ℕ) (bs : List (Terms Fraction))
        → IsReducedFor rationals grevlex (length program.names) bs (Inv program)
        → IsReducedUpTo (length program.names) d (low_part d bs) (Inv program) }
    ensures same { (program other : Program (Expr At)) (d : ℕ) (gs hs : List (Terms Fraction))
        → length program.names ≡ length other.names
        → IsReducedUpTo (length program.names) d gs (Inv program)
        → IsReducedUpTo (length other.names) d hs (Inv other)
        → (gs ≡ hs) ↔ ((p : Terms Fraction) → Each (λ t. sum t.0 ≤ d) p
        → Inv program p ↔ Inv other p) }
{}
