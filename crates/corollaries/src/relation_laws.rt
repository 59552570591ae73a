//! The laws of relations, one function each.

ghost use Rattle.std.specs.Prelude.{◌≡◌, ◌↔◌, ℕ, ◌+◌, ◌≤◌, List, map, length};
ghost use Rattle.algebra.specs.Fraction.{Fraction, rationals, ℚ};
ghost use Rattle.polynomials.specs.Order.{grevlex};
ghost use Rattle.polynomials.specs.Polynomial.{Arity, IsPolynomial};
ghost use Rattle.polynomials.specs.Terms.{Terms};
ghost use Rattle.ideals.specs.Members.{IsMember};
ghost use Rattle.machines.specs.Elimination.{in_front};
ghost use Rattle.machines.specs.Journal.{Entry, units_of};
ghost use Rattle.machines.specs.Reduced.{IsReducedFor};
ghost use Rattle.loops.specs.Program.{Expr, Program};
ghost use Rattle.loops.specs.WellFormed.{IsWellFormed};
ghost use Rattle.rounds.specs.Journal.{IsFinished};
ghost use Rattle.loops.specs.Sequences.{Sequence, AreFormed};
ghost use Rattle.loops.specs.Turning.{program_of, first_places};
ghost use Rattle.loops.specs.Relations.{IsRelation, IsShown};
ghost use Rattle.corollaries.specs.Order.{hidden, visible, in_order};
ghost use Rattle.corollaries.specs.Journal.{IsEnded, IsOut};

/// Of a list that generates the invariants: what has only the variables that are shown, in the ideal of the list with its variables in order, is what is zero there at the end of every run.
pub fn ordered_lists_have_the_relations<At>()
    ensures { (program : Program (Expr At)) → IsWellFormed program → (is : List ℕ)
        (es : List Entry) (k : ℕ) (gs : List (Terms Fraction)) → IsFinished program es k gs
        → let m = length program.names in (p : Terms Fraction) → Arity (length (visible m is)) p
        → IsMember ℚ (length (hidden m is) + length (visible m is)) (map (in_order m is) gs)
        (in_front (length (hidden m is)) p)
        ↔ IsShown program (visible m is) p }
{}

/// The list of a journal that has ended is the one reduced basis of what is zero at the end of every run, and generates it.
pub fn ended_journals_have_the_basis<At>()
    ensures basis { (program : Program (Expr At)) → IsWellFormed program → (is : List ℕ)
        (es : List Entry) (hs : List (Terms Fraction)) → IsEnded program is es hs
        → let v = visible (length program.names) is in
        IsReducedFor rationals grevlex (length v) hs (IsShown program v) }
    ensures generates { (program : Program (Expr At)) → IsWellFormed program → (is : List ℕ)
        (es : List Entry) (hs : List (Terms Fraction)) → IsEnded program is es hs
        → let v = visible (length program.names) is in (p : Terms Fraction)
        → IsPolynomial ℚ grevlex (length v) p → IsMember ℚ (length v) hs p ↔ IsShown program v p }
    ensures one { (program : Program (Expr At)) → IsWellFormed program → (is : List ℕ)
        (es : List Entry) (hs ks : List (Terms Fraction)) → IsEnded program is es hs
        → let v = visible (length program.names) is in
        IsReducedFor rationals grevlex (length v) ks (IsShown program v) → ks ≡ hs }
{}

/// Of sequences: it is the one reduced basis of exactly their relations, and generates them.
pub fn ended_journals_have_the_relations<At>()
    ensures basis { (qs : List (Sequence (Expr At))) → AreFormed qs → (es : List Entry)
        (hs : List (Terms Fraction)) → IsEnded (program_of qs) (first_places 0 qs) es hs
        → IsReducedFor rationals grevlex (length qs) hs (IsRelation qs) }
    ensures generates { (qs : List (Sequence (Expr At))) → AreFormed qs → (es : List Entry)
        (hs : List (Terms Fraction)) → IsEnded (program_of qs) (first_places 0 qs) es hs
        → (p : Terms Fraction) → IsPolynomial ℚ grevlex (length qs) p
        → IsMember ℚ (length qs) hs p ↔ IsRelation qs p }
    ensures one { (qs : List (Sequence (Expr At))) → AreFormed qs → (es : List Entry)
        (hs ks : List (Terms Fraction)) → IsEnded (program_of qs) (first_places 0 qs) es hs
        → IsReducedFor rationals grevlex (length qs) ks (IsRelation qs) → ks ≡ hs }
{}

/// Journals are beginnings of one: none runs out of a budget that an ended one keeps within.
pub fn journals_are_beginnings_of_one<At>()
    ensures { (program : Program (Expr At)) (is : List ℕ) (es fs : List Entry) (n : ℕ)
        (hs : List (Terms Fraction)) → IsEnded program is es hs → units_of es ≤ n
        → IsOut program is n fs → ⊥ }
{}
