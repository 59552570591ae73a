//! The laws of counter-runs, each as the contract of a function that does nothing.

ghost use Rattle.std.specs.Prelude.{◌≡◌, ◌⊎◌, ◌↔◌, ℕ, ◌<◌, ◌≤◌, List, [], get_or, length, All};
ghost use Rattle.algebra.specs.Fraction.{Fraction, ℚ};
ghost use Rattle.polynomials.specs.Terms.{Terms, Same};
ghost use Rattle.polynomials.specs.Polynomial.{Arity};
ghost use Rattle.polynomials.specs.Weight.{degrees};
ghost use Rattle.loops.specs.Program.{Expr, Program};
ghost use Rattle.loops.specs.Inv.{Inv};
ghost use Rattle.loops.specs.WellFormed.{IsWellFormed};
ghost use Rattle.rounds.specs.Word.{IsLetter};
ghost use Rattle.corollaries.specs.Word.{IsEarlier};
ghost use Rattle.corollaries.specs.Counter.{Counters, IsFirstWord, NoneCounters, IsFirstStart};
ghost use Rattle.corollaries.specs.Point.{IsFirstPoint};
ghost use Rattle.corollaries.specs.Image.{image};

/// A polynomial that isn't 0 has one first point of whole numbers at which it isn't zero, and each
/// of its numbers is at most the degree in that variable.
pub fn nonzero_polynomials_have_first_points()
    ensures some { (m : ℕ) (q : Terms Fraction) → Arity m q → (Same ℚ q [] → ⊥)
        → ((xs : List ℕ) × IsFirstPoint m q xs) }
    ensures one { (m : ℕ) (q : Terms Fraction) (xs ys : List ℕ)
        → IsFirstPoint m q xs → IsFirstPoint m q ys → xs ≡ ys }
    ensures low { (m : ℕ) (q : Terms Fraction) (xs : List ℕ) → Arity m q → IsFirstPoint m q xs
        → (k : ℕ) → get_or xs k 0 ≤ get_or (degrees q) k 0 }
{}

/// Only words of the numbers of branches counter a polynomial, and those exactly whose image isn't
/// 0. So it is decided of each word.
pub fn images_decide<At>()
    ensures letters { (program : Program (Expr At)) (p : Terms Fraction) (w : List ℕ)
        → Counters program p w → All (IsLetter program) w }
    ensures image { (program : Program (Expr At)) → IsWellFormed program
        → (p : Terms Fraction) → Arity (length program.names) p → (w : List ℕ)
        → All (IsLetter program) w
        → Counters program p w ↔ (Same ℚ (image program p w) [] → ⊥) }
    ensures decided { (program : Program (Expr At)) → IsWellFormed program
        → (p : Terms Fraction) → Arity (length program.names) p → (w : List ℕ)
        → Counters program p w ⊎ (Counters program p w → ⊥) }
{}

/// A word that counters a polynomial has one first start, which is the first point of its image. So
/// each of its numbers is at most the image's degree in that variable.
pub fn countering_words_have_first_starts<At>()
    ensures some { (program : Program (Expr At)) → IsWellFormed program
        → (p : Terms Fraction) → Arity (length program.names) p → (w : List ℕ)
        → Counters program p w → ((xs : List ℕ) × IsFirstStart program p w xs) }
    ensures one { (program : Program (Expr At)) (p : Terms Fraction) (w xs ys : List ℕ)
        → IsFirstStart program p w xs → IsFirstStart program p w ys → xs ≡ ys }
    ensures point { (program : Program (Expr At)) → IsWellFormed program
        → (p : Terms Fraction) → Arity (length program.names) p → (w xs : List ℕ)
        → All (IsLetter program) w → IsFirstStart program p w xs
        ↔ IsFirstPoint (length program.names) (image program p w) xs }
{}

/// Words stand in one order, so only one is the first that counters.
pub fn words_have_one_order<At>()
    ensures itself { (w : List ℕ) → IsEarlier w w → ⊥ }
    ensures total { (v w : List ℕ) → IsEarlier v w ⊎ ((v ≡ w) ⊎ IsEarlier w v) }
    ensures first { (program : Program (Expr At)) (p : Terms Fraction) (v w : List ℕ)
        → IsFirstWord program p v → IsFirstWord program p w → v ≡ w }
{}

/// A polynomial that a word counters is no invariant. One in the program's variables is an
/// invariant exactly where no word of any length counters it: so one that is none isn't free of
/// such words, but no length within which there is one is told.
pub fn counter_runs_refute_invariants<At>()
    ensures refutes { (program : Program (Expr At)) (p : Terms Fraction) (w : List ℕ)
        → Counters program p w → Inv program p → ⊥ }
    ensures invariant { (program : Program (Expr At)) (p : Terms Fraction)
        → Arity (length program.names) p
        → Inv program p ↔ ((n : ℕ) → NoneCounters program p n) }
{}
