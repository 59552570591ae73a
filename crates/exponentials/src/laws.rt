//! The laws of bases and of independence, one function each.

ghost use Rattle.std.specs.Prelude.{◌≡◌, ◌<◌, ℕ, List};
ghost use Rattle.algebra.specs.Each.{Each};
ghost use Rattle.exponentials.specs.Base.{Coprime, SameLength, IsTheBase, product};

/// Each list of numbers above zero has just one base, and over it a number has just one list of exponents.
pub fn numbers_have_one_base()
    ensures some { (list : List ℕ) → Each (λ x. 0 < x) list
        → ((base : List ℕ) × IsTheBase list base) }
    ensures one { (list base other : List ℕ) → Each (λ x. 0 < x) list → IsTheBase list base
        → IsTheBase list other → base ≡ other }
    ensures exponents { (base d e : List ℕ) → Coprime base → SameLength base d → SameLength base e
        → product base d ≡ product base e → d ≡ e }
{}
