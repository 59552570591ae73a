//! The laws of uses between variables, of ranks and classes, one function each.

ghost use Rattle.std.specs.Prelude.{◌≡◌, ◌↔◌, ◌<◌, ℕ, suc, List, [], length};
ghost use Rattle.polynomials.specs.Terms.{Terms};
ghost use Rattle.solvable_maps.specs.Dependency.{IsNonlinearCycle, Ranks};
ghost use Rattle.solvable_maps.specs.Class.{Ready, AreClasses, InClass};
ghost use Rattle.algebra.specs.In.{In};
ghost use Rattle.solvable_maps.specs.Uses.{uses, strongly, IsMap, poly_at, exponent, degree};

/// A map has no cycle exactly where its variables have ranks.
pub fn no_cycle_is_ranks<A>()
    ensures { (m : ℕ) (map : List (Terms A)) → IsMap m map
        → ((vs : List ℕ) → IsNonlinearCycle (uses map) (strongly map) vs → ⊥)
        ↔ ((rank : ℕ → ℕ) × Ranks (uses map) (strongly map) rank) }
{}

/// Where a map has a cycle it has one of at most as many steps as variables.
pub fn cycles_are_short<A>()
    ensures { (m : ℕ) (map : List (Terms A)) → IsMap m map → (vs : List ℕ)
        → IsNonlinearCycle (uses map) (strongly map) vs
        → ((ws : List ℕ) × IsNonlinearCycle (uses map) (strongly map) ws
        × (length ws < suc (suc m))) }
{}

/// While a variable is left some variable is ready, and the classes have one order.
pub fn classes_have_one_order<A>()
    ensures ready { (m : ℕ) (map : List (Terms A)) → IsMap m map → (earlier : List ℕ) (i : ℕ)
        → i < m → (In i earlier → ⊥) → ((j : ℕ) × (j < m) × Ready (uses map) earlier j) }
    ensures one { (m : ℕ) (map : List (Terms A)) → IsMap m map → (gs hs : List (List ℕ))
        → AreClasses (uses map) m [] gs → AreClasses (uses map) m [] hs → gs ≡ hs }
{}

/// Without a cycle a monomial of a variable's polynomial that has a variable of its class has degree 1.
pub fn classes_are_linear<A>()
    ensures { (m : ℕ) (map : List (Terms A)) → IsMap m map
        → ((vs : List ℕ) → IsNonlinearCycle (uses map) (strongly map) vs → ⊥) → (i j : ℕ)
        → InClass (uses map) i j → (t : List ℕ × A) → In t (poly_at map i) → 0 < exponent t.0 j
        → degree t.0 ≡ 1 }
{}
