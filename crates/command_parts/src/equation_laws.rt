//! The law that an equation holds exactly where its polynomial is an invariant.

ghost use Rattle.std.specs.Prelude.{◌↔◌, ℕ};
ghost use Rattle.loops.specs.Inv.{Inv};
ghost use Rattle.loops.specs.Program.{Expr, Program};
ghost use Rattle.command_parts.specs.Equations.{polynomial_of, Holds};

/// An equation holds at the end of every run exactly where its polynomial is an invariant.
pub fn equations_hold_where_polynomials_are_invariants()
    ensures { (l : Program (Expr ℕ)) (e : Expr ℕ) → Inv l (polynomial_of l e) ↔ Holds l e }
{}
