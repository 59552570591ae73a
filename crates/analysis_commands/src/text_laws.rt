//! The laws of the texts of bases and refusals, one function each.
ghost use Rattle.std.specs.Prelude.{◌≡◌, ℕ, List, All, length};
ghost use Rattle.algebra.specs.Fraction.{Fraction, ℚ};
ghost use Rattle.polynomials.specs.Order.{grevlex};
ghost use Rattle.polynomials.specs.Polynomial.{IsPolynomial};
ghost use Rattle.polynomials.specs.Terms.{Terms};
ghost use Rattle.loops.specs.Program.{Expr, Program};
ghost use Rattle.machines.specs.Journal.{Journal};
ghost use Rattle.invariant_fix.specs.Refusals.{IsRefused};
ghost use Rattle.invariant_fix.specs.declared.errors.AnalyseError.{AnalyseError};
ghost use Rattle.analysis_commands.specs.Naming.{AreNamed};
ghost use Rattle.command_parts.specs.ReadBack.{IsReadBack};
ghost use Rattle.command_parts.specs.BasisTexts.{basis_text};

/// The variables that a refusal of the analysis of a loop names are the loop's.
pub fn refusals_name_variables()
    ensures { (program : Program (Expr ℕ)) (before after : Journal) (e : AnalyseError)
        → IsRefused program before after e → AreNamed (length program.names) e }
{}

/// Bases that can be read back from their texts are the same where the texts are.
pub fn texts_tell_bases()
    ensures { (names : List (List ℕ)) (gs hs : List (Terms Fraction))
        → All (IsPolynomial ℚ grevlex (length names)) gs
        → All (IsPolynomial ℚ grevlex (length names)) hs
        → IsReadBack names gs → IsReadBack names hs
        → basis_text names gs ≡ basis_text names hs → gs ≡ hs }
{}
