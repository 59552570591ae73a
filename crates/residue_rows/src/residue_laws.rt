//! The law of fractions that are told by their residues.
ghost use Rattle.std.specs.Prelude.{◌≡◌, ℤ};
ghost use Rattle.algebra.specs.Fraction.{Fraction};
ghost use Rattle.residue_rows.specs.Limited.{IsFractionOf};

/// A residue modulo 2^127 - 1 is that of at most one fraction with numerator and denominator of at most 2^62.
pub fn residues_tell_fractions()
    ensures { (f g : Fraction) (a : ℤ) → IsFractionOf f a → IsFractionOf g a → f ≡ g }
{}
