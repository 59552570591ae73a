//! The elements that an echelon form of rows of values tells: for each monomial that isn't standard, it less the combination of standard monomials that has its column.
ghost use Rattle.std.specs.Prelude.{◌≡◌, ◌≢◌, ◌≤◌, ◌<◌, ℕ, ℤ, List, [], pos, length, map, All, IfOk, OnOk, IsErrOf};
ghost use Rattle.algebra.specs.Each.{Each};
ghost use Rattle.algebra.specs.Fraction.{Fraction, ℚ};
ghost use Rattle.polynomials.specs.Terms.{Terms};
ghost use Rattle.polynomials.specs.Order.{grevlex};
ghost use Rattle.polynomials.specs.Polynomial.{IsPolynomial};
ghost use Rattle.machines.specs.Cut.{lead_of};
ghost use Rattle.closures.specs.Monomials.{AreAscending, AreMonomialsUpTo};
ghost use Rattle.closures.specs.UpTo.{AreTidy, HasStandard};
ghost use Rattle.monos.specs.Variables.{most_variables};
ghost use Rattle.frac128.specs.FracMeaning.{fraction_of as meaning_of};
ghost use Rattle.poly.specs.Seen.{terms_in, terms_each};
ghost use Rattle.poly.specs.View.{terms_of};
ghost use Rattle.residue_rows.specs.Modulus.{modulus};
ghost use Rattle.residue_rows.specs.EchelonForm.{entry, IsEchelonOf, IsReducedEchelon};
ghost use Rattle.residue_rows.specs.Numbers.{numbers_of};
ghost use Rattle.residue_rows.specs.ElementParts.{IsElementOf, IsElementTo, LeadsElement, IsUntold, IsFirstUntold, IsPushed, HasNoFraction, has_divisor};
ghost use Rattle.residue_rows.specs.Elements.{IsValueRow, IsZeroRow, IsCandidate, standard_in};

use crate::echelon::{Echelon, LedRow};
use crate::reconstruction::fraction_of;
use frac128::Frac;
use monos::{Grevlex, Mono};
use poly::{Poly, Term};
use ring_laws::Ring;
use std::alloc::{AllocError, AllocFailed, Global};
use thiserror::Error;

/// Why the elements were not made.
#[derive(Clone, Copy, Debug, PartialEq, Eq, Error)]
pub enum ElementsError {
    /// A number of the element whose lead is the monomial at this place has no fraction with numerator and denominator of at most 2^62.
    #[error("a number of the element with the lead at place {lead} is too wide")]
    Wide { lead: usize },
    #[error("out of memory")]
    Memory,
}

impl From<AllocError> for ElementsError {
    ghost use Rattle.residue_rows.specs.declared.elements.ElementsError.TheVariants.{Memory};

    ghost from_gives = { λ _ e. e ≡ Memory };

    fn from(_: AllocError) -> ElementsError {
        ElementsError::Memory
    }
}

impl<T: Drop> From<AllocFailed<T>> for ElementsError {
    ghost use Rattle.residue_rows.specs.declared.elements.ElementsError.TheVariants.{Memory};

    ghost from_gives = { λ _ e. e ≡ Memory };

    fn from(_: AllocFailed<T>) -> ElementsError {
        ElementsError::Memory
    }
}

/// The elements that the form tells, each with another lead, in ascending order of these: of the monomials in which no row leads those that no lead before divides.
/// `monomials` are those of the columns, in ascending order.
/// `Wide { lead }` only where the monomial at that place is the first that leads an element of which a number has no limited fraction; no polynomial with this lead, of standard monomials besides and of limited numbers, is 0 wherever the rows were taken.
pub fn elements_of(
    alloc: Global,
    arity: usize,
    monomials: &[Mono],
    echelon: &Echelon,
) -> Result<Vec<Poly<Frac, Grevlex>>, ElementsError>
    requires few { arity ≤ most_variables }
    requires arities { Each (λ e. length e ≡ arity) monomials.now }
    requires ascend { AreAscending monomials.now }
    requires width { echelon.now.width ≡ length monomials.now }
    ensures arities { IfOk result (λ elements. All (λ p. p.arity ≡ arity) elements.items) }
    ensures few { IfOk result (λ elements. length elements.items ≤ length monomials.now) }
    ensures told { IfOk result (λ elements. Each (IsElementOf (pos modulus) monomials.now
        echelon.now.rows (length monomials.now)) (terms_each elements.items)) }
    ensures tidy { (d : ℕ) (given : List (List ℤ)) → AreMonomialsUpTo arity d monomials.now
        → IsEchelonOf (pos modulus) echelon.now.width given echelon.now.rows
        → Each (IsValueRow (pos modulus) monomials.now) given
        → IfOk result (λ elements. AreTidy arity d (terms_each elements.items)) }
    ensures standard { (d : ℕ) → AreMonomialsUpTo arity d monomials.now
        → IfOk result (λ elements. HasStandard arity d (terms_each elements.items)
        (standard_in monomials.now echelon.now.rows)) }
    ensures place { (lead : ℕ) → IsErrOf result (ElementsError.Wide lead)
        → lead < length monomials.now }
    ensures leads { (lead : ℕ) → IsErrOf result (ElementsError.Wide lead)
        → LeadsElement (pos modulus) monomials.now echelon.now.rows lead }
    ensures untold { (lead : ℕ) → IsErrOf result (ElementsError.Wide lead)
        → IsFirstUntold (pos modulus) monomials.now echelon.now.rows lead }
    ensures wide { (lead : ℕ) → IsErrOf result (ElementsError.Wide lead)
        → (given : List (List ℤ)) (p : Terms Fraction)
        → IsEchelonOf (pos modulus) echelon.now.width given echelon.now.rows
        → IsPolynomial ℚ grevlex arity p
        → IsCandidate (pos modulus) monomials.now echelon.now.rows lead p
        → ¬ (Each (IsZeroRow (pos modulus) monomials.now p) given) }
{
    let mut elements = Vec::new(alloc);
    for column in 0..monomials.len() {
        let mono = &monomials[column];
        if echelon.row_at(column).is_none() {
            if !is_led(&elements, mono) {
                elements.push(element_at(alloc, arity, monomials, echelon, column)?)?;
            }
        }
    }
    Ok(elements)
}

/// Whether some lead of the elements divides the monomial.
fn is_led(elements: &[Poly<Frac, Grevlex>], mono: &Mono) -> bool
    requires arities { Each (λ g. length (lead_of g) ≡ length mono.now) (terms_each elements.now) }
    requires nonzero { Each (λ g. g ≢ []) (terms_each elements.now) }
    ensures { result ≡ has_divisor (map lead_of (terms_each elements.now)) mono.now }
{
    for element in elements {
        if let Some(lead) = element.lead() {
            if lead.mono.divides(mono) {
                return true;
            }
        }
    }
    false
}

/// The monomial of the column less the combination of standard monomials that has its column.
/// `Wide` only where the opposite of an entry of the column has no limited fraction.
fn element_at(
    alloc: Global,
    arity: usize,
    monomials: &[Mono],
    echelon: &Echelon,
    column: usize,
) -> Result<Poly<Frac, Grevlex>, ElementsError>
    requires few { arity ≤ most_variables }
    requires arities { Each (λ e. length e ≡ arity) monomials.now }
    requires ascend { AreAscending monomials.now }
    requires within { column < length monomials.now }
    requires kept { IsReducedEchelon (pos modulus) (length monomials.now) echelon.now.rows }
    requires free { Each (λ l. l.lead ≢ column) echelon.now.rows }
    ensures arity { IfOk result (λ p. p.arity ≡ arity) }
    ensures element { IfOk result (λ p.
        IsElementTo (pos modulus) monomials.now echelon.now.rows column 0 (terms_in p)) }
    ensures wide { (lead : ℕ) → IsErrOf result (ElementsError.Wide lead)
        → (lead ≡ column) × IsUntold (pos modulus) echelon.now.rows column }
{
    let mut terms = Vec::new(alloc);
    let mono = monomials[column].copy(alloc)?;
    terms.push(Term {
        mono,
        coef: Frac::one(),
    })?;
    let mut place = column;
    while place > 0 {
        place -= 1;
        if let Some(row) = echelon.row_at(place) {
            push_share(alloc, &mut terms, &monomials[place], row, column)?;
        }
    }
    Ok(Poly::from_descending(Grevlex, arity, terms))
}

/// Puts the monomial, with the opposite of the row's entry in the column, behind the terms, unless the entry is 0.
/// `Wide` only where that has no limited fraction.
fn push_share(
    alloc: Global,
    terms: &mut Vec<Term<Frac>>,
    mono: &Mono,
    row: &LedRow,
    column: usize,
) -> Result<(), ElementsError>
    requires { column < length row.now.entries.items }
    ensures pushed { OnOk result (IsPushed (pos modulus) mono.now
        (entry (numbers_of row.now.entries.items) column)
        (terms_of meaning_of terms.old.items) (terms_of meaning_of terms.new.items)) }
    ensures wide { (lead : ℕ) → IsErrOf result (ElementsError.Wide lead) → (lead ≡ column)
        × HasNoFraction (pos modulus) (entry (numbers_of row.now.entries.items) column) }
{
    let entry = &row.entries()[column];
    if entry.is_zero() {
        return Ok(());
    }
    let Some(coef) = fraction_of(&entry.neg()) else {
        return Err(ElementsError::Wide { lead: column });
    };
    let mono = mono.copy(alloc)?;
    terms.push(Term { mono, coef })?;
    Ok(())
}
