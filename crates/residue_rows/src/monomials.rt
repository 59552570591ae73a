//! The monomials up to a degree.
ghost use Rattle.std.specs.Prelude.{◌≡◌, ◌<◌, ◌≤◌, ℕ, [], ◌∷◌, ◌++◌, suc, length, sum, nat_le, All, IfOk, IfSome, IsNone};
ghost use Rattle.std.specs.List.{filter};
ghost use Rattle.closures.specs.Monomials.{of_degree, monomials_up_to as monomials};
ghost use Rattle.monos.specs.Variables.{most_variables};
ghost use Rattle.residue_rows.specs.Limits.{most_monomials};

use monos::Mono;
use std::alloc::{AllocError, Global};

/// No more monomials are taken.
const MOST_MONOMIALS: usize = 1024;

/// The monomials in `arity` variables of degree at most `degree`, in ascending order by degree and
/// then reverse lexicographically. None exactly where there are more than 1,024.
pub fn monomials_up_to(
    alloc: Global,
    arity: usize,
    degree: u16,
) -> Result<Option<Vec<Mono>>, AllocError>
    requires { arity ≤ most_variables }
    ensures all { IfOk result (λ found. IfSome found (λ es. es.items ≡ monomials arity degree)) }
    ensures few { IfOk result (λ found. IfSome found (λ es. length es.items ≤ most_monomials)) }
    ensures many { IfOk result (λ found. IsNone found
        → most_monomials < length (monomials arity degree)) }
{
    let mut monomials = Vec::new(alloc);
    monomials.push(Mono::one(alloc, 0)?)?;
    for _variables in 0..arity {
        match with_variable(alloc, &monomials, degree)? {
            Some(longer) => monomials = longer,
            None => return Ok(None),
        }
    }
    Ok(Some(monomials))
}

/// Those in one variable more, of those in some variables.
fn with_variable(alloc: Global, list: &[Mono], degree: u16) -> Result<Option<Vec<Mono>>, AllocError>
    requires { (m : ℕ) × (m < most_variables) × (list.now ≡ monomials m degree) }
    ensures all { (m : ℕ) → list.now ≡ monomials m degree
        → IfOk result (λ found. IfSome found (λ es. es.items ≡ monomials (suc m) degree)) }
    ensures few { IfOk result (λ found. IfSome found (λ es. length es.items ≤ most_monomials)) }
    ensures many { (m : ℕ) → list.now ≡ monomials m degree
        → IfOk result (λ found. IsNone found
        → most_monomials < length (monomials (suc m) degree)) }
{
    let mut longer = Vec::new(alloc);
    for total in 0..u32::from(degree) + 1 {
        longer = with_degree(alloc, list, total as u16, longer)?;
        if longer.len() > MOST_MONOMIALS {
            return Ok(None);
        }
    }
    Ok(Some(longer))
}

/// The list, and behind it those of the others that have at most this degree, times the power of one
/// variable more that gives them the degree.
fn with_degree(
    alloc: Global,
    list: &[Mono],
    total: u16,
    longer: Vec<Mono>,
) -> Result<Vec<Mono>, AllocError>
    requires { All (λ e. length e < most_variables) list.now }
    ensures { IfOk result (λ es. es.items
        ≡ longer.items ++ of_degree total (filter (λ e. nat_le (sum e) total) list.now)) }
{
    let mut longer = longer;
    for monomial in list {
        let degree = monomial.degree();
        if degree <= u32::from(total) {
            longer.push(with_last(alloc, monomial, total - degree as u16)?)?;
        }
    }
    Ok(longer)
}

/// The monomial times the power of one variable more, with this exponent.
fn with_last(alloc: Global, monomial: &Mono, exponent: u16) -> Result<Mono, AllocError>
    requires { length monomial.now < most_variables }
    ensures { IfOk result (λ longer. longer ≡ monomial.now ++ exponent ∷ []) }
{
    let mut last = Vec::new(alloc);
    last.push(exponent)?;
    monomial.concat(alloc, &Mono::new(alloc, &last)?)
}
