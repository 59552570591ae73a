//! The base of all eigenvalues.
ghost use Rattle.std.specs.Prelude.{◌≡◌, ◌≢◌, ◌<◌, ◌≤◌, ◌<ℤ◌, ◌++◌, pos, length, map, unsigned_abs, IfOk, OnOk};
ghost use Rattle.algebra.specs.Each.{Each};
ghost use Rattle.algebra.specs.Fraction.{ℚ};
ghost use Rattle.algebra.specs.Limits.{number_limit};
ghost use Rattle.exponentials.specs.Base.{IsTheBase};
ghost use Rattle.frac128.specs.FracMeaning.{fraction_of};
ghost use Rattle.linear.specs.Rows.{fractions_of};
ghost use Rattle.coprime_base.specs.Sizes.{sizes, ArePositive};
ghost use Rattle.solvable_maps.specs.Classes.{sizes_of};
ghost use Rattle.closed_forms.specs.Limits.{most_images, most_in_base};
ghost use Rattle.closed_forms.specs.States.{some_of, zeros_in};
ghost use Rattle.closed_forms.specs.Values.{values_in, size_at};

use coprime_base::base;
use eigen_split::Split;
use frac128::{Frac, Whole};
use ring_laws::Ring;
use std::alloc::{AllocError, AllocFailed, Global};

/// Of at most 12 values: the base of the sizes of the numerators and denominators of all but zero, and how many are zero.
pub(crate) fn base_of(
    alloc: Global,
    splits: &[Option<Split>],
) -> Result<(Vec<Whole>, u32), AllocError>
    requires { length (values_in splits.now) ≤ most_images }
    ensures base { IfOk result
        (λ found. IsTheBase (sizes_of (some_of (values_in splits.now))) (sizes found.0.items)) }
    ensures few { IfOk result (λ found. length found.0.items ≤ most_in_base) }
    ensures zeros { IfOk result (λ found. found.1 ≡ zeros_in (values_in splits.now)) }
{
    let mut values = Vec::new(alloc);
    push_values(&mut values, splits)?;
    let mut some = Vec::new(alloc);
    push_some(&mut some, values.as_slice())?;
    let base = base_among(alloc, some.as_slice())?;
    let zeros = (values.len() - some.len()) as u32;
    Ok((base, zeros))
}

/// The base of the sizes of the numerators and denominators of at most 12 values that aren't zero.
fn base_among(alloc: Global, values: &[Frac]) -> Result<Vec<Whole>, AllocError>
    requires nonzero { Each (λ c. c ≢ ℚ.zero) (fractions_of values.now) }
    requires few { length values.now ≤ most_images }
    ensures base { IfOk result
        (λ found. IsTheBase (sizes_of (fractions_of values.now)) (sizes found.items)) }
    ensures few { IfOk result (λ found. length found.items ≤ most_in_base) }
{
    let mut sizes = Vec::new(alloc);
    push_sizes(&mut sizes, values, false)?;
    push_sizes(&mut sizes, values, true)?;
    base(alloc, &sizes)
}

/// Puts the values of the splittings that there are behind the others.
fn push_values(out: &mut Vec<Frac>, splits: &[Option<Split>]) -> Result<(), AllocError>
    ensures { OnOk result (fractions_of out.new.items
        ≡ fractions_of out.old.items ++ values_in splits.now) }
{
    let Some((first, splits)) = splits.split_first() else {
        return Ok(());
    };
    match first {
        None => push_values(out, splits),
        Some(split) => {
            out.extend_from_slice(split.values.as_slice())?;
            push_values(out, splits)
        }
    }
}

/// Puts the values, but zero, behind the others.
fn push_some(out: &mut Vec<Frac>, values: &[Frac]) -> Result<(), AllocFailed<Frac>>
    ensures { OnOk result (fractions_of out.new.items
        ≡ fractions_of out.old.items ++ some_of (fractions_of values.now)) }
{
    let Some((value, values)) = values.split_first() else {
        return Ok(());
    };
    if value.is_zero() {
        return push_some(out, values);
    }
    out.push(*value)?;
    push_some(out, values)
}

/// Puts the sizes of the numerators, or the denominators, behind the others.
fn push_sizes(out: &mut Vec<Whole>, values: &[Frac], below: bool) -> Result<(), AllocFailed<Whole>>
    ensures sizes { OnOk result (sizes out.new.items
        ≡ sizes out.old.items ++ map (size_at below) (fractions_of values.now)) }
    ensures positive { OnOk result (ArePositive out.old.items
        → Each (λ c. c ≢ ℚ.zero) (fractions_of values.now) → ArePositive out.new.items) }
{
    let Some((value, values)) = values.split_first() else {
        return Ok(());
    };
    out.push(size_of(value, below))?;
    push_sizes(out, values, below)
}

/// The size of the numerator, or the denominator.
fn size_of(value: &Frac, below: bool) -> Whole
    ensures size { unsigned_abs result.value ≡ size_at below (fraction_of value.now) }
    ensures positive { fraction_of value.now ≢ ℚ.zero → pos 0 <ℤ result.value }
{
    if below {
        absolute(value.den())
    } else {
        absolute(value.num())
    }
}

/// The absolute value of a number that fits.
fn absolute(number: i128) -> Whole
    requires { unsigned_abs number < number_limit }
    ensures size { unsigned_abs result.value ≡ unsigned_abs number }
    ensures positive { number ≢ pos 0 → pos 0 <ℤ result.value }
{
    let size = if number < 0 { -number } else { number };
    match Whole::new(size) {
        Some(size) => size,
        None => unreachable!(),
    }
}
