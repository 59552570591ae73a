//! Numbers as signed products of powers of a base, and their n-th powers.
ghost use Rattle.std.specs.Prelude.{◌≡◌, ◌≢◌, ◌≤◌, ◌<◌, ◌<ℤ◌, ◌-ℤ◌, ◌++◌, pos, length, map, IfOk, OnOk};
ghost use Rattle.algebra.specs.Fraction.{ℚ};
ghost use Rattle.exponentials.specs.Keys.{key_of, IsNormalKey};
ghost use Rattle.exponentials.specs.Powers.{negate_if};
ghost use Rattle.frac128.specs.FracMeaning.{fraction_of};
ghost use Rattle.coprime_base.specs.Sizes.{sizes};
ghost use Rattle.solvable_maps.specs.Expo.{with_key, differences};
ghost use Rattle.solvable_maps.specs.Iterations.{width};
ghost use Rattle.expo.specs.Powers.{key_of_power, side_of};
ghost use Rattle.closed_forms.specs.FormInWork.{base_for, value_for};
ghost use Rattle.closed_forms.specs.Limits.{IsLow, AreLow};
ghost use Rattle.closed_forms.specs.Solved.{IsPower};

use crate::form_in_work::FormInWork;
use crate::recurrence::Recurrence;
use coprime_base::{BaseError, exponents};
use expo::Power;
use frac128::{Frac, Whole};
use monos::Mono;
use ring_laws::Ring;
use std::alloc::{AllocError, AllocFailed, Global};

impl FormInWork<'_, '_> {
    /// Its value, which isn't zero, as a signed product of powers of the base.
    pub(crate) fn value_as_power(&self, alloc: Global) -> Result<Power, AllocError>
        requires { value_for self.now ≢ ℚ.zero }
        ensures power { IfOk result
            (λ p. IsPower (base_for self.now) p.negative p.exponents.items (value_for self.now)) }
        ensures small { IfOk result (λ p. AreLow p.exponents.items) }
    {
        let (negative, size) = sign_and_size(self.value);
        match exponents(alloc, self.class.base, &size) {
            Ok(exponents) => Ok(Power {
                negative,
                exponents,
            }),
            Err(BaseError::NotInBase) => unreachable!(),
            Err(BaseError::Memory) => Err(AllocError),
        }
    }
}

/// Whether a value is negative, and the value without its sign.
fn sign_and_size(value: &Frac) -> (bool, Frac)
    requires { fraction_of value.now ≢ ℚ.zero }
    ensures positive { pos 0 <ℤ (fraction_of result.1).num }
    ensures value { negate_if result.0 (fraction_of result.1) ≡ fraction_of value.now }
{
    if value.num() < 0 {
        (true, value.neg())
    } else {
        (false, *value)
    }
}

/// The number whose n-th power the s, u and v of a monomial are.
pub(crate) fn power_of(alloc: Global, base: &[Whole], mono: &Mono) -> Result<Power, AllocError>
    requires normal { IsNormalKey (sizes base.now) (key_of (length (sizes base.now)) mono.now) }
    requires width { width (length (sizes base.now)) 0 ≤ length mono.now }
    ensures count { IfOk result (λ p. length p.exponents.items ≡ length base.now) }
    ensures key { let r = length (sizes base.now) in
        IfOk result (λ p. key_of r mono.now ≡ key_of_power p) }
{
    let count = base.len();
    let list = mono.exponents();
    let (_, others) = list.as_slice().split_at(2);
    let (up, others) = others.split_at(count);
    let (down, _) = others.split_at(count);
    let mut exponents = Vec::new(alloc);
    push_differences(&mut exponents, up, down)?;
    Ok(Power {
        negative: mono.exponent(1) == 1,
        exponents,
    })
}

/// Puts the differences of exponents, place by place, behind the others.
fn push_differences(out: &mut Vec<i32>, up: &[u16], down: &[u16]) -> Result<(), AllocFailed<i32>>
    ensures { OnOk result (out.new.items ≡ out.old.items ++ differences up.now down.now) }
{
    let (Some((more, up)), Some((less, down))) = (up.split_first(), down.split_first()) else {
        return Ok(());
    };
    out.push(difference(*more, *less))?;
    push_differences(out, up, down)
}

/// An exponent less another.
fn difference(more: u16, less: u16) -> i32
    ensures { result ≡ pos more -ℤ pos less }
{
    i32::from(more) - i32::from(less)
}

impl Recurrence<'_, '_> {
    /// The n-th power of λ times a monomial in the variables.
    pub(crate) fn behind_power(&self, alloc: Global, variables: &Mono) -> Result<Mono, AllocError>
        requires { length variables.now ≡ self.now.vars }
        ensures ok { IfOk result (λ mono. mono
            ≡ with_key 0 (key_of_power self.now.own) variables.now) }
    {
        let own = &self.own;
        let mut exponents = vec![in alloc; 0, u16::from(own.negative)]?;
        push_sides(&mut exponents, &own.exponents, false)?;
        push_sides(&mut exponents, &own.exponents, true)?;
        let front = Mono::new(alloc, &exponents)?;
        front.concat(alloc, variables)
    }
}

/// Puts the exponents above the line, or those below it, behind the others.
fn push_sides(out: &mut Vec<u16>, exponents: &[i32], below: bool) -> Result<(), AllocFailed<u16>>
    requires { AreLow exponents.now }
    ensures { OnOk result (out.new.items ≡ out.old.items ++ map (side_of below) exponents.now) }
{
    let Some((exponent, exponents)) = exponents.split_first() else {
        return Ok(());
    };
    out.push(side(*exponent, below))?;
    push_sides(out, exponents, below)
}

/// The exponent above the line, or the one below it.
fn side(exponent: i32, below: bool) -> u16
    requires { IsLow exponent }
    ensures { result ≡ side_of below exponent }
{
    if (exponent < 0) == below {
        exponent.unsigned_abs() as u16
    } else {
        0
    }
}
