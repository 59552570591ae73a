// Rows of fractions, and of the rings and fields of all number types.
use crate::tests::expect;
use frac128::{Frac, FracError, Whole};
use gf65521::Gf;
use ring_laws::{Field, OrderedRing, Ring, Wide, laws as ring};
use std::cmp::Ordering;

// The fraction, or zero where there is none.
pub(crate) fn ratio(num: i128, den: i128) -> Frac {
    Frac::new(num, den).unwrap_or(Frac::zero())
}

fn is_ratio(answer: Result<Frac, Wide>, num: i128, den: i128) -> bool {
    match answer {
        Ok(value) => value.num() == num && value.den() == den,
        Err(_) => false,
    }
}

fn fractions() -> [bool; 17] {
    [
        Frac::new(6, -4) == Ok(ratio(-3, 2)),
        Frac::new(1, 0) == Err(FracError::ZeroDenominator),
        Frac::new(i128::MIN, 1) == Err(FracError::Wide),
        is_ratio(ratio(1, 2).add(&ratio(1, 3)), 5, 6),
        ratio(i128::MAX, 1).add(&ratio(1, 1)) == Err(Wide),
        is_ratio(ratio(i128::MAX, 2).mul(&ratio(2, 1)), i128::MAX, 1),
        ratio(1 << 126, 1).mul(&ratio(2, 1)) == Err(Wide),
        // Numbers that leave 64 bits on the way, and numbers that share factors of two.
        is_ratio(ratio(1, 1 << 40).add(&ratio(1, 3 << 39)), 5, 3 << 40),
        is_ratio(
            ratio(i128::MAX, 3).sub(&ratio(1, 3)),
            (i128::MAX - 1) / 3,
            1,
        ),
        is_ratio(ratio(6, 35).mul(&ratio(-14, 9)), -4, 15),
        // A whole factor on either side, also where it is 1 and where the product leaves 64 bits.
        is_ratio(ratio(-9, 1).mul(&ratio(5, 6)), -15, 2),
        is_ratio(
            ratio((1 << 63) - 1, 3).mul(&ratio(9, 1)),
            3 * ((1 << 63) - 1),
            1,
        ),
        is_ratio(ratio(-5, 6).mul(&ratio(1, 1)), -5, 6),
        // Equal denominators, also where the sum is whole and where it is zero.
        is_ratio(ratio(7, 10).sub(&ratio(1, 10)), 3, 5),
        is_ratio(ratio(-5, 6).add(&ratio(-7, 6)), -2, 1),
        is_ratio(ratio(5, 6).add(&ratio(-5, 6)), 0, 1),
        Frac::unit(-6) == Some((ratio(-6, 1), ratio(-1, 6))),
    ]
}

// The laws of rings, of ordered rings and of fields, at a type.
fn use_ring_laws<K: Ring>() {
    ring::sum_is_associative::<K>();
    ring::sum_is_commutative::<K>();
    ring::zero_is_neutral::<K>();
    ring::opposites_cancel::<K>();
    ring::product_is_associative::<K>();
    ring::product_is_commutative::<K>();
    ring::one_is_neutral::<K>();
    ring::product_is_distributive::<K>();
    ring::weights_bound_results::<K>();
    ring::meaning_decides::<K>();
}

fn use_order_laws<K: OrderedRing>() {
    ring::order_is_total::<K>();
    ring::sum_keeps_order::<K>();
    ring::product_keeps_order::<K>();
}

fn use_field_laws<K: Field>() {
    ring::inverses_cancel::<K>();
    ring::weights_bound_quotients::<K>();
}

// What every ring says of an element.
fn is_of_ring<K: Ring>(x: &K) -> Result<bool, Wide> {
    use_ring_laws::<K>();
    let opposite = x.neg();
    let none = x.sub(x)?;
    Ok(
        none.is_zero()
            && x.add(&opposite)? == K::zero()
            && x.mul(&K::one())? == *x
            && x.weight() == opposite.weight(),
    )
}

// Whether 6 has an inverse that clears denominators.
fn clears_by_six<K: Ring>() -> bool {
    match K::unit(6) {
        Some((six, inverse)) => six.mul(&inverse) == Ok(K::one()),
        None => false,
    }
}

// What every ordered ring says of an element above zero.
fn is_above_zero<K: OrderedRing>(x: &K) -> bool {
    use_order_laws::<K>();
    x.compare(&K::zero()) == Ordering::Greater && x.sign() == 1
}

// Whether this is the quotient, if the other is not zero.
fn quotient_of_field_is<K: Field>(of: &K, by: &K, wanted: &K) -> Result<bool, Wide> {
    use_field_laws::<K>();
    Ok(!by.is_zero() && of.div(by)? == *wanted)
}

fn remainder(value: u16) -> Gf {
    Gf::new(value).unwrap_or(Gf::zero())
}

fn rings_and_fields() -> [bool; 14] {
    let half = ratio(1, 2);
    [
        is_of_ring(&half) == Ok(true),
        is_of_ring(&Whole::one()) == Ok(true),
        is_of_ring(&remainder(65520)) == Ok(true),
        is_above_zero(&half),
        is_above_zero(&Whole::one()),
        remainder(65520).add(&Gf::one()) == Ok(Gf::zero()),
        remainder(65520).add(&remainder(65520)) == Ok(remainder(65519)),
        Gf::zero().sub(&Gf::one()) == Ok(remainder(65520)),
        remainder(2).sub(&Gf::one()) == Ok(Gf::one()),
        quotient_of_field_is(&Gf::one(), &remainder(2), &remainder(32761)) == Ok(true),
        quotient_of_field_is(&half, &half, &Frac::one()) == Ok(true),
        clears_by_six::<Frac>(),
        !clears_by_six::<Whole>(),
        !clears_by_six::<Gf>(),
    ]
}

#[test]
fn fractions_are_exact(rt: HostRuntime) {
    expect(&rt, &fractions());
}

#[test]
fn rings_and_fields_keep_their_laws(rt: HostRuntime) {
    expect(&rt, &rings_and_fields());
}
