// Rows of monomials and their orders.
use crate::tests::expect;
use monos::{Blocks, Grevlex, Lex, Mono, Order};
use ring_laws::ArithmeticError;
use std::alloc::{AllocError, Global};
use std::cmp::Ordering;

// The monomial with these exponents.
fn mono(alloc: Global, exponents: &[u16; 3]) -> Result<Mono, AllocError> {
    Mono::new(alloc, &exponents.to_vec(alloc)?)
}

fn copy(alloc: Global, of: &[u16; 3]) -> Result<Mono, AllocError> {
    mono(alloc, of)?.copy(alloc)
}

fn degree(alloc: Global, of: &[u16; 3]) -> Result<u32, AllocError> {
    Ok(mono(alloc, of)?.degree())
}

// A call on two monomials.
#[derive(Clone, Copy)]
enum MonoCall {
    Product,
    Quotient,
    Multiple,
}

fn called(
    alloc: Global,
    call: MonoCall,
    left: &[u16; 3],
    right: &[u16; 3],
) -> Result<Mono, ArithmeticError> {
    let left = mono(alloc, left)?;
    let right = mono(alloc, right)?;
    call_on(alloc, call, &left, &right)
}

fn call_on(
    alloc: Global,
    call: MonoCall,
    left: &Mono,
    right: &Mono,
) -> Result<Mono, ArithmeticError> {
    if left.arity() != right.arity() {
        return Err(ArithmeticError::Memory);
    }
    match call {
        MonoCall::Product => left.times(alloc, right),
        MonoCall::Quotient if right.divides(left) => Ok(left.quotient(alloc, right)?),
        MonoCall::Quotient => Err(ArithmeticError::Memory),
        MonoCall::Multiple => Ok(left.lcm(alloc, right)?),
    }
}

fn is_mono<E: Drop>(answer: Result<Mono, E>, wanted: &[u16]) -> bool {
    match answer {
        Ok(mono) => mono.exponents().as_slice() == wanted,
        Err(_) => false,
    }
}

fn is_wide(answer: Result<Mono, ArithmeticError>) -> bool {
    match answer {
        Ok(_) => false,
        Err(error) => error == ArithmeticError::Wide,
    }
}

fn is_same(left: Result<Mono, ArithmeticError>, right: Result<Mono, AllocError>) -> bool {
    match (left, right) {
        (Ok(left), Ok(right)) => left == right,
        _ => false,
    }
}

// Where exponents stop being short, and where a product is too wide.
fn great_exponents(alloc: Global) -> [bool; 5] {
    use MonoCall::{Product, Quotient};
    let (one, short, long) = ([1, 0, 0], [32767, 0, 0], [32768, 0, 0]);
    [
        is_mono(called(alloc, Product, &short, &one), &long),
        is_mono(called(alloc, Product, &long, &short), &[65535, 0, 0]),
        is_wide(called(alloc, Product, &long, &long)),
        is_mono(called(alloc, Quotient, &long, &one), &short),
        is_same(called(alloc, Quotient, &long, &one), mono(alloc, &short)),
    ]
}

fn monomials(alloc: Global) -> [bool; 7] {
    use MonoCall::{Multiple, Product, Quotient};
    [
        is_mono(copy(alloc, &[2, 0, 1]), &[2, 0, 1]),
        degree(alloc, &[2, 0, 1]) == Ok(3),
        is_mono(Mono::one(alloc, 2), &[0, 0]),
        is_mono(called(alloc, Product, &[2, 0, 1], &[0, 1, 1]), &[2, 1, 2]),
        is_wide(called(alloc, Product, &[65535, 0, 0], &[1, 0, 0])),
        is_mono(called(alloc, Quotient, &[2, 1, 2], &[0, 1, 1]), &[2, 0, 1]),
        is_mono(called(alloc, Multiple, &[2, 0, 0], &[1, 3, 0]), &[2, 3, 0]),
    ]
}

fn order_is<O: Order>(order: O, left: &Mono, right: &Mono, wanted: Ordering) -> bool {
    left.arity() == right.arity() && order.compare(left, right) == wanted
}

fn orders_of(left: &Mono, right: &Mono) -> [bool; 3] {
    [
        order_is(Grevlex, left, right, Ordering::Less),
        order_is(Lex, left, right, Ordering::Greater),
        order_is(Blocks { first: 1 }, left, right, Ordering::Greater),
    ]
}

fn orders(alloc: Global) -> [bool; 3] {
    match (mono(alloc, &[2, 0, 0]), mono(alloc, &[1, 3, 0])) {
        (Ok(left), Ok(right)) => orders_of(&left, &right),
        _ => [false; 3],
    }
}

#[test]
fn monomials_are_combined(rt: HostRuntime) {
    expect(&rt, &monomials(rt.alloc()));
}

#[test]
fn great_exponents_are_kept(rt: HostRuntime) {
    expect(&rt, &great_exponents(rt.alloc()));
}

#[test]
fn monomials_are_ordered(rt: HostRuntime) {
    expect(&rt, &orders(rt.alloc()));
}
