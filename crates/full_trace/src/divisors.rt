//! A list by which is divided.
use frac128::Frac;
use monos::Order;
use poly::Poly;

/// A list by which is divided, with the order and the number of variables of its elements.
#[derive(Drop)]
pub(crate) struct Divisors<'a, O: Order> {
    pub(crate) order: O,
    pub(crate) arity: usize,
    pub(crate) list: &'a [Poly<Frac, O>],
}
