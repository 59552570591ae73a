//! Monomials behind one another, and without their first variables.
ghost use Rattle.std.specs.Prelude.{◌≡◌, ◌≤◌, ◌+◌, ◌++◌, length, take, drop, replicate, IsTrue, ◌↔◌, IfOk, IsOk};
ghost use Rattle.monos.specs.Lanes.{IsShort};
ghost use Rattle.monos.specs.Variables.{most_variables};

use crate::Mono;
use crate::lists::sum_of;
use smallvec::SmallVec;
use std::alloc::{AllocError, Global};

impl Mono {
    /// The product with a monomial in other variables, which stand behind this one's.
    pub fn concat(&self, alloc: Global, other: &Mono) -> Result<Mono, AllocError>
        requires { length self.now + length other.now ≤ most_variables }
        ensures ok { IfOk result (λ product. product ≡ self.now ++ other.now) }
        ensures short { IsShort (self.now ++ other.now) → IsOk result }
    {
        let (these, others) = (self.exponents(), other.exponents());
        let (left, right) = (these.as_slice(), others.as_slice());
        let mut exponents = SmallVec::with_capacity(alloc, left.len() + right.len())?;
        exponents.extend_from_slice(left)?;
        exponents.extend_from_slice(right)?;
        Mono::of_list(alloc, exponents)
    }

    /// Whether none of the first `count` variables is in it.
    pub fn is_free_of_first(&self, count: usize) -> bool
        requires { count ≤ length self.now }
        ensures { IsTrue result ↔ (take count self.now ≡ replicate count 0) }
    {
        sum_of(&self.exponents().as_slice()[..count]) == 0
    }

    /// The monomial in the other variables alone, where the first `count` are left out.
    pub fn without_first(&self, alloc: Global, count: usize) -> Result<Mono, AllocError>
        requires { count ≤ length self.now }
        ensures ok { IfOk result (λ mono. mono ≡ drop count self.now) }
        ensures short { IsShort (drop count self.now) → IsOk result }
    {
        let exponents = self.exponents();
        Mono::of_list(
            alloc,
            SmallVec::from_slice(alloc, &exponents.as_slice()[count..])?,
        )
    }
}
