//! The two forms of a monomial, and what is computed on lists.
//! The ways by lists are never part of a caller's loop, which goes the short way and would make their lists in each iteration.
ghost use Rattle.std.specs.Prelude.{◌≡◌, ◌≤◌, ◌↔◌, length, nat_eq, IsTrue, IfOk, IfSome, IsErrOf, IsOk, IsSome};
ghost use Rattle.std.specs.Cmp.Lexicographic.{pointwise};
ghost use Rattle.polynomials.specs.Exponent.{plus, Divides, lcm};
ghost use Rattle.monos.specs.Lanes.{IsShort, IsDouble};
ghost use Rattle.monos.specs.Products.{ProductFits};
ghost use Rattle.monos.specs.Coprime.{IsCoprime};
ghost use Rattle.monos.specs.Variables.{most_variables};

use crate::double::DoubleMono;
use crate::lists::{coprime_each, differences, divides_each, maxima, sums, sums_fit};
use crate::short_mono::ShortMono;
use crate::{Form, Mono};
use ring_laws::ArithmeticError;
use smallvec::SmallVec;
use std::alloc::{AllocError, Global};
use std::boxed::Box;

impl Mono {
    /// The monomial in one word, if it is short.
    #[inline(always)]
    pub(crate) fn short_form(&self) -> Option<ShortMono>
        ensures same { IfSome result (λ p. p ≡ self.now) }
        ensures short { IsSome result ↔ IsShort self.now }
    {
        match &self.form {
            Form::Short { head, low, high } => Some(ShortMono::of_halves(*head, *low, *high)),
            _ => None,
        }
    }

    /// The monomial as two short ones, if it is double.
    #[inline(always)]
    pub(crate) fn double_form(&self) -> Option<&DoubleMono>
        ensures same { IfSome result (λ d. d.now ≡ self.now) }
        ensures double { IsSome result ↔ IsDouble self.now }
    {
        match &self.form {
            Form::Double(double) => Some(&**double),
            Form::Short { .. } => None,
            Form::Long(_) => None,
        }
    }

    /// The double monomial.
    #[inline(always)]
    pub(crate) fn of_double(alloc: Global, double: DoubleMono) -> Result<Mono, AllocError>
        requires { IsDouble double }
        ensures ok { IfOk result (λ mono. mono ≡ double) }
    {
        let double = Box::new(alloc, double)?;
        Ok(Mono {
            form: Form::Double(double),
        })
    }

    /// The short monomial.
    #[inline(always)]
    pub(crate) fn of_short(short: ShortMono) -> Mono
        ensures { result ≡ short }
    {
        let word = short.word;
        Mono {
            form: Form::Short {
                head: short.degree * 32 + u32::from(short.arity),
                low: (word % 0x1_0000_0000_0000_0000) as u64,
                high: (word >> 64) as u64,
            },
        }
    }

    /// The monomial with the exponents of a list.
    pub(crate) fn of_list(alloc: Global, list: SmallVec<u16, 16>) -> Result<Mono, AllocError>
        requires { length list.items ≤ most_variables }
        ensures ok { IfOk result (λ mono. mono ≡ list.items) }
        ensures short { IsShort list.items → IsOk result }
    {
        match ShortMono::of_slice(list.as_slice()) {
            Some(short) => Ok(Mono::of_short(short)),
            None => match DoubleMono::of_slice(list.as_slice()) {
                Some(double) => Mono::of_double(alloc, double),
                None => {
                    let list = Box::new(alloc, list)?;
                    Ok(Mono {
                        form: Form::Long(list),
                    })
                }
            },
        }
    }

    /// Whether the lists are the same.
    #[inline(never)]
    pub(crate) fn is_same_list(&self, other: &Mono) -> bool
        ensures { result ≡ pointwise nat_eq self.now other.now }
    {
        self.exponents().as_slice() == other.exponents().as_slice()
    }

    /// Whether `other` is a multiple of this monomial, by lists.
    #[inline(never)]
    pub(crate) fn divides_list(&self, other: &Mono) -> bool
        requires { length self.now ≡ length other.now }
        ensures { IsTrue result ↔ Divides self.now other.now }
    {
        divides_each(self.exponents().as_slice(), other.exponents().as_slice())
    }

    /// Whether no variable is in both lists.
    #[inline(never)]
    pub(crate) fn is_coprime_list(&self, other: &Mono) -> bool
        requires { length self.now ≡ length other.now }
        ensures { IsTrue result ↔ IsCoprime self.now other.now }
    {
        coprime_each(self.exponents().as_slice(), other.exponents().as_slice())
    }

    /// The copy of a list.
    #[inline(never)]
    pub(crate) fn copy_of_list(&self, alloc: Global) -> Result<Mono, AllocError>
        ensures ok { IfOk result (λ mono. mono ≡ self.now) }
        ensures short { IsShort self.now → IsOk result }
    {
        Mono::of_list(
            alloc,
            SmallVec::from_slice(alloc, self.exponents().as_slice())?,
        )
    }

    /// The product of two short monomials, if it is short.
    #[inline(always)]
    pub(crate) fn short_product(&self, other: &Mono) -> Option<ShortMono>
        requires { length self.now ≡ length other.now }
        ensures product { IfSome result (λ product. product ≡ plus self.now other.now) }
        ensures fits { IsSome result → ProductFits self.now other.now }
    {
        match (self.short_form(), other.short_form()) {
            (Some(left), Some(right)) => left.times(&right),
            _ => None,
        }
    }

    /// The product by lists.
    #[inline(never)]
    pub(crate) fn product_of_lists(
        &self,
        alloc: Global,
        other: &Mono,
    ) -> Result<Mono, ArithmeticError>
        requires { length self.now ≡ length other.now }
        ensures ok { IfOk result (λ product. product ≡ plus self.now other.now) }
        ensures wide { IsErrOf result ArithmeticError.Wide ↔ ¬ (ProductFits self.now other.now) }
        ensures short { IsShort (plus self.now other.now) → IsOk result }
    {
        let (these, others) = (self.exponents(), other.exponents());
        let (left, right) = (these.as_slice(), others.as_slice());
        // Known before any memory is asked for, since the product is Wide whether or not there is memory.
        if !sums_fit(left, right) {
            return Err(ArithmeticError::Wide);
        }
        Ok(Mono::of_list(alloc, sums(alloc, left, right)?)?)
    }

    /// The quotient by lists.
    #[inline(never)]
    #[tactic(auto, using(crate::proofs::Shorts::short_part))]
    pub(crate) fn quotient_of_lists(&self, alloc: Global, other: &Mono) -> Result<Mono, AllocError>
        requires arity { length self.now ≡ length other.now }
        requires divides { Divides other.now self.now }
        ensures ok { IfOk result (λ quotient. plus other.now quotient ≡ self.now) }
        ensures arity { IfOk result (λ quotient. length quotient ≡ length self.now) }
        ensures short { IsShort self.now → IsOk result }
    {
        let (these, others) = (self.exponents(), other.exponents());
        Mono::of_list(
            alloc,
            differences(alloc, these.as_slice(), others.as_slice())?,
        )
    }

    /// The least common multiple by lists.
    #[inline(never)]
    pub(crate) fn lcm_of_lists(&self, alloc: Global, other: &Mono) -> Result<Mono, AllocError>
        requires { length self.now ≡ length other.now }
        ensures ok { IfOk result (λ multiple. multiple ≡ lcm self.now other.now) }
        ensures short { IsShort (lcm self.now other.now) → IsOk result }
    {
        let (left, right) = (self.exponents(), other.exponents());
        Mono::of_list(alloc, maxima(alloc, left.as_slice(), right.as_slice())?)
    }
}
