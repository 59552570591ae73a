//! Sums to which polynomials come one after another, and whose like terms are collected when many
//! have come.
ghost use Rattle.std.specs.Prelude.{◌≤◌, ◌+◌, length, IfOk, IsTrue};
ghost use Rattle.monos.specs.Variables.{most_variables};
ghost use Rattle.poly.specs.Standing.{IsInVariables};
ghost use Rattle.loop_model.specs.Operations.{most_terms};
ghost use Rattle.counter_run.specs.OpenSums.{IsNothing, IsCollected, IsSumWith};

use crate::composition::{NO_OFFSET, with_terms_of};
use crate::open_sum::OpenSum;
use frac128::Frac;
use loop_model::{MapError, sum};
use monos::Grevlex;
use poly::Poly;
use ring_laws::{ArithmeticError, Weight};
use std::alloc::{AllocError, Global};

/// No sum has more terms.
const MOST_TERMS: usize = 4096;

/// What comes is short where the sum has so many times its terms: to put short polynomials into
/// their places one by one takes longer than to collect many at once.
const SHORT: usize = 32;

impl OpenSum {
    /// The sum of no polynomials.
    pub(crate) fn zero(alloc: Global, arity: usize) -> OpenSum
        requires { arity ≤ most_variables }
        ensures { IsNothing arity result }
    {
        OpenSum {
            total: Poly::zero(alloc, Grevlex, arity),
            terms: Vec::new(alloc),
            weight: None,
            came: 0,
        }
    }

    /// The sum and the polynomial. One that is short is put behind the others, as long as no sum of
    /// them can pass a limit or be too wide. Any other is added to the sum of all before it.
    pub(crate) fn with(
        self,
        alloc: Global,
        polynomial: Poly<Frac, Grevlex>,
    ) -> Result<OpenSum, MapError>
        requires { IsInVariables self.total.arity polynomial }
        ensures { IfOk result (IsSumWith polynomial self) }
    {
        if self.has_room_for(&polynomial) {
            if let Some(weight) = self.weight_with(&polynomial) {
                return Ok(self.with_terms(polynomial, weight)?);
            }
        }
        let came = with_terms_of(self.came, &polynomial);
        let total = self.collected(alloc)?;
        Ok(OpenSum {
            total: sum(alloc, NO_OFFSET, &total, &polynomial)?,
            terms: Vec::new(alloc),
            weight: None,
            came,
        })
    }

    /// Whether the polynomial is short, and both have so few terms that their sum can't have too
    /// many.
    fn has_room_for(&self, polynomial: &Poly<Frac, Grevlex>) -> bool
        ensures { IsTrue result → length self.now.total.terms.items + length self.now.terms.items
            + length polynomial.now.terms.items ≤ most_terms }
    {
        let more = polynomial.terms().len();
        let Some(count) = self.total.terms().len().checked_add(self.terms.len()) else {
            return false;
        };
        match count.checked_add(more) {
            Some(all) => more <= count / SHORT && all <= MOST_TERMS,
            None => false,
        }
    }

    /// The weight of the sum and the polynomial, unless it is past.
    fn weight_with(&self, polynomial: &Poly<Frac, Grevlex>) -> Option<Weight> {
        let weight = if self.terms.is_empty() {
            self.total.weight()
        } else {
            self.weight
        };
        weight?.plus(&polynomial.weight()?)
    }

    /// The sum with the terms of the polynomial behind its own.
    fn with_terms(
        self,
        polynomial: Poly<Frac, Grevlex>,
        weight: Weight,
    ) -> Result<OpenSum, AllocError>
        requires arity { IsInVariables self.total.arity polynomial }
        requires few { length self.total.terms.items + length self.terms.items
            + length polynomial.terms.items ≤ most_terms }
        ensures { IfOk result (IsSumWith polynomial self) }
    {
        let came = with_terms_of(self.came, &polynomial);
        let OpenSum {
            total,
            mut terms,
            ..
        } = self;
        terms.append(&mut polynomial.into_terms())?;
        Ok(OpenSum {
            total,
            terms,
            weight: Some(weight),
            came,
        })
    }

    /// The sum with like terms collected.
    pub(crate) fn collected(self, alloc: Global) -> Result<Poly<Frac, Grevlex>, MapError>
        ensures { IfOk result (IsCollected self) }
    {
        let OpenSum { total, terms, .. } = self;
        if terms.is_empty() {
            return Ok(total);
        }
        match Poly::from_terms(alloc, Grevlex, total.arity(), terms) {
            Ok(rest) => sum(alloc, NO_OFFSET, &total, &rest),
            Err(error) => Err(refusal(error)),
        }
    }
}

/// The refusal of an operation that stands in no text.
pub(crate) fn refusal(error: ArithmeticError) -> MapError {
    match error {
        ArithmeticError::Wide => MapError::Wide { at: NO_OFFSET },
        ArithmeticError::Memory => MapError::Memory,
    }
}
