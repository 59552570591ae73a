//! S-polynomials of the pairs of a list, divided by it one after another, with their cofactors.
ghost use Rattle.std.specs.Prelude.{◌≡◌, ◌<◌, ◌≤◌, length, All, IfOk, IfErr, IsErrOf};
ghost use Rattle.algebra.specs.Fraction.{fractions, rationals};
ghost use Rattle.machines.specs.Completion.{s_polynomial};
ghost use Rattle.machines.specs.Past.{IsPastPair};
ghost use Rattle.poly.specs.Seen.{terms_in, terms_each};
ghost use Rattle.divide.specs.Current.{AreDivisors};
ghost use Rattle.divide.specs.Outcomes.{refusal_of};
ghost use Rattle.divide.specs.Limits.{list_limit};
ghost use Rattle.corollaries.specs.Rows.{ArePairsDivided, IsRefusedInPairs};
ghost use Rattle.task_lists.specs.Rows.{rows_of};
ghost use Rattle.complete.specs.Completing.{AreLike};
ghost use Rattle.full_trace.specs.Rows.{AreRowsLike, IsPairDivided, IsPairRefused};

use crate::divisors::Divisors;
use complete::s_polynomial;
use divide::{EngineError, divide, lead_copy};
use frac128::Frac;
use journal::{Event, Meter};
use monos::Order;
use poly::Poly;
use ring_laws::ArithmeticError;
use std::alloc::Global;

impl<O: Order> Divisors<'_, O> {
    /// The S-polynomial of two elements. `Wide` only where its weight is past.
    fn pair_polynomial(
        &self,
        alloc: Global,
        left: usize,
        right: usize,
    ) -> Result<Poly<Frac, O>, ArithmeticError>
        requires divisors { AreDivisors self.now.order self.now.arity self.now.list.now }
        requires inside { (left < length self.now.list.now) × (right < length self.now.list.now) }
        ensures like { IfOk result (λ p. (p.order ≡ self.now.order) × (p.arity ≡ self.now.arity)) }
        ensures terms { IfOk result (λ p. terms_in p ≡ s_polynomial rationals
            (O.order self.now.order) (terms_each self.now.list.now) (left, right)) }
        ensures wide { IsErrOf result ArithmeticError.Wide
            → IsPastPair fractions rationals (terms_each self.now.list.now) (left, right) }
    {
        let list = self.list;
        let (f, g) = (&list[left], &list[right]);
        let first = lead_copy(alloc, f)?;
        let second = lead_copy(alloc, g)?;
        let multiple = first.lcm(alloc, &second)?;
        s_polynomial(alloc, f, g, &multiple)
    }

    /// Divides the S-polynomial of two elements by the list, behind the entry of their pair, and gives the
    /// cofactors. `Budget` only where the units are exhausted and the next event is one; `Wide` only where the
    /// weight of the S-polynomial or of the next cancellation is past.
    fn divide_pair(
        &self,
        alloc: Global,
        pair: &(usize, usize),
        meter: &mut Meter,
    ) -> Result<Vec<Poly<Frac, O>>, EngineError>
        requires divisors { AreDivisors self.now.order self.now.arity self.now.list.now }
        requires few { length self.now.list.now ≤ list_limit }
        requires inside { (pair.now.0 < length self.now.list.now)
            × (pair.now.1 < length self.now.list.now) }
        ensures limit { meter.new.limit ≡ meter.old.limit }
        ensures divided { IfOk result (λ row. IsPairDivided (O.order self.now.order)
            (terms_each self.now.list.now) pair.now (terms_each row.items)
            meter.old.entries meter.new.entries) }
        ensures like { IfOk result (λ row. AreLike self.now.order self.now.arity row.items) }
        ensures refused { IfErr result (λ e. IsPairRefused (O.order self.now.order)
            (terms_each self.now.list.now) pair.now meter.old meter.new (refusal_of e)) }
    {
        let (left, right) = *pair;
        let p = self.pair_polynomial(alloc, left, right)?;
        let event = Event::Pair {
            left: left as u32,
            right: right as u32,
        };
        meter.note(event)?;
        let division = divide(alloc, &p, self.list, meter)?;
        Ok(division.cofactors)
    }

    /// Divides the S-polynomials of these pairs of places by the list, each behind the entry of its pair, and
    /// gives the cofactors, a row for each. `Budget` only where the units are exhausted and the next event is one;
    /// `Wide` only where the weight of an S-polynomial or of the next cancellation is past.
    pub(crate) fn divide_pairs(
        &self,
        alloc: Global,
        pairs: &[(usize, usize)],
        meter: &mut Meter,
    ) -> Result<Vec<Vec<Poly<Frac, O>>>, EngineError>
        requires divisors { AreDivisors self.now.order self.now.arity self.now.list.now }
        requires few { length self.now.list.now ≤ list_limit }
        requires inside { All (λ a. (a.0 < length self.now.list.now)
            × (a.1 < length self.now.list.now)) pairs.now }
        ensures limit { meter.new.limit ≡ meter.old.limit }
        ensures divided { IfOk result (λ rows. ArePairsDivided (O.order self.now.order)
            (terms_each self.now.list.now) pairs.now (rows_of rows.items)
            meter.old.entries meter.new.entries) }
        ensures like { IfOk result (λ rows. AreRowsLike self.now.order self.now.arity rows.items) }
        ensures refused { IfErr result (λ e. IsRefusedInPairs (O.order self.now.order)
            (terms_each self.now.list.now) pairs.now meter.old.entries meter.new (refusal_of e)) }
    {
        let mut rows = Vec::new(alloc);
        for pair in pairs {
            let row = self.divide_pair(alloc, pair, meter)?;
            rows.push(row)?;
        }
        Ok(rows)
    }
}
