//! Divisions of polynomials one after another, with their cofactors.
ghost use Rattle.std.specs.Prelude.{◌≡◌, ◌≤◌, length, IfOk, IfErr};
ghost use Rattle.poly.specs.Seen.{terms_each};
ghost use Rattle.divide.specs.Current.{AreDivisors};
ghost use Rattle.divide.specs.Outcomes.{refusal_of};
ghost use Rattle.divide.specs.Limits.{list_limit};
ghost use Rattle.corollaries.specs.Rows.{AreDivided, IsRefusedIn};
ghost use Rattle.task_lists.specs.Rows.{rows_of};
ghost use Rattle.complete.specs.Completing.{AreLike};
ghost use Rattle.full_trace.specs.Rows.{AreRowsLike};

use crate::divisors::Divisors;
use divide::{EngineError, divide};
use frac128::Frac;
use journal::Meter;
use monos::Order;
use poly::Poly;
use std::alloc::Global;

impl<O: Order> Divisors<'_, O> {
    /// Divides each of these polynomials by the list, and gives the cofactors, a row for each.
    /// `Budget` only where the units are exhausted and the next event is one; `Wide` only where the weight
    /// of the next cancellation is past.
    pub(crate) fn divide_each(
        &self,
        alloc: Global,
        dividends: &[Poly<Frac, O>],
        meter: &mut Meter,
    ) -> Result<Vec<Vec<Poly<Frac, O>>>, EngineError>
        requires dividends { AreLike self.now.order self.now.arity dividends.now }
        requires divisors { AreDivisors self.now.order self.now.arity self.now.list.now }
        requires few { length self.now.list.now ≤ list_limit }
        ensures limit { meter.new.limit ≡ meter.old.limit }
        ensures divided { IfOk result (λ rows. AreDivided (O.order self.now.order)
            (terms_each self.now.list.now) (terms_each dividends.now) (rows_of rows.items)
            meter.old.entries meter.new.entries) }
        ensures like { IfOk result (λ rows. AreRowsLike self.now.order self.now.arity rows.items) }
        ensures refused { IfErr result (λ e. IsRefusedIn (O.order self.now.order)
            (terms_each self.now.list.now) (terms_each dividends.now) meter.old.entries meter.new
            (refusal_of e)) }
    {
        let mut rows = Vec::new(alloc);
        for dividend in dividends {
            let division = divide(alloc, dividend, self.list, meter)?;
            rows.push(division.cofactors)?;
        }
        Ok(rows)
    }
}
