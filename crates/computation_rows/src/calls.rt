// Computations with ideals, and with a meter by itself.
ghost use Rattle.std.specs.Prelude.{◌≢◌, ◌≤◌, ◌+◌, ◌++◌, [], All, length, IsTrue};
ghost use Rattle.poly.specs.Seen.{terms_in, arity_of};
ghost use Rattle.complete.specs.Completing.{AreLike};
ghost use Rattle.complete.specs.Limits.{generators_limit};
ghost use Rattle.ideal_ops.specs.Calls.{HaveOneArity};
ghost use Rattle.ideal_ops.specs.Limits.{most_blended};
ghost use Rattle.computation_rows.specs.RowLimits.{most_polynomials};

use crate::columns::{list_of, names_of, poly_of, polys_text, push_poly};
use crate::meters::outcomes_text;
use crate::number::Number;
use crate::row_error::RowError;
use crate::rows::Row;
use complete::complete_in;
use divide::{EngineError, divide};
use frac128::Frac;
use gf65521::Gf;
use ideal_ops::{contains, eliminate, meet, sum};
use journal::Meter;
use loop_model::Names;
use monos::{Blocks, Grevlex, Lex, Order};
use poly::Poly;
use reduced_basis::{reduced_basis_in, tidy_in};
use std::alloc::Global;

/// With so many names at most, one more variable has room in front of them.
const MOST_NAMES_MET: usize = 4095;

// A call on polynomials of an order in names, which are listed, and what it is given of them.
#[derive(Drop)]
struct Computation<'a> {
    alloc: Global,
    call: &'a str,
    order: &'a str,
    listed: &'a str,
    names: Names,
    values: &'a [&'a str],
}

impl Row<'_> {
    /// What a call answers, with this meter.
    pub(crate) fn computation(&self, meter: &mut Meter) -> Result<String, RowError> {
        if self.call == "meter" {
            return outcomes_text(self.alloc, self.values, meter);
        }
        let [numbers, order, listed, values @ ..] = self.values else {
            return Err(RowError::Unreadable);
        };
        let computation = Computation {
            alloc: self.alloc,
            call: self.call,
            order: *order,
            listed: *listed,
            names: names_of(self.alloc, listed, 0)?,
            values,
        };
        match (*numbers, *order) {
            ("frac", "grevlex") => computation.answer_by_degrees(meter),
            ("frac", "lex") => computation.answer_over::<Frac, Lex>(Lex, meter),
            ("gf", "grevlex") => computation.answer_over::<Gf, Grevlex>(Grevlex, meter),
            ("gf", "lex") => computation.answer_over::<Gf, Lex>(Lex, meter),
            _ => computation.answer_by_blocks(meter),
        }
    }
}

impl Computation<'_> {
    // Over fractions, in graded reverse lexicographic order.
    fn answer_by_degrees(&self, meter: &mut Meter) -> Result<String, RowError> {
        match (self.call, self.values) {
            ("sum" | "meet", [a, b]) => self.ideal_of_two(a, b, meter),
            _ => self.answer_over::<Frac, Grevlex>(Grevlex, meter),
        }
    }

    // Over fractions, in the order with so many names in its first block.
    fn answer_by_blocks(&self, meter: &mut Meter) -> Result<String, RowError> {
        let Some(("blocks", first)) = self.order.split_once(' ') else {
            return Err(RowError::Unreadable);
        };
        let Ok(first) = first.parse() else {
            return Err(RowError::Unreadable);
        };
        match (self.call, self.values) {
            ("eliminate", [list]) => self.elimination(first, list, meter),
            _ => self.answer_over::<Frac, Blocks>(Blocks { first }, meter),
        }
    }

    fn answer_over<K: Number, O: Order>(
        &self,
        order: O,
        meter: &mut Meter,
    ) -> Result<String, RowError> {
        match (self.call, self.values) {
            ("divide", [p, list]) => self.answer_to_two::<K, O>(order, p, list, meter),
            ("contains", [list, p]) => self.answer_to_two::<K, O>(order, p, list, meter),
            (_, [list]) => {
                let list: Vec<Poly<K, O>> = list_of(self.alloc, order, &self.names, list)?;
                let basis = self.basis_of(order, &list, meter)?;
                polys_text(self.alloc, &basis, &self.names)
            }
            _ => Err(RowError::Unreadable),
        }
    }

    // What a call gives to a polynomial and a list.
    fn answer_to_two<K: Number, O: Order>(
        &self,
        order: O,
        p: &str,
        list: &str,
        meter: &mut Meter,
    ) -> Result<String, RowError> {
        let dividend: Poly<K, O> = poly_of(self.alloc, order, &self.names, p)?;
        let divisors = list_of(self.alloc, order, &self.names, list)?;
        match self.call {
            "divide" => self.division_text(&dividend, &divisors, meter),
            _ => self.membership_text(&dividend, &divisors, meter),
        }
    }

    // The cofactors and the rest of a division.
    fn division_text<K: Number, O: Order>(
        &self,
        p: &Poly<K, O>,
        list: &[Poly<K, O>],
        meter: &mut Meter,
    ) -> Result<String, RowError>
        requires like { AreLike p.now.order p.now.arity list.now }
        requires few { length list.now ≤ most_polynomials }
    {
        if !is_free_of_zero(list) {
            return Err(RowError::Unreadable);
        }
        let division = divide(self.alloc, p, list, meter)?;
        let mut text = polys_text(self.alloc, &division.cofactors, &self.names)?;
        push_poly(
            self.alloc,
            " rest ",
            &division.remainder,
            &self.names,
            &mut text,
        )?;
        Ok(text)
    }

    // Whether a polynomial is in the ideal of a list, which is completed first.
    fn membership_text<K: Number, O: Order>(
        &self,
        p: &Poly<K, O>,
        list: &[Poly<K, O>],
        meter: &mut Meter,
    ) -> Result<String, RowError>
        requires like { AreLike p.now.order p.now.arity list.now }
        requires few { length list.now ≤ most_polynomials }
    {
        let basis = complete_in(self.alloc, p.order(), p.arity(), list, meter)?;
        let is_member = contains(self.alloc, &basis, p, meter)?;
        let told = if is_member { "true" } else { "false" };
        Ok(String::from_str(self.alloc, told)?)
    }

    // What a call makes of a list.
    fn basis_of<K: Number, O: Order>(
        &self,
        order: O,
        list: &[Poly<K, O>],
        meter: &mut Meter,
    ) -> Result<Vec<Poly<K, O>>, RowError>
        requires like { AreLike order (length self.now.names) list.now }
        requires few { length list.now ≤ most_polynomials }
    {
        let arity = self.names.len();
        match self.call {
            "complete" => Ok(complete_in(self.alloc, order, arity, list, meter)?),
            "reduced_basis" => Ok(reduced_basis_in(self.alloc, order, arity, list, meter)?),
            "tidy" if is_free_of_zero(list) => Ok(tidy_in(self.alloc, order, arity, list, meter)?),
            _ => Err(RowError::Unreadable),
        }
    }

    // The reduced basis of the sum or of the intersection of two ideals.
    fn ideal_of_two(&self, a: &str, b: &str, meter: &mut Meter) -> Result<String, RowError> {
        if self.names.len() > MOST_NAMES_MET {
            return Err(RowError::TooManyNames);
        }
        let left = list_of(self.alloc, Grevlex, &self.names, a)?;
        let right = list_of(self.alloc, Grevlex, &self.names, b)?;
        let basis = combined(self.alloc, self.call, &left, &right, meter)?;
        polys_text(self.alloc, &basis, &self.names)
    }

    // The reduced basis, in the names behind the first block, of what has no name of that block in an ideal.
    fn elimination(&self, first: usize, list: &str, meter: &mut Meter) -> Result<String, RowError> {
        if first > self.names.len() {
            return Err(RowError::Block);
        }
        let list: Vec<Poly<Frac, Blocks>> = list_of(
            self.alloc,
            Blocks { first },
            &self.names,
            list,
        )?;
        if list.is_empty() {
            return Err(RowError::NoPolynomial);
        }
        let basis = eliminate(self.alloc, &list, meter)?;
        let behind = names_of(self.alloc, self.listed, first)?;
        polys_text(self.alloc, &basis, &behind)
    }
}

fn combined(
    alloc: Global,
    call: &str,
    left: &[Poly<Frac, Grevlex>],
    right: &[Poly<Frac, Grevlex>],
    meter: &mut Meter,
) -> Result<Vec<Poly<Frac, Grevlex>>, EngineError>
    requires alike { HaveOneArity (left.now ++ right.now) }
    requires arity { arity_of (left.now ++ right.now) ≤ most_blended }
    requires few { length left.now + length right.now ≤ generators_limit }
{
    match call {
        "sum" => sum(alloc, left, right, meter),
        _ => meet(alloc, left, right, meter),
    }
}

fn is_free_of_zero<K: Number, O: Order>(list: &[Poly<K, O>]) -> bool
    ensures { IsTrue result → All (λ p. terms_in p ≢ []) list.now }
{
    for p in list {
        if p.is_zero() {
            return false;
        }
    }
    true
}
