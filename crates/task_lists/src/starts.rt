//! The list that an analysis starts with.
ghost use Rattle.std.specs.Prelude.{◌≡◌, ◌<◌, ◌≤◌, length, eqb, IfOk};
ghost use Rattle.std.specs.List.{list_any};
ghost use Rattle.poly.specs.Seen.{terms_in};
ghost use Rattle.loop_model.specs.Parts.{equation_of};
ghost use Rattle.loop_model.specs.View.{program_of};
ghost use Rattle.task_lists.specs.Starts.{StandForStart, AreStarts, AreOver, value_less, IsWithout};

use frac128::Frac;
use loop_model::{Init, Loop};
use monos::Grevlex;
use poly::Poly;
use ring_laws::ArithmeticError;
use std::alloc::{AllocError, Global};

/// The variables that a start sets, each less its value, in declared order. `values` has the value of each variable at a start.
pub fn start_list(
    alloc: Global,
    lp: &Loop,
    values: &[Poly<Frac, Grevlex>],
) -> Result<Vec<Poly<Frac, Grevlex>>, AllocError>
    requires values { StandForStart (program_of lp.now) values.now }
    ensures list { IfOk result (λ gs. AreStarts (program_of lp.now) gs.items) }
    ensures arity { IfOk result (λ gs. AreOver (length (program_of lp.now).names) gs.items) }
    ensures few { IfOk result (λ gs. length gs.items ≤ length (program_of lp.now).names) }
{
    let mut list = Vec::new(alloc);
    for (index, value) in values.iter().enumerate() {
        if is_set(lp.start(), index) {
            list.push(less_value(alloc, index, value)?)?;
        }
    }
    Ok(list)
}

/// Whether one of the equations sets the variable.
fn is_set(start: &[Init], index: usize) -> bool
    ensures { result ≡ list_any (λ i. eqb (equation_of i).name index) start.now }
{
    start.iter().any(|init| init.var == index)
}

/// A variable less its value, a polynomial in other variables.
fn less_value(
    alloc: Global,
    index: usize,
    value: &Poly<Frac, Grevlex>,
) -> Result<Poly<Frac, Grevlex>, AllocError>
    requires index { index < value.now.arity }
    requires other { IsWithout index (terms_in value.now) }
    ensures difference { IfOk result (λ p.
        terms_in p ≡ value_less value.now.arity index (terms_in value.now)) }
    ensures arity { IfOk result (λ p. p.arity ≡ value.now.arity) }
{
    let variable = Poly::variable(alloc, Grevlex, value.arity(), index)?;
    let opposite = value.neg(alloc)?;
    match variable.add(alloc, &opposite) {
        Ok(difference) => Ok(difference),
        Err(ArithmeticError::Memory) => Err(AllocError),
        Err(ArithmeticError::Wide) => unreachable!(),
    }
}
