// Maps: polynomials between semicolons, one for each name.
ghost use Rattle.std.specs.Prelude.{◌≡◌, All, length, IfOk};

use crate::columns::{list_of, names_of, names_with, push_poly};
use crate::lists::{push_list, push_lists};
use crate::row_error::RowError;
use crate::rows::Row;
use closed_forms::{Form, FormsError, forms};
use frac128::Frac;
use loop_model::Names;
use monos::Grevlex;
use poly::Poly;
use solvable::{SolvableError, classes};
use std::alloc::Global;

impl Row<'_> {
    /// What `classes` answers: each class, or the least chain.
    pub(crate) fn push_classes(&self, text: &mut String) -> Result<(), RowError> {
        let [names, map] = self.values else {
            return Err(RowError::Unreadable);
        };
        let map = map_of(self.alloc, names, map)?;
        match classes(self.alloc, &map) {
            Ok(found) => Ok(push_lists(text, "", &found.groups, "; ")?),
            Err(SolvableError::NotSolvable { cycle }) => {
                Ok(push_list(text, "not solvable: ", &cycle)?)
            }
            Err(SolvableError::Memory) => Err(RowError::Memory),
        }
    }

    /// What `forms` answers: the base, where the closed form begins if it does so late, and that of each variable; or its refusal.
    pub(crate) fn push_forms(&self, text: &mut String) -> Result<(), RowError> {
        let [front, variables, map] = self.values else {
            return Err(RowError::Unreadable);
        };
        let map = map_of(self.alloc, variables, map)?;
        if map.is_empty() || map.len() > 12 {
            return Err(RowError::Unreadable);
        }
        match forms(self.alloc, &map) {
            Ok(form) => push_form(self.alloc, &form, front, variables, text),
            Err(error) => push_refusal(text, &error),
        }
    }
}

fn push_form(
    alloc: Global,
    form: &Form,
    front: &str,
    variables: &str,
    text: &mut String,
) -> Result<(), RowError> {
    let names = names_with(alloc, front, variables)?;
    push_list(text, "base ", &form.base)?;
    if form.since > 0 {
        write!(text, "; since {}", form.since)?;
    }
    for poly in &form.polys {
        push_poly(alloc, "; ", poly.body(), &names, text)?;
    }
    Ok(())
}

fn push_refusal(text: &mut String, error: &FormsError) -> Result<(), RowError> {
    let class = match error {
        FormsError::NotSolvable { cycle } => {
            text.push_str("not solvable")?;
            cycle
        }
        FormsError::Eigen { class } => {
            text.push_str("eigen")?;
            class
        }
        FormsError::Range { class, sum } => {
            write!(text, "range {sum}")?;
            class
        }
        FormsError::WideSplit {
            class,
            candidate,
            power,
            row,
        } => {
            write!(text, "wide split {candidate} {power} {row}")?;
            class
        }
        FormsError::LimitForm { variable } => return Ok(write!(text, "limit form: {variable}")?),
        FormsError::WideForm { variable } => return Ok(write!(text, "wide form: {variable}")?),
        FormsError::Memory => return Err(RowError::Memory),
    };
    Ok(push_list(text, ": ", class)?)
}

// As many polynomials as names, in these.
fn map_of(alloc: Global, names: &str, text: &str) -> Result<Vec<Poly<Frac, Grevlex>>, RowError>
    ensures { IfOk result (λ map. All (λ p. p.arity ≡ length map.items) map.items) }
{
    let names = names_of(alloc, names, 0)?;
    let map = list_of(alloc, Grevlex, &names, text)?;
    if map.len() != names.len() {
        return Err(RowError::Unreadable);
    }
    Ok(map)
}
