// Matrices of fractions: rows between semicolons, numbers between commas.
ghost use Rattle.std.specs.Prelude.{◌≡◌, length, IfOk};

use crate::lists::{Item, push_list, push_lists};
use crate::row_error::RowError;
use crate::rows::Row;
use eigen_split::{EigenError, Split, split};
use frac128::Frac;
use linear::{LinearError, Rref};
use poly_text::read_number;
use std::alloc::Global;

impl Row<'_> {
    /// What `add_row` answers to each row in turn, then the rows of the echelon list and its kernel.
    pub(crate) fn push_echelon(&self, text: &mut String) -> Result<(), RowError> {
        let [width, rows] = self.values else {
            return Err(RowError::Unreadable);
        };
        let width = width.parse().unwrap_or(0);
        let mut echelon = Rref::new(self.alloc, width);
        for row in rows.split(';') {
            push_added(text, &mut echelon, &row_of(self.alloc, width, row)?)?;
        }
        push_lists(text, "rows ", echelon.rows(), " and ")?;
        let kernel = echelon.kernel()?;
        Ok(push_lists(text, "; kernel ", &kernel, " and ")?)
    }

    /// What `split` answers: each form with its value, or its refusal.
    pub(crate) fn push_split(&self, text: &mut String) -> Result<(), RowError> {
        let [matrix] = self.values else {
            return Err(RowError::Unreadable);
        };
        let size = matrix.split(';').count();
        let mut rows = Vec::new(self.alloc);
        for row in matrix.split(';') {
            rows.push(row_of(self.alloc, size, row)?)?;
        }
        if rows.is_empty() || rows.len() != size || size > 12 {
            return Err(RowError::Shape);
        }
        match split(self.alloc, &rows) {
            Ok(found) => push_found(text, &found),
            Err(error) => push_refusal(text, error),
        }
    }
}

fn push_added(text: &mut String, echelon: &mut Rref, row: &Vec<Frac>) -> Result<(), RowError>
    requires { length row.now.items ≡ echelon.old.width }
    ensures { echelon.new.width ≡ echelon.old.width }
{
    match echelon.add_row(row) {
        Ok(new) => Ok(write!(text, "{new}; ")?),
        Err(LinearError::Wide { target }) => Ok(write!(text, "wide {target}; ")?),
        Err(LinearError::Memory) => Err(RowError::Memory),
    }
}

fn push_found(text: &mut String, found: &Split) -> Result<(), RowError> {
    for (place, form) in found.forms.iter().enumerate() {
        push_list(text, if place > 0 { "; " } else { "" }, form)?;
        if let Some(value) = found.values.get(place) {
            text.push_str(" with ")?;
            value.push_to(text)?;
        }
    }
    Ok(())
}

fn push_refusal(text: &mut String, error: EigenError) -> Result<(), RowError> {
    match error {
        EigenError::Eigen => Ok(text.push_str("eigen")?),
        EigenError::Range { sum } => Ok(write!(text, "range {sum}")?),
        EigenError::Wide {
            candidate,
            power,
            row,
        } => Ok(write!(text, "wide {candidate} {power} {row}")?),
        EigenError::Memory => Err(RowError::Memory),
    }
}

// So many numbers.
fn row_of(alloc: Global, width: usize, text: &str) -> Result<Vec<Frac>, RowError>
    ensures { IfOk result (λ row. length row.items ≡ width) }
{
    let mut row = Vec::new(alloc);
    for number in text.split(',') {
        let Some(number) = read_number(number.as_bytes()) else {
            return Err(RowError::Unreadable);
        };
        row.push(number)?;
    }
    if row.len() != width {
        return Err(RowError::Shape);
    }
    Ok(row)
}
