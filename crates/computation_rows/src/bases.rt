// Bases of whole numbers, which stand between commas, and exponents over them.
ghost use Rattle.std.specs.Prelude.{◌<ℤ◌, pos, IfOk};
ghost use Rattle.coprime_base.specs.Sizes.{sizes};
ghost use Rattle.expo.specs.Bases.{IsCoprimeBase};

use crate::lists::push_list;
use crate::row_error::RowError;
use crate::rows::Row;
use coprime_base::{BaseError, base, exponents};
use frac128::Whole;
use poly_text::read_number;
use std::alloc::Global;

impl Row<'_> {
    /// What `base` answers: the numbers of the coarsest base.
    pub(crate) fn push_base(&self, text: &mut String) -> Result<(), RowError> {
        let [numbers] = self.values else {
            return Err(RowError::Unreadable);
        };
        let base = base_of(self.alloc, numbers)?;
        Ok(push_list(text, "", &base)?)
    }

    /// What `exponents` answers over the coarsest base of numbers.
    pub(crate) fn push_exponents(&self, text: &mut String) -> Result<(), RowError> {
        let [numbers, value] = self.values else {
            return Err(RowError::Unreadable);
        };
        let Some(value) = read_number(value.as_bytes()) else {
            return Err(RowError::Unreadable);
        };
        if value.num() <= 0 {
            return Err(RowError::Unreadable);
        }
        let base = base_of(self.alloc, numbers)?;
        match exponents(self.alloc, &base, &value) {
            Ok(found) => Ok(push_list(text, "", &found)?),
            Err(BaseError::NotInBase) => Err(RowError::NotInBase),
            Err(BaseError::Memory) => Err(RowError::Memory),
        }
    }
}

/// The coarsest base of the numbers.
pub(crate) fn base_of(alloc: Global, numbers: &str) -> Result<Vec<Whole>, RowError>
    ensures { IfOk result (λ base. IsCoprimeBase (sizes base.items)) }
{
    let mut list = Vec::new(alloc);
    for number in numbers.split_terminator(',') {
        list.push(positive_of(number)?)?;
    }
    Ok(base(alloc, &list)?)
}

fn positive_of(number: &str) -> Result<Whole, RowError>
    ensures { IfOk result (λ whole. pos 0 <ℤ whole.value) }
{
    let value = number.parse().unwrap_or(0);
    if value <= 0 {
        return Err(RowError::Unreadable);
    }
    let Some(whole) = Whole::new(value) else {
        return Err(RowError::Unreadable);
    };
    Ok(whole)
}
