// What a row calls.
use crate::row_error::RowError;
use journal::Meter;
use std::alloc::{AllocError, Global};

/// A row: what it calls, and the values that it gives.
#[derive(Clone, Copy)]
pub(crate) struct Row<'a> {
    pub(crate) alloc: Global,
    pub(crate) call: &'a str,
    pub(crate) values: &'a [&'a str],
}

impl Row<'_> {
    /// What the row's call answers to its values.
    pub(crate) fn answer(&self) -> Result<String, AllocError> {
        let mut text = String::new(self.alloc);
        match self.push_answer(&mut text) {
            Ok(()) => Ok(text),
            Err(RowError::Memory) => Err(AllocError),
            Err(error) => String::from_str(self.alloc, error.text()),
        }
    }

    fn push_answer(&self, text: &mut String) -> Result<(), RowError> {
        match self.call {
            "add_row" => self.push_echelon(text),
            "classes" => self.push_classes(text),
            "split" => self.push_split(text),
            "base" => self.push_base(text),
            "exponents" => self.push_exponents(text),
            "forms" => self.push_forms(text),
            "dense" => self.push_dense(text),
            "normal"
            | "add"
            | "mul"
            | "shift_n"
            | "backward"
            | "before"
            | "at_zero"
            | "at_turn"
            | "solve_term" => self.push_exponential(text),
            _ => Ok(self.push_metered(text)?),
        }
    }

    // What a computation with ideals answers, and behind it what its meter has: the units, or all entries where the call begins with `entries of`.
    fn push_metered(&self, text: &mut String) -> Result<(), AllocError> {
        let [limit, values @ ..] = self.values else {
            return text.push_str(RowError::Unreadable.text());
        };
        let mut meter = Meter::new(self.alloc);
        let most = 1 << 28;
        meter.open(limit.parse().unwrap_or(0).min(most));
        let told = self.call.strip_prefix("entries of ");
        let row = Row {
            alloc: self.alloc,
            call: told.unwrap_or(self.call),
            values,
        };
        match row.computation(&mut meter) {
            Ok(answer) => text.push_str(&answer)?,
            Err(RowError::Memory) => return Err(AllocError),
            Err(error) => text.push_str(error.text())?,
        }
        match told {
            Some(_) => write!(text, " with {:?}", meter.entries()),
            None => write!(text, " in {} units", meter.used()),
        }
    }
}
