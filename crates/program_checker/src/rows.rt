//! The cofactors of transitions, read.
ghost use Rattle.std.specs.Prelude.{length, IfOk};
ghost use Rattle.serde_json.specs.View.{view, items_view};
ghost use Rattle.cert_form.specs.Faults.{ReadsLike};
ghost use Rattle.cert_form.specs.Form.{each, list_with, parts};
ghost use Rattle.cert_form.specs.Path.{path_bytes};
ghost use Rattle.program_checker.specs.Fits.{IsRow, AreRows};
ghost use Rattle.program_checker.specs.Form.{pairs_from, row_at};
ghost use Rattle.program_checker.specs.ReadAs.{IsSameRow, AreSameRows};

use crate::Row;
use cert_form::{CertError, Path, list_with, read_pair, shape_at};
use loop_model::Names;
use serde_json::Value;
use std::alloc::Global;

/// Reads the rows of a transition: pairs of a position below the number of its generators and a cofactor over its unknowns and the names.
#[derive(Clone, Copy)]
pub(crate) struct RowReader<'n> {
    pub(crate) alloc: Global,
    pub(crate) names: &'n Names,
    pub(crate) generators: usize,
}

impl RowReader<'_> {
    /// A row for each of so many elements.
    pub(crate) fn read_step<'a>(
        &self,
        path: &'a Path<'a>,
        value: &Value,
        elements: usize,
    ) -> Result<Vec<Row>, CertError>
        ensures rows { IfOk result (AreRows (length self.now.names.now) self.now.generators
            elements) }
        ensures reads { ReadsLike AreSameRows (parts (row_at self.now.names.now
            self.now.generators) (path_bytes path.now) (list_with elements (view value.now)))
            result }
    {
        let Some(list) = list_with(value, elements) else {
            return Err(shape_at(self.alloc, path));
        };
        self.read_rows(path, list)
    }

    // The rows of a list, in order.
    fn read_rows<'a>(&self, path: &'a Path<'a>, list: &[Value]) -> Result<Vec<Row>, CertError>
        ensures rows { IfOk result (AreRows (length self.now.names.now) self.now.generators
            (length list.now)) }
        ensures reads { ReadsLike AreSameRows (each (row_at self.now.names.now
            self.now.generators) (path_bytes path.now) 0 (items_view list.now)) result }
    {
        let mut found = Vec::new(self.alloc);
        for (i, value) in list.iter().enumerate() {
            let row = self.read_row(&Path::Place(path, i), value)?;
            found.push(row)?;
        }
        Ok(found)
    }

    fn read_row<'a>(&self, path: &'a Path<'a>, value: &Value) -> Result<Row, CertError>
        ensures row { IfOk result (IsRow (length self.now.names.now) self.now.generators) }
        ensures reads { ReadsLike IsSameRow (row_at self.now.names.now self.now.generators
            (path_bytes path.now) (view value.now)) result }
    {
        let Some(list) = value.as_array() else {
            return Err(shape_at(self.alloc, path));
        };
        self.read_pairs(path, list)
    }

    // The pairs of a list, with ascending positions.
    fn read_pairs<'a>(&self, path: &'a Path<'a>, list: &[Value]) -> Result<Row, CertError>
        ensures row { IfOk result (IsRow (length self.now.names.now) self.now.generators) }
        ensures reads { ReadsLike IsSameRow (pairs_from self.now.names.now self.now.generators
            (path_bytes path.now) 0 0 (items_view list.now)) result }
    {
        let mut row = Row {
            positions: Vec::new(self.alloc),
            cofactors: Vec::new(self.alloc),
        };
        let mut least = 0;
        for (i, value) in list.iter().enumerate() {
            let place = Path::Place(path, i);
            let (position, cofactor) = read_pair(
                self.alloc,
                &place,
                value,
                self.names,
                least,
                self.generators,
            )?;
            row.positions.push(position)?;
            row.cofactors.push(cofactor)?;
            least = position + 1;
        }
        Ok(row)
    }
}
