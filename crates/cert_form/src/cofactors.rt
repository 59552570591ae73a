//! The cofactors of branches, read.
ghost use Rattle.std.specs.Prelude.{◌≡◌, length, vec_len, IfOk};
ghost use Rattle.serde_json.specs.View.{view, items_view};
ghost use Rattle.cert_form.specs.Form.{each, row_at, block_at, steps_of};
ghost use Rattle.cert_form.specs.Faults.{ReadsLike};
ghost use Rattle.cert_form.specs.Path.{path_bytes};
ghost use Rattle.cert_form.specs.Cert.{IsRowOf, AreRowsOf, IsBlockOf, AreBlocksOf, AreStepsOf};

use crate::CertError;
use crate::cert::Polys;
use crate::fault::{Path, shape_at};
use crate::parts::{list_with, read_polys};
use loop_model::Names;
use serde_json::Value;
use std::alloc::Global;

/// Reads cofactors over the names, a row of one for each of so many elements, in which those that are 0 may be left out where it is sparse.
#[derive(Clone, Copy)]
pub(crate) struct CofactorReader<'n> {
    pub(crate) alloc: Global,
    pub(crate) names: &'n Names,
    pub(crate) sparse: bool,
    pub(crate) elements: usize,
}

impl CofactorReader<'_> {
    /// The cofactors of so many branches: a member of the object.
    pub(crate) fn read_steps(
        &self,
        value: &Value,
        branches: usize,
    ) -> Result<Vec<Vec<Polys>>, CertError>
        ensures { ReadsLike (AreStepsOf (length self.now.names.now) self.now.elements branches)
            (steps_of self.now.names.now self.now.sparse branches self.now.elements
            (view value.now)) result }
    {
        let path = Path::Root("/steps");
        let Some(steps) = value.get("steps") else {
            return Err(shape_at(self.alloc, &path));
        };
        let Some(list) = list_with(steps, branches) else {
            return Err(shape_at(self.alloc, &path));
        };
        self.read_blocks(&path, list)
    }

    // The blocks of a list, in order.
    fn read_blocks<'a>(
        &self,
        path: &'a Path<'a>,
        list: &[Value],
    ) -> Result<Vec<Vec<Polys>>, CertError>
        ensures count { IfOk result (λ blocks. vec_len blocks ≡ length list.now) }
        ensures reads { ReadsLike (AreBlocksOf (length self.now.names.now) self.now.elements)
            (each (block_at self.now.names.now self.now.sparse self.now.elements)
            (path_bytes path.now) 0 (items_view list.now)) result }
    {
        let mut found = Vec::new(self.alloc);
        for (i, value) in list.iter().enumerate() {
            let block = self.read_block(&Path::Place(path, i), value)?;
            found.push(block)?;
        }
        Ok(found)
    }

    // A row for each element.
    fn read_block<'a>(&self, path: &'a Path<'a>, value: &Value) -> Result<Vec<Polys>, CertError>
        ensures { ReadsLike (IsBlockOf (length self.now.names.now) self.now.elements)
            (block_at self.now.names.now self.now.sparse self.now.elements (path_bytes path.now)
            (view value.now)) result }
    {
        let Some(list) = list_with(value, self.elements) else {
            return Err(shape_at(self.alloc, path));
        };
        self.read_rows(path, list)
    }

    // The rows of a list, in order.
    fn read_rows<'a>(&self, path: &'a Path<'a>, list: &[Value]) -> Result<Vec<Polys>, CertError>
        ensures count { IfOk result (λ rows. vec_len rows ≡ length list.now) }
        ensures reads { ReadsLike (AreRowsOf (length self.now.names.now) self.now.elements)
            (each (row_at self.now.names.now self.now.sparse self.now.elements)
            (path_bytes path.now) 0 (items_view list.now)) result }
    {
        let mut found = Vec::new(self.alloc);
        for (i, value) in list.iter().enumerate() {
            let row = self.read_row(&Path::Place(path, i), value)?;
            found.push(row)?;
        }
        Ok(found)
    }

    fn read_row<'a>(&self, path: &'a Path<'a>, value: &Value) -> Result<Polys, CertError>
        ensures { ReadsLike (IsRowOf (length self.now.names.now) self.now.elements)
            (row_at self.now.names.now self.now.sparse self.now.elements (path_bytes path.now)
            (view value.now)) result }
    {
        if self.sparse {
            return self.read_sparse_row(path, value);
        }
        let Some(list) = list_with(value, self.elements) else {
            return Err(shape_at(self.alloc, path));
        };
        read_polys(self.alloc, path, list, self.names)
    }
}
