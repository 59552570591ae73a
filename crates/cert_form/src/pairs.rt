//! Lists of cofactors with version 2: pairs of a position and a polynomial.
ghost use Rattle.std.specs.Prelude.{◌≡◌, ◌<◌, ◌≤◌, ◌-◌, ◌++◌, List, length, vec_len, IfOk, IfErr, OnOk};
ghost use Rattle.serde_json.specs.View.{view, items_view};
ghost use Rattle.algebra.specs.Fraction.{Fraction};
ghost use Rattle.polynomials.specs.Terms.{Terms};
ghost use Rattle.monos.specs.Variables.{most_variables};
ghost use Rattle.cert_form.specs.Form as form;
ghost use Rattle.cert_form.specs.Form.{pair_at, filled_row, sparse_row, zeros};
ghost use Rattle.cert_form.specs.Faults.{ReadsLike};
ghost use Rattle.cert_form.specs.Path.{path_bytes};
ghost use Rattle.cert_form.specs.Cert.{ArePolysOf, IsPairOf, IsRowOf};
ghost use Rattle.cert_form.specs.declared.error.CertError.TheVariants.{Memory};

use crate::CertError;
use crate::cert::Polys;
use crate::cofactors::CofactorReader;
use crate::fault::{Path, shape_at};
use crate::parts::{list_with, read_poly};
use frac128::Frac;
use loop_model::Names;
use monos::Grevlex;
use poly::Poly;
use serde_json::Value;
use std::alloc::Global;

// The whole number that the value is, where it is at least `least` and below `count`.
fn position_in(value: &Value, least: usize, count: usize) -> Option<usize>
    ensures { result ≡ form.position_in least count (view value.now) }
{
    let position = value.as_u64()? as usize;
    if least <= position && position < count {
        Some(position)
    } else {
        None
    }
}

// Puts polynomials 0 behind the others, until there are `count`.
fn push_zeros(alloc: Global, found: &mut Polys, arity: usize, count: usize) -> Result<(), CertError>
    requires few { arity ≤ most_variables }
    requires count { vec_len found.old ≤ count }
    ensures count { OnOk result (vec_len found.new ≡ count) }
    ensures zeros { OnOk result ((raws : List (Terms Fraction)) → ArePolysOf arity found.old raws
        → ArePolysOf arity found.new (raws ++ zeros (count - vec_len found.old))) }
    ensures memory { IfErr result (λ e. e ≡ Memory) }
{
    while found.len() < count {
        found.push(Poly::zero(alloc, Grevlex, arity))?;
    }
    Ok(())
}

/// A pair: a position that is at least `least` and below `count`, and a polynomial over the names.
#[tactic(auto, using(crate::proofs::Each::entry_is))]
pub fn read_pair<'a>(
    alloc: Global,
    path: &'a Path<'a>,
    value: &Value,
    names: &Names,
    least: usize,
    count: usize,
) -> Result<(usize, Poly<Frac, Grevlex>), CertError>
    ensures reads { ReadsLike (IsPairOf (length names.now))
        (pair_at names.now least count (path_bytes path.now) (view value.now)) result }
    ensures within { IfOk result (λ pair. (least ≤ pair.0) × (pair.0 < count)) }
{
    let Some(pair) = list_with(value, 2) else {
        return Err(shape_at(alloc, path));
    };
    let Some(position) = position_in(&pair[0], least, count) else {
        return Err(shape_at(alloc, path));
    };
    let polynomial = read_poly(alloc, path, &pair[1], names)?;
    Ok((position, polynomial))
}

impl CofactorReader<'_> {
    /// A list of pairs with ascending positions, as a row of cofactors: 0 at each other position.
    pub(crate) fn read_sparse_row<'a>(
        &self,
        path: &'a Path<'a>,
        value: &Value,
    ) -> Result<Polys, CertError>
        ensures { ReadsLike (IsRowOf (length self.now.names.now) self.now.elements)
            (sparse_row self.now.names.now self.now.elements (path_bytes path.now)
            (view value.now)) result }
    {
        let Some(list) = value.as_array() else {
            return Err(shape_at(self.alloc, path));
        };
        self.read_pairs(path, list)
    }

    // The cofactors of the pairs of a list, and 0 at each other position.
    fn read_pairs<'a>(&self, path: &'a Path<'a>, list: &[Value]) -> Result<Polys, CertError>
        ensures count { IfOk result (λ row. vec_len row ≡ self.now.elements) }
        ensures reads { ReadsLike (ArePolysOf (length self.now.names.now))
            (filled_row self.now.names.now self.now.elements (path_bytes path.now) 0 0
            (items_view list.now)) result }
    {
        let mut found = Vec::new(self.alloc);
        for (i, value) in list.iter().enumerate() {
            let place = Path::Place(path, i);
            let (position, cofactor) = read_pair(
                self.alloc,
                &place,
                value,
                self.names,
                found.len(),
                self.elements,
            )?;
            push_zeros(self.alloc, &mut found, self.names.len(), position)?;
            found.push(cofactor)?;
        }
        push_zeros(self.alloc, &mut found, self.names.len(), self.elements)?;
        Ok(found)
    }
}
