//! Lists of polynomials, and lists of these, written.
ghost use Rattle.std.specs.Prelude.{All, IfOk, map};
ghost use Rattle.poly.specs.Seen.{terms_in};
ghost use Rattle.poly_text.specs.Narrow.{IsNarrow};
ghost use Rattle.cert_form.specs.Written.{list_data, IsWritten};
ghost use Rattle.full_cert.specs.RawWritten.{raw_data};
ghost use Rattle.full_cert.specs.Seen.{row_of, block_of};
ghost use Rattle.full_cert.specs.Narrow.{ArePolysNarrow, AreRowsNarrow};
ghost use Rattle.full_cert.specs.Written.{raws_data, rows_data};

use crate::poly_values::raw_value;
use frac128::Frac;
use monos::Order;
use poly::Poly;
use serde_json::Value;
use std::alloc::{AllocError, Global};
use task_lists::Polys;

/// Polynomials.
pub(crate) fn raws_value<O: Order>(
    alloc: Global,
    polys: &[Poly<Frac, O>],
) -> Result<Value, AllocError>
    ensures { IfOk result (IsWritten (list_data raw_data) (All (All IsNarrow))
        (map terms_in polys.now)) }
{
    let mut values = Vec::new(alloc);
    for element in polys {
        values.push(raw_value(alloc, element)?)?;
    }
    Ok(Value::from(values))
}

/// Lists of polynomials.
pub(crate) fn rows_value<O: Order>(
    alloc: Global,
    rows: &[Vec<Poly<Frac, O>>],
) -> Result<Value, AllocError>
    ensures { IfOk result (IsWritten (list_data raws_data) (All ArePolysNarrow)
        (map row_of rows.now)) }
{
    let mut values = Vec::new(alloc);
    for element in rows {
        values.push(raws_value(alloc, element)?)?;
    }
    Ok(Value::from(values))
}

/// Lists of these.
pub(crate) fn steps_value(alloc: Global, steps: &[Vec<Polys>]) -> Result<Value, AllocError>
    ensures { IfOk result (IsWritten (list_data rows_data) (All AreRowsNarrow)
        (map block_of steps.now)) }
{
    let mut values = Vec::new(alloc);
    for element in steps {
        values.push(rows_value(alloc, element)?)?;
    }
    Ok(Value::from(values))
}
