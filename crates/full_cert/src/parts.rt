//! The parts of full certificates, written.
ghost use Rattle.std.specs.Prelude.{◌≡◌, All, IfOk, map};
ghost use Rattle.serde_json.specs.View.{view};
ghost use Rattle.cert_form.specs.Written.{list_data, IsWritten};
ghost use Rattle.task_lists.specs.View.{form_in, start_in, stage_in};
ghost use Rattle.full_cert.specs.Seen.{size_of};
ghost use Rattle.full_cert.specs.Narrow.{IsNarrowNumber, IsFormNarrow, IsStartNarrow, IsStageNarrow};
ghost use Rattle.full_cert.specs.Written.{base_number_data, form_data, start_data, stage_data};

use crate::list_texts::{raws_value, rows_value};
use frac128::Whole;
use itoa::Buffer;
use serde_json::{Map, Value, put};
use std::alloc::{AllocError, Global};
use task_lists::{FullForm, FullStage, FullStart};

fn base_number_value(alloc: Global, number: &Whole) -> Result<Value, AllocError>
    ensures value { IfOk result (λ v. view v ≡ base_number_data (size_of number.now)) }
    ensures narrow { IfOk result (λ v. IsNarrowNumber (size_of number.now)) }
{
    let mut buffer = Buffer::new();
    Value::try_from_str(alloc, buffer.format(number.value().unsigned_abs()))
}

// The numbers of a base.
fn base_value(alloc: Global, base: &[Whole]) -> Result<Value, AllocError>
    ensures { IfOk result (IsWritten (list_data base_number_data) (All IsNarrowNumber)
        (map size_of base.now)) }
{
    let mut values = Vec::new(alloc);
    for element in base {
        values.push(base_number_value(alloc, element)?)?;
    }
    Ok(Value::from(values))
}

fn form_value(alloc: Global, form: &FullForm) -> Result<Value, AllocError>
    ensures { IfOk result (IsWritten form_data IsFormNarrow (form_in form.now)) }
{
    let mut members = Map::new(alloc);
    put(&mut members, alloc, "base", base_value(alloc, &form.base)?)?;
    put(
        &mut members,
        alloc,
        "polys",
        raws_value(alloc, &form.polys)?,
    )?;
    Ok(Value::from(members))
}

/// Forms.
pub(crate) fn forms_value(alloc: Global, forms: &[FullForm]) -> Result<Value, AllocError>
    ensures { IfOk result (IsWritten (list_data form_data) (All IsFormNarrow)
        (map form_in forms.now)) }
{
    let mut values = Vec::new(alloc);
    for element in forms {
        values.push(form_value(alloc, element)?)?;
    }
    Ok(Value::from(values))
}

/// A start.
pub(crate) fn start_value(alloc: Global, start: &FullStart) -> Result<Value, AllocError>
    ensures { IfOk result (IsWritten start_data IsStartNarrow (start_in start.now)) }
{
    let mut members = Map::new(alloc);
    put(
        &mut members,
        alloc,
        "links",
        rows_value(alloc, &start.links)?,
    )?;
    put(&mut members, alloc, "out", raws_value(alloc, &start.out)?)?;
    Ok(Value::from(members))
}

/// A stage.
pub(crate) fn stage_value(alloc: Global, stage: &FullStage) -> Result<Value, AllocError>
    ensures { IfOk result (IsWritten stage_data IsStageNarrow (stage_in stage.now)) }
{
    let mut members = Map::new(alloc);
    put(&mut members, alloc, "gens", rows_value(alloc, &stage.gens)?)?;
    put(
        &mut members,
        alloc,
        "links",
        rows_value(alloc, &stage.links)?,
    )?;
    put(&mut members, alloc, "list", raws_value(alloc, &stage.list)?)?;
    put(&mut members, alloc, "out", raws_value(alloc, &stage.out)?)?;
    put(
        &mut members,
        alloc,
        "pairs",
        rows_value(alloc, &stage.pairs)?,
    )?;
    Ok(Value::from(members))
}
