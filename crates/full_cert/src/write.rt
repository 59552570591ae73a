//! Writes full certificates.
ghost use Rattle.std.specs.Prelude.{◌≡◌, ◌++◌, ℕ, List, Some, string_bytes, IfOk};
ghost use Rattle.cert_form.specs.Form.{document};
ghost use Rattle.cert_form.specs.Written.{AreBlanks, IsWritten};
ghost use Rattle.task_lists.specs.View.{full_of};
ghost use Rattle.full_cert.specs.Narrow.{IsFullNarrow};
ghost use Rattle.full_cert.specs.Written.{full_data, full_text};

use crate::branches::rounds_value;
use crate::list_texts::{raws_value, steps_value};
use crate::parts::{forms_value, start_value};
use cert_form::names_value;
use loop_model::Names;
use serde_json::{Map, Value, put};
use std::alloc::{AllocError, Global};
use task_lists::FullCert;

const VERSION: u64 = 1;

// The object of the parts, whose members stand in the order of their names.
fn full_value(alloc: Global, cert: &FullCert, names: &Names) -> Result<Value, AllocError>
    ensures { IfOk result (IsWritten (full_data names.now) IsFullNarrow (full_of cert.now)) }
{
    let mut members = Map::new(alloc);
    put(
        &mut members,
        alloc,
        "basis",
        raws_value(alloc, &cert.basis)?,
    )?;
    put(
        &mut members,
        alloc,
        "forms",
        forms_value(alloc, &cert.forms)?,
    )?;
    put(
        &mut members,
        alloc,
        "kind",
        Value::try_from_str(alloc, "full")?,
    )?;
    put(
        &mut members,
        alloc,
        "rounds",
        rounds_value(alloc, &cert.rounds)?,
    )?;
    put(
        &mut members,
        alloc,
        "start",
        start_value(alloc, &cert.start)?,
    )?;
    put(
        &mut members,
        alloc,
        "steps",
        steps_value(alloc, &cert.steps)?,
    )?;
    put(&mut members, alloc, "vars", names_value(alloc, names)?)?;
    put(&mut members, alloc, "version", Value::from(VERSION))?;
    Ok(Value::from(members))
}

/// The full certificate as the text of a file, over these names: compact JSON. It is read as its document, also with blanks behind it.
pub fn write_full(alloc: Global, cert: &FullCert, names: &Names) -> Result<String, AllocError>
    ensures text { IfOk result (λ text.
        string_bytes text ≡ full_text names.now (full_of cert.now)) }
    ensures read { IfOk result (λ text. (blanks : List ℕ) → AreBlanks blanks
        → document (string_bytes text ++ blanks) ≡ Some (full_data names.now (full_of cert.now))) }
    ensures narrow { IfOk result (λ text. IsFullNarrow (full_of cert.now)) }
{
    let value = full_value(alloc, cert, names)?;
    let text = value.to_string(alloc)?;
    Ok(text)
}
