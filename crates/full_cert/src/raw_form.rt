//! Whether lists have the form of raw polynomials.
ghost use Rattle.std.specs.Prelude.{◌≡◌, length};
ghost use Rattle.serde_json.specs.View.{view, items_view};
ghost use Rattle.full_cert.specs.Raw as spec;
ghost use Rattle.full_cert.specs.Raw.{every};

use cert_form::list_with;
use poly_text::is_number;
use serde_json::Value;

fn is_number_text(value: &Value) -> bool
    ensures { result ≡ spec.is_number_text (view value.now) }
{
    match value.as_str() {
        Some(text) => is_number(text.as_bytes()),
        None => false,
    }
}

fn are_numbers(list: &[Value]) -> bool
    ensures { result ≡ every spec.is_number_value (items_view list.now) }
{
    for value in list {
        if !value.is_number() {
            return false;
        }
    }
    true
}

fn is_list_of_numbers(value: &Value) -> bool
    ensures { result ≡ spec.is_list_of_numbers (view value.now) }
{
    match value.as_array() {
        Some(list) => are_numbers(list),
        None => false,
    }
}

#[tactic(auto, using(cert_form::proofs::Each::entry_is))]
fn are_term_parts(parts: &[Value]) -> bool
    requires { length parts.now ≡ 2 }
    ensures { result ≡ spec.are_term_parts (items_view parts.now) }
{
    is_number_text(&parts[0]) && is_list_of_numbers(&parts[1])
}

fn has_term_form(value: &Value) -> bool
    ensures { result ≡ spec.has_term_form (view value.now) }
{
    match list_with(value, 2) {
        Some(parts) => are_term_parts(parts),
        None => false,
    }
}

// Whether each value is a list of the text of a number and a list of numbers.
pub(crate) fn have_term_form(list: &[Value]) -> bool
    ensures { result ≡ every spec.has_term_form (items_view list.now) }
{
    for value in list {
        if !has_term_form(value) {
            return false;
        }
    }
    true
}
