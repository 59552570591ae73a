//! Where a part stands, and the faults of parts.
ghost use Rattle.std.specs.Prelude.{◌≡◌, string_bytes, IfOk};
ghost use Rattle.cert_form.specs.Form.{shape, polynomial};
ghost use Rattle.cert_form.specs.Faults.{IfFault};
ghost use Rattle.cert_form.specs.Path.{path_bytes};

use crate::CertError;
use std::alloc::{AllocError, Global};

/// Where a part stands: at a path of this text, at a member of the object at another path, or at a place in the
/// list there. Its text is made for a fault alone.
#[derive(Clone, Copy)]
pub enum Path<'a> {
    Root(&'a str),
    Member(&'a Path<'a>, &'a str),
    Place(&'a Path<'a>, usize),
}

/// The fault of a part that has another form than it must.
pub fn shape_at(alloc: Global, path: &Path<'_>) -> CertError
    ensures { IfFault result (λ f. f ≡ shape (path_bytes path.now)) }
{
    match text_of(alloc, path) {
        Ok(path) => CertError::Shape { path },
        Err(_) => CertError::Memory,
    }
}

/// The fault of a part that has the form of a polynomial, and is none.
pub fn polynomial_at(alloc: Global, path: &Path<'_>) -> CertError
    ensures { IfFault result (λ f. f ≡ polynomial (path_bytes path.now)) }
{
    match text_of(alloc, path) {
        Ok(path) => CertError::Poly { path },
        Err(_) => CertError::Memory,
    }
}

fn text_of(alloc: Global, path: &Path<'_>) -> Result<String, AllocError>
    ensures { IfOk result (λ text. string_bytes text ≡ path_bytes path.now) }
{
    match path {
        Path::Root(text) => String::from_str(alloc, text),
        Path::Member(object, name) => {
            let object = text_of(alloc, object)?;
            format!(in alloc; "{object}/{name}")
        }
        Path::Place(list, place) => {
            let list = text_of(alloc, list)?;
            format!(in alloc; "{list}/{place}")
        }
    }
}
