//! Writes certificates, with version 2.

ghost use Rattle.std.specs.Prelude.{◌≡◌, ◌↔◌, ◌≤◌, ◌++◌, [], ℕ, List, length, IsTrue, string_bytes, All, IfOk};
ghost use Rattle.serde_json.specs.Data.{string};
ghost use Rattle.serde_json.specs.View.{view};
ghost use Rattle.poly.specs.Seen.{terms_in};
ghost use Rattle.cert_form.specs.Form.{cert_in, most_elements, ReadsAs};
ghost use Rattle.cert_form.specs.Cert.{HaveArity, polys_in, rows_in, blocks_in};
ghost use Rattle.cert_form.specs.Written.{poly_data, list_data, pair_data, row_data, block_data, document, document_of, text_of, AreBlanks, IsReadBack, IsReadable, IsWritten};

use crate::Cert;
use crate::read::SPARSE_VERSION;
use frac128::Frac;
use loop_model::Names;
use monos::Grevlex;
use poly::Poly;
use poly_text::print_poly;
use serde_json::{Map, Value, put};
use std::alloc::{AllocError, Global};

// The text of a polynomial.
fn poly_value(alloc: Global, names: &Names, p: &Poly<Frac, Grevlex>) -> Result<Value, AllocError>
    requires { length names.now ≡ p.now.arity }
    ensures { IfOk result
        (IsWritten (poly_data names.now) (IsReadBack names.now) (terms_in p.now)) }
{
    Ok(Value::from(print_poly(alloc, p, names)?))
}

// The texts of polynomials, in order.
fn basis_value(
    alloc: Global,
    names: &Names,
    basis: &Vec<Poly<Frac, Grevlex>>,
) -> Result<Value, AllocError>
    requires { HaveArity (length names.now) basis.now }
    ensures { IfOk result (IsWritten (list_data (poly_data names.now))
        (All (IsReadBack names.now)) (polys_in basis.now)) }
{
    let mut texts = Vec::new(alloc);
    for p in basis {
        texts.push(poly_value(alloc, names, p)?)?;
    }
    Ok(Value::from(texts))
}

// A cofactor behind its position.
fn pair_value(
    alloc: Global,
    names: &Names,
    position: usize,
    cofactor: &Poly<Frac, Grevlex>,
) -> Result<Value, AllocError>
    requires { length names.now ≡ cofactor.now.arity }
    ensures { IfOk result (IsWritten (pair_data names.now position)
        (IsReadBack names.now) (terms_in cofactor.now)) }
{
    let text = poly_value(alloc, names, cofactor)?;
    let mut pair = Vec::new(alloc);
    pair.push(Value::from(position))?;
    pair.push(text)?;
    Ok(Value::from(pair))
}

// Whether a cofactor is left out: exactly where it is 0.
fn is_left_out(cofactor: &Poly<Frac, Grevlex>) -> bool
    ensures { IsTrue result ↔ (terms_in cofactor.now ≡ []) }
{
    cofactor.is_zero()
}

// The cofactors of a polynomial that aren't 0.
fn row_value(
    alloc: Global,
    names: &Names,
    row: &Vec<Poly<Frac, Grevlex>>,
) -> Result<Value, AllocError>
    requires { HaveArity (length names.now) row.now }
    ensures { IfOk result (IsWritten (row_data names.now)
        (All (IsReadBack names.now)) (polys_in row.now)) }
{
    let mut pairs = Vec::new(alloc);
    for (position, cofactor) in row.iter().enumerate() {
        prove_eq!(names.len(), cofactor.arity());
        if !is_left_out(cofactor) {
            let pair = pair_value(alloc, names, position, cofactor)?;
            pairs.push(pair)?;
        }
    }
    Ok(Value::from(pairs))
}

// The cofactors of a branch.
fn block_value(
    alloc: Global,
    names: &Names,
    block: &Vec<Vec<Poly<Frac, Grevlex>>>,
) -> Result<Value, AllocError>
    requires { All (HaveArity (length names.now)) block.now.items }
    ensures { IfOk result (IsWritten (block_data names.now)
        (All (All (IsReadBack names.now))) (rows_in block.now)) }
{
    let mut rows = Vec::new(alloc);
    for row in block {
        rows.push(row_value(alloc, names, row)?)?;
    }
    Ok(Value::from(rows))
}

// The cofactors of all branches.
fn steps_value(
    alloc: Global,
    names: &Names,
    steps: &Vec<Vec<Vec<Poly<Frac, Grevlex>>>>,
) -> Result<Value, AllocError>
    requires { All (λ block. All (HaveArity (length names.now)) block.items) steps.now.items }
    ensures { IfOk result (IsWritten (list_data (block_data names.now))
        (All (All (All (IsReadBack names.now)))) (blocks_in steps.now)) }
{
    let mut blocks = Vec::new(alloc);
    for block in steps {
        blocks.push(block_value(alloc, names, block)?)?;
    }
    Ok(Value::from(blocks))
}

/// The names, in order, as a list of texts.
pub fn names_value(alloc: Global, names: &Names) -> Result<Value, AllocError>
    ensures { IfOk result (λ v. view v ≡ list_data string names.now) }
{
    let mut texts = Vec::new(alloc);
    for index in 0..names.len() {
        texts.push(Value::try_from_str(alloc, names.name(index).as_str())?)?;
    }
    Ok(Value::from(texts))
}

// The object of these members, with version 2.
fn object_of(alloc: Global, basis: Value, steps: Value, vars: Value) -> Result<Value, AllocError>
    ensures { IfOk result (λ v. view v ≡ document (view basis) (view steps) (view vars)) }
{
    let mut members = Map::new(alloc);
    put(&mut members, alloc, "basis", basis)?;
    put(&mut members, alloc, "steps", steps)?;
    put(&mut members, alloc, "vars", vars)?;
    put(&mut members, alloc, "version", Value::from(SPARSE_VERSION))?;
    Ok(Value::from(members))
}

fn cert_value(alloc: Global, cert: &Cert, names: &Names) -> Result<Value, AllocError>
    requires { length names.now ≡ cert.now.arity }
    ensures { IfOk result
        (IsWritten (document_of names.now) (IsReadable names.now) cert.now.certificate) }
{
    let basis = basis_value(alloc, names, cert.basis())?;
    let steps = steps_value(alloc, names, cert.steps())?;
    let vars = names_value(alloc, names)?;
    object_of(alloc, basis, steps, vars)
}

/// The certificate as the text of a file, over as many names as it has variables: compact JSON with version 2, which leaves out
/// exactly the cofactors that are 0. One of at most 512 polynomials is read back, also with blanks behind it.
pub fn write_cert(alloc: Global, cert: &Cert, names: &Names) -> Result<String, AllocError>
    requires { length names.now ≡ cert.now.arity }
    ensures text { IfOk result (λ text.
        string_bytes text ≡ text_of names.now cert.now.certificate) }
    ensures read_back { let c = cert.now.certificate in IfOk result (λ text.
        length c.basis ≤ most_elements → (blanks : List ℕ) → AreBlanks blanks
        → ReadsAs (cert_in names.now (length c.steps) (string_bytes text ++ blanks)) c) }
{
    let value = cert_value(alloc, cert, names)?;
    let text = value.to_string(alloc)?;
    Ok(text)
}
