// Rows of polynomials.
ghost use Rattle.std.specs.Prelude.{◌≡◌, length, IfOk};

use crate::fraction_rows::ratio;
use crate::tests::expect;
use frac128::Frac;
use monos::{Grevlex, Lex, Mono, Order};
use poly::{Poly, Term, laws as polynomial};
use ring_laws::{ArithmeticError, Ring};
use std::alloc::{AllocError, Global};

// Exponents in two variables, and a number.
type Row = ([u16; 2], i128);

// The monomial with these exponents.
fn monomial(alloc: Global, exponents: &[u16; 2]) -> Result<Mono, AllocError>
    ensures { IfOk result (λ m. length m ≡ 2) }
{
    Mono::new(alloc, &exponents.to_vec(alloc)?)
}

// The polynomial of these terms.
fn poly(alloc: Global, rows: &[Row]) -> Result<Poly<Frac, Grevlex>, ArithmeticError>
    ensures { IfOk result (λ p. p.arity ≡ 2) }
{
    let mut terms = Vec::new(alloc);
    for (exponents, number) in rows {
        let mono = monomial(alloc, exponents)?;
        let coef = whole(*number);
        terms.push(Term { mono, coef })?;
    }
    Poly::from_terms(alloc, Grevlex, 2, terms)
}

fn whole(number: i128) -> Frac {
    ratio(number, 1)
}

fn is_poly(
    alloc: Global,
    answer: Result<Poly<Frac, Grevlex>, ArithmeticError>,
    wanted: &[Row],
) -> bool {
    match (answer, poly(alloc, wanted)) {
        (Ok(answer), Ok(wanted)) => {
            polynomial::equality_decides(&answer, &wanted);
            answer == wanted
        }
        _ => false,
    }
}

fn is_zero(alloc: Global, rows: &[Row]) -> Result<bool, ArithmeticError> {
    Ok(poly(alloc, rows)?.is_zero())
}

// A call on two polynomials.
#[derive(Clone, Copy)]
enum PolyCall {
    Sum,
    Difference,
    Product,
}

fn combined(
    alloc: Global,
    call: PolyCall,
    left: &[Row],
    right: &[Row],
) -> Result<Poly<Frac, Grevlex>, ArithmeticError> {
    let left = poly(alloc, left)?;
    let right = poly(alloc, right)?;
    match call {
        PolyCall::Sum => left.add(alloc, &right),
        PolyCall::Difference => left.sub(alloc, &right),
        PolyCall::Product => left.mul(alloc, &right),
    }
}

fn copied(alloc: Global, of: &[Row]) -> Result<Poly<Frac, Grevlex>, ArithmeticError> {
    Ok(poly(alloc, of)?.copy(alloc)?)
}

fn multiple(alloc: Global, of: &[Row], by: i128) -> Result<Poly<Frac, Grevlex>, ArithmeticError> {
    poly(alloc, of)?.scale(alloc, &whole(by))
}

fn shifted(
    alloc: Global,
    of: &[Row],
    by: &[u16; 2],
) -> Result<Poly<Frac, Grevlex>, ArithmeticError> {
    poly(alloc, of)?.shift(alloc, &monomial(alloc, by)?)
}

fn composition(
    alloc: Global,
    of: &[Row],
    images: [&[Row]; 2],
) -> Result<Poly<Frac, Grevlex>, ArithmeticError> {
    let images = vec![in alloc; poly(alloc, images[0])?, poly(alloc, images[1])?]?;
    poly(alloc, of)?.compose(alloc, &images)
}

fn value(alloc: Global, of: &[Row], point: [i128; 2]) -> Result<Frac, ArithmeticError> {
    let point = vec![in alloc; whole(point[0]), whole(point[1])]?;
    Ok(poly(alloc, of)?.value_at(&point)?)
}

// Whether the polynomial has this term first, and this degree.
fn lead_is<O: Order>(poly: &Poly<Frac, O>, wanted: &[u16; 2], degree: u32) -> bool {
    let first = match poly.lead() {
        Some(term) => term.mono.exponents().as_slice() == wanted.as_slice(),
        None => false,
    };
    first && poly.degree() == Some(degree)
}

fn lead_by_degree_is(
    alloc: Global,
    of: &[Row],
    wanted: &[u16; 2],
) -> Result<bool, ArithmeticError> {
    let copy = poly(alloc, of)?.copy(alloc)?;
    Ok(lead_is(&copy.reorder(alloc, Grevlex)?, wanted, 2))
}

fn lead_by_letters_is(
    alloc: Global,
    of: &[Row],
    wanted: &[u16; 2],
) -> Result<bool, ArithmeticError> {
    let copy = poly(alloc, of)?.copy(alloc)?;
    Ok(lead_is(&copy.reorder(alloc, Lex)?, wanted, 2))
}

// The polynomial whose coefficient at x^i y^j is the product of the numbers at i and j.
fn grid(alloc: Global, numbers: &[i8]) -> Result<Vec<Row>, AllocError> {
    let mut rows = Vec::new(alloc);
    for (i, left) in (0u16..).zip(numbers) {
        for (j, right) in (0u16..).zip(numbers) {
            rows.push(([i, j], i128::from(left.wrapping_mul(*right))))?;
        }
    }
    Ok(rows)
}

// The square of the product of 1 + x + x^2 and 1 + y + y^2.
fn squares_a_dense_one(alloc: Global) -> Result<bool, ArithmeticError> {
    let dense = grid(alloc, &[1, 1, 1])?;
    let wanted = grid(alloc, &[1, 2, 3, 2, 1])?;
    let square = combined(alloc, PolyCall::Product, &dense, &dense);
    Ok(is_poly(alloc, square, &wanted))
}

// Halves of 16 terms are multiplied with their denominators cleared.
fn squares_halves(alloc: Global) -> Result<bool, ArithmeticError> {
    let dense = poly(alloc, &grid(alloc, &[1, 1, 1, 1])?)?;
    let half = dense.scale(alloc, &ratio(1, 2))?;
    let wanted = poly(alloc, &grid(alloc, &[1, 2, 3, 4, 3, 2, 1])?)?;
    Ok(half.mul(alloc, &half)? == wanted.scale(alloc, &ratio(1, 4))?)
}

fn polynomials(alloc: Global) -> [bool; 13] {
    use PolyCall::{Difference, Product, Sum};
    polynomial::equal_polynomials_have_equal_terms::<Frac, Grevlex>();
    let (x, y, one): (Row, Row, Row) = (([1, 0], 1), ([0, 1], 1), ([0, 0], 1));
    let (less_x, less_y): (Row, Row) = (([1, 0], -1), ([0, 1], -1));
    let squares: [Row; 2] = [([2, 0], 1), ([0, 2], -1)];
    let composed = composition(
        alloc,
        &[([2, 0], 1), less_y],
        [&[([1, 0], 2)], &[([0, 1], 4)]],
    );
    [
        is_zero(alloc, &[x, less_x]) == Ok(true),
        is_poly(alloc, combined(alloc, Sum, &[x, y], &[less_x]), &[y]),
        is_poly(alloc, combined(alloc, Difference, &[x], &[y]), &[x, less_y]),
        is_poly(
            alloc,
            combined(alloc, Product, &[x, y], &[x, less_y]),
            &squares,
        ),
        squares_a_dense_one(alloc) == Ok(true),
        squares_halves(alloc) == Ok(true),
        is_poly(
            alloc,
            multiple(alloc, &[x, one], 2),
            &[([1, 0], 2), ([0, 0], 2)],
        ),
        is_poly(alloc, shifted(alloc, &[x, one], &[0, 1]), &[([1, 1], 1), y]),
        is_poly(alloc, copied(alloc, &[x]), &[x]),
        is_poly(alloc, composed, &[([2, 0], 4), ([0, 1], -4)]),
        value(alloc, &[([2, 0], 1), less_y], [3, 9]) == Ok(Frac::zero()),
        lead_by_degree_is(alloc, &[x, ([0, 2], 1)], &[0, 2]) == Ok(true),
        lead_by_letters_is(alloc, &[x, ([0, 2], 1)], &[1, 0]) == Ok(true),
    ]
}

#[test]
fn polynomials_are_computed(rt: HostRuntime) {
    expect(&rt, &polynomials(rt.alloc()));
}
