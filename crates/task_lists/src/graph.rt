//! The list of a graph of what was and what is.
ghost use Rattle.std.specs.Prelude.{◌≡◌, ◌⊎◌, ◌≤◌, ◌<◌, ◌+◌, ◌++◌, List, [], length, map, drop, All, IfOk, OnOk, IsErrOf};
ghost use Rattle.algebra.specs.Fraction.{Fraction, ℚ, fractions, rationals};
ghost use Rattle.polynomials.specs.Order.{grevlex};
ghost use Rattle.polynomials.specs.Terms.{Terms, variables, compose, negate};
ghost use Rattle.polynomials.specs.Weight.{IsPastComposition, IsPastSum};
ghost use Rattle.machines.specs.Collect.{collect};
ghost use Rattle.monos.specs.Variables.{most_variables};
ghost use Rattle.poly.specs.Seen.{terms_in, terms_each};
ghost use Rattle.poly.specs.Standing.{IsInVariables, StandsFor, AllStandFor};
ghost use Rattle.rounds.specs.Form.{variable_at};
ghost use Rattle.rounds.specs.Graph.{images_behind, less, graph_list};
ghost use Rattle.rounds.specs.Past.{IsPastLess, IsPastComposed, IsPastGraph};
ghost use Rattle.task_lists.specs.Shapes.{width_of};

use crate::shape::Shape;
use frac128::Frac;
use monos::Grevlex;
use poly::Poly;
use ring_laws::ArithmeticError;
use std::alloc::{AllocError, Global};

/// The elements of a list at what was, and each variable less its form there.
pub(crate) fn graph(
    alloc: Global,
    shape: Shape,
    before: Vec<Poly<Frac, Grevlex>>,
    forms: &[Poly<Frac, Grevlex>],
    list: &[Poly<Frac, Grevlex>],
) -> Result<Vec<Poly<Frac, Grevlex>>, ArithmeticError>
    requires some { 0 < shape.variables }
    requires few { width_of shape ≤ most_variables }
    requires count { length before.items ≡ shape.variables }
    requires before { All (IsInVariables (width_of shape)) before.items }
    requires forms { All (IsInVariables (shape.front + shape.variables)) forms.now }
    requires places { length forms.now ≡ shape.variables }
    requires list { All (IsInVariables shape.variables) list.now }
    ensures graph { IfOk result (λ out. AllStandFor (width_of shape) out.items
        (graph_list shape.front shape.copies shape.variables (terms_each before.items)
        (terms_each forms.now) [] (terms_each list.now))) }
    ensures wide { IsErrOf result ArithmeticError.Wide
        → IsPastGraph shape.front shape.copies shape.variables (terms_each before.items)
        (terms_each forms.now) (terms_each list.now) }
{
    let mut out = Vec::new(alloc);
    push_composed(alloc, &mut out, shape, &before, list)?;
    let images = behind_front(alloc, shape, before)?;
    push_differences(alloc, &mut out, shape, &images, 0, forms)?;
    Ok(out)
}

/// Puts the elements of a list at what was behind the others.
fn push_composed(
    alloc: Global,
    out: &mut Vec<Poly<Frac, Grevlex>>,
    shape: Shape,
    before: &Vec<Poly<Frac, Grevlex>>,
    list: &[Poly<Frac, Grevlex>],
) -> Result<(), ArithmeticError>
    requires some { 0 < shape.variables }
    requires count { length before.now.items ≡ shape.variables }
    requires before { All (IsInVariables (width_of shape)) before.now.items }
    requires list { All (IsInVariables shape.variables) list.now }
    ensures composed { (qs : List (Terms Fraction))
        → AllStandFor (width_of shape) out.old.items qs
        → OnOk result (AllStandFor (width_of shape) out.new.items (qs
        ++ map (λ g. compose ℚ (width_of shape) g (terms_each before.now.items))
        (terms_each list.now))) }
    ensures wide { IsErrOf result ArithmeticError.Wide
        → IsPastComposed (terms_each before.now.items) (terms_each list.now) }
{
    for element in list {
        out.push(element.compose(alloc, before)?)?;
    }
    Ok(())
}

/// The variables in front, and behind them what the others were.
fn behind_front(
    alloc: Global,
    shape: Shape,
    before: Vec<Poly<Frac, Grevlex>>,
) -> Result<Vec<Poly<Frac, Grevlex>>, AllocError>
    requires few { width_of shape ≤ most_variables }
    requires before { All (IsInVariables (width_of shape)) before.items }
    ensures images { IfOk result (λ images. terms_each images.items
        ≡ images_behind shape.front (width_of shape) (terms_each before.items)) }
    ensures over { IfOk result (λ images. All (IsInVariables (width_of shape)) images.items) }
{
    let mut images = Vec::new(alloc);
    for place in 0..shape.front {
        images.push(shape.variable(alloc, place)?)?;
    }
    let mut before = before;
    images.append(&mut before)?;
    Ok(images)
}

/// Puts the variables from this place on, each less its form at what was, behind the others.
fn push_differences(
    alloc: Global,
    out: &mut Vec<Poly<Frac, Grevlex>>,
    shape: Shape,
    images: &Vec<Poly<Frac, Grevlex>>,
    place: usize,
    forms: &[Poly<Frac, Grevlex>],
) -> Result<(), ArithmeticError>
    requires some { 0 < shape.variables }
    requires few { width_of shape ≤ most_variables }
    requires places { place + length forms.now ≤ shape.variables }
    requires count { length images.now.items ≡ shape.front + shape.variables }
    requires images { All (IsInVariables (width_of shape)) images.now.items }
    requires forms { All (IsInVariables (shape.front + shape.variables)) forms.now }
    ensures differences { let w = width_of shape in (qs : List (Terms Fraction))
        → AllStandFor w out.old.items qs
        → OnOk result (AllStandFor w out.new.items (qs
        ++ less (drop (shape.front + shape.copies + place) (variables ℚ w))
        (map (λ f. compose ℚ w f (terms_each images.now.items)) (terms_each forms.now)))) }
    ensures wide { let w = width_of shape in IsErrOf result ArithmeticError.Wide
        → IsPastComposed (terms_each images.now.items) (terms_each forms.now)
        ⊎ IsPastLess (drop (shape.front + shape.copies + place) (variables ℚ w))
        (map (λ f. collect rationals grevlex (compose ℚ w f (terms_each images.now.items)))
        (terms_each forms.now)) }
{
    let Some((form, forms)) = forms.split_first() else {
        return Ok(());
    };
    out.push(difference(alloc, shape, images, place, form)?)?;
    push_differences(alloc, out, shape, images, place + 1, forms)
}

/// The variable at this place, less its form at what was.
fn difference(
    alloc: Global,
    shape: Shape,
    images: &Vec<Poly<Frac, Grevlex>>,
    place: usize,
    form: &Poly<Frac, Grevlex>,
) -> Result<Poly<Frac, Grevlex>, ArithmeticError>
    requires some { 0 < shape.variables }
    requires few { width_of shape ≤ most_variables }
    requires place { place < shape.variables }
    requires count { length images.now.items ≡ shape.front + shape.variables }
    requires images { All (IsInVariables (width_of shape)) images.now.items }
    requires form { form.now.arity ≡ shape.front + shape.variables }
    ensures difference { let w = width_of shape in IfOk result (λ p. StandsFor w p
        (variable_at w (shape.front + shape.copies + place)
        ++ negate ℚ (compose ℚ w (terms_in form.now) (terms_each images.now.items)))) }
    ensures wide { let w = width_of shape in IsErrOf result ArithmeticError.Wide
        → IsPastComposition fractions (terms_in form.now) (terms_each images.now.items)
        ⊎ IsPastSum fractions (variable_at w (shape.front + shape.copies + place))
        (collect rationals grevlex
        (compose ℚ w (terms_in form.now) (terms_each images.now.items))) }
{
    let variable = shape.variable(alloc, shape.front + shape.copies + place)?;
    let image = form.compose(alloc, images)?;
    variable.sub(alloc, &image)
}
