//! The branches of a loop, with their closed forms.
ghost use Rattle.std.specs.Prelude.{◌≡◌, ℕ, length, map, All, IfOk, IfErr};
ghost use Rattle.poly.specs.Seen.{terms_each};
ghost use Rattle.loops.specs.Program.{Expr, Program};
ghost use Rattle.rounds.specs.Form.{inverse_form};
ghost use Rattle.polynomials.specs.Order.{grevlex};
ghost use Rattle.closed_forms.specs.Lengths.{IsShort};
ghost use Rattle.closed_forms.specs.Refusal.{AllPass, IfRefusedBy};
ghost use Rattle.closed_forms.specs.View.{IsFormOf};
ghost use Rattle.expo.specs.declared.exponential.Expo.{Expo};
ghost use Rattle.expo.specs.View.{base_of};
ghost use Rattle.solvable.specs.Refusal.{IsSolvable};
ghost use Rattle.poly.specs.Seen.{terms_in};
ghost use Rattle.invariant_fix.specs.Refusals.{refused_branch, IfRefusedBranch};
ghost use Rattle.invariant_fix.specs.Setting.{IsSquare, FitsBranch, AreMaps, AreBranches};

use crate::AnalyseError;
use closed_forms::{Form, FormsError, forms};
use expo::Expo;
use frac128::Frac;
use monos::Grevlex;
use poly::Poly;
use std::alloc::{AllocError, Global};

/// A branch of a loop.
#[derive(Drop)]
pub struct Branch {
    /// The values after it, as polynomials in the values before it: one for each variable.
    pub images: Vec<Poly<Frac, Grevlex>>,
    /// The values after any number of its iterations.
    pub form: Form,
    /// The values before any number of its iterations, as polynomials in those after them.
    pub back: Vec<Poly<Frac, Grevlex>>,
}

/// The branches with these maps, or the first one that is refused.
pub(crate) fn branches(
    alloc: Global,
    maps: Vec<Vec<Poly<Frac, Grevlex>>>,
) -> Result<Vec<Branch>, AnalyseError>
    requires square { All (λ images. IsSquare images.items) maps.items }
    ensures branches { (program : Program (Expr ℕ)) → AreMaps program maps.items
        → IfOk result (λ cs. AreBranches program cs.items) }
    ensures refused { (program : Program (Expr ℕ)) → AreMaps program maps.items
        → IfErr result (IfRefusedBranch program) }
{
    let mut out = Vec::new(alloc);
    for images in maps {
        match form_branch(alloc, images) {
            Ok(branch) => out.push(branch)?,
            Err(error) => return Err(refused_branch(out.len(), error)),
        }
    }
    Ok(out)
}

/// The refusal of the branch at this place.
fn refused_branch(branch: usize, error: FormsError) -> AnalyseError
    ensures { result ≡ refused_branch branch error }
{
    match error {
        FormsError::Memory => AnalyseError::Memory,
        error => AnalyseError::Branch { branch, error },
    }
}

/// The branch with these polynomials.
fn form_branch(alloc: Global, images: Vec<Poly<Frac, Grevlex>>) -> Result<Branch, FormsError>
    requires square { IsSquare images.items }
    ensures fits { IfOk result (FitsBranch (length images.items)) }
    ensures images { IfOk result (λ b. b.images ≡ images) }
    ensures form { IfOk result (λ b. IsFormOf (terms_each images.items) b.form) }
    ensures solvable { IfOk result (λ _. IsSolvable (terms_each images.items)) }
    ensures pass { IfOk result (λ _. AllPass (terms_each images.items)) }
    ensures short { IfOk result (λ _. IsShort (terms_each images.items)) }
    ensures refused { IfErr result (IfRefusedBy (terms_each images.items)) }
{
    let form = forms(alloc, &images)?;
    let back = inverse_form(alloc, &form.polys)?;
    Ok(Branch { images, form, back })
}

/// The polynomials backward.
fn inverse_form(alloc: Global, polys: &[Expo]) -> Result<Vec<Poly<Frac, Grevlex>>, AllocError>
    ensures terms { IfOk result (λ out. terms_each out.items ≡ map
        (λ (e : Expo). inverse_form grevlex (length (base_of e)) (terms_in e.body)) polys.now) }
    ensures arity { IfOk result (λ out.
        map (λ p. p.arity) out.items ≡ map (λ (e : Expo). e.body.arity) polys.now) }
{
    let mut out = Vec::new(alloc);
    for poly in polys {
        out.push(poly.inverse_form(alloc)?.into_body())?;
    }
    Ok(out)
}
