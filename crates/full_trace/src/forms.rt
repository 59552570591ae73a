//! The forms of the branches, as a full certificate has them.
ghost use Rattle.std.specs.Prelude.{◌≡◌, ℕ, List, All, map, length, IfOk};
ghost use Rattle.poly.specs.Seen.{terms_each};
ghost use Rattle.closed_forms.specs.Values.{bodies_of, AreOver};
ghost use Rattle.task_lists.specs.Images.{ArePolys, IsFormOver};
ghost use Rattle.task_lists.specs.View.{form_in};
ghost use Rattle.solvable_maps.specs.Iterations.{width};
ghost use Rattle.invariant_fix.specs.Setting.{FitsBranch};
ghost use Rattle.full_trace.specs.Tasks.{written_of};

use expo::Expo;
use invariant_fix::Branch;
use std::alloc::{AllocError, Global};
use task_lists::{FullForm, Polys};

/// The polynomials in n, s, u, v and the variables.
fn bodies(alloc: Global, polys: Vec<Expo>) -> Result<Polys, AllocError>
    ensures bodies { IfOk result (λ out. terms_each out.items ≡ bodies_of polys.items) }
    ensures over { (base : List ℕ) (m : ℕ) → AreOver base m polys.items
        → IfOk result (ArePolys (width (length base) m)) }
{
    let mut out = Vec::new(alloc);
    for poly in polys {
        out.push(poly.into_body())?;
    }
    Ok(out)
}

/// The form of each of these branches.
pub(crate) fn forms_in(alloc: Global, branches: Vec<Branch>) -> Result<Vec<FullForm>, AllocError>
    ensures forms { IfOk result (λ fs. map form_in fs.items
        ≡ map (λ c. written_of c.form) branches.items) }
    ensures over { (m : ℕ) → All (FitsBranch m) branches.items
        → IfOk result (λ fs. All (IsFormOver m) fs.items) }
{
    let mut forms = Vec::new(alloc);
    for branch in branches {
        let form = branch.form;
        let polys = bodies(alloc, form.polys)?;
        forms.push(FullForm {
            base: form.base,
            polys,
        })?;
    }
    Ok(forms)
}
