//! The stages of branches and rounds, read.
ghost use Rattle.std.specs.Prelude.{◌≡◌, ◌≤◌, ◌<◌, ◌+◌, None, All, length, vec_len, map, IfOk, IfSome};
ghost use Rattle.std.specs.Option.{option_map};
ghost use Rattle.serde_json.specs.View.{view, items_view};
ghost use Rattle.rounds.specs.Form.{front};
ghost use Rattle.cert_form.specs.Faults.{Reads};
ghost use Rattle.cert_form.specs.Path.{path_bytes};
ghost use Rattle.full_cert.specs.PartsForm.{most_loop_variables};
ghost use Rattle.task_lists.specs.Images.{most_bases, IsFormOver, IsStageIn, IsBranchIn, AreBranchesIn};
ghost use Rattle.full_cert.specs.Form as spec;
ghost use Rattle.monos.specs.Variables.{most_variables};
ghost use Rattle.full_cert.specs.Form.{given_bound};
ghost use Rattle.task_lists.specs.View.{stage_in, form_in, branch_in};

use crate::read_stage;
use cert_form::{CertError, Path, list_with, shape_at};
use serde_json::Value;
use std::alloc::Global;
use task_lists::{FullBranch, FullForm, FullStage};

// The stage that is the member of this name.
fn read_member<'a>(
    alloc: Global,
    path: &'a Path<'a>,
    value: &Value,
    name: &'a str,
    front: usize,
    variables: usize,
    gens: usize,
) -> Result<FullStage, CertError>
    requires few { front + variables ≤ most_variables }
    ensures images { IfOk result (IsStageIn front variables) }
    ensures reads { Reads stage_in
        (spec.member_stage front variables gens (path_bytes path.now) name.now (view value.now))
        result }
{
    let path = Path::Member(path, name);
    match value.get(name) {
        Some(stage) => read_stage(alloc, &path, stage, front, variables, gens),
        None => Err(shape_at(alloc, &path)),
    }
}

/// Reads the stages of a branch over so many variables, where the list before the round has so many polynomials.
#[derive(Clone, Copy)]
struct BranchReader<'f> {
    alloc: Global,
    variables: usize,
    before: usize,
    /// How many polynomials the list so far has: none for the first branch.
    so_far: Option<usize>,
    form: &'f FullForm,
    ghost few: { variables ≤ most_loop_variables },
    ghost short: { before < given_bound },
    ghost bases: { vec_len form.now.base ≤ most_bases },
}

impl BranchReader<'_> {
    // The stages, with an intersection where there is a list so far.
    fn read_branch<'a>(&self, path: &'a Path<'a>, value: &Value) -> Result<FullBranch, CertError>
        requires short { IfSome self.now.so_far (λ n. n < given_bound) }
        ensures images { IfOk result (IsBranchIn self.now.variables self.now.form.now) }
        ensures reads { Reads branch_in
            (spec.branch_at self.now.variables self.now.before self.now.so_far
            (form_in self.now.form.now) (path_bytes path.now) (view value.now)) result }
    {
        if !value.is_object() {
            return Err(shape_at(self.alloc, path));
        }
        let orbit = self.read_orbit(path, value)?;
        let meet = self.read_meet(path, value, orbit.out.len())?;
        Ok(FullBranch { orbit, meet })
    }

    fn read_orbit<'a>(&self, path: &'a Path<'a>, value: &Value) -> Result<FullStage, CertError>
        ensures images { IfOk result
            (IsStageIn (front (vec_len self.now.form.now.base)) self.now.variables) }
        ensures reads { Reads stage_in
            (spec.orbit_at self.now.variables self.now.before (form_in self.now.form.now)
            (path_bytes path.now) (view value.now)) result }
    {
        let numbers = self.form.base.len();
        let front = 2 + (numbers + numbers);
        let gens = self.before + (1 + numbers);
        read_member(
            self.alloc,
            path,
            value,
            "orbit",
            front,
            self.variables,
            gens,
        )
    }

    // The intersection of a further branch, whose orbit gives so many polynomials.
    fn read_meet<'a>(
        &self,
        path: &'a Path<'a>,
        value: &Value,
        given: usize,
    ) -> Result<Option<FullStage>, CertError>
        requires given { given < given_bound }
        requires short { IfSome self.now.so_far (λ n. n < given_bound) }
        ensures images { IfOk result (λ meet. IfSome meet (IsStageIn 1 self.now.variables)) }
        ensures reads { Reads (option_map stage_in)
            (spec.meet_at self.now.variables self.now.so_far given (path_bytes path.now)
            (view value.now)) result }
    {
        let Some(count) = self.so_far else {
            return Ok(None);
        };
        let gens = count + given;
        let meet = read_member(self.alloc, path, value, "meet", 1, self.variables, gens)?;
        Ok(Some(meet))
    }
}

// How many polynomials the list so far has behind these stages.
pub(crate) fn given(branch: &FullBranch) -> usize
    ensures given { result ≡ spec.given_by (branch_in branch.now) }
    ensures short { result < given_bound }
{
    match &branch.meet {
        Some(meet) => meet.out.len(),
        None => branch.orbit.out.len(),
    }
}

/// Reads the stages of a round over so many variables, where the list before it has so many polynomials, and the branches
/// have these forms.
#[derive(Clone, Copy)]
pub(crate) struct RoundReader<'f> {
    pub(crate) alloc: Global,
    pub(crate) variables: usize,
    pub(crate) before: usize,
    pub(crate) forms: &'f [FullForm],
    ghost few: { variables ≤ most_loop_variables },
    ghost short: { before < given_bound },
    ghost over: { All (IsFormOver variables) forms.now },
}

impl RoundReader<'_> {
    /// The stages of the round.
    pub(crate) fn read_round<'a>(
        &self,
        path: &'a Path<'a>,
        value: &Value,
    ) -> Result<Vec<FullBranch>, CertError>
        ensures images { IfOk result (AreBranchesIn self.now.variables self.now.forms.now) }
        ensures reads { Reads (λ bs. map branch_in bs.items)
            (spec.round_at self.now.variables self.now.before (map form_in self.now.forms.now)
            (path_bytes path.now) (view value.now)) result }
    {
        let Some(list) = list_with(value, self.forms.len()) else {
            return Err(shape_at(self.alloc, path));
        };
        self.read_branches(path, list)
    }

    // The stages of the branches, one for each form.
    fn read_branches<'a>(
        &self,
        path: &'a Path<'a>,
        list: &[Value],
    ) -> Result<Vec<FullBranch>, CertError>
        requires count { length list.now ≡ length self.now.forms.now }
        ensures images { IfOk result (AreBranchesIn self.now.variables self.now.forms.now) }
        ensures reads { Reads (λ bs. map branch_in bs.items)
            (spec.branches_at self.now.variables self.now.before None
            (map form_in self.now.forms.now) (path_bytes path.now) 0 (items_view list.now)) result }
    {
        let mut found = Vec::new(self.alloc);
        let mut so_far = None;
        for (i, value) in list.iter().enumerate() {
            let reader = BranchReader {
                alloc: self.alloc,
                variables: self.variables,
                before: self.before,
                so_far,
                form: &self.forms[i],
            };
            let branch = reader.read_branch(&Path::Place(path, i), value)?;
            so_far = Some(given(&branch));
            found.push(branch)?;
        }
        Ok(found)
    }
}
