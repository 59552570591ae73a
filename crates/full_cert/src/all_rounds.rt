//! All rounds, read.
ghost use Rattle.std.specs.Prelude.{◌≡◌, ◌<◌, All, map, IfOk};
ghost use Rattle.std.specs.Option.{option_map};
ghost use Rattle.serde_json.specs.View.{view, items_view};
ghost use Rattle.cert_form.specs.Faults.{Reads};
ghost use Rattle.cert_form.specs.Path.{path_bytes};
ghost use Rattle.full_cert.specs.Form as spec;
ghost use Rattle.task_lists.specs.Images.{AreBranchesIn};
ghost use Rattle.full_cert.specs.Form.{given_bound};
ghost use Rattle.task_lists.specs.View.{branch_in, round_in, form_in};

use crate::list_in;
use crate::round::{RoundReader, given};
use cert_form::{CertError, Path, shape_at};
use serde_json::Value;
use task_lists::FullBranch;

// How many polynomials the last list of a round has, where that before it has so many.
fn last_given(before: usize, row: &[FullBranch]) -> usize
    requires { before < given_bound }
    ensures given { result ≡ spec.last_given before (map branch_in row.now) }
    ensures short { result < given_bound }
{
    let mut count = before;
    for branch in row {
        count = given(branch);
    }
    count
}

impl RoundReader<'_> {
    /// The stages of this round and of all behind it.
    pub(crate) fn read_rounds<'a>(
        &self,
        path: &'a Path<'a>,
        value: Option<&Value>,
    ) -> Result<Vec<Vec<FullBranch>>, CertError>
        ensures images { IfOk result (λ rounds.
            All (AreBranchesIn self.now.variables self.now.forms.now) rounds.items) }
        ensures reads { Reads (λ rounds. map round_in rounds.items)
            (spec.rounds_in self.now.variables self.now.before (map form_in self.now.forms.now)
            (path_bytes path.now) (option_map (λ v. view v.now) value.entry)) result }
    {
        let Some(list) = list_in(value) else {
            return Err(shape_at(self.alloc, path));
        };
        self.read_each_round(path, list)
    }

    fn read_each_round<'a>(
        &self,
        path: &'a Path<'a>,
        list: &[Value],
    ) -> Result<Vec<Vec<FullBranch>>, CertError>
        ensures images { IfOk result (λ rounds.
            All (AreBranchesIn self.now.variables self.now.forms.now) rounds.items) }
        ensures reads { Reads (λ rounds. map round_in rounds.items)
            (spec.rounds_at self.now.variables self.now.before (map form_in self.now.forms.now)
            (path_bytes path.now) 0 (items_view list.now)) result }
    {
        let mut found = Vec::new(self.alloc);
        let mut before = self.before;
        for (i, value) in list.iter().enumerate() {
            let reader = RoundReader {
                alloc: self.alloc,
                variables: self.variables,
                before,
                forms: self.forms,
            };
            let round = reader.read_round(&Path::Place(path, i), value)?;
            before = last_given(before, &round);
            found.push(round)?;
        }
        Ok(found)
    }
}
