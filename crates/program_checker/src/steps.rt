//! The steps of a certificate, read.
ghost use Rattle.std.specs.Prelude.{◌≡◌, ◌<◌, map, length, vec_len, codes, IfOk};
ghost use Rattle.serde_json.specs.View.{view, items_view};
ghost use Rattle.flows.specs.Certificate.{transition_at};
ghost use Rattle.cert_form.specs.Faults.{ReadsLike};
ghost use Rattle.cert_form.specs.Path.{path_bytes};
ghost use Rattle.program_model.specs.GraphView.{graph_of};
ghost use Rattle.program_model.specs.Names.{HasNoUnknown};
ghost use Rattle.program_model.specs.Graphs.{IsGraphOf};
ghost use Rattle.program_checker.specs.Fits.{AreStepsFor, IsStepFor};
ghost use Rattle.program_checker.specs.Form.{each_by, step_at, steps_from};
ghost use Rattle.program_checker.specs.ReadAs.{AreSameRows, AreSameSteps};

use crate::Row;
use crate::rows::RowReader;
use crate::unknowns::with_unknowns;
use cert_form::{CertError, Path, list_with, shape_at};
use frac128::Frac;
use loop_model::Names;
use monos::Grevlex;
use poly::Poly;
use program_model::Graph;
use serde_json::Value;
use std::alloc::Global;

/// Reads the cofactors of a graph's transitions, by the lists of its nodes.
#[derive(Clone, Copy)]
pub(crate) struct StepReader<'a> {
    pub(crate) alloc: Global,
    pub(crate) names: &'a Names,
    pub(crate) graph: &'a Graph,
    pub(crate) lists: &'a Vec<Vec<Poly<Frac, Grevlex>>>,
    ghost graphs: { IsGraphOf graph.now },
    ghost named: { length names.now ≡ graph.now.variables },
    ghost free: { HasNoUnknown names.now },
    ghost nodes: { vec_len lists.now ≡ graph.now.nodes },
}

impl StepReader<'_> {
    /// The rows of each transition: a member of the object.
    pub(crate) fn read_steps(&self, value: &Value) -> Result<Vec<Vec<Row>>, CertError>
        ensures fits { IfOk result (AreStepsFor self.now.graph.now self.now.lists.now) }
        ensures reads { ReadsLike AreSameSteps (steps_from self.now.names.now
            (map vec_len self.now.lists.now.items) (graph_of self.now.graph.now)
            (view value.now)) result }
    {
        let path = Path::Root("/steps");
        let Some(steps) = value.get("steps") else {
            return Err(shape_at(self.alloc, &path));
        };
        let Some(list) = list_with(steps, self.graph.transitions.len()) else {
            return Err(shape_at(self.alloc, &path));
        };
        self.read_each(list)
    }

    // The rows of the transitions in order.
    fn read_each(&self, list: &[Value]) -> Result<Vec<Vec<Row>>, CertError>
        requires count { length list.now ≡ length self.now.graph.now.transitions.items }
        ensures fits { IfOk result (AreStepsFor self.now.graph.now self.now.lists.now) }
        ensures reads { ReadsLike AreSameSteps (each_by (λ j. step_at self.now.names.now
            (map vec_len self.now.lists.now.items)
            (transition_at (graph_of self.now.graph.now) j)) (codes "/steps") 0
            (items_view list.now)) result }
    {
        let path = Path::Root("/steps");
        let mut found = Vec::new(self.alloc);
        for (i, value) in list.iter().enumerate() {
            let step = self.read_step(i, &Path::Place(&path, i), value)?;
            found.push(step)?;
        }
        Ok(found)
    }

    // The rows of the transition with this number.
    fn read_step<'a>(
        &self,
        number: usize,
        path: &'a Path<'a>,
        value: &Value,
    ) -> Result<Vec<Row>, CertError>
        requires number { number < length self.now.graph.now.transitions.items }
        ensures fits { IfOk result (IsStepFor self.now.graph.now self.now.lists.now number) }
        ensures reads { ReadsLike AreSameRows (step_at self.now.names.now
            (map vec_len self.now.lists.now.items)
            (transition_at (graph_of self.now.graph.now) number) (path_bytes path.now)
            (view value.now)) result }
    {
        let transition = &self.graph.transitions[number];
        let names = with_unknowns(self.alloc, transition.unknowns, self.names)?;
        let rows = RowReader {
            alloc: self.alloc,
            names: &names,
            generators: self.lists[transition.from].len() + transition.zeros.len(),
        };
        rows.read_step(path, value, self.lists[transition.to].len())
    }
}
