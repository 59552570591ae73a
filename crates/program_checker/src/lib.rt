//! Certificates of programs: read from JSON, and judged by identities of polynomials alone.
//!
//! Proved: `read_program_cert` gives the certificate of the file, or the first fault with its path. `check_program` has one verdict: valid,
//! and then each listed polynomial is 0 at every state that is reached at its node, or the first identity that is false. Each refusal has
//! its cause.
//!
//! Notion: certificates.
#![tactic(auto)]

ghost use Rattle.std.specs.Prelude.{◌≡◌, ◌<◌, ℕ, List, length, IfOk, IfErr};
ghost use Rattle.algebra.specs.Fraction.{Fraction, ℚ};
ghost use Rattle.polynomials.specs.Terms.{value_at};
ghost use Rattle.loops.specs.Program.{Expr};
ghost use Rattle.flows.specs.Certificate.{IsVerdict, family, element};
ghost use Rattle.flows.specs.Graph.{Inv};
ghost use Rattle.flows.specs.Chart as program;
ghost use Rattle.flows.specs.Code.{Code, IsSeen};
ghost use Rattle.flows.specs.Same.{IsSameGraph};
ghost use Rattle.cert_checker.specs.Identities.{FirstFailure};
ghost use Rattle.program_model.specs.Graphs.{IsGraphOf};
ghost use Rattle.program_checker.specs.Fits.{Fits};
ghost use Rattle.program_model.specs.GraphView.{graph_of};
ghost use Rattle.program_checker.specs.View.{certificate_of};
ghost use Rattle.program_checker.specs.Refusals.{Passes, elements_at, ShortStep, IfHere, IfUnjudged};
ghost use Rattle.program_checker.specs.Verdicts.{verdict_of, AreShort};

mod cert;
mod error;
mod generators;
mod limits;
mod lists;
mod read;
mod rows;
mod search;
mod step;
mod steps;
mod unknowns;

pub use cert::{ProgramCert, Row};
pub use error::CheckError;
use generators::generators_of;
use program_model::Graph;
pub use read::read_program_cert;
use std::alloc::Global;
use step::Step;

/// What a certificate is worth. Transitions and elements count from 0.
#[derive(Clone, Copy, PartialEq, Eq)]
pub enum Verdict {
    /// Each of its polynomials is 0 at all states that are reached at its node.
    Valid,
    /// All identities of the transitions before this one hold; this is its first element whose cofactors don't combine to it.
    Fails { transition: usize, element: usize },
}

/// The first identity of the transition with this number that fails.
fn judge_transition(
    alloc: Global,
    graph: &Graph,
    cert: &ProgramCert,
    number: usize,
) -> Result<Option<usize>, CheckError>
    requires graph { IsGraphOf graph.now }
    requires fits { Fits graph.now cert.now }
    requires number { number < length graph.now.transitions.items }
    ensures first { IfOk result (FirstFailure (Passes graph.now cert.now number)
        (length (elements_at graph.now cert.now number))) }
    ensures short { IfOk result (λ o. ShortStep graph.now cert.now number) }
    ensures stops { IfErr result (IfHere graph.now cert.now number) }
{
    let transition = &graph.transitions[number];
    let list = &cert.lists[transition.from];
    let unknowns = transition.unknowns;
    let generators = generators_of(alloc, graph.variables, unknowns, list, &transition.zeros)?;
    let elements = &cert.lists[transition.to];
    let rows = &cert.steps[number];
    let step = Step {
        transition: number,
        arity: unknowns + graph.variables,
        elements,
        images: &transition.images,
        generators: &generators,
        rows,
    };
    step.test()?;
    step.first_failing(alloc)
}

/// Judges a certificate of the graph: valid, or the first of its identities that fails.
pub fn check_program(
    alloc: Global,
    graph: &Graph,
    cert: &ProgramCert,
) -> Result<Verdict, CheckError>
    requires graph { IsGraphOf graph.now }
    requires fits { Fits graph.now cert.now }
    ensures verdict { IfOk result (λ v. IsVerdict (graph_of graph.now) (certificate_of cert.now)
        (verdict_of v)) }
    ensures valid { let c = certificate_of cert.now in IfOk result (λ v. v ≡ Verdict.Valid →
        (w i : ℕ) → w < graph.now.nodes → i < length (family c w)
        → Inv (graph_of graph.now) w (element c w i)) }
    ensures seen { let c = certificate_of cert.now in IfOk result (λ v. v ≡ Verdict.Valid →
        (n : ℕ) (code : Code (Expr ℕ)) → IsSameGraph (graph_of graph.now) (program.graph n code)
        → (w i : ℕ) → 0 < w → w < graph.now.nodes → i < length (family c w)
        → (z : List Fraction) → IsSeen n code w z → value_at ℚ (element c w i) z ≡ ℚ.zero) }
    ensures short { IfOk result (AreShort graph.now cert.now) }
    ensures refused { IfErr result (IfUnjudged graph.now cert.now) }
{
    for number in 0..graph.transitions.len() {
        if let Some(element) = judge_transition(alloc, graph, cert, number)? {
            return Ok(Verdict::Fails {
                transition: number,
                element,
            });
        }
    }
    Ok(Verdict::Valid)
}
