// What a valid certificate says of the assertions of a program.
ghost use Rattle.std.specs.Prelude.{◌≡◌, ◌↔◌, ◌≤◌, ◌++◌, map, length, codes, string_bytes, IfOk, OnOk, IsTrue};
ghost use Rattle.std.specs.List.{flat_map};
ghost use Rattle.cert_form.specs.Cert.{HaveArity, polys_in};
ghost use Rattle.poly.specs.Seen.{terms_in};
ghost use Rattle.io_edge.specs.Texts.{line as with_line_feed};
ghost use Rattle.program_checker.specs.View.{lists_of};
ghost use Rattle.checkproof_command.specs.Sources.{most_program_bytes};
ghost use Rattle.checkproof_command.specs.Texts as texts;
ghost use Rattle.checkproof_command.specs.Judging.{IsListed};
ghost use Rattle.checkproof_command.specs.Found.{IsFound, AreFound, HasGoalIn, CanBeFound};
ghost use Rattle.checkproof_command.specs.Views.{finding_view};

use frac128::Frac;
use monos::Grevlex;
use poly::Poly;
use program_checker::ProgramCert;
use program_model::{Graph, Point};
use program_text::place_of;
use std::alloc::{AllocError, Global};

/// What was found at a point: the offset of its token, and of an assertion whether it is listed.
#[derive(Clone, Copy)]
pub(crate) struct Finding {
    at: usize,
    listed: Option<bool>,
}

/// Whether the polynomial stands in the list.
fn is_listed(list: &Vec<Poly<Frac, Grevlex>>, goal: &Poly<Frac, Grevlex>) -> bool
    requires { HaveArity goal.now.arity list.now }
    ensures { IsTrue result ↔ IsListed (polys_in list.now) (terms_in goal.now) }
{
    for element in list {
        if *element == *goal {
            return true;
        }
    }
    false
}

/// What is found at a point with this list.
fn found_at(point: &Point, list: &Vec<Poly<Frac, Grevlex>>) -> Finding
    requires { HasGoalIn list.now point.now }
    ensures { IsFound (polys_in list.now) point.now (finding_view result) }
{
    let listed = match &point.goal {
        Some(goal) => Some(is_listed(list, goal)),
        None => None,
    };
    Finding {
        at: point.at,
        listed,
    }
}

/// What is found at the points of the graph, in order.
pub(crate) fn findings(
    alloc: Global,
    graph: &Graph,
    cert: &ProgramCert,
) -> Result<Vec<Finding>, AllocError>
    requires { CanBeFound graph.now cert.now }
    ensures { IfOk result (λ found. AreFound (lists_of cert.now) 1 graph.now.points.items
        (map finding_view found.items)) }
{
    let mut found = Vec::new(alloc);
    for (i, point) in graph.points.iter().enumerate() {
        found.push(found_at(point, &cert.lists[i + 1]))?;
    }
    Ok(found)
}

/// Writes the line of a finding at a point of the text behind the answer; nothing of a loop's head.
fn push_finding(
    alloc: Global,
    answer: &mut String,
    text: &[u8],
    finding: &Finding,
) -> Result<(), AllocError>
    requires { length text.now ≤ most_program_bytes }
    ensures { OnOk result (string_bytes answer.new ≡ string_bytes answer.old ++
        texts.finding_text text.now (finding_view finding.now)) }
{
    let Some(listed) = finding.listed else {
        return Ok(());
    };
    let (line, column) = place_of(text, finding.at);
    let word = if listed { "holds" } else { "open" };
    let told = format!(in alloc; "{line}:{column}: {word}\n")?;
    answer.push_str(told.as_str())
}

/// The text that calls a certificate valid, and tells what was found at the points of the text.
pub(crate) fn findings_text(
    alloc: Global,
    text: &[u8],
    found: &Vec<Finding>,
) -> Result<String, AllocError>
    requires { length text.now ≤ most_program_bytes }
    ensures { IfOk result (λ answer. string_bytes answer ≡ with_line_feed (codes "valid") ++
        flat_map (texts.finding_text text.now) (map finding_view found.now.items)) }
{
    let mut answer = String::from_str(alloc, "valid\n")?;
    for finding in found {
        push_finding(alloc, &mut answer, text, finding)?;
    }
    Ok(answer)
}
