// The parts of full certificates, and their paths.
ghost use Rattle.std.specs.Prelude.{◌≡◌, string_bytes, IfOk, IfErr, IsOk, IsErrAnd, OnOk};
ghost use Rattle.cert_checker.specs.FullWide as full_wide;
ghost use Rattle.cert_checker.specs.Paths.{path_of};
ghost use Rattle.cert_checker.specs.Parts as parts;
ghost use Rattle.cert_checker.specs.Parts.{part_of};
ghost use Rattle.cert_checker.specs.FullStops.{stop_map};
ghost use Rattle.cert_checker.specs.Views.{place_view};

use crate::Place;
use crate::full_stop::Stop;
use std::alloc::{AllocError, Global};

/// The lists of a stage.
#[derive(Clone, Copy, PartialEq, Eq)]
pub(crate) enum Row {
    List,
    Gens,
    Pairs,
    Links,
}

/// A place in one of the lists of a stage.
#[derive(Clone, Copy, PartialEq, Eq)]
pub(crate) struct RowPlace {
    pub(crate) row: Row,
    pub(crate) index: usize,
}

/// The stages of a branch.
#[derive(Clone, Copy, PartialEq, Eq)]
pub(crate) enum Kind {
    Orbit,
    Meet,
}

/// A part of a full certificate. Rounds, branches and elements count from 0.
#[derive(Clone, Copy, PartialEq, Eq)]
pub(crate) enum Part {
    Basis(usize),
    Step(usize, usize),
    Form(usize),
    Start(usize),
    Stage(usize, usize, Kind, RowPlace),
    End,
}

/// The part that an identity of the certificate itself is.
pub(crate) fn identity_part(place: Place, element: usize) -> Part
    ensures { part_of result ≡ full_wide.identity_part (place_view place) element }
{
    match place {
        Place::Start => Part::Basis(element),
        Place::Branch(branch) => Part::Step(branch, element),
    }
}

fn row_name(row: Row) -> &'static str
    ensures { result.now ≡ parts.row_name row }
{
    match row {
        Row::List => "list",
        Row::Gens => "gens",
        Row::Pairs => "pairs",
        Row::Links => "links",
    }
}

fn kind_name(kind: Kind) -> &'static str
    ensures { result.now ≡ parts.kind_name kind }
{
    match kind {
        Kind::Orbit => "orbit",
        Kind::Meet => "meet",
    }
}

/// The path of the part.
pub(crate) fn text_of(alloc: Global, part: Part) -> Result<String, AllocError>
    ensures { IfOk result (λ text. string_bytes text ≡ path_of (part_of part)) }
{
    match part {
        Part::Basis(element) => format!(in alloc; "/basis/{element}"),
        Part::Step(branch, element) => format!(in alloc; "/steps/{branch}/{element}"),
        Part::Form(branch) => format!(in alloc; "/forms/{branch}"),
        Part::Start(equation) => format!(in alloc; "/start/links/{equation}"),
        Part::Stage(round, branch, kind, place) => {
            let (kind, row, index) = (kind_name(kind), row_name(place.row), place.index);
            format!(in alloc; "/rounds/{round}/{branch}/{kind}/{row}/{index}")
        }
        Part::End => String::from_str(alloc, "/basis"),
    }
}

/// What is told of places of one list of a stage.
pub(crate) fn in_row(row: Row, judged: Result<(), Stop<usize>>) -> Result<(), Stop<RowPlace>>
    ensures holds { OnOk result (IsOk judged) }
    ensures stops { IfErr result (λ e.
        IsErrAnd judged (λ s. e ≡ stop_map (parts.place_at row) s)) }
{
    match judged {
        Ok(()) => Ok(()),
        Err(Stop::Fails(index)) => Err(Stop::Fails(RowPlace { row, index })),
        Err(Stop::Wide(index)) => Err(Stop::Wide(RowPlace { row, index })),
        Err(Stop::Memory) => Err(Stop::Memory),
    }
}

/// What is told of the places of a stage.
pub(crate) fn in_stage(
    round: usize,
    branch: usize,
    kind: Kind,
    judged: Result<(), Stop<RowPlace>>,
) -> Result<(), Stop<Part>>
    ensures holds { OnOk result (IsOk judged) }
    ensures stops { IfErr result (λ e.
        IsErrAnd judged (λ s. e ≡ stop_map (parts.stage_part round branch kind) s)) }
{
    match judged {
        Ok(()) => Ok(()),
        Err(Stop::Fails(place)) => Err(Stop::Fails(Part::Stage(round, branch, kind, place))),
        Err(Stop::Wide(place)) => Err(Stop::Wide(Part::Stage(round, branch, kind, place))),
        Err(Stop::Memory) => Err(Stop::Memory),
    }
}

/// Why the judging of forms has stopped.
pub(crate) fn in_forms(stop: Stop<usize>) -> Stop<Part>
    ensures { result ≡ parts.in_forms stop }
{
    match stop {
        Stop::Fails(branch) => Stop::Fails(Part::Form(branch)),
        Stop::Wide(branch) => Stop::Wide(Part::Form(branch)),
        Stop::Memory => Stop::Memory,
    }
}

/// Why the judging of equations of init has stopped.
pub(crate) fn in_starts(stop: Stop<usize>) -> Stop<Part>
    ensures { result ≡ parts.in_starts stop }
{
    match stop {
        Stop::Fails(equation) => Stop::Fails(Part::Start(equation)),
        Stop::Wide(equation) => Stop::Wide(Part::Start(equation)),
        Stop::Memory => Stop::Memory,
    }
}
