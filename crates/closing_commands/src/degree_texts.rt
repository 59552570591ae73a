// What the answers of `basis` and `cert` up to a degree say.
ghost use Rattle.std.specs.Prelude.{◌≡◌, [], ◌∷◌, Some, IfOk, length};
ghost use Rattle.algebra.specs.Fraction.{ℚ};
ghost use Rattle.poly.specs.Seen.{terms_in, terms_each};
ghost use Rattle.ideal_ops.specs.Calls.{AreOver};
ghost use Rattle.io_edge.specs.Views.{answer_view};
ghost use Rattle.command_parts.specs.ReadBack.{IsReadBack};
ghost use Rattle.closing_commands.specs.DegreeTexts as texts;
ghost use Rattle.closing_commands.specs.DegreeViews.{search_answer, HasLeadOver};

use closing::SearchError;
use command_parts::{basis_text, exhausted_answer};
use frac128::Frac;
use io_edge::{Answer, Status};
use loop_model::Names;
use monos::{Grevlex, Mono};
use poly::{Poly, Term};
use poly_text::print_poly;
use replay_commands::word_answer;
use ring_laws::Ring;
use std::alloc::{AllocError, Global};

/// Yes, and the list.
pub(crate) fn basis_answer(
    alloc: Global,
    names: &Names,
    list: &[Poly<Frac, Grevlex>],
) -> Result<Answer, AllocError>
    requires { AreOver (length names.now) list.now }
    ensures answer { IfOk result (λ a.
        answer_view a ≡ texts.basis_answer names.now (terms_each list.now)) }
    ensures read_back { IfOk result (λ _. IsReadBack names.now (terms_each list.now)) }
{
    let text = basis_text(alloc, names, list)?;
    Ok(Answer::new(Status::Yes, text))
}

/// To a search up to this degree that stopped.
pub(crate) fn search_refusal(
    alloc: Global,
    names: &Names,
    budget: u64,
    degree: u16,
    why: &SearchError,
) -> Result<Answer, AllocError>
    requires { HasLeadOver (length names.now) why.now }
    ensures { IfOk result (λ a.
        search_answer names.now budget degree why.now ≡ Some (answer_view a)) }
{
    match why {
        SearchError::Degree => degree_answer(alloc, degree),
        SearchError::Sample => sample_answer(alloc),
        SearchError::Element { lead } => element_answer(alloc, names, lead),
        SearchError::Limit { word } => word_answer(alloc, Status::Fault, "limit: word", word),
        SearchError::Wide { word } => word_answer(alloc, Status::Wide, "wide: word", word),
        SearchError::Budget => exhausted_answer(alloc, budget),
        SearchError::Memory => Err(AllocError),
    }
}

/// To too many monomials of at most this degree.
fn degree_answer(alloc: Global, degree: u16) -> Result<Answer, AllocError>
    ensures { IfOk result (λ a. answer_view a ≡ texts.degree_answer degree) }
{
    let text = format!(in alloc; "limit: degree {degree}\n")?;
    Ok(Answer::new(Status::Fault, text))
}

/// To a sample that tells nothing.
fn sample_answer(alloc: Global) -> Result<Answer, AllocError>
    ensures { IfOk result (λ a. answer_view a ≡ texts.sample_answer) }
{
    let text = String::from_str(alloc, "wide: sample\n")?;
    Ok(Answer::new(Status::Wide, text))
}

/// To an element with this lead, of which a number is too wide.
fn element_answer(alloc: Global, names: &Names, lead: &Mono) -> Result<Answer, AllocError>
    requires { length lead.now ≡ length names.now }
    ensures { IfOk result (λ a. answer_view a ≡ texts.element_answer names.now lead.now) }
{
    let printed = print_poly(alloc, &polynomial_of(alloc, lead)?, names)?;
    let mut text = String::from_str(alloc, "wide: ")?;
    text.push_str(printed.as_str())?;
    text.push('\n')?;
    Ok(Answer::new(Status::Wide, text))
}

/// The monomial as a polynomial.
fn polynomial_of(alloc: Global, mono: &Mono) -> Result<Poly<Frac, Grevlex>, AllocError>
    ensures arity { IfOk result (λ p. p.arity ≡ length mono.now) }
    ensures terms { IfOk result (λ p. terms_in p ≡ (mono.now, ℚ.one) ∷ []) }
{
    let mut terms = Vec::new(alloc);
    terms.push(Term {
        mono: mono.copy(alloc)?,
        coef: Frac::one(),
    })?;
    Ok(Poly::from_descending(Grevlex, mono.arity(), terms))
}
