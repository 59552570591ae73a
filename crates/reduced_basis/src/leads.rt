//! Leads that others divide.
ghost use Rattle.std.specs.Prelude.{◌≡◌, ◌≤◌, ◌&&◌, length, drop, All};
ghost use Rattle.machines.specs.Cut.{divides};
ghost use Rattle.machines.specs.Tidying.{others};
ghost use Rattle.reduced_basis.specs.Leads.{first_divisor, redundant_from, AreLong};

use monos::Mono;

/// Whether this is the lead of another place than `at`, and divides the monomial.
fn is_divisor_but(at: usize, place: usize, lead: &Mono, mono: &Mono) -> bool
    requires { length lead.now ≡ length mono.now }
    ensures { result ≡ (others at place && divides lead.now mono.now) }
{
    if place == at {
        return false;
    }
    lead.divides(mono)
}

/// The first place but `at` whose lead divides the monomial.
pub(crate) fn divisor_but(at: usize, leads: &[Mono], mono: &Mono) -> Option<usize>
    requires { All (λ d. length d ≡ length mono.now) leads.now }
    ensures { result ≡ first_divisor (others at) 0 leads.now mono.now }
{
    for (place, lead) in leads.iter().enumerate() {
        if is_divisor_but(at, place, lead, mono) {
            return Some(place);
        }
    }
    None
}

/// The first place from `from` on whose lead another one divides.
pub(crate) fn first_redundant(leads: &[Mono], from: usize) -> Option<usize>
    requires long { AreLong leads.now }
    requires from { from ≤ length leads.now }
    ensures { result ≡ redundant_from leads.now from (drop from leads.now) }
{
    for place in from..leads.len() {
        if divisor_but(place, leads, &leads[place]).is_some() {
            return Some(place);
        }
    }
    None
}
