//! What is counted over the bases of these loops.
ghost use Rattle.std.specs.Prelude.{◌≡◌, ◌<◌, ◌≤◌, ◌*◌, string_bytes, IfOk};
ghost use Rattle.poly.specs.Seen.{terms_in, terms_each};
ghost use Rattle.loop_text.specs.Family as family;
ghost use Rattle.loop_text.specs.Family.{most_loops, most_elements};

use frac128::Frac;
use monos::Grevlex;
use poly::Poly;
use std::alloc::{AllocError, Global};
use std::marker::Model;

/// How many loops and elements of their bases there are, and the greatest degree of an element.
#[derive(Drop)]
pub struct Counts {
    loops: u32,
    elements: u128,
    degree: u32,
}

impl Model for Counts {
    ghost Value = { family.Counts };

    ghost view = { λ c. record { loops = c.loops; elements = c.elements; degree = c.degree } };

    ghost invariant = { λ c. c.elements ≤ c.loops * most_elements };
}

impl Counts {
    /// Those of no loop.
    pub fn new() -> Counts
        ensures { result ≡ family.nothing }
    {
        Counts {
            loops: 0,
            elements: 0,
            degree: 0,
        }
    }

    /// Counts one more loop with this basis.
    pub fn add(&mut self, basis: &[Poly<Frac, Grevlex>])
        requires { self.old.loops < most_loops }
        ensures { self.new ≡ family.with_basis (terms_each basis.now) self.old }
    {
        self.loops += 1;
        self.elements += basis.len() as u128;
        self.degree = self.degree.max(greatest_degree(basis));
    }

    /// The line that tells them.
    pub fn summary(&self, alloc: Global) -> Result<String, AllocError>
        ensures { IfOk result (λ text. string_bytes text ≡ family.summary self.now) }
    {
        let (loops, elements, degree) = (self.loops, self.elements, self.degree);
        format!(in alloc; "loops {loops}, elements {elements}, greatest degree {degree}\n")
    }
}

/// The greatest degree of an element, and 0 where there is none.
fn greatest_degree(basis: &[Poly<Frac, Grevlex>]) -> u32
    ensures { result ≡ family.greatest (terms_each basis.now) }
{
    let mut greatest = 0;
    for element in basis {
        greatest = degree_of(element).max(greatest);
    }
    greatest
}

/// The degree, and 0 of the polynomial 0.
fn degree_of(p: &Poly<Frac, Grevlex>) -> u32
    ensures { result ≡ family.degree_of (terms_in p.now) }
{
    match p.degree() {
        Some(degree) => degree,
        None => 0,
    }
}
