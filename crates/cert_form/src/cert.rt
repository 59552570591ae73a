//! Certificates as values.

ghost use Rattle.std.specs.Prelude.{◌≡◌, All, length};
ghost use Rattle.loops.specs.Certificate.{AreOver};
ghost use Rattle.cert_form.specs.Cert.{OverVariables, certificate_of, polys_in, blocks_in, HaveArity, IsSquare, IsWellSized};

use frac128::Frac;
use monos::Grevlex;
use poly::Poly;
use std::marker::Model;

/// Polynomials in the order of a certificate.
pub(crate) type Polys = Vec<Poly<Frac, Grevlex>>;

/// Polynomials, and for each branch of a loop and each of them its cofactors, one for each polynomial. All are in the
/// same variables.
#[derive(Drop)]
pub struct Cert {
    arity: usize,
    basis: Vec<Poly<Frac, Grevlex>>,
    steps: Vec<Vec<Vec<Poly<Frac, Grevlex>>>>,
}

impl Model for Cert {
    ghost Value = { OverVariables };

    ghost view = { λ c. record {
      arity = c.arity;
      certificate = certificate_of c.basis c.steps;
    } };

    ghost invariant = { λ c. IsWellSized c.arity c.basis c.steps };
}

impl Cert {
    /// The certificate with these polynomials, and these cofactors. All are in `arity` variables. For each branch there is a list of
    /// as many entries as there are polynomials, and in it, for each polynomial, the list of its cofactors, one for each polynomial.
    pub fn new(
        arity: usize,
        basis: Vec<Poly<Frac, Grevlex>>,
        steps: Vec<Vec<Vec<Poly<Frac, Grevlex>>>>,
    ) -> Cert
        requires { IsWellSized arity basis steps }
        ensures { result ≡ record { arity = arity; certificate = certificate_of basis steps } }
    {
        Cert {
            arity,
            basis,
            steps,
        }
    }

    /// The polynomials.
    pub fn basis(&self) -> &Vec<Poly<Frac, Grevlex>>
        ensures terms { polys_in result.now ≡ self.now.certificate.basis }
        ensures arity { HaveArity self.now.arity result.now }
        ensures over { AreOver self.now.arity self.now.certificate }
    {
        &self.basis
    }

    /// For each branch a list of as many entries as there are polynomials, and in it, for each polynomial, the list of
    /// its cofactors.
    pub fn steps(&self) -> &Vec<Vec<Vec<Poly<Frac, Grevlex>>>>
        ensures terms { blocks_in result.now ≡ self.now.certificate.steps }
        ensures square { All (IsSquare self.now.arity
            (length self.now.certificate.basis)) result.now.items }
    {
        &self.steps
    }
}
