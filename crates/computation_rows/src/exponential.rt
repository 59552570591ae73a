// Exponential polynomials as texts: the names of n, s, the u and the v, and those of the variables; numbers whose coarsest base is taken; and polynomials in these names.
ghost use Rattle.std.specs.Prelude.{◌≡◌, ◌≤◌, length, IfOk, IfSome};
ghost use Rattle.coprime_base.specs.Sizes.{sizes};
ghost use Rattle.monos.specs.Variables.{most_variables};
ghost use Rattle.solvable_maps.specs.Iterations.{width};
ghost use Rattle.expo.specs.Bases.{IsCoprimeBase, coprime_base_prop};
ghost use Rattle.expo.specs.Operations.{vars_of};
ghost use Rattle.expo.specs.View.{base_of};

use crate::bases::base_of;
use crate::columns::{names_of, names_with, poly_of, push_poly};
use crate::row_error::RowError;
use crate::rows::Row;
use expo::{Expo, Power, solve_term, width};
use frac128::{Frac, Whole};
use loop_model::Names;
use monos::Grevlex;
use poly::Poly;
use std::alloc::Global;

// Names of n, s, the u and the v of a base, and of variables behind them.
#[derive(Drop)]
struct Exponentials {
    alloc: Global,
    names: Names,
    base: Vec<Whole>,
    ghost coprime: { IsCoprimeBase (sizes base.items) } by { coprime_base_prop _ },
}

impl Row<'_> {
    /// What a call on exponential polynomials answers: the text of its polynomial.
    pub(crate) fn push_exponential(&self, text: &mut String) -> Result<(), RowError> {
        let [front, variables, numbers, values @ ..] = self.values else {
            return Err(RowError::Unreadable);
        };
        let names = names_with(self.alloc, front, variables)?;
        let over = Exponentials {
            alloc: self.alloc,
            names,
            base: base_of(self.alloc, numbers)?,
        };
        match self.call {
            "at_zero" | "at_turn" => {
                let state = over.state(values)?;
                let names = names_of(self.alloc, variables, 0)?;
                push_poly(self.alloc, "", &state, &names, text)
            }
            call => {
                let made = over.made(call, values)?;
                push_poly(self.alloc, "", made.body(), &over.names, text)
            }
        }
    }
}

impl Exponentials {
    // A polynomial at n = 0, or at a number of iterations, over the variables alone.
    fn state(&self, values: &[&str]) -> Result<Poly<Frac, Grevlex>, RowError> {
        match values {
            [p] => Ok(self.expo(p)?.at_zero(self.alloc)?),
            [p, iterations] => {
                let Ok(iterations) = iterations.parse() else {
                    return Err(RowError::Unreadable);
                };
                Ok(self.expo(p)?.at_iteration(self.alloc, iterations)?)
            }
            _ => Err(RowError::Unreadable),
        }
    }

    // What a call makes of its values.
    fn made(&self, call: &str, values: &[&str]) -> Result<Expo, RowError> {
        match (call, values) {
            ("add", [p, q]) => Ok(self.expo(p)?.add(self.alloc, &self.expo(q)?)?),
            ("mul", [p, q]) => Ok(self.expo(p)?.mul(self.alloc, &self.expo(q)?)?),
            ("solve_term", [degree, inhomogeneity, own]) => {
                self.solution(degree, inhomogeneity, own)
            }
            (_, [p]) => made_of(self.alloc, call, self.expo(p)?),
            _ => Err(RowError::Unreadable),
        }
    }

    fn solution(&self, degree: &str, inhomogeneity: &str, own: &str) -> Result<Expo, RowError> {
        let inhomogeneity = power_of(self.alloc, self.base.len(), inhomogeneity)?;
        let own = power_of(self.alloc, self.base.len(), own)?;
        match (self.variables(), degree.parse()) {
            (Some(vars), Ok(degree)) if degree <= 65534 => Ok(solve_term(
                self.alloc,
                &self.base,
                vars,
                degree,
                &inhomogeneity,
                &own,
            )?),
            _ => Err(RowError::Unreadable),
        }
    }

    fn expo(&self, text: &str) -> Result<Expo, RowError>
        ensures base { IfOk result (λ e. base_of e ≡ sizes self.now.base.items) }
        ensures vars { IfOk result
            (λ e. e.vars ≡ vars_of (sizes self.now.base.items) (length self.now.names)) }
    {
        if self.variables().is_none() {
            return Err(RowError::Unreadable);
        }
        let body = poly_of(self.alloc, Grevlex, &self.names, text)?;
        Ok(Expo::normal(self.alloc, &self.base, &body)?)
    }

    // How many names are those of variables: the others are for n, s, and the u and v of the base. None where there are too few.
    fn variables(&self) -> Option<usize>
        ensures arity { IfSome result (λ vars.
            width (length (sizes self.now.base.items)) vars ≡ length self.now.names) }
        ensures few { length self.now.names ≤ most_variables }
    {
        let names = self.names.len();
        if self.base.len() > 2000 {
            return None;
        }
        names.checked_sub(width(self.base.len(), 0))
    }
}

// What a call makes of one.
fn made_of(alloc: Global, call: &str, p: Expo) -> Result<Expo, RowError> {
    match call {
        "normal" => Ok(p),
        "shift_n" => Ok(p.shift_n(alloc)?),
        "backward" => Ok(p.inverse_form(alloc)?),
        "before" => Ok(p.before(alloc)?),
        _ => Err(RowError::Unreadable),
    }
}

// A sign, and so many exponents behind spaces.
fn power_of(alloc: Global, count: usize, text: &str) -> Result<Power, RowError>
    ensures { IfOk result (λ power. length power.exponents.items ≡ count) }
{
    let (sign, numbers) = text.split_once(' ').unwrap_or((text, ""));
    let mut exponents = Vec::new(alloc);
    for number in numbers.split_terminator(' ') {
        let Ok(exponent) = number.parse() else {
            return Err(RowError::Unreadable);
        };
        exponents.push(exponent)?;
    }
    if exponents.len() != count {
        return Err(RowError::Unreadable);
    }
    Ok(Power {
        negative: sign == "-",
        exponents,
    })
}
