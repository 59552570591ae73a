//! From which number of iterations on polynomials are the state, and which aren't it at a number of iterations.
ghost use Rattle.std.specs.Prelude.{◌≡◌, ◌<◌, ℕ, true, false, All, length, get_or, IfOk, IsErrOf};
ghost use Rattle.solvable_maps.specs.Classes.{first_of};

use crate::FormsError;
use expo::Expo;
use frac128::Frac;
use monos::Grevlex;
use poly::Poly;
use ring_laws::ArithmeticError;
use std::alloc::Global;

/// The polynomials of the variables, class by class, and the states that they are compared with: the variables, and the branch after each number of iterations.
#[derive(Clone, Copy)]
pub(crate) struct Comparison<'a> {
    pub(crate) groups: &'a Vec<Vec<usize>>,
    pub(crate) polys: &'a Vec<Expo>,
    pub(crate) states: &'a Vec<Vec<Poly<Frac, Grevlex>>>,
    ghost inside: { All (λ g. All (λ i. i < length polys.now.items) g.items) groups.now.items },
    ghost vars: { All (λ e. e.vars ≡ length polys.now.items) polys.now.items },
    ghost some: { 0 < length states.now.items },
    ghost counts: { All (λ v. length v.items ≡ length polys.now.items) states.now.items },
    ghost arities: { All (λ v. All (λ p. p.arity ≡ length polys.now.items) v.items)
        states.now.items },
}

impl Comparison<'_> {
    ghost use Rattle.std.specs.Prelude.{◌≢◌, ◌≤◌, List, OnOk, IfErr};
    ghost use Rattle.algebra.specs.Fraction.{Fraction};
    ghost use Rattle.polynomials.specs.Terms.{Terms};
    ghost use Rattle.closed_forms.specs.Comparison.{list_at, AreMarkedBy, IsPastBy, IsSettlingBy};
    ghost use Rattle.closed_forms.specs.Refusal.{IfOfClass, IfWideIteration};
    ghost use Rattle.closed_forms.specs.Settling.{KeptMarks, AreMarked, IsPastPlace, IsSettled};

    /// The least number of iterations from which on the polynomials are the state, where they are from `since` on: as long as they are the state at one iteration less, it is one less.
    /// `WideForm` only with the first variable of a class of which what one is at a number of iterations below `since` is past.
    pub(crate) fn least(&self, alloc: Global, since: u32) -> Result<u32, FormsError>
        requires { since < length self.now.states.now.items }
        ensures settled { (images : List (Terms Fraction)) (base : List ℕ) (z : ℕ) → since ≤ z
            → IsSettlingBy self.now images base since
            → IfOk result (IsSettled images base self.now.polys.now.items z) }
        ensures refused { (images : List (Terms Fraction)) (base : List ℕ) (z : ℕ) → since ≤ z
            → IsSettlingBy self.now images base since
            → IfErr result (IfWideIteration base images z) }
    {
        if since == 0 {
            return Ok(0);
        }
        match self.apart(alloc, since - 1) {
            Ok(marks) => {
                if marks.contains(&true) {
                    return Ok(since);
                }
                self.least(alloc, since - 1)
            }
            Err(error) => Err(error),
        }
    }

    /// For each variable whether it passes, where the polynomials are the state from `since` on: its polynomial at n = 0 isn't the variable. None does where `since` is zero.
    pub(crate) fn passing(&self, alloc: Global, since: u32) -> Result<Vec<bool>, FormsError>
        ensures count { IfOk result
            (λ marks. length marks.items ≡ length self.now.polys.now.items) }
        ensures marked { IfOk result (λ marks. since ≢ 0 → AreMarkedBy self.now 0 marks.items) }
        ensures none { IfOk result
            (λ marks. since ≡ 0 → (i : ℕ) → get_or marks.items i false ≡ false) }
        ensures refused { IfErr result
            (IfOfClass (λ v. (since ≢ 0) × IsPastBy self.now 0 v)) }
    {
        if since == 0 {
            return Ok(vec![in alloc; false; self.polys.len()]?);
        }
        self.apart(alloc, 0)
    }

    /// For each variable whether its polynomial isn't that of the state at this number of iterations.
    fn apart(&self, alloc: Global, iterations: u32) -> Result<Vec<bool>, FormsError>
        requires { iterations < length self.now.states.now.items }
        ensures count { IfOk result
            (λ marks. length marks.items ≡ length self.now.polys.now.items) }
        ensures marked { IfOk result (λ marks. AreMarkedBy self.now iterations marks.items) }
        ensures refused { IfErr result (IfOfClass (IsPastBy self.now iterations)) }
    {
        let mut marks = vec![in alloc; false; self.polys.len()]?;
        for group in self.groups {
            let group = group.as_slice();
            match self.mark_class(alloc, group, iterations, &mut marks) {
                Ok(()) => {}
                Err(ArithmeticError::Wide) => {
                    return Err(FormsError::WideForm {
                        variable: first_of(group),
                    });
                }
                Err(ArithmeticError::Memory) => return Err(FormsError::Memory),
            }
        }
        Ok(marks)
    }

    /// Marks some variables. `Wide` only where what the polynomial of one is at this number of iterations is past.
    fn mark_class(
        &self,
        alloc: Global,
        group: &[usize],
        iterations: u32,
        marks: &mut Vec<bool>,
    ) -> Result<(), ArithmeticError>
        requires inside { All (λ i. i < length self.now.polys.now.items) group.now }
        requires within { iterations < length self.now.states.now.items }
        requires count { length marks.old.items ≡ length self.now.polys.now.items }
        ensures count { OnOk result (length marks.new.items ≡ length self.now.polys.now.items) }
        ensures kept { OnOk result (KeptMarks self.now.polys.now.items iterations
            (list_at self.now iterations) marks.old.items marks.new.items) }
        ensures marked { OnOk result (AreMarked self.now.polys.now.items iterations
            (list_at self.now iterations) group.now marks.new.items) }
        ensures wide { IsErrOf result ArithmeticError.Wide
            → IsPastPlace self.now.polys.now.items iterations group.now }
    {
        let Some((variable, group)) = group.split_first() else {
            return Ok(());
        };
        let state = self.states[iterations as usize].as_slice();
        let same = self.polys[*variable].at_iteration(alloc, iterations)? == state[*variable];
        marks[*variable] = !same;
        self.mark_class(alloc, group, iterations, marks)
    }
}

/// The first variable of a class.
fn first_of(group: &[usize]) -> usize
    ensures { result ≡ first_of group.now }
{
    match group.first() {
        Some(first) => *first,
        None => 0,
    }
}
