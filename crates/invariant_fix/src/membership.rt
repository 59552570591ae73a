//! Membership among the invariants of a loop.
ghost use Rattle.std.specs.Prelude.{◌≡◌, ◌↔◌, ℕ, length, IfOk, IsErrOf};
ghost use Rattle.algebra.specs.Fraction.{ℚ};
ghost use Rattle.loops.specs.Inv.{Inv};
ghost use Rattle.loops.specs.Program.{Expr, Program};
ghost use Rattle.loops.specs.WellFormed.{IsWellFormed};
ghost use Rattle.ideals.specs.Members.{IsMember};
ghost use Rattle.poly.specs.Seen.{terms_in, terms_each};
ghost use Rattle.rounds.specs.Journal.{IsFinished};
ghost use Rattle.ideal_ops.specs.Calls.{AreOver};
ghost use Rattle.invariant_fix.specs.Membership.{SaysYes, HasAsked, Answers, HasCofactorsOver, HasSum, IsWideAsking, IsAskingOutOfUnits, HasAnswered};

use crate::Analysis;
use crate::closing::cofactors_of;
use divide::{EngineError, divide};
use frac128::Frac;
use journal::{Meter, Task};
use monos::Grevlex;
use poly::Poly;
use std::alloc::Global;

/// Whether a polynomial is an invariant.
#[derive(Drop)]
pub enum Membership {
    /// It is the sum of the products of these cofactors with the elements of the basis.
    Yes(Vec<Poly<Frac, Grevlex>>),
    No,
}

/// Whether a polynomial, over the variables of the loop that was analysed, is an invariant: whether its rest by the basis is 0.
/// `Budget` only where the units are exhausted and the next event is one; `Wide` only where the weight of the next cancellation is past.
pub fn member(
    alloc: Global,
    analysis: &Analysis,
    p: &Poly<Frac, Grevlex>,
    meter: &mut Meter,
) -> Result<Membership, EngineError>
    requires arity { AreOver p.now.arity analysis.now.basis.items }
    ensures limit { meter.new.limit ≡ meter.old.limit }
    ensures work { HasAsked (terms_each analysis.now.basis.items) (terms_in p.now)
        meter.old meter.new }
    ensures ok { IfOk result (Answers (terms_each analysis.now.basis.items) (terms_in p.now)
        meter.old meter.new) }

    // Yes exactly to what is in the basis's ideal, with cofactors that make it, over the polynomial's variables.
    ensures member { IfOk result (λ a. SaysYes a
        ↔ IsMember ℚ p.now.arity (terms_each analysis.now.basis.items) (terms_in p.now)) }
    ensures cofactors { IfOk result (HasCofactorsOver p.now.arity) }
    ensures sum { IfOk result (HasSum (terms_each analysis.now.basis.items) (terms_in p.now)) }

    // Behind the finished journal of a loop: yes exactly to its invariants, and the journal is answered.
    ensures invariant { (program : Program (Expr ℕ)) (k : ℕ) → IsWellFormed program
        → p.now.arity ≡ length program.names
        → IsFinished program meter.old.entries k (terms_each analysis.now.basis.items)
        → IfOk result (λ a. SaysYes a ↔ Inv program (terms_in p.now)) }
    ensures answered { (program : Program (Expr ℕ)) (k : ℕ)
        → IsFinished program meter.old.entries k (terms_each analysis.now.basis.items)
        → IfOk result (HasAnswered program (terms_in p.now) k
        (terms_each analysis.now.basis.items) meter.new.entries) }

    ensures wide { IsErrOf result EngineError.Wide
        → IsWideAsking (terms_each analysis.now.basis.items) (terms_in p.now)
        meter.old meter.new }
    ensures budget { IsErrOf result EngineError.Budget
        → IsAskingOutOfUnits (terms_each analysis.now.basis.items) (terms_in p.now)
        meter.old meter.new }
{
    meter.begin(Task::Member)?;
    let division = divide(alloc, p, &analysis.basis, meter)?;
    match cofactors_of(division) {
        Some(cofactors) => Ok(Membership::Yes(cofactors)),
        None => Ok(Membership::No),
    }
}
