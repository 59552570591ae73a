//! The first identity that fails.
ghost use Rattle.std.specs.Prelude.{◌<◌, length, All, IfOk, IfErr};
ghost use Rattle.poly.specs.Standing.{IsInVariables};
ghost use Rattle.cert_form.specs.Cert.{HaveArity, polys_in, rows_in};
ghost use Rattle.cert_checker.specs.Identities.{StartHolds, StepHolds, StartIsPast, StepIsPast, FirstFailure};
ghost use Rattle.cert_checker.specs.Places.{at_start, in_branch};
ghost use Rattle.cert_checker.specs.Stops.{IfStops, Stops};

use crate::identity::{Step, start_holds, step_holds};
use crate::{CheckError, Place};
use frac128::Frac;
use monos::Grevlex;
use poly::Poly;
use ring_laws::ArithmeticError;
use std::alloc::Global;

/// The first element that is not zero at each start.
pub(crate) fn first_failing_start(
    alloc: Global,
    basis: &Vec<Poly<Frac, Grevlex>>,
    images: &Vec<Poly<Frac, Grevlex>>,
) -> Result<Option<usize>, CheckError>
    requires some { 0 < length images.now.items }
    requires images { All (IsInVariables (length images.now.items)) images.now.items }
    requires arity { HaveArity (length images.now.items) basis.now }
    ensures first { let holds = StartHolds (length images.now.items) (polys_in basis.now)
        (polys_in images.now) in
        IfOk result (FirstFailure holds (length basis.now.items)) }
    ensures stops { let holds = StartHolds (length images.now.items) (polys_in basis.now)
        (polys_in images.now) in
        let is_past = StartIsPast (polys_in basis.now) (polys_in images.now) in
        IfErr result (λ e. IfStops e at_start (Stops holds is_past (length basis.now.items))) }
{
    for (i, element) in basis.iter().enumerate() {
        match start_holds(alloc, element, images) {
            Ok(true) => {}
            Ok(false) => return Ok(Some(i)),
            Err(ArithmeticError::Wide) => return Err(CheckError::Wide {
                place: Place::Start,
                element: i,
            }),
            Err(ArithmeticError::Memory) => return Err(CheckError::Memory),
        }
    }
    Ok(None)
}

impl Step<'_> {
    /// The first element that is not the combination of its row of cofactors after the branch.
    pub(crate) fn first_failing(&self, alloc: Global) -> Result<Option<usize>, CheckError>
        ensures first { let s = self.now in let holds = StepHolds (length s.images.now.items)
            (polys_in s.basis.now) (polys_in s.images.now) (rows_in s.rows.now) in
            IfOk result (FirstFailure holds (length s.basis.now.items)) }
        ensures stops { let s = self.now in let holds = StepHolds (length s.images.now.items)
            (polys_in s.basis.now) (polys_in s.images.now) (rows_in s.rows.now) in
            let is_past = StepIsPast (polys_in s.basis.now) (polys_in s.images.now)
            (rows_in s.rows.now) in
            IfErr result (λ e. IfStops e (in_branch s.branch)
            (Stops holds is_past (length s.basis.now.items))) }
    {
        for (i, element) in self.basis.iter().enumerate() {
            match step_holds(alloc, element, self.images, &self.rows[i], self.basis) {
                Ok(true) => {}
                Ok(false) => return Ok(Some(i)),
                Err(ArithmeticError::Wide) => return Err(CheckError::Wide {
                    place: Place::Branch(self.branch),
                    element: i,
                }),
                Err(ArithmeticError::Memory) => return Err(CheckError::Memory),
            }
        }
        Ok(None)
    }
}
