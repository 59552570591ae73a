// Why the judging of parts has stopped.
ghost use Rattle.std.specs.Prelude.{◌≡◌, Ok, true, OnOk, IfErr};
ghost use Rattle.cert_checker.specs.FullStops.{IsToldAs};

use ring_laws::ArithmeticError;

/// Why the judging of parts has stopped.
#[derive(Clone, Copy, PartialEq, Eq)]
pub(crate) enum Stop<P> {
    /// The parts before this one hold, and it doesn't.
    Fails(P),
    /// The parts before this one hold, and it is too wide.
    Wide(P),
    /// No memory was left.
    Memory,
}

/// What is told of a part by whether it holds.
pub(crate) fn told<P: Copy>(part: P, found: Result<bool, ArithmeticError>) -> Result<(), Stop<P>>
    ensures holds { OnOk result (found ≡ Ok true) }
    ensures stops { IfErr result (IsToldAs part found) }
{
    match found {
        Ok(true) => Ok(()),
        Ok(false) => Err(Stop::Fails(part)),
        Err(ArithmeticError::Wide) => Err(Stop::Wide(part)),
        Err(ArithmeticError::Memory) => Err(Stop::Memory),
    }
}
