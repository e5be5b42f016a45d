//! Refusals at a place, which show nothing.
#![tactic(auto, using(check_work::proofs::Noting::meeting))]

ghost use Rattle.std.specs.Prelude.{◌≡◌};
ghost use Rattle.checks.specs.Checks.{Comes};
ghost use Rattle.check_words.specs.State.{State};
ghost use Rattle.check_words.specs.Words.{fails as fails_of, unless};

use bal_base::{Fault, FaultCode, Kept, Place, Stop};

/// It is refused.
pub(crate) fn refused(code: FaultCode, at: Place) -> Result<(), Stop<Fault>>
    ensures { (s : State) → Comes (fails_of code at) s result s }
{
    Err(Stop::Fault(Fault {
        code,
        at: Some(at),
        kept: Kept::Nothing,
    }))
}

/// It is refused unless this is so.
pub(crate) fn require(so: bool, code: FaultCode, at: Place) -> Result<(), Stop<Fault>>
    ensures { (s : State) → Comes (unless so code at) s result s }
{
    if so { Ok(()) } else { refused(code, at) }
}
