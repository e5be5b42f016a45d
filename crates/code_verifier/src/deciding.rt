//! Questions whose answer wants no shape.
ghost use Rattle.std.specs.Prelude.{◌≡◌, IfOk};
ghost use Rattle.bal_base.specs.Stops.{IfFault};
ghost use Rattle.type_model.specs.Calls.{Without};
ghost use Rattle.type_model.specs.Defined.{IsDefined};
ghost use Rattle.code_verifier.specs.Deciding.{DecidesSub};
ghost use Rattle.code_verifier.specs.inner.Pairs.{is_yes as is_yes_of};

use bal_base::Stop;
use std::alloc::Global;
use type_model::{Answer, SemType, TypeLimit, Types};

/// Whether the answer is yes; lets go of it.
pub(crate) fn is_yes(answer: Answer) -> bool
    ensures { result ≡ is_yes_of answer }
{
    match answer {
        Answer::Yes => true,
        Answer::No(_) => false,
    }
}

/// Whether the first type is below the second, which costs one question. `TypeLimit` where it is too large.
pub fn is_subtype<T: Types>(
    alloc: Global,
    types: &mut T,
    s: &SemType,
    t: &SemType,
) -> Result<bool, Stop<TypeLimit>>
    requires left { IsDefined (T.atoms types.old) s.now }
    requires right { IsDefined (T.atoms types.old) t.now }
    ensures atoms { T.atoms types.new ≡ T.atoms types.old }
    ensures answer { IfOk result (DecidesSub (T.atoms types.old) s.now t.now) }
    ensures limit { IfFault result (T.passes (T.atoms types.old) (Without s.now t.now)) }
{
    match types.sub(alloc, s, t) {
        Ok(answer) => Ok(is_yes(answer)),
        Err(stop) => Err(stop),
    }
}
