//! Where bodies end: nil is the value where their ends are reached.
#![tactic(auto, using(check_kinds::proofs::Over::overs))]

ghost use Rattle.std.specs.Prelude.{◌≡◌, Some as There, length, true};
ghost use Rattle.bal_base.specs.declared.fault.FaultCode.TheVariants.{MissingReturn};
ghost use Rattle.bal_base.specs.declared.fault.Kept.TheVariants.{Nothing};
ghost use Rattle.check_kinds.specs.Over.{ComesOver};
ghost use Rattle.checks.specs.Questions.{IsFault};
ghost use Rattle.descriptors.specs.Steps.{AreOwnTypes};
ghost use Rattle.typed_tree.specs.SharedTypes.{sem_of};
ghost use Rattle.check_words.specs.Stands.{SharedBelow};
ghost use Rattle.check_words.specs.Units.{ends_by as ends_by_of};
ghost use Rattle.check_work.specs.Views.{unit_of};

use bal_base::{Fault, FaultCode, Kept, Place, Stop};
use check_kinds::kind_type;
use check_work::Unit;
use checks::is_below;
use descriptors::OwnTypes;
use expr_needs::Kind;
use std::alloc::Global;
use type_model::{SemType, Types};
use typed_tree::SharedTy;

fn missing_return(close: Place) -> Fault
    ensures { IsFault MissingReturn (There close) Nothing result }
{
    Fault {
        code: FaultCode::MissingReturn,
        at: Some(close),
        kept: Kept::Nothing,
    }
}

/// The type as a set of shapes.
fn sem(t: &SharedTy) -> &SemType
    ensures { result.now ≡ sem_of t.now }
{
    &t.sem
}

/// Nil is below the result of the unit: else `MissingReturn` at the brace.
fn nil_ends<T: Types>(
    alloc: Global,
    types: &mut T,
    own: &OwnTypes,
    unit: &Unit,
    close: Place,
) -> Result<(), Stop<Fault>>
    requires own { AreOwnTypes (T.atoms types.old) own.now }
    requires below { SharedBelow (length (T.atoms types.old)) (unit_of unit.now).result }
    ensures atoms { T.atoms types.new ≡ T.atoms types.old }
    ensures comes { ComesOver (ends_by_of T.passes true (unit_of unit.now) close) (T.atoms types.old) result (T.atoms types.new) }
{
    let nil = kind_type(alloc, own, Kind::Nothing)?;
    let gives = sem(&unit.result);
    let fits = is_below(alloc, types, &nil.sem, gives, Some(close))?;
    if fits {
        return Ok(());
    }
    Err(Stop::Fault(missing_return(close)))
}

/// Where the end of the unit is reached nil is below its result: else `MissingReturn` at the brace ("Function with default worker and named
/// workers"). `TypeLimit` there where the question is too large.
pub(crate) fn end_by<T: Types>(
    alloc: Global,
    types: &mut T,
    own: &OwnTypes,
    unit: &Unit,
    close: Place,
) -> Result<(), Stop<Fault>>
    requires own { AreOwnTypes (T.atoms types.old) own.now }
    requires below { SharedBelow (length (T.atoms types.old)) (unit_of unit.now).result }
    ensures atoms { T.atoms types.new ≡ T.atoms types.old }
    ensures comes { ComesOver (ends_by_of T.passes (unit_of unit.now).flow.reached (unit_of unit.now) close) (T.atoms types.old) result (T.atoms types.new) }
{
    match unit.here.reached {
        true => nil_ends(alloc, types, own, unit, close),
        false => Ok(()),
    }
}
