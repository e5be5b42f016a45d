//! The first frame of a call.
#![tactic(auto, using(crate::proofs::Units::units))]

ghost use Rattle.std.specs.Prelude.{◌≡◌, IfOk, None, option_map};
ghost use Rattle.machine_model.specs.Machine as machine;
ghost use Rattle.plain_run.specs.Held.{role_of};
ghost use Rattle.code_frames.specs.Frames.{standing_of};
ghost use Rattle.code_frames.specs.Programs.{begins, machine_of};
ghost use Rattle.code_steps.specs.States.{call_of};

use crate::held::Call;
use bal_base::Memory;
use code_frames::{Frame, Held, Program, UnitCode, enter, enter_again};
use plain_run::Role;
use std::alloc::Global;
use value_model::Value;

/// The first frame of a call of the unit with these arguments, where there is such a unit. It takes time and room that grow with the
/// unit's slots.
pub fn begin<'a>(
    alloc: Global,
    program: &Program<'a>,
    unit: u32,
    args: &[Value],
    role: Option<Role>,
) -> Result<Option<Call>, Memory>
    ensures { IfOk result (λ c. option_map call_of c ≡ machine.begun (machine_of program.now) unit args.now (option_map role_of role)) }
{
    match program.units.get(unit as usize) {
        None => Ok(None),
        Some(found) => {
            let frame = enter(alloc, found, args)?;
            Ok(Some(Call { unit, role, frame }))
        }
    }
}

/// The first frame of a call, in the room of one that is over, where there is some.
fn enter_in(
    alloc: Global,
    unit: &UnitCode,
    args: &[Value],
    spare: Option<Held>,
) -> Result<Frame, Memory>
    ensures { IfOk result (λ f. standing_of f ≡ begins args.now unit.now) }
{
    match spare {
        None => enter(alloc, unit, args),
        Some(held) => enter_again(alloc, unit, args, held),
    }
}

/// The first frame of a call that is no worker's, in the room of one that is over, where there is some.
pub(crate) fn begin_in<'a>(
    alloc: Global,
    program: &Program<'a>,
    unit: u32,
    args: &[Value],
    spare: Option<Held>,
) -> Result<Option<Call>, Memory>
    ensures { IfOk result (λ c. option_map call_of c ≡ machine.begun (machine_of program.now) unit args.now None) }
{
    match program.units.get(unit as usize) {
        None => Ok(None),
        Some(found) => Ok(Some(Call {
            unit,
            role: None,
            frame: enter_in(alloc, found, args, spare)?,
        })),
    }
}
