//! Operations on strings.
ghost use Rattle.std.specs.Prelude.{IfOk, true};
ghost use Rattle.operations.specs.declared.operation.Operation.TheVariants as operation;
ghost use Rattle.op_model.specs.Rows.{GivesText};
ghost use Rattle.plain_run.specs.declared.facts.ProgramFacts.{ProgramFacts as FactsOf};
ghost use Rattle.plain_run.specs.declared.held.Caller.{Caller as CallerOf};
ghost use Rattle.plain_run.specs.Came.{WorldStays, came_of};
ghost use Rattle.plain_run.specs.Effects.{IsPerformed, Stays};
ghost use Rattle.plain_run.specs.Held.{world_of};
ghost use Rattle.plain_run.specs.Values.{AreTwoTexts};

use crate::effect::{Performed, lifted};
use crate::held::{Common, World};
use crate::world::{Came, panics};
use bal_base::{Memory, Text};
use std::alloc::Global;
use value_model::{PanicName, Value};

/// The most code points of a string.
pub const MOST_CODE_POINTS: usize = 16_777_216;

/// The string, or a panic where it is too long. The text knows its length, so nothing is walked over.
pub fn gives_text(alloc: Global, world: &mut World, text: Text) -> Result<Came, Memory>
    ensures row { IfOk result (λ came. GivesText (world_of world.old) text (came_of came world.new)) }
    ensures stays { IfOk result (WorldStays world.old world.new) }
{
    if text.length() > MOST_CODE_POINTS {
        return panics(alloc, world, PanicName::TooLong);
    }
    Ok(Came::Gave(Some(Value::Str(text))))
}

/// Two strings, where the operands are such.
fn two_texts(operands: &[Value]) -> Option<(Text, Text)>
    ensures { AreTwoTexts operands.now result }
{
    match operands {
        [Value::Str(s), Value::Str(t)] => Some((s.share(), t.share())),
        _ => None,
    }
}

/// `s + t` of strings. The bytes of both are copied once, and none is walked over.
pub fn perform_concat(
    alloc: Global,
    operands: &[Value],
    common: &mut Common,
) -> Result<Performed, Memory>
    ensures row { IfOk result (λ done. (facts : FactsOf) (caller : CallerOf) → IsPerformed facts operation.Concat operands.now caller common.old common.new ⊥ done) }
    ensures stays { IfOk result (Stays common.old common.new) }
{
    match two_texts(operands) {
        None => Ok(Performed::Stuck),
        Some((s, t)) => {
            let text = Text::join(alloc, &s, &t)?;
            let came = gives_text(alloc, &mut common.world, text)?;
            Ok(Performed::Done(lifted(came)))
        }
    }
}
