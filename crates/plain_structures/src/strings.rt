//! Characters of strings.
ghost use Rattle.std.specs.Prelude.{◌≡◌, ◌∷◌, [], IfOk, OnOk, option_map, true};
ghost use Rattle.text_forms.specs.Forms.{Adds, written};
ghost use Rattle.operations.specs.declared.operation.Operation.TheVariants as operation;
ghost use Rattle.value_model.specs.declared.value.Value.TheVariants.{Str};
ghost use Rattle.op_model.specs.StructureRows as structures;
ghost use Rattle.plain_run.specs.declared.facts.ProgramFacts.{ProgramFacts as FactsOf};
ghost use Rattle.plain_run.specs.declared.held.Caller.{Caller as CallerOf};
ghost use Rattle.plain_run.specs.Came.{WorldStays, came_of};
ghost use Rattle.plain_run.specs.Effects.{IsPerformed, Stays};
ghost use Rattle.plain_run.specs.Held.{world_of};

use crate::operands::text_and_int;
use crate::reads::found;
use bal_base::{Memory, Text};
use plain_run::{Came, Common, Performed, World, lifted};
use std::alloc::Global;
use value_model::{PanicName, Value};

/// The characters of a text.
pub fn characters(alloc: Global, text: &Text) -> Result<Vec<char>, Memory>
    ensures { IfOk result (λ all. all.items ≡ text.now) }
{
    Ok(text.as_str().chars().collect(alloc)?)
}

/// Adds a character.
fn add_character(text: &mut String, c: char) -> Result<(), Memory>
    ensures { OnOk result (Adds (written text.old) (c ∷ []) (written text.new)) }
{
    text.push(c)?;
    Ok(())
}

/// The text of these characters.
pub fn text_of_characters(alloc: Global, characters: &[char]) -> Result<Text, Memory>
    ensures { IfOk result (λ text. text ≡ characters.now) }
{
    let mut text = String::new(alloc);
    for c in characters {
        add_character(&mut text, *c)?;
    }
    Text::from_string(alloc, text)
}

/// The character at a place as a string, where it is there. Where all code points are ASCII nothing is walked over.
fn character(alloc: Global, text: &Text, i: i64) -> Result<Option<Value>, Memory>
    ensures { IfOk result (λ v. v ≡ option_map (λ c. Str (c ∷ [])) (structures.at_place text.now i)) }
{
    if i < 0 {
        return Ok(None);
    }
    match text.char_at(i as usize) {
        None => Ok(None),
        Some(c) => {
            let one = text_of_characters(alloc, &[c])?;
            Ok(Some(Value::Str(one)))
        }
    }
}

/// `s[i]` of a string
fn reads_char(alloc: Global, world: &mut World, text: &Text, i: i64) -> Result<Came, Memory>
    ensures row { IfOk result (λ came. came_of came world.new ≡ structures.reads_char (world_of world.old) text.now i) }
    ensures stays { IfOk result (WorldStays world.old world.new) }
{
    let c = character(alloc, text, i)?;
    found(alloc, world, PanicName::IndexOutOfRange, c)
}

/// `s[i]` of strings
pub fn perform_get_char(
    alloc: Global,
    operands: &[Value],
    common: &mut Common,
) -> Result<Performed, Memory>
    ensures row { IfOk result (λ done. (facts : FactsOf) (caller : CallerOf) → IsPerformed facts operation.GetChar operands.now caller common.old common.new ⊥ done) }
    ensures stays { IfOk result (Stays common.old common.new) }
{
    match text_and_int(operands) {
        None => Ok(Performed::Stuck),
        Some((text, i)) => {
            let came = reads_char(alloc, &mut common.world, &text, i)?;
            Ok(Performed::Done(lifted(came)))
        }
    }
}
