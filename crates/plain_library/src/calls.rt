//! The library's table.
ghost use Rattle.std.specs.Prelude.{◌≡◌, IfOk};
ghost use Rattle.operations.specs.declared.operation.Operation.TheVariants as operation;
ghost use Rattle.op_model.specs.Performs.{atom_number as atom_number_of};
ghost use Rattle.plain_run.specs.declared.held.Caller.{Caller as CallerOf};
ghost use Rattle.plain_run.specs.Effects.{IsPerformed, Stays};
ghost use Rattle.plain_structures.specs.Rows.{TriedStays};
ghost use Rattle.plain_library.specs.Calls.{IsLibrary, all_tried};
ghost use Rattle.plain_library.specs.Causes.{IsCallBeyond};

use crate::copies::{clone, clone_read_only};
use crate::errors::{cause, detail, message};
use crate::input::readln;
use crate::lists::{list_length, reverse, slice};
use crate::mappings::{get, has_key, keys, mapping_length};
use crate::output::{print, println};
use crate::strings::{
    starts_with, string_length, substring, to_code_point_ints, to_lower_ascii, to_upper_ascii, trim,
};
use crate::values::{abs, from_string, to_string};
use bal_base::Memory;
use operations::LibraryCall;
use plain_removals::{pop, remove_item, remove_key};
use plain_run::{Came, Common, Performed, ProgramFacts, World};
use plain_stores::push;
use plain_structures::{Tried, answered};
use std::alloc::Global;
use value_model::Value;

/// The atom of the list that a call makes, or 0.
fn atom_number(atom: Option<u32>) -> u32
    ensures { result ≡ atom_number_of atom }
{
    match atom {
        Some(atom) => atom,
        None => 0,
    }
}

/// What came, as what was tried.
fn told(came: Result<Option<Came>, Memory>) -> Result<Tried, Memory>
    ensures { result ≡ all_tried came }
{
    match came {
        Ok(Some(came)) => Ok(Tried::Came(came)),
        Ok(None) => Ok(Tried::Stuck),
        Err(Memory) => Err(Memory),
    }
}

/// What a call comes to, where this is the atom of the list that it makes.
#[tactic(auto, using(crate::proofs::Calling::staying))]
fn called(
    alloc: Global,
    facts: &ProgramFacts,
    call: LibraryCall,
    atom: u32,
    operands: &[Value],
    world: &mut World,
) -> Result<Tried, Memory>
    ensures row { IfOk result (IsLibrary facts.now call atom operands.now world.old world.new) }
    ensures stays { IfOk result (TriedStays world.old world.new) }
{
    match call {
        LibraryCall::Println => told(println(alloc, operands, world)),
        LibraryCall::Print => told(print(alloc, operands, world)),
        LibraryCall::Readln => told(readln(alloc, operands, world)),
        LibraryCall::FromString => told(from_string(alloc, operands, world)),
        LibraryCall::Abs => told(abs(alloc, operands, world)),
        LibraryCall::ToString => told(to_string(alloc, operands, world)),
        LibraryCall::Clone => told(clone(alloc, operands, world)),
        LibraryCall::CloneReadOnly => told(clone_read_only(alloc, operands, world)),
        LibraryCall::StringLength => told(string_length(operands, world)),
        LibraryCall::StartsWith => told(starts_with(alloc, operands, world)),
        LibraryCall::Trim => told(trim(alloc, operands, world)),
        LibraryCall::Substring => told(substring(alloc, operands, world)),
        LibraryCall::ToUpperAscii => told(to_upper_ascii(alloc, operands, world)),
        LibraryCall::ToLowerAscii => told(to_lower_ascii(alloc, operands, world)),
        LibraryCall::ToCodePointInts => told(to_code_point_ints(alloc, atom, operands, world)),
        LibraryCall::ListLength => told(list_length(operands, world)),
        LibraryCall::Push => push(alloc, facts, operands, world),
        LibraryCall::Pop => pop(alloc, facts, operands, world),
        LibraryCall::RemoveItem => remove_item(alloc, facts, operands, world),
        LibraryCall::Slice => told(slice(alloc, atom, operands, world)),
        LibraryCall::Reverse => told(reverse(alloc, atom, operands, world)),
        LibraryCall::MappingLength => told(mapping_length(operands, world)),
        LibraryCall::Keys => told(keys(alloc, atom, operands, world)),
        LibraryCall::HasKey => told(has_key(operands, world)),
        LibraryCall::Get => told(get(alloc, operands, world)),
        LibraryCall::RemoveKey => remove_key(alloc, facts, operands, world),
        LibraryCall::Message => told(message(operands, world)),
        LibraryCall::Cause => told(cause(operands, world)),
        LibraryCall::Detail => told(detail(operands, world)),
    }
}

/// What a call of the library comes to. `Undecided` comes only where a question of types that the call asks isn't decided.
pub fn perform_library(
    alloc: Global,
    facts: &ProgramFacts,
    call: LibraryCall,
    atom: Option<u32>,
    count: u64,
    operands: &[Value],
    common: &mut Common,
) -> Result<Performed, Memory>
    ensures row { IfOk result (λ done. (caller : CallerOf) → IsPerformed facts.now (operation.Library call atom count) operands.now caller common.old common.new (IsCallBeyond facts.now call common.old.world operands.now) done) }
    ensures stays { IfOk result (Stays common.old common.new) }
{
    let number = atom_number(atom);
    let tried = called(alloc, facts, call, number, operands, &mut common.world)?;
    Ok(answered(tried))
}
