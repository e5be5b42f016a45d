//! Structures and function values that are made.
ghost use Rattle.std.specs.Prelude.{◌≡◌, IfOk};
ghost use Rattle.op_model.specs.Rows as rows;
ghost use Rattle.op_model.specs.StructureRows.{makes_function};
ghost use Rattle.plain_run.specs.Came.{WorldStays, came_of};
ghost use Rattle.plain_run.specs.Held.{members_of, structure_of, world_of};

use crate::held::{FunctionObject, Members, Structure, World};
use crate::world::{Came, has_room_for};
use bal_base::Memory;
use value_model::Value;

/// The most items of a list.
pub const MOST_ITEMS: usize = 4_194_304;

/// How many members they are.
pub fn size_of(members: &Members) -> u64
    ensures { result ≡ rows.size_of (members_of members.now) }
{
    match members {
        Members::Items(items) => items.len() as u64,
        Members::Entries(entries) => entries.len() as u64,
    }
}

/// A structure with these members.
pub fn new_structure(atom: Option<u32>, mutable: bool, members: Members) -> Structure
    ensures { structure_of result ≡ rows.new_structure atom mutable (members_of members) }
{
    let greatest = size_of(&members);
    Structure {
        atom,
        mutable,
        members,
        greatest,
    }
}

/// Makes a structure and gives it.
#[tactic(auto, using(crate::proofs::Made::structure_past))]
pub fn gives_structure(world: &mut World, made: Structure) -> Result<Came, Memory>
    ensures row { IfOk result (λ came. came_of came world.new ≡ rows.gives_structure (world_of world.old) (structure_of made)) }
    ensures stays { IfOk result (WorldStays world.old world.new) }
{
    if !has_room_for(&world.heap, made.greatest, 1) {
        return Ok(Came::PassesCells);
    }
    let number = world.heap.structures.len() as u32;
    world.heap.structures.push(made)?;
    Ok(Came::Gave(Some(Value::Struct(number))))
}

/// Makes a function value and gives it.
#[tactic(auto, using(crate::proofs::Made::function_past))]
pub fn gives_function(world: &mut World, unit: u32, captured: Vec<Value>) -> Result<Came, Memory>
    ensures row { IfOk result (λ came. came_of came world.new ≡ makes_function (world_of world.old) unit captured.items) }
    ensures stays { IfOk result (WorldStays world.old world.new) }
{
    if !has_room_for(&world.heap, captured.len() as u64, 1) {
        return Ok(Came::PassesCells);
    }
    let number = world.heap.functions.len() as u32;
    world
        .heap
        .functions
        .push(FunctionObject { unit, captured })?;
    Ok(Came::Gave(Some(Value::Function(number))))
}
