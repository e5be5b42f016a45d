//! Code, and its lists.

use crate::instr::Instr;
use bal_base::{AtomList, Numbers, Row};
use operations::Constant;
use type_model::{AtomDefs, SemType, TypeList};

/// A program in instructions. All that it names is a number: of an atom, a type, a constant, a variable, a unit, a slot
/// or a place. Which code is well formed is said by `WellTyped` in `specs/WellTyped.antt`.
#[derive(Drop)]
pub struct Code {
    /// The definitions of the atoms, by their numbers.
    pub atoms: AtomDefs,
    /// The atoms with which structures, functions and futures are made.
    pub inherent: AtomList,
    /// The types of tests and casts.
    pub tested: TypeList,
    /// What the instructions push, and the names of fields.
    pub constants: Constants,
    /// The types of the module variables.
    pub variables: TypeList,
    /// The units.
    pub units: Units,
    /// The units that initialise module variables, in the order in which they run, before `start`.
    pub initialisers: Numbers,
    /// The unit of main.
    pub start: u32,
    /// The atom of the list of main's arguments, and 0 where main has no parameter.
    pub words: u32,
    /// The instructions of all units, one unit behind another.
    pub instrs: Instrs,
    /// What is known at each instruction.
    pub maps: StackMaps,
}

/// A function, a worker, an anonymous function or an initialiser. It has the places from `first` to before `end`. Its
/// first slots hold its parameters, and the next ones what it captures.
#[derive(Drop)]
pub struct Unit {
    /// Its first place, where a call begins.
    pub first: u32,
    /// The place behind its last one.
    pub end: u32,
    /// The types of its parameters, the rest parameter included.
    pub params: TypeList,
    /// The types of what it captures.
    pub captured: TypeList,
    /// The types of its slots.
    pub slots: TypeList,
    /// The type of its result.
    pub result: SemType,
    /// The atom of the list of its rest parameter, which is then the last one.
    pub rest: Option<u32>,
    /// Its own arrow atom, and 0 in a worker or an initialiser.
    pub arrow: u32,
    /// Its own future atom, and 0 in a worker or an initialiser.
    pub future: u32,
    /// Its named workers, in text order.
    pub workers: Spawns,
}

/// A named worker of a unit.
#[derive(Drop)]
pub struct Spawn {
    /// The worker's unit.
    pub unit: u32,
    /// The slots that it captures, of the unit that it is a worker of.
    pub slots: Numbers,
}

/// What is known at a place: the types of the operands, and in a worker the numbers of messages.
#[derive(Drop)]
pub struct StackMap {
    /// The types of the operands, the first one first.
    pub stack: TypeList,
    /// Whether it has numbers of messages.
    pub counted: bool,
    /// How many messages were sent so far, to each worker.
    pub sent: Numbers,
    /// How many were received, from each.
    pub received: Numbers,
}

/// The constants of a code.
pub type Constants = Row<Constant>;

/// The units of a code.
pub type Units = Row<Unit>;

/// The named workers of a unit.
pub type Spawns = Row<Spawn>;

/// The instructions of a code.
pub type Instrs = Row<Instr>;

/// The maps of a code, one for each instruction.
pub type StackMaps = Row<StackMap>;
