//! What operations know of the program.

use type_model::TypeEnv;
use value_model::FillerList;

/// A named worker of a function.
#[derive(Drop)]
pub struct WorkerFacts {
    pub unit: u32,
    /// The slots of the function that it captures.
    pub captured: Vec<u32>,
}

/// A function, worker, anonymous function or initialiser.
#[derive(Drop)]
pub struct UnitFacts {
    /// How many parameters it has, the rest parameter included.
    pub params: u32,
    /// The atom of the lists of the rest parameter, which is then the last one.
    pub rest: Option<u32>,
    /// Its own arrow and future atom.
    pub arrow: u32,
    pub future: u32,
    /// Its named workers, in text order.
    pub workers: Vec<WorkerFacts>,
}

/// What operations know of the program.
#[derive(Drop)]
pub struct ProgramFacts<'a> {
    /// The definitions of the atoms, by number.
    pub atoms: &'a TypeEnv,
    pub units: Vec<UnitFacts>,
    /// The units that initialise module variables.
    pub initialisers: Vec<u32>,
    /// By the numbers of atoms of lists, the fillers of the fixed places and then that of the rest.
    pub fillers: &'a [FillerList],
}
