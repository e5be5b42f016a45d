//! Where an instruction stands, what it takes there, and what its questions name besides.

use pair_questions::Pair;
use stack_code::{Code, Unit};
use type_model::{Keys, SemType};

/// Where an instruction stands: in a unit, which is a worker of a function.
#[derive(Clone, Copy)]
pub struct Site<'c> {
    /// The code.
    pub code: &'c Code,
    /// The unit.
    pub unit: &'c Unit,
    /// The function whose worker the unit is.
    pub function: u32,
    /// Which of its workers.
    pub worker: u32,
}

/// What an operation takes and gives, by the maps.
#[derive(Clone, Copy)]
pub struct Taken<'c> {
    /// The types of its operands, the first one first.
    pub operands: &'c [SemType],
    /// The type of its result, where the next place has one.
    pub given: Option<&'c SemType>,
}

/// What questions name that stands in no code. The first four serve all places, the others those of one instruction.
#[derive(Clone, Copy)]
pub struct Lent<'c> {
    /// All indexes of lists.
    pub indexes: &'c Keys,
    /// All keys of mappings.
    pub members: &'c Keys,
    /// All results of futures.
    pub results: &'c Keys,
    /// No shape.
    pub never: &'c SemType,
    /// The key of the field that is read.
    pub field: &'c Keys,
    /// The atom with which a value is made.
    pub own: &'c SemType,
    /// Operands in pairs, where there are as many as the instruction wants.
    pub pairs: Option<&'c [Pair<'c>]>,
}
