//! Types of operands, with references to what has them.
#![tactic(auto, using(crate::proofs::Tracing::tracing))]

ghost use Rattle.std.specs.Prelude.{◌≡◌};
ghost use Rattle.map_model.specs.Points.{operator_type as operator_type_of};
ghost use Rattle.map_traces.specs.Constructs.{slot_known, variable_known};
ghost use Rattle.map_traces.specs.Events.{known_of, type_of};

use type_model::SemType;
use typed_tree::{ModuleVariable, Operator, SharedTy};

/// The type of an operand.
#[derive(Clone, Copy)]
pub enum Entry<'a> {
    /// A type of the tree.
    Tree(&'a SharedTy),
    /// A type that no tree names.
    Plain(&'a SemType),
    /// Nil alone.
    Nil,
    /// All errors.
    Error,
    /// What can't change.
    Readonly,
    /// The type of a slot or a variable that isn't there.
    Never,
    /// The type of an atom.
    Atom(u32),
}

/// The types that are known where a tree stands: those of all booleans, all ints and all strings, those of the slots of its unit, and
/// the variables of the package's modules.
#[derive(Clone, Copy)]
pub struct Around<'a> {
    pub boolean: &'a SemType,
    pub int: &'a SemType,
    pub string: &'a SemType,
    pub slots: &'a [SharedTy],
    pub variables: &'a [ModuleVariable],
}

/// The declared type of a slot.
pub fn slot_entry<'a>(around: Around<'a>, slot: usize) -> Entry<'a>
    ensures { type_of result ≡ slot_known (known_of around.entry) slot }
{
    match around.slots.get(slot) {
        Some(t) => Entry::Tree(t),
        None => Entry::Never,
    }
}

/// The type of a module variable.
pub fn variable_entry<'a>(around: Around<'a>, variable: u32) -> Entry<'a>
    ensures { type_of result ≡ variable_known (known_of around.entry) variable }
{
    match around.variables.get(variable as usize) {
        Some(v) => Entry::Tree(&v.ty),
        None => Entry::Never,
    }
}

/// The type of what an operator gives in an assignment.
pub fn operator_entry<'a>(around: Around<'a>, op: Operator) -> Entry<'a>
    ensures { type_of result ≡ operator_type_of (known_of around.entry).plain op }
{
    match op {
        Operator::Negate | Operator::Multiply | Operator::Divide => Entry::Plain(around.int),
        Operator::Remainder | Operator::Add | Operator::Subtract => Entry::Plain(around.int),
        Operator::Concat => Entry::Plain(around.string),
        Operator::Not | Operator::Less | Operator::LessEqual => Entry::Plain(around.boolean),
        Operator::Greater | Operator::GreaterEqual => Entry::Plain(around.boolean),
        Operator::Equal | Operator::NotEqual => Entry::Plain(around.boolean),
        Operator::Same | Operator::NotSame => Entry::Plain(around.boolean),
    }
}
