//! Why a question that wants an atom isn't answered.

use type_model::TypeLimit;

/// Why a need that wants an atom of its own isn't decided.
#[derive(Clone, Copy)]
pub enum QuestionLimit {
    /// There would be more than 65,536 atoms.
    Atoms,
    /// A question over the atoms with the new one is too large.
    Types(TypeLimit),
}
