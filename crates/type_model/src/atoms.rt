//! What atoms stand for.

use crate::basic::{SemType, Ty};
use crate::lists::{FieldList, TyList};
use bal_base::Text;

/// A field that a mapping atom names.
#[derive(Drop)]
pub struct FieldDef {
    pub name: Text,
    pub ty: Ty,
    /// Whether a mapping may lack the field.
    pub optional: bool,
}

/// The definition of an atom. Which shapes fit it doesn't depend on marks, but through its parts.
#[derive(Drop)]
pub enum AtomDef {
    /// Lists with these types at the first places, and then any number of items of `rest`, or none
    /// where it is absent.
    List {
        fixed: TyList,
        rest: Option<Ty>,
    },
    /// Mappings with these fields, and beside them any members of `rest`, or none where it is absent.
    Mapping {
        fields: FieldList,
        rest: Option<Ty>,
    },
    /// Functions that give a result in `result` to each unmarked list of arguments in `args`; where
    /// `isolated`, isolated ones alone.
    Arrow {
        args: SemType,
        result: SemType,
        isolated: bool,
    },
    /// Errors with a detail in `detail`.
    Error {
        detail: SemType,
    },
    /// Futures whose results are all in `result`.
    Future {
        result: SemType,
    },
}
