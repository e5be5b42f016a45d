//! Lists by name.

use crate::atoms::{AtomDef, FieldDef};
use crate::basic::{Choice, SemType, Ty};
use bal_base::Row;

/// Types with their constructor choices.
pub type TyList = Row<Ty>;

/// The fields that a mapping atom names.
pub type FieldList = Row<FieldDef>;

/// Constructor choices, in order.
pub type ChoiceList = Row<Choice>;

/// Types.
pub type TypeList = Row<SemType>;

/// Definitions of atoms.
pub type AtomDefs = Row<AtomDef>;
