//! Types as sets of shapes.
//!
//! - [`BasicSet`], [`SemType`] and [`Ty`]: types, put together of basic sets and atoms by or, and, not;
//!   `copy` gives another.
//! - [`AtomDef`] and [`FieldDef`]: what an atom stands for. Types recur through atoms alone.
//! - [`TyList`], [`FieldList`], [`ChoiceList`], [`TypeList`] and [`AtomDefs`]: lists by name.
//! - [`TypeEnv`]: the atoms' definitions by their numbers, and [`AtomLimit`], when there would be too many.
//! - [`AtomDef::are_below`] and [`AtomDef::have_distinct_fields`]: what an environment asks of new atoms.
//! - [`Types`]: what can be asked of types, with [`Answer`], [`Keys`], [`Apply`] and [`TypeLimit`].
#![tactic(auto)]

mod answers;
mod atoms;
mod basic;
mod copy;
mod decide;
mod defined;
mod env;
mod lists;

pub use answers::{Answer, Apply, Keys, TypeLimit};
pub use atoms::{AtomDef, FieldDef};
pub use basic::{BasicSet, Choice, SemType, Ty};
pub use decide::Types;
pub use env::{AtomLimit, TypeEnv};
pub use lists::{AtomDefs, ChoiceList, FieldList, TyList, TypeList};
