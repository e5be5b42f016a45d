//! Type descriptors as types.
//!
//! `specs/Descriptors.antt` says what a descriptor is apart from how it is written, `specs/Naming.antt` what a name stands for,
//! `specs/Described.antt` what each descriptor means, with the faults in order, and `specs/Language.antt` which types the language
//! itself names.
//!
//! - [`Names`]: what the names of a package stand for.
//! - [`describe`]: a descriptor as it stands in a module, as a type.
//! - [`own_types`]: the types that the language itself names, over atoms that are added once.
//! - [`is_same`]: whether two types are written alike.
//! - [`Draft`], [`type_tree`], [`rewritten`] and their kin: the same by parts, for whoever makes the names. Atoms are
//!   drafted first, and then added as one group.
#![tactic(auto)]

mod atoms;
mod describing;
mod descriptors;
mod draft;
mod language;
mod lists;
mod names;
mod own;
mod readonly;
mod resolving;
mod rewriting;
mod sides;
mod together;

pub use describing::describe;
pub use descriptors::{result_type, type_if, type_tree};
pub use draft::Draft;
pub use language::own_types;
pub use names::{
    Entry, FileNames, Meaning, ModuleNames, Names, OwnTypes, Scope, Signature, Source,
};
pub use rewriting::rewritten;
pub use sides::is_same;
pub use together::{copy, copy_choices, lift, literal_set, negative_set, plain};
