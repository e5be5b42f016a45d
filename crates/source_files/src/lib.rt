//! A source file of a package, read: its tree, or the fault for which it is refused.
//!
//! - [`source_file`]: the file with a number and a name, or the refusal that is due. It does the work of the others:
//! - [`text_of`]: the text that the bytes of a file are.
//! - [`tree_of`]: the tree of such a text.
//! - [`refusal`]: a fault with its place as people read it.
//!
//! `specs/Sources.antt` says what a file reads as and which faults it has, `specs/Told.antt` how they are told, and `specs/Files.antt`
//! what reading a file comes to.
#![tactic(auto)]

mod files;
mod reading;
mod telling;

pub use files::source_file;
pub use reading::{text_of, tree_of};
pub use telling::refusal;
