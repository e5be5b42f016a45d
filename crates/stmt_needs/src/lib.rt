//! What statements, bodies, definitions and packages need of a checker, a line for each construct, and the walk that meets it in the order
//! of the text.
//!
//! - `specs/StmtTable.antt` has the line of each statement, `specs/PackageTable.antt` those of bodies, workers, definitions, modules and
//!   packages. The needs themselves stand in `expr_needs`, with the lines of expressions and actions.
//! - [`MeetsStmts`]: whoever meets needs, a call for each. Where a need has the variables that a body assigns, or the names that it uses,
//!   its clause says so in the words of `tree_places`, which gives them.
//! - [`package`], [`def`], [`stmt`], [`stmts`], [`block`]: the walk, over any of these. [`Around`]: what stands around a statement.
//!
//! A walk takes no memory of its own. It steps once through its tree, and once more through the bodies of loops whose condition is the word
//! `true` (not through loops within them) and through patterns, so its cost grows with the nodes of the tree, its frames with how deep they
//! are nested.
#![tactic(auto)]

mod around;
mod blocks;
mod meets;
mod plain;
mod units;
mod words;

pub use around::Around;
pub use blocks::{block, stmt, stmts};
pub use meets::MeetsStmts;
pub use units::{def, package};
