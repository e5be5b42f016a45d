//! Statements, blocks and clauses as whole trees: all their needs come to one typed statement more, one typed block more, typed clauses more, with all functions in them typed
//! in units of their own.
//!
//! `specs/Actions` lists what stands behind `=` or `return` in statements, and `specs/Trees` says what is known of whole trees: [`statements_are_known`] puts the lines of the table
//! of statements (`typed_bodies`) together with whole expressions and actions (`typed_trees`), by induction on the trees.
#![tactic(auto)]

mod laws;

pub use laws::statements_are_known;
