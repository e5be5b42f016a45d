//! Statements line by line: where what is read of their values and blocks comes to typed parts and blocks, what is read of the whole comes to one typed statement, with all
//! functions in it typed in units of their own, and what is kept is kept (Ballerina specification, section 7).
//!
//! `specs/Claims` says what the needs of values, statements, blocks and clauses come to, and `specs/Lines` has the lines: [`statements_line_by_line`]. Each line takes its values
//! and blocks as readings of which the claim is known, so one induction over the trees puts them together.
#![tactic(auto)]

mod laws;

pub use laws::statements_line_by_line;
