//! The line of the table of expressions for anonymous functions: where what is read of the value comes to a typed part, what is read of the whole does, and the function is
//! typed in a unit of its own (Ballerina specification, section 6, "Anonymous function expression").
//!
//! `specs/Functions` has the line, and [`functions_are_typed`] says that it is so. The value stands in the place of its own unit: its slots are those of the parameters, of what
//! is captured and of what the value makes for itself, and the units and variables of the package are the same as around it.
#![tactic(auto)]

mod laws;

pub use laws::functions_are_typed;
