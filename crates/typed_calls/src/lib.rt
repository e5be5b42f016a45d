//! What needs that are met make of typed parts, where what is open has a state of its own: calls, constructors and waits.
//!
//! `specs/WholeWaits` says it of waits, all of whose names are known: [`needs_make_typed_waits`]; `specs/Callees` what is known of what is called where a call opens:
//! [`needs_open_typed_calls`]; `specs/LibraryCalls` says it of calls of the library, and of arguments of any call: [`needs_make_typed_library_calls`];
//! `specs/ValueStarts` of starts of function values: [`needs_start_typed_values`]; `specs/Errors` of error constructors: [`needs_make_typed_errors`]; and `specs/Mappings` of
//! mapping constructors: [`needs_make_typed_mappings`].
#![tactic(auto)]

mod laws;

pub use laws::{
    needs_make_typed_errors, needs_make_typed_library_calls, needs_make_typed_mappings,
    needs_make_typed_waits, needs_open_typed_calls, needs_start_typed_values,
};
