//! What needs that are met make of typed parts: the pieces of which it is to be put together that checked packages are well typed.
//!
//! `specs/Pieces` says what is asked of parts, and what is made of them, over all atoms that there are at the end. Beside it stand the laws,
//! [`needs_ask_of_parts`] and [`needs_make_typed_parts`]. `specs/Choices` says it of choices, casts, tests and checks, over slots of the unit at hand (`specs/Placing`):
//! [`needs_make_typed_choices`]; `specs/Named` of names: [`needs_make_typed_names`];
//! and `specs/MemberReads` of members: [`needs_make_typed_reads`]; `specs/Items` of list constructors: [`needs_make_typed_lists`];
//! `specs/Messages` of what workers send each other: [`needs_make_typed_messages`];
//! `specs/FunctionCalls` of calls of functions: [`needs_make_typed_function_calls`]; `specs/ValueCalls` of function values: [`needs_make_typed_value_calls`];
//! `specs/Anonymous` of anonymous functions: [`needs_make_typed_functions`]; and
//! `specs/Waits` of names in waits: [`needs_await_typed_names`]. What is asked of parts beside kinds stands in `specs/Asked`. `specs/Going`
//! says how states go on from need to need, and `specs/OnTheWay` what follows of a state on the way: [`needs_go_on`],
//! and `specs/WholeRuns` that whole runs do: [`runs_go_on`].
#![tactic(auto)]

mod laws;

pub use laws::{
    needs_ask_of_parts, needs_await_typed_names, needs_go_on, needs_make_typed_choices,
    needs_make_typed_function_calls, needs_make_typed_functions, needs_make_typed_lists,
    needs_make_typed_messages, needs_make_typed_names, needs_make_typed_parts,
    needs_make_typed_reads, needs_make_typed_value_calls, runs_go_on,
};
