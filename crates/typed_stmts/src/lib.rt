//! What needs of statements that are met make of typed parts: the pieces of which it is to be put together that checked packages are well
//! typed, for statements (Ballerina specification, section 7).
//!
//! `specs/Adding` says what it is that a typed statement more stands in the block at hand. `specs/Assigned` says it of declarations and of
//! assignments to names: [`needs_make_typed_assignments`]; `specs/Updated` of assignments with an operator to names: [`needs_make_typed_updates`];
//! `specs/Elements` of those to members: [`needs_make_typed_element_updates`];
//! `specs/Stored` of stores to members: [`needs_make_typed_stores`]; `specs/Ended` of what ends a way or evaluates something:
//! [`needs_make_typed_ends`]; and `specs/Branched` of blocks, branches, loops and matches: [`needs_make_typed_branches`]. `specs/Flowing`
//! says what statements leave of the flow, whatever is known before them: [`needs_keep_flows`]; and `specs/Kept` that variables that are
//! seen stay in slots of their declared types: [`needs_keep_stored`].
#![tactic(auto)]

mod laws;

pub use laws::{
    needs_keep_flows, needs_keep_stored, needs_make_typed_assignments, needs_make_typed_branches,
    needs_make_typed_element_updates, needs_make_typed_ends, needs_make_typed_stores,
    needs_make_typed_updates,
};
