//! What pairing sees of a typed function: of each worker its events and its returns, held as references to the tree.
//!
//! - [`members`]: the workers of a function, as [`HeldMembers`]: of each [`HeldMember`] its events ([`Said`], with [`SaidKind`] and
//!   [`SaidType`]) and its returns ([`Returned`]).
//! - [`events_in_text`]: the events of all workers in text order, each with its worker and its number there ([`Standing`]).
//!
//! `specs/Held.antt` says which worker, event and return of the tree each of them is; the definitions of these stand in `worker_pairing`.
#![tactic(auto)]

mod exprs;
mod gathering;
mod hearing;
mod held;
mod stmts;
mod text;

pub use gathering::members;
pub use hearing::is_message;
pub use held::{HeldMember, HeldMembers, Returned, Said, SaidKind, SaidType};
pub use text::{Standing, events_in_text};
