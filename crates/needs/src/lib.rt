//! What constructs need, as data: how needs stand one behind another, and what becomes of work that meets them.
//!
//! A construct of the language has one line in the tables of the checkers: its needs, in the order of the text, put
//! together by `&`. What it means that one need is met is a check of a state (`meets`). All needs of a line are met in
//! turn, so the first that is refused gives the fault, and nothing else says an order.
//!
//! `specs/Needs.antt` says what a list of needs comes to (`all_met`) and what it is to run it from work that may have
//! stopped (`Runs`); `specs/Laws.antt` and `specs/Agreement.antt` state the laws of both.
//!
//! - [`needs_are_met_in_turn`]: what a list of needs comes to, member by member.
//! - [`runs_are_put_together`]: a run of the whole from runs of its parts.
//! - [`needs_agree`]: two runs of the same needs come to the same.
#![tactic(auto)]

mod laws;

pub use laws::{Needs, needs_agree, needs_are_met_in_turn, runs_are_put_together};
