//! Frames of code: what a call of a unit of code keeps, and the calls by which the machine of code runs it.
//!
//! - [`Step`], [`UnitCode`], [`Launch`] and [`Program`]: a code as it is run, with an entry for each place.
//! - [`Held`], [`OpenTrap`] and [`Frame`]: a call that isn't over.
//! - [`Asked`]: what a frame is about to do. [`look`] says it; [`operands`] lends the operands of an operation and [`taken`] drops
//!   them once it is done; [`capture`], with [`Captures`], gives what named workers capture.
//! - [`push`], [`load`], [`store`] and [`act`]: what single operations make of what a frame has at hand.
//! - [`resume`], [`catch`], [`enter`] and [`enter_again`]: how a frame goes on, where a panic lands in it, and how it begins.
//! - [`decode`] and [`tested_types`]: the program that a code is, over its tested types, to be shared.
//! - [`machines_that_run_alike`]: such machines have the same starts, steps, states and outcomes.
//!
//! `specs/Frames.antt` says what a frame stands for, `specs/Programs.antt` of which machine it is one and of which code a program is,
//! `specs/Asking.antt` what is answered for what a frame is about to do.
#![tactic(auto)]

mod captures;
mod decoding;
mod entering;
mod frame;
mod held;
mod instrs;
mod laws;
mod local;
mod tested;

pub use captures::{Captures, capture};
pub use decoding::decode;
pub use entering::{enter, enter_again};
pub use frame::{Asked, catch, look, operands, resume, taken};
pub use held::{Frame, Held, Launch, OpenTrap, Program, Step, UnitCode};
pub use laws::machines_that_run_alike;
pub use local::{act, load, push, store};
pub use tested::tested_types;
