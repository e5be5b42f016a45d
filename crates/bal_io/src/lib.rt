//! The outside: the folder that a program is read from, its input, and its outputs.
//!
//! - [`Folder`], [`Source`] and [`Sink`]: what the compiler and the runner ask of the outside.
//! - [`MemFolder`], [`MemSource`] and [`MemSink`]: objects in memory, which tell what they hold and fail at
//!   the calls that they are told to.
//! - [`DirFolder`], [`StdSource`] and [`StdSink`]: a folder of the system and the standard streams, which
//!   tell nothing of what they hold.
//!
//! An object may tell what it holds, and contracts on content hold where it does. Every object counts the
//! calls that failed.
#![tactic(auto)]

mod calls;
mod dir_folder;
mod fault_count;
mod fronts;
mod listing;
mod mem_folder;
mod mem_sink;
mod mem_source;
mod outside;
mod std_sink;
mod std_source;

pub use dir_folder::DirFolder;
pub use mem_folder::MemFolder;
pub use mem_sink::MemSink;
pub use mem_source::MemSource;
pub use outside::{Folder, Line, Sink, Source};
pub use std_sink::StdSink;
pub use std_source::StdSource;
