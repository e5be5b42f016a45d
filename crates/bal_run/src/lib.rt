//! The top call: from a folder's bytes to output bytes.
//!
//! - [`bal_run`] compiles a folder and runs it, or says that it is accepted, or tells its pairs or its code, or answers a question about
//!   types, as the words of the command say (`command_words`). It answers with a [`Run`], which keeps the package that was compiled.
//! - [`Status`] and [`status_number`]: how a call ended, and the exit status of a program that ends so.
//! - [`dir_of`]: the folder that the words of a command name.
//!
//! Below the call: `telling` writes what is told of a program that doesn't run. `folder_programs` compiles a folder, runs what was
//! compiled, makes what is told of it and answers questions, and `status_texts` tells how a call ended.
#![tactic(auto)]

mod telling;
mod top;
mod words;

pub use status_texts::{Run, Status, status_number};
pub use top::bal_run;
pub use words::dir_of;
