//! The program of a folder: what its package comes to, and its run.
//!
//! - [`compile`] has the front accept the program of a folder ([`Ready`], of which [`Built`] outlives its types), or says why there is
//!   none ([`CompileFault`], [`Refusing`]). [`source_of`] keeps the package of it alone.
//! - [`execute`] runs what was compiled against an input and an output; [`program_text`] is what else may be told of it ([`Telling`]): that
//!   it is accepted, its pairs, or its code.
//! - [`answer`] answers whether one type is below another in a folder's package, or says why not ([`AnswerFault`]).
//!
//! Below these: `packages` has the folder's files loaded, and `refusing` tells faults with their places as people read them.
#![tactic(auto)]

mod compiling;
mod packages;
mod question;
mod refusing;
mod running;
mod texts;

pub use compiling::{Built, CompileFault, Ready, Refusing, compile, source_of};
pub use packages::AnswerFault;
pub use question::answer;
pub use running::execute;
pub use texts::{Telling, program_text};
