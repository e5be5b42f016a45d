//! What the definitions of a package say of names.
//!
//! - [`check_names`]: the first fault in that, in text order.
//! - [`parts_first`]: where there is none, the definitions in an order in which parts come first; [`prefixes`]: those of a file.
//! - [`main_excerpt`]: where there is one, what the function `main` reaches, if that is without fault and stands before it.
//! - `outlines` and `mentions`: definitions, each with what it mentions of names; `table`: names by module.
//! - `main_form` over `string_words` and `results`: what is seen of the function `main` where it is written.
//! - `faults`: what a name stands for, and what is wrong with a mention; `named`: the definitions one after another.
//! - `excerpts` over `reached`: what `main` reaches.
//!
//! `specs/Outlines.antt` says what the definitions of a package say of names, `specs/Resolved.antt` what the names of types stand
//! for, and `specs/Faults.antt` which fault comes first;
//! `specs/MainForm.antt` says what is seen of `main` where it is written.
//! `specs/Named.antt` says what is so of each definition where there is none. `specs/Reached.antt` says what a definition reaches,
//! `specs/Excerpts.antt` which packages have some of the definitions of another one, and `specs/MainExcerpt.antt` where `main`
//! stands among faults.
#![tactic(auto)]

ghost use Rattle.std.specs.Prelude.{IfOk};
ghost use Rattle.checks.specs.Checks.{Comes};
ghost use Rattle.descriptors.specs.Described.{Atoms};
ghost use Rattle.name_resolution.specs.Faults.{AreNamed, all_named};
ghost use Rattle.name_resolution.specs.MainExcerpt.{IsMainExcerpt};
ghost use Rattle.graphs.specs.Ordering.{IsOrder};
ghost use Rattle.name_resolution.specs.Outlines.{outlines_of};
ghost use Rattle.name_resolution.specs.Resolved.{parts};

mod excerpts;
mod faults;
mod main_form;
mod mentions;
mod named;
mod outlines;
mod reached;
mod results;
mod string_words;
mod table;

use bal_base::{Fault, Memory, Stop};
use bal_tree::Package;
pub use excerpts::Excerpt;
pub use main_form::is_main;
pub use outlines::prefixes;
use std::alloc::Global;

/// Whether the names in the definitions of a package are without fault, and `main` has its form, or else the first fault in text order: module by module,
/// file by file, and from the front.
///
/// - `IllFounded` at the first token of a definition: its type is its own part, but inside a list, a mapping, an error, a function
///   or a future. The names are those of a shortest cycle that begins there, and of the shortest the one that comes first.
/// - `Duplicate` at a name: a definition before has it in its module, or a field before it in its record.
/// - `Unknown` at the name of a type: it stands for no type or constant.
/// - `NotPublic` at the name of a type: it is another module's and isn't public.
/// - `BadMain` at the first token of the function `main` of the default module, behind the faults in its names: it isn't public, has a
///   parameter that it may not have, or its result can't be an error or nil alone.
pub fn check_names(alloc: Global, package: &Package) -> Result<(), Stop<Fault>>
    ensures { (env : Atoms) → Comes (all_named (outlines_of «package».now) «package».now.main) env result env }
{
    match outlines::package_outlines(alloc, package) {
        Ok(outlines) => named::all_definitions(alloc, package.main as usize, &outlines),
        Err(Memory) => Err(Stop::Memory),
    }
}

/// The definitions of a package by their numbers in text order, each once, and behind those that are parts of its type.
pub fn parts_first(alloc: Global, package: &Package) -> Result<Vec<usize>, Memory>
    requires { AreNamed (outlines_of «package».now) }
    ensures { IfOk result (λ order. IsOrder (parts (outlines_of «package».now)) order.items) }
{
    let outlines = outlines::package_outlines(alloc, package)?;
    named::in_order(alloc, &outlines)
}

/// What the function `main` of the default module reaches, by the names in its descriptors and in those that these stand for; none
/// where there is no `main`, where it or a definition before it has a fault as [`check_names`] says, or where what it reaches has
/// one, taken by itself. It takes time and memory as what the package says of names does.
pub fn main_excerpt(alloc: Global, package: &Package) -> Result<Option<Excerpt>, Memory>
    ensures { IfOk result (IsMainExcerpt (outlines_of «package».now) «package».now.main) }
{
    let outlines = outlines::package_outlines(alloc, package)?;
    excerpts::main_excerpt(alloc, package.main as usize, outlines)
}
