//! Questions about types that are words: whether every shape of one is in the other, in the scope of a module.
//!
//! - [`ask`]: the answer, or the first fault of a word.
//! - [`answer_text`]: an answer as it is told.
//! - [`refusal_of`]: a fault with its place as people read it, in a file of the package or in a word.
//! - `words` reads a word as a type descriptor.
//!
//! `specs/Words.antt` says what a word is read as, `specs/Asked.antt` what the answer is, `specs/Answers.antt` what is
//! told of it, and `specs/Refusals.antt` which refusal a fault is.
#![tactic(auto)]

ghost use Rattle.std.specs.Prelude.{◌≡◌, ◌<◌, ◌≤◌, IfOk, None, length};
ghost use Rattle.checks.specs.Checks.{Comes};
ghost use Rattle.descriptors.specs.Steps.{AreNames};
ghost use Rattle.type_model.specs.Calls.{KeepsTypes};
ghost use Rattle.type_model.specs.Defined.{IsDefined, TyBelow};
ghost use Rattle.checks.specs.Questions.{IsFault};
ghost use Rattle.bal_base.specs.declared.fault.FaultCode.TheVariants.{TypeLimit};
ghost use Rattle.bal_base.specs.declared.fault.Kept.TheVariants.{Nothing};
ghost use Rattle.type_questions.specs.Asked.{answered, asked, meant};

mod answers;
mod refusals;
mod words;

use crate::words::word_tree;
pub use answers::answer_text;
use bal_base::{Fault, FaultCode, Kept, Stop};
use descriptors::{Names, describe};
pub use refusals::refusal_of;
use std::alloc::Global;
use type_model::{Answer, SemType, Ty, Types};

/// Whether every shape of the type that the word `s` means is one of the type that `t` means, or a shape that isn't.
/// Both are read as type descriptors in the scope of the module with the number `home`, where a prefix is that of the
/// module's first file that has it. The places in `s` have the number `first` in place of a file's, and those in `t`
/// the next one.
///
/// The first fault is the answer, of `s` before `t`:
///
/// - `BadToken` and `LeftOut` in a word as the lexer gives them, and `Depth` where its tokens are nested too deeply.
/// - `Syntax` at the start of a word that isn't one whole type.
/// - `Duplicate`, `Unknown`, `NotPublic` and `AtomLimit` in a word as `describe` gives them.
/// - `TypeLimit` without a place: the question between the two is too large.
pub fn ask<T: Types>(
    alloc: Global,
    types: &mut T,
    names: &Names,
    home: u32,
    first: u32,
    s: &str,
    t: &str,
) -> Result<Answer, Stop<Fault>>
    requires left { length s.now ≤ 4294967295 }
    requires right { length t.now ≤ 4294967295 }
    requires numbers { first < 4294967295 }
    requires names { AreNames (T.atoms types.old) names.now }
    ensures comes { Comes (asked T.passes names.now home first s.now t.now) (T.atoms types.old) result (T.atoms types.new) }
{
    let left = word_type(alloc, types, names, home, first, s)?;
    let right = word_type(alloc, types, names, home, first + 1, t)?;
    answer(alloc, types, &left.sem, &right.sem)
}

/// The type that a word means in the module with the number `home`.
fn word_type<T: Types>(
    alloc: Global,
    types: &mut T,
    names: &Names,
    home: u32,
    file: u32,
    text: &str,
) -> Result<Ty, Stop<Fault>>
    requires small { length text.now ≤ 4294967295 }
    requires names { AreNames (T.atoms types.old) names.now }
    ensures comes { Comes (meant names.now home file text.now) (T.atoms types.old) result (T.atoms types.new) }
    ensures defined { IfOk result (TyBelow (length (T.atoms types.new))) }
    ensures kept { KeepsTypes (T.atoms types.old) (T.atoms types.new) }
    ensures names { AreNames (T.atoms types.new) names.now }
{
    match word_tree(alloc, file, text) {
        Ok(tree) => describe(alloc, types, names, home, None, &tree),
        Err(stop) => Err(stop),
    }
}

/// Whether every shape of `s` is in `t`.
#[tactic(auto, unfolding(checks::specs::Checks::Comes, crate::specs::Asked::answered))]
fn answer<T: Types>(
    alloc: Global,
    types: &mut T,
    s: &SemType,
    t: &SemType,
) -> Result<Answer, Stop<Fault>>
    requires left { IsDefined (T.atoms types.old) s.now }
    requires right { IsDefined (T.atoms types.old) t.now }
    ensures comes { Comes (answered T.passes s.now t.now) (T.atoms types.old) result (T.atoms types.new) }
{
    match types.sub(alloc, s, t) {
        Ok(answer) => Ok(answer),
        Err(Stop::Fault(_)) => Err(Stop::Fault(too_large())),
        Err(Stop::Memory) => Err(Stop::Memory),
    }
}

/// The fault of a question that is too large.
fn too_large() -> Fault
    ensures { IsFault TypeLimit None Nothing result }
{
    Fault {
        code: FaultCode::TypeLimit,
        at: None,
        kept: Kept::Nothing,
    }
}
