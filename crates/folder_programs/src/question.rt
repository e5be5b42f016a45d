//! The question whether one type is below another: from the folder's package and two words to the text of the answer.
ghost use Rattle.std.specs.Prelude.{◌≤◌, [], length};
ghost use Rattle.command_words.specs.declared.command.TheConstants.{MOST_WORD_BYTES};
ghost use Rattle.folder_programs.specs.Packages.{CountsFolderFaults};
ghost use Rattle.folder_programs.specs.Questions.{Answers, IsLoaded};
ghost use Rattle.package_questions.specs.PackageAnswers.{AnswersFor};
ghost use Rattle.type_diagrams.specs.Reach.{Passes};

use crate::packages::{AnswerFault, package_of};
use bal_base::{Refusal, Stop};
use bal_io::Folder;
use bal_tree::Package;
use package_questions::answer_for;
use std::alloc::Global;
use subtype_decider::Decider;

/// The text of the answer whether every shape of `s` is one of `t`, in the folder's package. `Folder` where a call on the folder failed;
/// `Source` where its files make no package, as `load` refuses them, or where `answer_for` refuses. It costs what `load` and `answer_for`
/// cost.
pub fn answer<F: Folder>(
    alloc: Global,
    folder: &mut F,
    s: &str,
    t: &str,
) -> Result<String, Stop<AnswerFault>>
    requires left { length s.now ≤ MOST_WORD_BYTES }
    requires right { length t.now ≤ MOST_WORD_BYTES }
    ensures faults { CountsFolderFaults (F.faults folder.old) (F.faults folder.new) result }
    ensures answers { Answers (F.files folder.old) s.now t.now result }
{
    match package_of(alloc, folder) {
        Ok(package) => loaded(package_answer(alloc, &package, s, t)),
        Err(stop) => Err(stop),
    }
}

/// The answer for a folder by that for its package.
fn loaded(answer: Result<String, Stop<Refusal>>) -> Result<String, Stop<AnswerFault>>
    ensures { IsLoaded answer result }
{
    match answer {
        Ok(text) => Ok(text),
        Err(Stop::Memory) => Err(Stop::Memory),
        Err(Stop::Fault(refusal)) => Err(Stop::Fault(AnswerFault::Source(refusal))),
    }
}

/// The same in this package.
fn package_answer(
    alloc: Global,
    package: &Package,
    s: &str,
    t: &str,
) -> Result<String, Stop<Refusal>>
    requires left { length s.now ≤ MOST_WORD_BYTES }
    requires right { length t.now ≤ MOST_WORD_BYTES }
    ensures { AnswersFor Passes [] «package».now s.now t.now result }
{
    let mut types = Decider::new(alloc);
    answer_for(alloc, &mut types, package, s, t)
}
