//! Questions about types in the scope of a package.
//!
//! - [`answer_for`]: the answer to a question between two words, as it is told, or the refusal.
//!
//! `specs/PackageAnswers.antt` says what the answer is.
#![tactic(auto)]

ghost use Rattle.std.specs.Prelude.{◌≡◌, ◌+◌, ◌<◌, ◌≤◌, IfOk, length};
ghost use Rattle.checks.specs.Checks.{Comes};
ghost use Rattle.package_questions.specs.PackageAnswers.{AnswersFor, IsRefusedAs, IsToldAs, asked_of, file_count as files_of, files_in};

use bal_base::{Fault, Memory, Refusal, Stop};
use bal_tree::{Module, Package};
use std::alloc::Global;
use type_builder::build;
use type_model::{Answer, Types};
use type_questions::{answer_text, ask, refusal_of};

/// The text of the answer whether every shape of the type that the word `s` means is one of the type that `t` means,
/// with a line end. Both are read as type descriptors in the scope of the package's default module.
///
/// The first fault is refused, of the package's definitions as `build` gives it, then of `s` and of `t` as `ask` does:
/// in a file of the package, by its number, or in a word, whose name is `argument 1` or `argument 2`. A package of so many
/// files that the words have no numbers is want of memory.
pub fn answer_for<T: Types>(
    alloc: Global,
    types: &mut T,
    package: &Package,
    s: &str,
    t: &str,
) -> Result<String, Stop<Refusal>>
    requires left { length s.now ≤ 4294967295 }
    requires right { length t.now ≤ 4294967295 }
    ensures { AnswersFor T.passes (T.atoms types.old) «package».now s.now t.now result }
{
    match file_count(package) {
        Ok(first) => answer_behind(alloc, types, package, first, s, t),
        Err(Memory) => Err(Stop::Memory),
    }
}

/// The same, where the words have the numbers from `first` on.
fn answer_behind<T: Types>(
    alloc: Global,
    types: &mut T,
    package: &Package,
    first: u32,
    s: &str,
    t: &str,
) -> Result<String, Stop<Refusal>>
    requires left { length s.now ≤ 4294967295 }
    requires right { length t.now ≤ 4294967295 }
    requires first { first ≡ files_of «package».now }
    requires numbers { first < 4294967295 }
    ensures { AnswersFor T.passes (T.atoms types.old) «package».now s.now t.now result }
{
    match asked(alloc, types, package, first, s, t) {
        Ok(answer) => told(answer_text(alloc, &answer)),
        Err(Stop::Memory) => Err(Stop::Memory),
        Err(Stop::Fault(fault)) => {
            let modules = package.modules.as_slice();
            Err(refused(refusal_of(alloc, fault, modules, first, s, t)))
        }
    }
}

/// The answer, or the first fault. The places in the words have the numbers behind those of the files.
fn asked<T: Types>(
    alloc: Global,
    types: &mut T,
    package: &Package,
    first: u32,
    s: &str,
    t: &str,
) -> Result<Answer, Stop<Fault>>
    requires left { length s.now ≤ 4294967295 }
    requires right { length t.now ≤ 4294967295 }
    requires first { first ≡ files_of «package».now }
    requires numbers { first < 4294967295 }
    ensures { Comes (asked_of T.passes «package».now s.now t.now) (T.atoms types.old) result (T.atoms types.new) }
{
    match build(alloc, types, package) {
        Ok(names) => ask(alloc, types, &names, package.main, first, s, t),
        Err(stop) => Err(stop),
    }
}

/// How many files the package has, if the words behind them have numbers.
fn file_count(package: &Package) -> Result<u32, Memory>
    ensures count { IfOk result (λ n. n ≡ files_of «package».now) }
    ensures small { IfOk result (λ n. n < 4294967295) }
{
    counted(package.modules.as_slice())
}

/// The same of these modules.
fn counted(modules: &[Module]) -> Result<u32, Memory>
    ensures count { IfOk result (λ n. n ≡ files_in modules.now) }
    ensures small { IfOk result (λ n. n < 4294967295) }
{
    let mut count = 0;
    for module in modules {
        count = plus(count, module.files.as_slice().len())?;
    }
    Ok(count)
}

/// The sum, if it and the next number have 32 bits.
fn plus(count: u32, more: usize) -> Result<u32, Memory>
    ensures sum { IfOk result (λ n. n ≡ count + more) }
    ensures small { IfOk result (λ n. n < 4294967295) }
{
    if more >= (u32::MAX - count) as usize {
        return Err(Memory);
    }
    Ok(count + more as u32)
}

/// The text of an answer, if there was memory for it.
fn told(text: Result<String, Memory>) -> Result<String, Stop<Refusal>>
    ensures { IsToldAs text result }
{
    match text {
        Ok(text) => Ok(text),
        Err(Memory) => Err(Stop::Memory),
    }
}

/// The stop by a refusal, if there was memory for it.
fn refused(refusal: Result<Refusal, Memory>) -> Stop<Refusal>
    ensures { IsRefusedAs refusal result }
{
    match refusal {
        Ok(refusal) => Stop::Fault(refusal),
        Err(Memory) => Stop::Memory,
    }
}
