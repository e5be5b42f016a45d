//! The typed package, of what was found.
#![tactic(auto)]

ghost use Rattle.std.specs.Prelude.{◌≡◌, ◌∷◌, [], IfOk, List, codes};
ghost use Rattle.std.specs.Option.{option_copied};
ghost use Rattle.bal_tree.specs.declared.package.Package.{Package as PackageOf};
ghost use Rattle.descriptors.specs.Naming.{entry_in};
ghost use Rattle.type_model.specs.declared.atoms.AtomDef.{AtomDef as Atom};
ghost use Rattle.check_words.specs.Units.{signature_in};
ghost use Rattle.check_words.specs.State.{State};
ghost use Rattle.check_work.specs.Views.{done_of, state_of};
ghost use Rattle.package_checks.specs.Checked.{IsStart, IsTyped};
ghost use Rattle.stmt_checker.specs.Answers.{IsAnswer};

use bal_base::{Fault, Memory, Name, Stop};
use check_work::{Done, Work};
use descriptors::{Entry, Meaning, Names, Signature, lift};
use std::alloc::Global;
use typed_tree::TypedPackage;

/// The unit that is called first, and the list atom of its arguments.
#[derive(Clone, Copy)]
struct Start {
    unit: u32,
    words: u32,
}

/// What a module defines under a name.
fn entry<'n>(names: &'n Names, module: usize, name: &Name) -> Option<&'n Entry>
    ensures { option_copied result ≡ entry_in names.now name.now «module» }
{
    names.modules.get(module)?.entries.get(name)
}

/// The start of a program whose `main` has the signature.
fn start_of(f: &Signature) -> Start
    ensures { IsStart (f.now ∷ []) result.unit result.words }
{
    let words = match &f.rest {
        Some(_) => f.lists,
        None => 0,
    };
    Start {
        unit: f.unit,
        words,
    }
}

/// The start of a program whose `main` is this; a program without one starts nothing.
fn start_in(main: Option<&Entry>) -> Start
    ensures { IsStart (signature_in (option_copied main.entry)) result.unit result.words }
{
    let Some(entry) = main else {
        return Start { unit: 0, words: 0 };
    };
    match &entry.meaning {
        Meaning::Function(f) => start_of(f),
        Meaning::TypeName(_) | Meaning::Constant(_) | Meaning::Variable { .. } => {
            Start { unit: 0, words: 0 }
        }
    }
}

/// What starts the program: the function `main` of the module with this number.
fn start_by_name(alloc: Global, names: &Names, main: u32) -> Result<Start, Memory>
    ensures { IfOk result (λ start. IsStart (signature_in (entry_in names.now (codes "main") main)) start.unit start.words) }
{
    let name = Name::new(alloc, "main")?;
    Ok(start_in(entry(names, main as usize, &name)))
}

/// The typed package, where the work has met all needs and this is done.
fn typed_package(
    alloc: Global,
    names: &Names,
    main: u32,
    done: Done,
) -> Result<TypedPackage, Memory>
    ensures { (p : PackageOf) (s : State) → p.main ≡ main → s.done ≡ done_of done → IfOk result (IsTyped names.now p s) }
{
    let start = start_by_name(alloc, names, main)?;
    let Done {
        next_unit,
        functions,
        workers: _,
        variables,
        initialisers,
    } = done;
    Ok(TypedPackage {
        functions,
        variables,
        initialisers,
        start: start.unit,
        words: start.words,
        units: next_unit,
    })
}

/// What a check of the package answers, where this is done and the work stopped so.
fn answered(
    alloc: Global,
    names: &Names,
    main: u32,
    done: Done,
    stop: Option<Stop<Fault>>,
) -> Result<TypedPackage, Stop<Fault>>
    ensures { (p : PackageOf) (s : State) → p.main ≡ main → s.done ≡ done_of done → IsAnswer names.now p s stop result }
{
    match stop {
        Some(stop) => Err(stop),
        None => lift(typed_package(alloc, names, main, done)),
    }
}

/// What a check of the package answers, where the work has come to this.
pub(crate) fn answer(
    alloc: Global,
    names: &Names,
    main: u32,
    work: Work<'_>,
) -> Result<TypedPackage, Stop<Fault>>
    ensures { (env : List Atom) (p : PackageOf) → p.main ≡ main → IsAnswer names.now p (state_of env work.entry) work.entry.stop result }
{
    let Work { done, stop, .. } = work;
    answered(alloc, names, main, done, stop)
}
