//! The names of functions and of workers.
#![tactic(auto, using(crate::proofs::Adding::in_a_row))]

ghost use Rattle.std.specs.Prelude.{◌≡◌, ◌++◌, IfOk, OnOk, codes};
ghost use Rattle.bal_tree.specs.Files.{file_in};
ghost use Rattle.pair_texts.specs.PairText.{function_name, module_at, module_in, module_text, worker_name, workers_of};
ghost use Rattle.package_files.specs.Names.{module_of};
ghost use Rattle.text_forms.specs.Forms.{Adds, written};

use bal_base::{Memory, Name};
use bal_tree::{Module, file_in};
use package_files::module_of;
use std::alloc::Global;
use text_forms::{add_text, add_word};
use typed_tree::{TypedBody, TypedFunction, TypedWorker};

/// The name of a function, behind its module where that isn't the default one.
pub(crate) fn function_name(
    alloc: Global,
    f: &TypedFunction,
    modules: &[Module],
) -> Result<String, Memory>
    ensures { IfOk result (λ name. written name ≡ function_name modules.now f.now) }
{
    let mut out = String::new(alloc);
    add_module_at(alloc, &mut out, f.at.file, modules)?;
    add_text(&mut out, f.name.as_str())?;
    Ok(out)
}

/// Adds the module of the file with this number.
fn add_module_at(
    alloc: Global,
    out: &mut String,
    file: u32,
    modules: &[Module],
) -> Result<(), Memory>
    ensures { OnOk result (Adds (written out.old) (module_at (file_in file modules.now)) (written out.new)) }
{
    match file_in(modules, file) {
        Some(file) => add_module_of(alloc, out, &file.name),
        None => Ok(()),
    }
}

/// Adds the module of the file with this name.
fn add_module_of(alloc: Global, out: &mut String, name: &Name) -> Result<(), Memory>
    ensures { OnOk result (Adds (written out.old) (module_in (module_of name.now)) (written out.new)) }
{
    match module_of(alloc, name)? {
        Some(module) => add_module(out, &module),
        None => Ok(()),
    }
}

/// Adds a module, where it isn't the default one.
fn add_module(out: &mut String, name: &Name) -> Result<(), Memory>
    ensures { OnOk result (Adds (written out.old) (module_text name.now) (written out.new)) }
{
    if name.as_str().is_empty() {
        return Ok(());
    }
    add_named(out, name)
}

/// Adds a module with a name.
fn add_named(out: &mut String, name: &Name) -> Result<(), Memory>
    ensures { OnOk result (Adds (written out.old) (name.now ++ codes ":") (written out.new)) }
{
    add_text(out, name.as_str())?;
    add_word(out, ":")
}

/// The named workers of a body.
pub(crate) fn workers_of(body: &TypedBody) -> &[TypedWorker]
    ensures { result.now ≡ workers_of body.now }
{
    match body {
        TypedBody::Block { workers, .. } => workers.as_slice(),
        TypedBody::Expr { .. } => &[],
    }
}

/// Adds the name of the worker with this number, where it is there.
pub(crate) fn add_worker(
    out: &mut String,
    workers: &[TypedWorker],
    number: u32,
) -> Result<(), Memory>
    ensures { OnOk result (Adds (written out.old) (worker_name workers.now number) (written out.new)) }
{
    if number == 0 {
        return add_word(out, "function");
    }
    match workers.get(number as usize - 1) {
        Some(worker) => add_text(out, worker.name.as_str()),
        None => Ok(()),
    }
}
