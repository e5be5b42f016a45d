//! What a name stands for.
ghost use Rattle.std.specs.Prelude.{◌≡◌};
ghost use Rattle.std.specs.Option.{option_map};
ghost use Rattle.check_words.specs.Library.{row_of};
ghost use Rattle.check_words.specs.Seen.{constant_of_int as int_constant, from_source as from_source_of, in_library as in_library_of, in_modules as in_modules_of, or_function, seen_as as seen_as_of, variable_or, worker_from, worker_named as worker_named_of, worker_or};
ghost use Rattle.check_words.specs.State.{find_variable as variable_in};
ghost use Rattle.check_work.specs.Views.{site_of};
ghost use Rattle.seen_names.specs.Views.{seen_of};

use bal_base::{FaultCode, Name};
use bal_tree::{Prefix, QualifiedName};
use check_library::{constant_of_int, function_of_int, function_of_io};
use check_work::{Site, find_variable};
use descriptors::{Meaning, Names, Source};
use flow_narrowing::Variable;
use operations::{Constant, LibraryCall};

/// What a name stands for where a value may stand.
#[derive(Drop)]
pub enum Seen<'n, 'v> {
    /// A variable that is seen.
    Variable(&'v Variable),
    /// A worker of the function; the default one is 0.
    Worker(usize),
    /// A constant of the library.
    Constant(Constant),
    /// A function of the library.
    Library(LibraryCall),
    /// What a module defines.
    Meaning(&'n Meaning),
    /// Nothing: why.
    Nothing(FaultCode),
}

/// The number of the first worker with the name, where the first of them all is 1. It looks through the workers, and takes no memory.
pub fn number_of(workers: &[Name], name: &Name) -> Option<usize>
    ensures { result ≡ worker_from 1 workers.now name.now }
{
    let mut number: usize = 1;
    for worker in workers {
        if *worker == *name {
            return Some(number);
        }
        number += 1;
    }
    None
}

/// The worker that the name stands for: one without a prefix (Ballerina specification, "Named worker declaration"). It looks through the
/// workers, and takes no memory.
pub fn worker_named(workers: &[Name], name: &QualifiedName) -> Option<usize>
    ensures { result ≡ worker_named_of workers.now name.now }
{
    match &name.prefix {
        Some(_) => None,
        None => number_of(workers, &name.word.name),
    }
}

/// What modules define under the name.
fn in_modules<'n, 'v>(names: &'n Names, site: &Site, name: &QualifiedName) -> Seen<'n, 'v>
    ensures { seen_of result ≡ in_modules_of names.now (site_of site.now) name.now }
{
    match names.meaning(site.scope, name) {
        Ok(meaning) => Seen::Meaning(meaning),
        Err(code) => Seen::Nothing(code),
    }
}

/// A worker, or what modules define.
fn worker_or_meaning<'n, 'v>(names: &'n Names, site: &Site, name: &QualifiedName) -> Seen<'n, 'v>
    ensures { seen_of result ≡ worker_or names.now (site_of site.now) name.now (worker_named_of site.now.workers.items name.now) }
{
    if let Some(worker) = worker_named(site.workers.as_slice(), name) {
        return Seen::Worker(worker);
    }
    in_modules(names, site, name)
}

/// A name without a prefix.
fn alone<'n, 'v>(
    names: &'n Names,
    site: &Site,
    variables: &'v [Variable],
    name: &QualifiedName,
) -> Seen<'n, 'v>
    ensures { seen_of result ≡ variable_or names.now (site_of site.now) name.now (variable_in variables.now name.now.word.name) }
{
    if let Some(variable) = find_variable(variables, &name.word.name) {
        return Seen::Variable(variable);
    }
    worker_or_meaning(names, site, name)
}

/// A function of the library, if there is one.
fn in_library<'n, 'v>(call: Option<LibraryCall>) -> Seen<'n, 'v>
    ensures { seen_of result ≡ in_library_of (option_map row_of call) }
{
    match call {
        Some(call) => Seen::Library(call),
        None => Seen::Nothing(FaultCode::Unknown),
    }
}

/// A name behind `int`.
fn of_int<'n, 'v>(name: &Name) -> Seen<'n, 'v>
    ensures { seen_of result ≡ or_function name.now (int_constant name.now) }
{
    if let Some(constant) = constant_of_int(name) {
        return Seen::Constant(constant);
    }
    in_library(function_of_int(name))
}

/// A name behind the prefix of an import.
fn of_import<'n, 'v>(
    names: &'n Names,
    site: &Site,
    name: &QualifiedName,
    source: Option<Source>,
) -> Seen<'n, 'v>
    ensures { seen_of result ≡ from_source_of names.now (site_of site.now) name.now source }
{
    match source {
        Some(Source::Library) => return in_library(function_of_io(&name.word.name)),
        Some(Source::Module(_)) | None => return in_modules(names, site, name),
    }
}

/// What a name stands for where a value may stand and these variables are seen (Ballerina specification, "Variable reference expression"
/// and section 8): a variable hides a worker, and a worker what the module defines. It looks through the variables and the workers, and takes no memory.
pub fn seen_as<'n, 'v>(
    names: &'n Names,
    site: &Site,
    variables: &'v [Variable],
    name: &QualifiedName,
) -> Seen<'n, 'v>
    ensures { seen_of result ≡ seen_as_of names.now (site_of site.now) variables.now name.now }
{
    match &name.prefix {
        None => return alone(names, site, variables, name),
        Some(Prefix::Int { .. }) => return of_int(&name.word.name),
        Some(Prefix::Word(prefix)) => {
            let source = names.source(site.scope, &prefix.name);
            return of_import(names, site, name, source);
        }
    }
}
