//! A type descriptor as a type, with its atoms among those that are there.
ghost use Rattle.std.specs.Prelude.{◌≡◌, IfOk, length};
ghost use Rattle.type_model.specs.Calls.{KeepsTypes};
ghost use Rattle.type_model.specs.Defined.{TyBelow};
ghost use Rattle.checks.specs.Checks.{Comes};
ghost use Rattle.descriptors.specs.Described.{described, described_whole};
ghost use Rattle.descriptors.specs.Descriptors.{descriptor_of};
ghost use Rattle.descriptors.specs.Steps.{AreNames, Yields, scope_of};

use crate::descriptors::type_tree;
use crate::draft::Draft;
use crate::names::{Names, Scope};
use crate::rewriting::rewritten;
use bal_base::{Fault, Stop};
use bal_tree::TypeTree;
use checks::add;
use std::alloc::Global;
use type_model::{Ty, Types};

/// The type that a descriptor means (Ballerina specification, section 6), as it stands in a module and, where `file` is there, in
/// one of its files, by number: a prefix is that of the file, and without a file that of the module's first file that has it. Its
/// parts come before a descriptor, from left to right, and the first fault is the answer.
///
/// - `Duplicate` at a field's name: a field before it has the name.
/// - `Unknown` at a name: it stands for no type or constant.
/// - `NotPublic` at a name: it is another module's and isn't public.
/// - `AtomLimit` at the first token of the descriptor that needs an atom: there would be too many.
pub fn describe<T: Types>(
    alloc: Global,
    types: &mut T,
    names: &Names,
    module: u32,
    file: Option<u32>,
    tree: &TypeTree,
) -> Result<Ty, Stop<Fault>>
    requires names { AreNames (T.atoms types.old) names.now }
    ensures comes { Comes (described_whole names.now (scope_of «module» file) (descriptor_of tree.now)) (T.atoms types.old) result (T.atoms types.new) }
    ensures defined { IfOk result (TyBelow (length (T.atoms types.new))) }
    ensures kept { KeepsTypes (T.atoms types.old) (T.atoms types.new) }
    ensures names { AreNames (T.atoms types.new) names.now }
{
    let t = as_written(alloc, types, names, scope_in(module, file), tree)?;
    rewritten(alloc, types, t)
}

fn scope_in(module: u32, file: Option<u32>) -> Scope
    ensures { result ≡ scope_of «module» file }
{
    Scope {
        module: module as usize,
        file: match file {
            Some(file) => Some(file as usize),
            None => None,
        },
    }
}

/// The type of the descriptor as it is put together of its parts. What was drafted before a fault is added, too.
fn as_written<T: Types>(
    alloc: Global,
    types: &mut T,
    names: &Names,
    scope: Scope,
    tree: &TypeTree,
) -> Result<Ty, Stop<Fault>>
    requires { AreNames (T.atoms types.old) names.now }
    ensures { Yields TyBelow (described names.now scope (descriptor_of tree.now)) (T.atoms types.old) result (T.atoms types.new) }
{
    let mut draft = Draft {
        first: types.env().defs().len() as u32,
        atoms: Vec::new(alloc),
    };
    let made = type_tree(alloc, &mut draft, names, scope, tree);
    add(alloc, types, draft.atoms, None)?;
    made
}
