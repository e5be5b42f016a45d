//! Functions, initialisers and packages that read variables as declared.
#![tactic(auto)]

ghost use Rattle.std.specs.Prelude.{OnOk};
ghost use Rattle.std.specs.List.{AllZip};
ghost use Rattle.typed_tree.specs.SharedTypes.{sem_of};
ghost use Rattle.declared_reads.specs.Declared.{IsAnything, IsDeclared, IsDeclaredBody, IsDeclaredFunction, IsDeclaredInitial, IsDeclaredInitialiser, IsDeclaredWorker};

use crate::ends::{anything, statements};
use crate::stmts::{boxed, stmts};
use bal_base::Memory;
use std::alloc::Global;
use typed_tree::{
    Initial, Initialiser, SharedTy, TypedBody, TypedFunction, TypedPackage, TypedWorker,
};

/// The package reads its variables as declared from then on: no read is narrowed, and what `?:` and `check` keep may be anything. A
/// statement that can't be done stands behind the others of each body that is said not to end, so that the package may have one
/// statement and one expression more for each body. It takes memory for these, for the type of anything, and for what
/// anonymous functions capture. Where it answers want of memory the package may be changed in part. The time grows with the nodes of
/// the package.
pub fn read_as_declared(alloc: Global, package: &mut TypedPackage) -> Result<(), Memory>
    ensures { OnOk result (IsDeclared «package».old «package».new) }
{
    let any = anything(alloc)?;
    all(alloc, &any, package)
}

fn all(alloc: Global, any: &SharedTy, package: &mut TypedPackage) -> Result<(), Memory>
    requires { IsAnything (sem_of any.now) }
    ensures { OnOk result (IsDeclared «package».old «package».new) }
{
    functions(alloc, any, package.functions.as_mut_slice())?;
    initialisers(alloc, any, package.initialisers.as_mut_slice())
}

fn functions(alloc: Global, any: &SharedTy, fs: &mut [TypedFunction]) -> Result<(), Memory>
    requires { IsAnything (sem_of any.now) }
    ensures { OnOk result (AllZip IsDeclaredFunction fs.old fs.new) }
{
    for f in fs.iter_mut() {
        function(alloc, any, f)?;
    }
    Ok(())
}

fn function(alloc: Global, any: &SharedTy, f: &mut TypedFunction) -> Result<(), Memory>
    requires { IsAnything (sem_of any.now) }
    ensures { OnOk result (IsDeclaredFunction f.old f.new) }
{
    body(alloc, any, &mut f.body)
}

fn body(alloc: Global, any: &SharedTy, b: &mut TypedBody) -> Result<(), Memory>
    requires { IsAnything (sem_of any.now) }
    ensures { OnOk result (IsDeclaredBody b.old b.new) }
{
    match b {
        TypedBody::Block {
            initial: first,
            workers: named,
            rest,
            ends,
            close,
        } => {
            stmts(alloc, any, first)?;
            workers(alloc, any, named.as_mut_slice())?;
            statements(alloc, any, *ends, *close, rest)
        }
        TypedBody::Expr { value } => boxed(alloc, any, value),
    }
}

fn workers(alloc: Global, any: &SharedTy, ws: &mut [TypedWorker]) -> Result<(), Memory>
    requires { IsAnything (sem_of any.now) }
    ensures { OnOk result (AllZip IsDeclaredWorker ws.old ws.new) }
{
    for w in ws.iter_mut() {
        worker(alloc, any, w)?;
    }
    Ok(())
}

fn worker(alloc: Global, any: &SharedTy, w: &mut TypedWorker) -> Result<(), Memory>
    requires { IsAnything (sem_of any.now) }
    ensures { OnOk result (IsDeclaredWorker w.old w.new) }
{
    statements(alloc, any, w.ends, w.close, &mut w.stmts)
}

fn initialisers(alloc: Global, any: &SharedTy, xs: &mut [Initialiser]) -> Result<(), Memory>
    requires { IsAnything (sem_of any.now) }
    ensures { OnOk result (AllZip IsDeclaredInitialiser xs.old xs.new) }
{
    for i in xs.iter_mut() {
        initialiser(alloc, any, i)?;
    }
    Ok(())
}

fn initialiser(alloc: Global, any: &SharedTy, i: &mut Initialiser) -> Result<(), Memory>
    requires { IsAnything (sem_of any.now) }
    ensures { OnOk result (IsDeclaredInitialiser i.old i.new) }
{
    initials(alloc, any, i.values.as_mut_slice())
}

fn initials(alloc: Global, any: &SharedTy, xs: &mut [Initial]) -> Result<(), Memory>
    requires { IsAnything (sem_of any.now) }
    ensures { OnOk result (AllZip IsDeclaredInitial xs.old xs.new) }
{
    for i in xs.iter_mut() {
        initial(alloc, any, i)?;
    }
    Ok(())
}

fn initial(alloc: Global, any: &SharedTy, i: &mut Initial) -> Result<(), Memory>
    requires { IsAnything (sem_of any.now) }
    ensures { OnOk result (IsDeclaredInitial i.old i.new) }
{
    boxed(alloc, any, &mut i.value)
}
