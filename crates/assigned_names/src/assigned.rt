//! Names among those that are assigned.
#![tactic(auto, using(crate::proofs::Among::among))]

ghost use Rattle.std.specs.Prelude.{◌≡◌, ◌++◌, ◌||◌, IfOk};
ghost use Rattle.typed_tree.specs.Listed.{members};
ghost use Rattle.tree_places.specs.Assigned.{assigned_in_block, assigned_in_stmts};
ghost use Rattle.stmt_needs.specs.PackageTable.{assigned_behind, assigned_in_workers};
ghost use Rattle.stmt_needs.specs.StmtTable.{is_among as is_among_of};

use bal_base::{Memory, Name};
use bal_tree::{Block, Stmt, Word, Worker};
use std::alloc::Global;
use tree_places::names_assigned;

/// Whether one of the words is this name.
fn is_among(name: &Name, words: &[Word]) -> bool
    ensures { result ≡ is_among_of name.now words.now }
{
    words.iter().any(|w| *name == w.name)
}

fn in_stmts(alloc: Global, name: &Name, ss: &[Stmt]) -> Result<bool, Memory>
    ensures { IfOk result (λ b. b ≡ is_among_of name.now (members (assigned_in_stmts ss.now))) }
{
    let names = names_assigned(alloc, ss)?;
    Ok(is_among(name, names.as_slice()))
}

/// Whether the variable with the name is assigned in the block. It costs by the statements in it.
pub fn is_assigned_in_block(alloc: Global, name: &Name, block: &Block) -> Result<bool, Memory>
    ensures { IfOk result (λ b. b ≡ is_among_of name.now (members (assigned_in_block block.now))) }
{
    in_stmts(alloc, name, &block.stmts)
}

/// Whether one of two things is so.
fn one_of(a: bool, b: bool) -> bool
    ensures { result ≡ (a || b) }
{
    a || b
}

fn in_workers(alloc: Global, name: &Name, workers: &[Worker]) -> Result<bool, Memory>
    ensures { IfOk result (λ b. b ≡ is_among_of name.now (assigned_in_workers workers.now)) }
{
    let mut found = false;
    for w in workers {
        let here = is_assigned_in_block(alloc, name, &w.body)?;
        found = one_of(found, here);
    }
    Ok(found)
}

/// Whether the variable with the name is assigned in the first statements, in the bodies of the workers, or in the rest of the statements. It
/// costs by all of these.
pub fn is_assigned(
    alloc: Global,
    name: &Name,
    first: &[Stmt],
    workers: &[Worker],
    rest: &[Stmt],
) -> Result<bool, Memory>
    ensures { IfOk result (λ b. b ≡ is_among_of name.now (members (assigned_in_stmts first.now) ++ assigned_behind workers.now rest.now)) }
{
    let before = in_stmts(alloc, name, first)?;
    let between = in_workers(alloc, name, workers)?;
    let behind = in_stmts(alloc, name, rest)?;
    Ok(before || (between || behind))
}
