//! The tokens of a tree from left to right, topic by topic. Each function writes those of its part to an output, which can't
//! fail: the tree is written twice, once to count its tokens, and once to room for so many.
ghost use Rattle.std.specs.Prelude.{◌≡◌, IfOk};
ghost use Rattle.bal_tree.specs.DefPieces.{yield};

mod actions;
mod defs;
mod exprs;
mod names;
mod output;
mod signs;
mod stmts;
mod types;

use crate::def::FileTree;
use bal_base::{Memory, TokenKind};
use output::Output;
use std::alloc::Global;

/// The tokens of the file from left to right, or want of memory. Takes time linear in their number, memory for just so
/// many, and a stack as deep as the tree.
pub fn yield_of(alloc: Global, tree: &FileTree) -> Result<Vec<TokenKind>, Memory>
    ensures { IfOk result (λ v. v.items ≡ yield tree.now) }
{
    let mut counted = Output::with_room(alloc, 0)?;
    defs::file(&mut counted, tree);
    let mut out = Output::with_room(alloc, counted.count())?;
    defs::file(&mut out, tree);
    Ok(out.into_tokens())
}
