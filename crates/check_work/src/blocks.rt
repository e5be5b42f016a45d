//! Blocks that are open.
ghost use Rattle.std.specs.Prelude.{◌≡◌, IfOk, OnOk, map};
ghost use Rattle.check_words.specs.State.{BlockAtWork, IsLast};
ghost use Rattle.check_work.specs.Blocks.{IsAdded};
ghost use Rattle.check_work.specs.Views.{block_of};

use crate::parts::{last, last_taken};
use crate::work::Block;
use bal_base::Memory;
use typed_tree::TypedStmt;

/// A statement more of the block at hand. Where none is open it is as if memory were wanted.
pub fn add_stmt(blocks: &mut Vec<Block>, stmt: TypedStmt) -> Result<(), Memory>
    ensures { OnOk result (IsAdded stmt (map block_of blocks.old.items) (map block_of blocks.new.items)) }
{
    let mut block = last_taken(blocks)?;
    block.stmts.push(stmt)?;
    blocks.push(block)?;
    Ok(())
}

/// How many variables are seen where the block at hand begins. Where none is open it is as if memory were wanted.
pub fn scope_at(blocks: &[Block]) -> Result<usize, Memory>
    ensures { IfOk result (λ scope. (b : BlockAtWork) × IsLast (map block_of blocks.now) b × (b.scope ≡ scope)) }
{
    match last(blocks) {
        Some(block) => Ok(block.scope),
        None => Err(Memory),
    }
}
