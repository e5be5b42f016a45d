//! Parentheses round operands: each operand of an operator or a suffix that is no single word and has no brackets gets a pair.
//!
//! - `types`, `exprs`, `actions`, `stmts` and `defs`: each part of a tree, and what stands in it.
//! - `type_parens` and `expr_parens`: one operand.

use bal_base::Memory;
use bal_tree::FileTree;
use std::alloc::Global;

mod actions;
mod defs;
mod expr_parens;
mod exprs;
mod stmts;
mod type_parens;
mod types;

/// What goes through a tree. It keeps whether memory ran out.
#[derive(Drop)]
pub struct Walk {
    alloc: Global,
    lacks_memory: bool,
}

impl Walk {
    pub fn new(alloc: Global) -> Walk {
        Walk {
            alloc,
            lacks_memory: false,
        }
    }

    /// Puts the parentheses into the tree.
    pub fn close(mut self, tree: &mut FileTree) -> Result<(), Memory> {
        self.in_file(tree);
        if self.lacks_memory {
            return Err(Memory);
        }
        Ok(())
    }
}
