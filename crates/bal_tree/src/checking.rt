//! Which trees are well formed, topic by topic. Each function tells whether its part is, and takes no memory.
ghost use Rattle.std.specs.Prelude.{◌≡◌};
ghost use Rattle.bal_tree.specs.DefRules.{file_is_formed};

mod actions;
mod defs;
mod exprs;
mod stmts;
mod types;

use crate::def::FileTree;

/// Whether the file is well formed: each operand has the precedence and the grouping that its operator asks
/// for, each part reaches as far as it can, and what stands alone may be a statement. Takes no memory, time
/// linear in the tree's size but for conditional expressions in the middle of others, and a stack as deep as
/// the tree.
pub fn well_formed(tree: &FileTree) -> bool
    ensures { result ≡ file_is_formed tree.now }
{
    defs::file(tree)
}
