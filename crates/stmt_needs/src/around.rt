//! Where statements stand.
ghost use Rattle.std.specs.Prelude.{◌≡◌, ◌<◌, ◌+◌, drop, length};
ghost use Rattle.stmt_needs.specs.PackageTable.{within};
ghost use Rattle.stmt_needs.specs.StmtTable.{in_block as alone_in_block};

use bal_tree::{Stmt, Worker};

/// What stands around a statement.
#[derive(Clone, Copy)]
pub struct Around<'a> {
    /// Whether it stands in a loop.
    pub in_loop: bool,
    /// The statements that follow it in its block.
    pub following: &'a [Stmt],
    /// Where that is the initial part of a function, its workers, and the rest of the default worker's statements.
    pub workers: &'a [Worker],
    pub rest: &'a [Stmt],
}

/// What stands around a block whose variables nothing behind it sees.
pub(crate) fn around_block(in_loop: bool) -> Around<'static>
    ensures { within result ≡ alone_in_block in_loop }
{
    Around {
        in_loop,
        following: &[],
        workers: &[],
        rest: &[],
    }
}

/// The statements that follow the one at this index.
pub(crate) fn behind(ss: &[Stmt], index: usize) -> &[Stmt]
    requires { index < length ss.now }
    ensures { result.now ≡ drop (index + 1) ss.now }
{
    &ss[index + 1..]
}
