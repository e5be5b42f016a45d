//! Files read from tokens: imports, definitions, and the statements and actions in them.
//!
//! - [`parse_file`]: the tree of a file.
//!
//! | Module | What it reads |
//! |---|---|
//! | `reader` | what all of them are functions of: the memory to take and the number of the file |
//! | `files` | the imports and the definitions of a file, as many as read |
//! | `imports` | an import |
//! | `defs` | a definition: a type, a constant, a variable, a function with its workers |
//! | `stops` | where a function that cannot be read goes wrong |
//! | `stmts` | statements and blocks: which form begins here, and those that hold blocks |
//! | `plain` | statements without blocks that begin with a word of the language or `_`, and what stands before a block |
//! | `led` | statements that begin with a type or an expression |
//! | `patterns` | patterns of match clauses |
//! | `actions` | actions, and what may stand at the right of an assignment |
//! | `names` | words, names and constant values |
//! | `ahead` | the signs that tell statements apart which begin alike |
//!
//! `specs/Starts.antt` says what is promised.
#![tactic(auto)]

ghost use Rattle.std.specs.Prelude.{◌≡◌, ◌⊎◌, None, IfErr, IfOk};
ghost use Rattle.bal_base.specs.declared.fault.Fault.{Fault as FaultOf};
ghost use Rattle.bal_tree.specs.declared.def.FileTree.{FileTree as FileTreeOf};
ghost use Rattle.bal_tree.specs.Reads.{Reads};
ghost use Rattle.bal_tree.specs.Spells.{kinds_of};
ghost use Rattle.parse_types.specs.Nesting as nesting_spec;
ghost use Rattle.parse_stmt.specs.Chosen.{IsChosen, IsSameFile};
ghost use Rattle.bal_base.specs.Stops.{IfFault};
ghost use Rattle.parse_stmt.specs.Starts.{IsBroken, IsFileTooDeep, IsNotRefused, IsRefused};

mod actions;
mod ahead;
mod defs;
mod files;
mod imports;
mod led;
mod names;
mod patterns;
mod plain;
mod reader;
mod stmts;
mod stops;

use crate::reader::StmtReader;
use bal_base::{Fault, FaultCode, Stop, Token};
use bal_tree::FileTree;
use parse_types::{first_too_deep, place, refused, rest_from};
use std::alloc::Global;

/// The tree of a file whose tokens these are. `file` is the file's number in the places.
///
/// `Depth` is answered at the first token that is nested too deeply; else `Syntax` where the file goes wrong. That is at the first
/// token that begins no definition, behind whole imports and definitions, and where no definition stands before it, no import
/// either. Where a function's signature and brace stand there, it is the last place in its body at which a statement is wanting, if
/// there is one: whole statements stand before it, none begins there, and neither the file nor the body ends there nor does a
/// worker begin; the fault keeps the count 1 then.
pub fn parse_file(alloc: Global, file: u32, tokens: &[Token]) -> Result<FileTree, Stop<Fault>>
    ensures reads { IfOk result (λ t. Reads file tokens.now t) }
    ensures chosen { IfOk result (λ t. IsChosen t) }
    ensures not_deep { IfOk result (λ t. nesting_spec.first_too_deep (kinds_of tokens.now) ≡ None) }
    ensures refused { IfFault result (λ f. IsFileTooDeep file tokens.now f ⊎ IsBroken file tokens.now f) }

    // A file that is that of a tree is not refused.
    ensures complete { (t : FileTreeOf) → Reads file tokens.now t → nesting_spec.first_too_deep (kinds_of tokens.now) ≡ None → IsNotRefused result }

    // Each chosen tree of these tokens is written out as the one that is given.
    ensures one { IfOk result (λ t. (u : FileTreeOf) → Reads file tokens.now u → IsChosen u → IsSameFile t u) }

    // A file that goes wrong somewhere is refused, and there alone.
    ensures exact { (f : FaultOf) → IsBroken file tokens.now f → IsRefused result f }
{
    if let Some(deep) = first_too_deep(alloc, tokens)? {
        let at = place(file, rest_from(tokens, deep));
        return Err(refused(FaultCode::Depth, at));
    }
    let reader = StmtReader { alloc, file };
    let (tree, rest) = reader.file_front(tokens)?;
    reader.whole(tree, rest)
}
