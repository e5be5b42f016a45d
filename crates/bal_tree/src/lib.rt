//! Syntax trees of the whole language: one type for each nonterminal of the grammar, one variant for each of
//! its alternatives, with its parts in order and the place of its first token. A variant that only holds
//! another tree has that tree's place.
//!
//! - [`Word`], [`QualifiedName`], [`Literal`] and [`ConstValue`]: what types, expressions and patterns share.
//! - [`TypeTree`] and its parts: type descriptors.
//! - [`Params`]: parameters of functions.
//! - [`Expr`] and its parts: expressions, and [`Level`], how tightly their operators bind.
//! - [`Rhs`] and [`Action`]: actions, and what may stand at the right of an assignment.
//! - [`Stmt`] and its parts: statements.
//! - [`FileTree`], [`Import`] and [`Def`]: a file, its imports and its definitions.
//! - [`Package`], [`Module`] and [`SourceFile`]: packages; [`file_in`], [`file_numbered`]: the file that a
//!   place names.
//! - [`yield_of`]: the tokens of a file's tree.
//! - [`well_formed`]: whether a file's tree is one that its tokens may be read as.
//!
//! `specs/DefPieces.antt` and the files below it say which tokens a tree has, `specs/DefRules.antt` and those below
//! it which trees are well formed, and `specs/Reads.antt` which tokens read as which tree.
#![tactic(auto)]

mod action;
mod checking;
mod def;
mod expr;
mod expr_ends;
mod level;
mod name;
mod package;
mod params;
mod stmt;
mod type_ends;
mod types;
mod writing;

pub use action::{Action, ActionOp, Peer, Rhs, Sending, WaitMember};
pub use checking::well_formed;
pub use def::{Body, ConstDef, Def, FileTree, FunctionDef, Import, TypeDef, VariableDef, Worker};
pub use expr::{BinaryOp, Call, Detail, Expr, Key, Member, Postfix, PrefixOp, Primary};
pub use level::{Grouping, Level};
pub use name::{ConstValue, Literal, Prefix, QualifiedName, Word};
pub use package::{Files, Module, Modules, Package, SourceFile, file_in, file_numbered};
pub use params::{Param, Params};
pub use stmt::{
    AssignOp, Block, Clause, Else, IfStmt, LocalType, Pattern, Range, RangeOp, Stmt, Target,
};
pub use types::{
    BuiltinType, FieldTree, IntersectionType, ParamType, ParamTypes, PostfixType, PrimaryType,
    TypeTree,
};
pub use writing::yield_of;
