//! Statements.
#![tactic(auto, using(crate::proofs::StmtLayers::stmt_layers))]

ghost use Rattle.std.specs.Prelude.{◌≡◌};
ghost use Rattle.bal_tree.specs.declared.stmt.Block.{out-Block};
ghost use Rattle.bal_tree.specs.declared.stmt.Clause.{out-Clause};
ghost use Rattle.bal_tree.specs.declared.stmt.IfStmt.{out-IfStmt};
ghost use Rattle.bal_tree.specs.Places.{BeginsAt};
ghost use Rattle.bal_tree.specs.StmtPieces.{stmt_pieces, local_type_pieces, target_pieces, pattern_pieces};

use crate::action::Rhs;
use crate::expr::{Expr, Postfix};
use crate::name::{ConstValue, QualifiedName, Word};
use crate::types::TypeTree;
use bal_base::Place;

/// A statement.
#[cycle(stmt)]
#[derive(Drop)]
pub enum Stmt {
    /// `T a = e;` or `var a = e;`, where `final` may stand before it.
    Local {
        is_final: bool,
        ty: LocalType,
        name: Word,
        value: Rhs,
        at: Place,
    },
    /// `a = e;`, or an operator with it, as `a += e;`.
    Assign {
        target: Target,
        op: AssignOp,
        value: Rhs,
        at: Place,
    },
    /// `_ = e;`
    Ignore {
        value: Rhs,
        at: Place,
    },
    /// An expression or an action of its own, as `f();`.
    Rhs {
        rhs: Rhs,
        at: Place,
    },
    /// `if c { .. }`
    If(IfStmt),
    /// `while c { .. }`
    While {
        condition: Box<Expr>,
        body: Block,
        at: Place,
    },
    /// `foreach T a in e { .. }`, or over a range, `foreach int a in e ..< f { .. }`.
    Foreach {
        ty: LocalType,
        name: Word,
        from: Box<Expr>,
        range: Option<Range>,
        body: Block,
        at: Place,
    },
    /// `match e { 1 => { .. } }`
    Match {
        value: Box<Expr>,
        clauses: Vec<Clause>,
        at: Place,
    },
    /// `return;` or `return e;`
    Return {
        value: Option<Rhs>,
        at: Place,
    },
    /// `panic e;`
    Panic {
        value: Box<Expr>,
        at: Place,
    },
    /// `break;`
    Break {
        at: Place,
    },
    /// `continue;`
    Continue {
        at: Place,
    },
    /// `{ .. }`
    Block(Block),
}

impl Stmt {
    /// The place of the statement's first token.
    pub fn place(&self) -> Place
        ensures { BeginsAt (stmt_pieces self.now) result }
    {
        match self {
            Stmt::If(s) => s.at,
            Stmt::Block(b) => b.at,
            Stmt::Local { at, .. } | Stmt::Assign { at, .. } => *at,
            Stmt::Ignore { at, .. } | Stmt::Rhs { at, .. } => *at,
            Stmt::While { at, .. } | Stmt::Foreach { at, .. } | Stmt::Match { at, .. } => *at,
            Stmt::Return { at, .. } | Stmt::Panic { at, .. } => *at,
            Stmt::Break { at, .. } | Stmt::Continue { at, .. } => *at,
        }
    }
}

/// Statements between braces.
#[cycle(stmt)]
#[derive(Drop)]
pub struct Block {
    pub stmts: Vec<Stmt>,
    /// The place of the closing brace.
    pub close: Place,
    pub at: Place,
}

impl Block {
    /// The statements between a brace at one place and the closing one at another.
    pub fn new(stmts: Vec<Stmt>, close: Place, at: Place) -> Block
        ensures stmts { (out-Block result).stmts ≡ stmts }
        ensures close { (out-Block result).close ≡ close }
        ensures at { (out-Block result).at ≡ at }
    {
        Block { stmts, close, at }
    }
}

/// `if c { .. } else { .. }`, where the `else` may be absent.
#[cycle(stmt)]
#[derive(Drop)]
pub struct IfStmt {
    pub condition: Box<Expr>,
    pub then: Block,
    pub otherwise: Option<Box<Else>>,
    pub at: Place,
}

impl IfStmt {
    /// The statement with these parts.
    pub fn new(condition: Box<Expr>, then: Block, otherwise: Option<Box<Else>>, at: Place) -> IfStmt
        ensures condition { (out-IfStmt result).condition ≡ condition }
        ensures then { (out-IfStmt result).then ≡ then }
        ensures otherwise { (out-IfStmt result).otherwise ≡ otherwise }
        ensures at { (out-IfStmt result).at ≡ at }
    {
        IfStmt {
            condition,
            then,
            otherwise,
            at,
        }
    }
}

/// What stands behind `else`.
#[cycle(stmt)]
#[derive(Drop)]
pub enum Else {
    /// `else if c { .. }`
    If(IfStmt),
    /// `else { .. }`
    Block(Block),
}

/// A clause of a match statement, as `1|2 => { .. }`.
#[cycle(stmt)]
#[derive(Drop)]
pub struct Clause {
    pub patterns: Vec<Pattern>,
    pub body: Block,
    pub at: Place,
}

impl Clause {
    /// The clause with these patterns and this block.
    pub fn new(patterns: Vec<Pattern>, body: Block, at: Place) -> Clause
        ensures patterns { (out-Clause result).patterns ≡ patterns }
        ensures body { (out-Clause result).body ≡ body }
        ensures at { (out-Clause result).at ≡ at }
    {
        Clause { patterns, body, at }
    }
}

/// The type of a local variable.
#[derive(Drop)]
pub enum LocalType {
    /// A type descriptor.
    Type(Box<TypeTree>),
    /// `var`
    Var { at: Place },
}

impl LocalType {
    /// The place of the type's first token.
    pub fn place(&self) -> Place
        ensures { BeginsAt (local_type_pieces self.now) result }
    {
        match self {
            LocalType::Type(t) => t.place(),
            LocalType::Var { at, .. } => *at,
        }
    }
}

/// What a statement assigns to.
#[derive(Drop)]
pub enum Target {
    /// A variable.
    Name(QualifiedName),
    /// `e[i]`
    Index {
        base: Box<Postfix>,
        index: Box<Expr>,
        at: Place,
    },
    /// `e.a`
    Field {
        base: Box<Postfix>,
        field: Word,
        at: Place,
    },
}

impl Target {
    /// The place of the target's first token.
    pub fn place(&self) -> Place
        ensures { BeginsAt (target_pieces self.now) result }
    {
        match self {
            Target::Name(n) => n.at,
            Target::Index { at, .. } | Target::Field { at, .. } => *at,
        }
    }
}

/// The sign of an assignment.
#[derive(Clone, Copy)]
pub enum AssignOp {
    /// `=`
    Set,
    /// `+=`
    Add,
    /// `-=`
    Subtract,
    /// `*=`
    Multiply,
    /// `/=`
    Divide,
}

/// Where a range ends, as `..< n`.
#[derive(Drop)]
pub struct Range {
    pub op: RangeOp,
    pub end: Box<Expr>,
}

/// The sign of a range.
#[derive(Clone, Copy)]
pub enum RangeOp {
    /// `...`
    Through,
    /// `..<`
    Below,
}

/// A pattern of a match clause.
#[derive(Drop)]
pub enum Pattern {
    /// `_`
    Any { at: Place },
    /// A constant value, as `-1`.
    Value(ConstValue),
    /// The name of a constant.
    Name(QualifiedName),
}

impl Pattern {
    /// The place of the pattern's first token.
    pub fn place(&self) -> Place
        ensures { BeginsAt (pattern_pieces self.now) result }
    {
        match self {
            Pattern::Any { at } => *at,
            Pattern::Value(v) => v.place(),
            Pattern::Name(n) => n.at,
        }
    }
}
