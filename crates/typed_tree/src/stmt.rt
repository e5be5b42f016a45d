//! Typed statements.
#![tactic(auto, using(crate::proofs::StmtLayers::stmt_layers))]

ghost use Rattle.std.specs.Prelude.{◌≡◌};
ghost use Rattle.typed_tree.specs.declared.stmt.TypedClause.{out-TypedClause};

use crate::expr::TypedExpr;
use crate::form::{Operator, Read};
use crate::unit::SharedTy;
use bal_base::Place;
use operations::Constant;

/// A statement, with the place of its first token.
#[cycle(stmt)]
#[derive(Drop)]
pub enum TypedStmt {
    /// `T a = e;`, `var a = e;` or `a = e;`: the value goes into a slot ("Local variable declaration statement",
    /// "Assignment statement").
    Set {
        slot: u32,
        value: Box<TypedExpr>,
        at: Place,
    },
    /// The operands from left to right, and then what the form says.
    Perform {
        form: PerformForm,
        operands: Vec<TypedExpr>,
        at: Place,
    },
    /// `a += e;` and the like ("Compound assignment statement")
    Update {
        target: UpdateTarget,
        op: Operator,
        value: Box<TypedExpr>,
        at: Place,
    },
    /// `if c { .. } else { .. }`. Behind `else if` the second statements are one ("If-else statement").
    If {
        condition: Box<TypedExpr>,
        first: Vec<TypedStmt>,
        second: Vec<TypedStmt>,
        at: Place,
    },
    /// `while c { .. }` ("While statement")
    While {
        condition: Box<TypedExpr>,
        body: Vec<TypedStmt>,
        at: Place,
    },
    /// `foreach T a in e { .. }`, where a has this slot ("Foreach statement").
    Foreach {
        slot: u32,
        source: Source,
        body: Vec<TypedStmt>,
        at: Place,
    },
    /// `match e { 1 => { .. } }`, which keeps the value of e in a slot of its own ("Match statement").
    Match {
        own: u32,
        subject: Box<TypedExpr>,
        clauses: Vec<TypedClause>,
        at: Place,
    },
    /// `return;` or `return e;` ("Return statement")
    Return {
        value: Option<Box<TypedExpr>>,
        at: Place,
    },
    /// `{ .. }` ("Block statement")
    Block {
        stmts: Vec<TypedStmt>,
        at: Place,
    },
    /// `break;` ("Break statement")
    Break {
        at: Place,
    },
    /// `continue;` ("Continue statement")
    Continue {
        at: Place,
    },
}

/// What a statement does with its operands.
#[derive(Clone, Copy)]
pub enum PerformForm {
    /// `m = e;` of a module variable, by its number.
    SetVariable(u32),
    /// `a[i] = e;` of a list: the list, the index and the value.
    SetItem,
    /// `a[k] = e;` or `a.f = e;` of a mapping: the mapping, the key and the value.
    SetKey,
    /// `_ = e;`
    Ignore,
    /// An expression or an action of its own, as `f();` ("Call statement").
    Evaluate,
    /// `panic e;` ("Panic statement")
    Panic,
}

/// What a statement with an operator assigns to.
#[derive(Drop)]
pub enum UpdateTarget {
    /// A local variable; `narrowed` where its type here is a narrower one than that of the slot.
    Local {
        slot: u32,
        narrowed: bool,
        ty: SharedTy,
    },
    /// A module variable, by its number.
    Variable(u32),
    /// A member, which is read so. The container and the key are kept in two slots, from `own` on.
    Member {
        own: u32,
        read: Read,
        container: Box<TypedExpr>,
        key: Box<TypedExpr>,
        ty: SharedTy,
    },
}

/// What a loop goes through.
#[derive(Drop)]
pub enum Source {
    /// The ints from one to another. The next one, the last one and whether one is left are kept in three slots, from
    /// `own` on.
    Range {
        own: u32,
        end: RangeEnd,
        from: Box<TypedExpr>,
        to: Box<TypedExpr>,
    },
    /// The items of a list. The list and the index are kept in two slots, from `own` on.
    List {
        own: u32,
        list: Box<TypedExpr>,
    },
}

/// Whether a range has its end.
#[derive(Clone, Copy)]
pub enum RangeEnd {
    /// `...`
    Included,
    /// `..<`
    Excluded,
}

/// A clause of a match statement, as `1|2 => { .. }`.
#[cycle(stmt)]
#[derive(Drop)]
pub struct TypedClause {
    pub patterns: Vec<TypedPattern>,
    pub stmts: Vec<TypedStmt>,
    pub at: Place,
}

impl TypedClause {
    /// The clause with these patterns and these statements.
    pub fn new(patterns: Vec<TypedPattern>, stmts: Vec<TypedStmt>, at: Place) -> TypedClause
        ensures patterns { (out-TypedClause result).patterns ≡ patterns }
        ensures stmts { (out-TypedClause result).stmts ≡ stmts }
        ensures at { (out-TypedClause result).at ≡ at }
    {
        TypedClause {
            patterns,
            stmts,
            at,
        }
    }
}

/// A pattern: a constant, or `_`, which has none.
#[derive(Drop)]
pub struct TypedPattern {
    pub value: Option<Constant>,
    pub at: Place,
}
