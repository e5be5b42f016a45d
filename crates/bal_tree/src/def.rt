//! Files, imports and definitions.
ghost use Rattle.bal_tree.specs.Places.{BeginsAt};
ghost use Rattle.bal_tree.specs.DefPieces.{def_pieces, body_pieces};

use crate::expr::Expr;
use crate::name::{ConstValue, Word};
use crate::params::Params;
use crate::stmt::{Block, Stmt};
use crate::types::TypeTree;
use bal_base::Place;

/// A source file.
#[derive(Drop)]
pub struct FileTree {
    pub imports: Vec<Import>,
    pub defs: Vec<Def>,
    pub at: Place,
}

/// `import a/b.c as d;`, where `/b`, `.c` and `as d` may be absent.
#[derive(Drop)]
pub struct Import {
    pub first: Word,
    pub second: Option<Word>,
    pub more: Vec<Word>,
    pub prefix: Option<Word>,
    pub at: Place,
}

/// A definition.
#[derive(Drop)]
pub enum Def {
    /// A type.
    Type(TypeDef),
    /// A constant.
    Const(ConstDef),
    /// A variable of the module.
    Variable(VariableDef),
    /// A function.
    Function(FunctionDef),
}

impl Def {
    /// The place of the definition's first token.
    pub fn place(&self) -> Place
        ensures { BeginsAt (def_pieces self.now) result }
    {
        match self {
            Def::Type(d) => d.at,
            Def::Const(d) => d.at,
            Def::Variable(d) => d.at,
            Def::Function(d) => d.at,
        }
    }
}

/// `type A T;`, where `public` may stand before it.
#[derive(Drop)]
pub struct TypeDef {
    pub public: bool,
    pub name: Word,
    pub ty: Box<TypeTree>,
    pub at: Place,
}

/// `const T A = 1;`, where the type may be absent, and `public` may stand before it.
#[derive(Drop)]
pub struct ConstDef {
    pub public: bool,
    pub ty: Option<Box<TypeTree>>,
    pub name: Word,
    pub value: ConstValue,
    pub at: Place,
}

/// `T a = e;`, where `public` and `final` may stand before it.
#[derive(Drop)]
pub struct VariableDef {
    pub public: bool,
    pub is_final: bool,
    pub ty: Box<TypeTree>,
    pub name: Word,
    pub value: Box<Expr>,
    pub at: Place,
}

/// `function f(T a) returns R BODY`, where `returns R` may be absent, and `public` and `isolated` may stand
/// before it.
#[derive(Drop)]
pub struct FunctionDef {
    pub public: bool,
    pub isolated: bool,
    pub name: Word,
    pub params: Params,
    pub result: Option<Box<TypeTree>>,
    pub body: Body,
    pub at: Place,
}

/// The body of a function.
#[derive(Drop)]
pub enum Body {
    /// Statements between braces: the initial ones, the named workers, and the rest of the default worker's.
    Block {
        stmts: Vec<Stmt>,
        workers: Vec<Worker>,
        rest: Vec<Stmt>,
        /// The place of the closing brace.
        close: Place,
        at: Place,
    },
    /// `=> e;`
    Expr {
        value: Box<Expr>,
        at: Place,
    },
}

impl Body {
    /// The place of the body's first token.
    pub fn place(&self) -> Place
        ensures { BeginsAt (body_pieces self.now) result }
    {
        match self {
            Body::Block { at, .. } | Body::Expr { at, .. } => *at,
        }
    }
}

/// `worker A returns T { .. }`, where `returns T` may be absent.
#[derive(Drop)]
pub struct Worker {
    pub name: Word,
    pub result: Option<Box<TypeTree>>,
    pub body: Block,
    pub at: Place,
}
