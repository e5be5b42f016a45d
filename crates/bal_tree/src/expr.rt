//! Expressions: operators over suffixed primary expressions.
#![tactic(auto, using(crate::proofs::ExprLayers::expr_layers))]

ghost use Rattle.std.specs.Prelude.{◌≡◌};
ghost use Rattle.bal_tree.specs.declared.expr.Detail.{out-Detail};
ghost use Rattle.bal_tree.specs.declared.expr.Member.{out-Member};
ghost use Rattle.bal_tree.specs.Places.{BeginsAt};
ghost use Rattle.bal_tree.specs.ExprPieces.{expr_pieces, postfix_pieces, call_pieces, primary_pieces, key_pieces};

use crate::name::{Literal, QualifiedName, Word};
use crate::params::Params;
use crate::types::TypeTree;
use bal_base::{Place, Text};

/// An expression.
#[cycle(expr)]
#[derive(Drop)]
pub enum Expr {
    /// Without an operator outside brackets, but for suffixes.
    Postfix(Postfix),
    /// An operator before its operand, as `-e`.
    Prefix {
        op: PrefixOp,
        operand: Box<Expr>,
        at: Place,
    },
    /// `<T>e`
    Cast {
        ty: Box<TypeTree>,
        operand: Box<Expr>,
        at: Place,
    },
    /// Two operands and the operator between them, as `a + b`.
    Binary {
        left: Box<Expr>,
        op: BinaryOp,
        right: Box<Expr>,
        at: Place,
    },
    /// `e is T`
    TypeTest {
        operand: Box<Expr>,
        ty: Box<TypeTree>,
        at: Place,
    },
    /// `c ? a : b`
    Conditional {
        condition: Box<Expr>,
        middle: Box<Expr>,
        last: Box<Expr>,
        at: Place,
    },
    /// `trap e`
    Trap {
        operand: Box<Expr>,
        at: Place,
    },
    /// `function (T a) returns R => e`, where `isolated` may stand before it.
    Function {
        isolated: bool,
        params: Params,
        result: Box<TypeTree>,
        value: Box<Expr>,
        at: Place,
    },
}

impl Expr {
    /// The place of the expression's first token.
    pub fn place(&self) -> Place
        ensures { BeginsAt (expr_pieces self.now) result }
    {
        match self {
            Expr::Postfix(e) => e.place(),
            Expr::Prefix { at, .. } | Expr::Cast { at, .. } | Expr::Binary { at, .. } => *at,
            Expr::TypeTest { at, .. } | Expr::Conditional { at, .. } => *at,
            Expr::Trap { at, .. } | Expr::Function { at, .. } => *at,
        }
    }
}

/// An operator before its operand.
#[derive(Clone, Copy)]
pub enum PrefixOp {
    /// `-`
    Negate,
    /// `!`
    Not,
    /// `check`
    Check,
    /// `checkpanic`
    CheckPanic,
}

/// An operator between two operands.
#[derive(Clone, Copy)]
pub enum BinaryOp {
    /// `*`
    Multiply,
    /// `/`
    Divide,
    /// `%`
    Remainder,
    /// `+`
    Add,
    /// `-`
    Subtract,
    /// `<`
    Less,
    /// `<=`
    LessEqual,
    /// `>`
    Greater,
    /// `>=`
    GreaterEqual,
    /// `==`
    Equal,
    /// `!=`
    NotEqual,
    /// `===`
    Same,
    /// `!==`
    NotSame,
    /// `&&`
    And,
    /// `||`
    Or,
    /// `?:`
    Elvis,
}

/// A primary expression with its suffixes.
#[cycle(expr)]
#[derive(Drop)]
pub enum Postfix {
    /// Without a suffix.
    Primary(Primary),
    /// A call, which ends in arguments.
    Call(Call),
    /// `e.a`
    Field {
        base: Box<Postfix>,
        field: Word,
        at: Place,
    },
    /// `e?.a`
    OptionalField {
        base: Box<Postfix>,
        field: Word,
        at: Place,
    },
    /// `e[i]`
    Index {
        base: Box<Postfix>,
        index: Box<Expr>,
        at: Place,
    },
}

impl Postfix {
    /// The place of the expression's first token.
    pub fn place(&self) -> Place
        ensures { BeginsAt (postfix_pieces self.now) result }
    {
        match self {
            Postfix::Primary(e) => e.place(),
            Postfix::Call(e) => e.place(),
            Postfix::Field { at, .. } | Postfix::OptionalField { at, .. } => *at,
            Postfix::Index { at, .. } => *at,
        }
    }
}

/// A suffixed expression that ends in arguments.
#[cycle(expr)]
#[derive(Drop)]
pub enum Call {
    /// `f(a, b)`
    Function {
        callee: Box<Postfix>,
        args: Vec<Expr>,
        at: Place,
    },
    /// `e.f(a, b)`
    Method {
        receiver: Box<Postfix>,
        method: Word,
        args: Vec<Expr>,
        at: Place,
    },
}

impl Call {
    /// The place of the expression's first token.
    pub fn place(&self) -> Place
        ensures { BeginsAt (call_pieces self.now) result }
    {
        match self {
            Call::Function { at, .. } | Call::Method { at, .. } => *at,
        }
    }
}

/// An expression that is one word, or that begins or stands between brackets.
#[cycle(expr)]
#[derive(Drop)]
pub enum Primary {
    /// A literal, as `1`.
    Literal(Literal),
    /// A name, as `io:println`.
    Name(QualifiedName),
    /// `(e)`
    Parens {
        inner: Box<Expr>,
        at: Place,
    },
    /// `[a, b]`
    List {
        items: Vec<Expr>,
        at: Place,
    },
    /// `{a: x, "b": y, [c]: z}`
    Mapping {
        members: Vec<Member>,
        at: Place,
    },
    /// `error(message, cause, a = x)`, where the cause and the details may be absent.
    Error {
        message: Box<Expr>,
        cause: Option<Box<Expr>>,
        details: Vec<Detail>,
        at: Place,
    },
}

impl Primary {
    /// The place of the expression's first token.
    pub fn place(&self) -> Place
        ensures { BeginsAt (primary_pieces self.now) result }
    {
        match self {
            Primary::Literal(l) => l.place(),
            Primary::Name(n) => n.at,
            Primary::Parens { at, .. } | Primary::List { at, .. } => *at,
            Primary::Mapping { at, .. } | Primary::Error { at, .. } => *at,
        }
    }
}

/// A member of a mapping constructor, as `a: x`.
#[cycle(expr)]
#[derive(Drop)]
pub struct Member {
    pub key: Key,
    pub value: Box<Expr>,
    pub at: Place,
}

impl Member {
    /// The member with this key and this value.
    pub fn new(key: Key, value: Box<Expr>, at: Place) -> Member
        ensures key { (out-Member result).key ≡ key }
        ensures value { (out-Member result).value ≡ value }
        ensures at { (out-Member result).at ≡ at }
    {
        Member { key, value, at }
    }
}

/// The key of a member of a mapping constructor.
#[cycle(expr)]
#[derive(Drop)]
pub enum Key {
    /// `a`
    Word(Word),
    /// `"a"`
    Str { text: Text, at: Place },
    /// `[e]`
    Computed { value: Box<Expr>, at: Place },
}

impl Key {
    /// The place of the key's first token.
    pub fn place(&self) -> Place
        ensures { BeginsAt (key_pieces self.now) result }
    {
        match self {
            Key::Word(w) => w.at,
            Key::Str { at, .. } | Key::Computed { at, .. } => *at,
        }
    }
}

/// A detail of an error constructor, as `a = x`.
#[cycle(expr)]
#[derive(Drop)]
pub struct Detail {
    pub name: Word,
    pub value: Box<Expr>,
    pub at: Place,
}

impl Detail {
    /// The detail with this name and this value.
    pub fn new(name: Word, value: Box<Expr>, at: Place) -> Detail
        ensures name { (out-Detail result).name ≡ name }
        ensures value { (out-Detail result).value ≡ value }
        ensures at { (out-Detail result).at ≡ at }
    {
        Detail { name, value, at }
    }
}
