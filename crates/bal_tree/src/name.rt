//! Words, names and literals: what types, expressions and patterns share.
ghost use Rattle.bal_tree.specs.Places.{BeginsAt};
ghost use Rattle.bal_tree.specs.NamePieces.{literal_pieces, const_pieces};

use bal_base::{Name, Place, Text};

/// A word that is no keyword, with its place.
#[derive(Drop)]
pub struct Word {
    pub name: Name,
    pub at: Place,
}

/// What stands before the colon of a name.
#[derive(Drop)]
pub enum Prefix {
    /// The prefix of an import, as `io`.
    Word(Word),
    /// `int`
    Int { at: Place },
}

/// A name, as `println` or `io:println`.
#[derive(Drop)]
pub struct QualifiedName {
    /// What stands before the colon, if there is one.
    pub prefix: Option<Prefix>,
    /// The name itself.
    pub word: Word,
    pub at: Place,
}

/// A literal.
#[derive(Drop)]
pub enum Literal {
    /// An int, as `1`.
    Int { value: i64, at: Place },
    /// A string, as `"a"`.
    Str { text: Text, at: Place },
    /// `true`
    True { at: Place },
    /// `false`
    False { at: Place },
    /// `()`
    Nil { at: Place },
}

impl Literal {
    /// The place of the literal's first token.
    pub fn place(&self) -> Place
        ensures { BeginsAt (literal_pieces self.now) result }
    {
        match self {
            Literal::Int { at, .. } | Literal::Str { at, .. } => *at,
            Literal::True { at, .. } | Literal::False { at, .. } | Literal::Nil { at, .. } => *at,
        }
    }
}

/// What a constant is defined as, and what a pattern may be.
#[derive(Drop)]
pub enum ConstValue {
    /// A literal, as `1`.
    Literal(Literal),
    /// An int behind a minus sign, as `-1`.
    Negative { int: i64, at: Place },
}

impl ConstValue {
    /// The place of the value's first token.
    pub fn place(&self) -> Place
        ensures { BeginsAt (const_pieces self.now) result }
    {
        match self {
            ConstValue::Literal(l) => l.place(),
            ConstValue::Negative { at, .. } => *at,
        }
    }
}
