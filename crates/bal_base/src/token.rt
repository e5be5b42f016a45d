//! The tokens of a source file.

use crate::text::{Name, Text};

/// A word, literal or sign of a source file, with its slice.
#[derive(Drop)]
pub struct Token {
    /// What it is.
    pub kind: TokenKind,
    /// The offset of its first byte.
    pub at: u32,
    /// The offset after its last byte.
    pub end: u32,
}

/// What a token is.
#[derive(Clone, PartialEq, Eq, Drop)]
pub enum TokenKind {
    /// A word that is no keyword.
    Word(Name),
    /// A word of the language.
    Keyword(Keyword),
    /// An int literal, decimal or hexadecimal, with its value.
    Int(i64),
    /// A string literal, with the text that it stands for.
    Str(Text),
    /// A sign.
    Sign(Sign),
}

/// The words of the language.
#[derive(Clone, Copy, Debug, PartialEq, Eq)]
pub enum Keyword {
    /// `import`
    Import,
    /// `as`
    As,
    /// `public`
    Public,
    /// `type`
    Type,
    /// `const`
    Const,
    /// `final`
    Final,
    /// `var`
    Var,
    /// `function`
    Function,
    /// `returns`
    Returns,
    /// `return`
    Return,
    /// `isolated`
    Isolated,
    /// `worker`
    Worker,
    /// `record`
    Record,
    /// `map`
    Map,
    /// `error`
    Error,
    /// `future`
    Future,
    /// `any`
    Any,
    /// `anydata`
    AnyData,
    /// `never`
    Never,
    /// `readonly`
    ReadOnly,
    /// `int`
    Int,
    /// `string`
    String,
    /// `boolean`
    Boolean,
    /// `byte`
    Byte,
    /// `true`
    True,
    /// `false`
    False,
    /// `if`
    If,
    /// `else`
    Else,
    /// `while`
    While,
    /// `foreach`
    Foreach,
    /// `in`
    In,
    /// `match`
    Match,
    /// `break`
    Break,
    /// `continue`
    Continue,
    /// `is`
    Is,
    /// `check`
    Check,
    /// `checkpanic`
    CheckPanic,
    /// `trap`
    Trap,
    /// `panic`
    Panic,
    /// `start`
    Start,
    /// `wait`
    Wait,
    /// `flush`
    Flush,
}

/// The signs of the language.
#[derive(Clone, Copy, Debug, PartialEq, Eq)]
pub enum Sign {
    /// `{|`
    OpenBraceBar,
    /// `|}`
    CloseBraceBar,
    /// `{`
    OpenBrace,
    /// `}`
    CloseBrace,
    /// `(`
    OpenParen,
    /// `)`
    CloseParen,
    /// `[`
    OpenBracket,
    /// `]`
    CloseBracket,
    /// `;`
    Semicolon,
    /// `,`
    Comma,
    /// `:`
    Colon,
    /// `.`
    Dot,
    /// `?.`
    QuestionDot,
    /// `?:`
    Elvis,
    /// `?`
    Question,
    /// `...`
    Ellipsis,
    /// `..<`
    DotDotLess,
    /// `->>`
    DoubleArrow,
    /// `->`
    Arrow,
    /// `<-`
    LeftArrow,
    /// `=>`
    FatArrow,
    /// `===`
    TripleEqual,
    /// `!==`
    NotTripleEqual,
    /// `==`
    DoubleEqual,
    /// `!=`
    NotEqual,
    /// `=`
    Equal,
    /// `<=`
    LessEqual,
    /// `>=`
    GreaterEqual,
    /// `<`
    Less,
    /// `>`
    Greater,
    /// `&&`
    DoubleAmpersand,
    /// `||`
    DoubleBar,
    /// `&`
    Ampersand,
    /// `|`
    Bar,
    /// `!`
    Not,
    /// `+`
    Plus,
    /// `-`
    Minus,
    /// `*`
    Star,
    /// `/`
    Slash,
    /// `%`
    Percent,
    /// `+=`
    PlusEqual,
    /// `-=`
    MinusEqual,
    /// `*=`
    StarEqual,
    /// `/=`
    SlashEqual,
    /// `_`
    Underscore,
}
