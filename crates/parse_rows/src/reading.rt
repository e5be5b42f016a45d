//! A text, and what is read of it.

ghost use Rattle.std.specs.Prelude.{◌≤◌, length};

use crate::files::{file_of_expr, file_of_type};
use bal_base::{Fault, Memory, Stop, Token};
use bal_lexer::lex;
use bal_tree::{FileTree, yield_of};
use parse_expr::{parse_expr, parse_type};
use parse_stmt::parse_file;
use std::alloc::Global;

/// What a text is read as.
#[derive(Clone, Copy)]
pub enum Reader {
    /// A type.
    Types,
    /// An expression.
    Exprs,
    /// A file.
    Files,
    /// The body of a function.
    Bodies,
}

impl Reader {
    /// What stands before the text in a file that has it.
    fn before(self) -> &'static str {
        match self {
            Reader::Types => "type T ",
            Reader::Exprs => "any v = ",
            Reader::Files => "",
            Reader::Bodies => "function f() {",
        }
    }

    /// What stands behind it, but for a semicolon.
    fn behind(self) -> &'static str {
        match self {
            Reader::Types | Reader::Exprs | Reader::Files => "",
            Reader::Bodies => "}",
        }
    }

    /// How many tokens stand before it.
    pub fn tokens_before(self) -> usize {
        match self {
            Reader::Types => 2,
            Reader::Exprs => 3,
            Reader::Files => 0,
            Reader::Bodies => 5,
        }
    }

    /// How many tokens stand before the tree.
    fn tokens_before_tree(self) -> usize {
        match self {
            Reader::Types | Reader::Exprs => self.tokens_before(),
            Reader::Files | Reader::Bodies => 0,
        }
    }

    /// Whether a semicolon stands behind the text in the file.
    fn has_semicolon(self) -> bool {
        match self {
            Reader::Types | Reader::Exprs => true,
            Reader::Files | Reader::Bodies => false,
        }
    }
}

/// What comes of a text.
#[derive(Clone, Copy, PartialEq, Eq)]
pub enum Came {
    /// All of it is read.
    Whole,
    /// So many of its tokens are read, and some are left.
    Front(usize),
    /// It is refused by the code with this number, at this byte.
    Refused { code: u16, at: usize },
}

/// A tree that was read.
#[derive(Drop)]
pub struct Found {
    /// A file in which it stands.
    pub tree: FileTree,
    /// The tokens that were read, and those that stand before them in that file.
    pub tokens: Vec<Token>,
    pub came: Came,
}

impl Found {
    /// Whether the tree's place is that of its first token, which a file without tokens hasn't.
    pub fn begins_at_its_place(&self, reader: Reader) -> bool {
        match self.tokens.get(reader.tokens_before_tree()) {
            Some(token) => token.at == self.tree.at.at,
            None => self.tree.at.at == 0,
        }
    }
}

/// The longest texts that are read, in bytes.
pub const MOST_BYTES: usize = 4_294_967_295;

/// The tokens of the file in which the text stands, without the semicolon at its end, or the refusal.
pub fn tokens_of(alloc: Global, reader: Reader, text: &str) -> Result<Vec<Token>, Stop<Came>> {
    let before = reader.before();
    let behind = reader.behind();
    let file = format!(in alloc; "{before}{text}{behind}")?;
    if file.len() > MOST_BYTES {
        return Err(Stop::Memory);
    }
    match lex(alloc, 0, file.as_str()) {
        Ok(tokens) => Ok(tokens),
        Err(Stop::Memory) => Err(Stop::Memory),
        Err(Stop::Fault(fault)) => Err(Stop::Fault(refused(reader, &fault))),
    }
}

/// What a refusal says. Its place is told from the text's start.
fn refused(reader: Reader, fault: &Fault) -> Came {
    let code = fault.code.number();
    let at = match fault.at {
        Some(place) => place.at as usize,
        None => 0,
    };
    Came::Refused {
        code,
        at: at.saturating_sub(reader.before().len()),
    }
}

/// The tree at the text's front.
pub fn read_text(alloc: Global, reader: Reader, text: &str) -> Result<Found, Stop<Came>> {
    let mut tokens = tokens_of(alloc, reader, text)?;
    let from = reader.tokens_before().min(tokens.len());
    match parsed(alloc, reader, &tokens, from) {
        Ok((tree, place)) => {
            let came = extent(from, place, tokens.len());
            tokens.truncate(place);
            Ok(Found { tree, tokens, came })
        }
        Err(Stop::Memory) => Err(Stop::Memory),
        Err(Stop::Fault(fault)) => Err(Stop::Fault(refused(reader, &fault))),
    }
}

/// What came of a text of which the tokens between these two places are read, of so many.
fn extent(from: usize, place: usize, tokens: usize) -> Came {
    if place == tokens {
        return Came::Whole;
    }
    Came::Front(place.saturating_sub(from))
}

/// The tree of a file that has what is read, and the place behind it.
fn parsed(
    alloc: Global,
    reader: Reader,
    tokens: &[Token],
    from: usize,
) -> Result<(FileTree, usize), Stop<Fault>>
    requires { from ≤ length tokens.now }
{
    match reader {
        Reader::Types => {
            let (ty, place) = parse_type(alloc, 0, tokens, from)?;
            Ok((file_of_type(alloc, ty)?, place))
        }
        Reader::Exprs => {
            let (e, place) = parse_expr(alloc, 0, tokens, from)?;
            Ok((file_of_expr(alloc, e)?, place))
        }
        Reader::Files | Reader::Bodies => {
            let tree = parse_file(alloc, 0, tokens)?;
            Ok((tree, tokens.len()))
        }
    }
}

/// The first of these tokens in which the tree's own differ from them.
pub fn difference(
    alloc: Global,
    reader: Reader,
    tree: &FileTree,
    tokens: &[Token],
) -> Result<Option<usize>, Memory> {
    let mut kinds = yield_of(alloc, tree)?;
    if reader.has_semicolon() {
        let _semicolon = kinds.pop();
    }
    for (number, (kind, token)) in kinds.iter().zip(tokens).enumerate() {
        if *kind != token.kind {
            return Ok(Some(number));
        }
    }
    if kinds.len() == tokens.len() {
        return Ok(None);
    }
    Ok(Some(kinds.len().min(tokens.len())))
}
