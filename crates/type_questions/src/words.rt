//! Words of the command as type descriptors.
ghost use Rattle.std.specs.Prelude.{◌≡◌, ◌≤◌, chars, length};
ghost use Rattle.bal_lexer.specs.Lexes.{Lexes};
ghost use Rattle.type_questions.specs.Words.{at_start};
ghost use Rattle.type_questions.specs.Reading.{IsOfTokens, IsOfWord, IsTold};

use bal_base::{Fault, FaultCode, Kept, Place, Stop, Token};
use bal_lexer::lex;
use bal_tree::TypeTree;
use parse_types::parse_type;
use std::alloc::Global;

/// The descriptor that this word is.
pub fn word_tree(alloc: Global, file: u32, text: &str) -> Result<TypeTree, Stop<Fault>>
    requires { length text.now ≤ 4294967295 }
    ensures { IsOfWord file text.now result }
{
    let tokens = lex(alloc, file, text)?;
    whole_type(alloc, file, tokens.as_slice())
}

/// The descriptor that all these tokens are.
fn whole_type(alloc: Global, file: u32, tokens: &[Token]) -> Result<TypeTree, Stop<Fault>>
    ensures { IsOfTokens file tokens.now result }
{
    match parse_type(alloc, file, tokens, 0) {
        Ok((tree, end)) => {
            if end < tokens.len() {
                return Err(Stop::Fault(no_type(file)));
            }
            Ok(tree)
        }
        Err(Stop::Fault(fault)) => Err(Stop::Fault(told(file, fault))),
        Err(Stop::Memory) => Err(Stop::Memory),
    }
}

/// The fault of the parser as that of a word: where no type is, it is at the word's start.
fn told(file: u32, fault: Fault) -> Fault
    ensures { IsTold file fault result }
{
    if fault.code == FaultCode::Depth {
        fault
    } else {
        no_type(file)
    }
}

/// The fault of a word that is no type.
fn no_type(file: u32) -> Fault
    ensures { result ≡ at_start file }
{
    Fault {
        code: FaultCode::Syntax,
        at: Some(Place { file, at: 0 }),
        kept: Kept::Nothing,
    }
}
