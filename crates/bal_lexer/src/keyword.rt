//! The words of the language.
ghost use Rattle.std.specs.Prelude.{◌≡◌, find};
ghost use Rattle.std.specs.List.{list_any};
ghost use Rattle.std.specs.Str.{bytes_eq};
ghost use Rattle.bal_lexer.specs.Spellings.{keyword_text, left_out_words};
ghost use Rattle.bal_lexer.specs.Groups.{every_keyword, keywords_from, left_out_from};

use crate::cursor::first_byte;
use bal_base::Keyword;

/// How the keyword is written.
pub(crate) fn keyword_text(keyword: Keyword) -> &'static str
    ensures { result.now ≡ keyword_text keyword }
{
    match keyword {
        Keyword::Import => "import",
        Keyword::As => "as",
        Keyword::Public => "public",
        Keyword::Type => "type",
        Keyword::Const => "const",
        Keyword::Final => "final",
        Keyword::Var => "var",
        Keyword::Function => "function",
        Keyword::Returns => "returns",
        Keyword::Return => "return",
        Keyword::Isolated => "isolated",
        Keyword::Worker => "worker",
        Keyword::Record => "record",
        Keyword::Map => "map",
        Keyword::Error => "error",
        Keyword::Future => "future",
        Keyword::Any => "any",
        Keyword::AnyData => "anydata",
        Keyword::Never => "never",
        Keyword::ReadOnly => "readonly",
        Keyword::Int => "int",
        Keyword::String => "string",
        Keyword::Boolean => "boolean",
        Keyword::Byte => "byte",
        Keyword::True => "true",
        Keyword::False => "false",
        Keyword::If => "if",
        Keyword::Else => "else",
        Keyword::While => "while",
        Keyword::Foreach => "foreach",
        Keyword::In => "in",
        Keyword::Match => "match",
        Keyword::Break => "break",
        Keyword::Continue => "continue",
        Keyword::Is => "is",
        Keyword::Check => "check",
        Keyword::CheckPanic => "checkpanic",
        Keyword::Trap => "trap",
        Keyword::Panic => "panic",
        Keyword::Start => "start",
        Keyword::Wait => "wait",
        Keyword::Flush => "flush",
    }
}

/// The keyword that is written so.
pub(crate) fn keyword_of(word: &str) -> Option<Keyword>
    ensures { result ≡ find (λ k. bytes_eq (keyword_text k) word.now) every_keyword }
{
    keyword_from(first_byte(word), word)
}

/// The same, of the keywords that begin with this letter.
#[tactic(auto, unfolding(crate::specs::Groups::keywords_from))]
fn keyword_from(letter: u8, word: &str) -> Option<Keyword>
    ensures { result ≡ find (λ k. bytes_eq (keyword_text k) word.now) (keywords_from letter) }
{
    match letter {
        b'a' => among(&[Keyword::As, Keyword::Any, Keyword::AnyData], word),
        b'b' => among(&[Keyword::Boolean, Keyword::Byte, Keyword::Break], word),
        b'c' => among(
            &[
                Keyword::Const,
                Keyword::Continue,
                Keyword::Check,
                Keyword::CheckPanic,
            ],
            word,
        ),
        b'e' => among(&[Keyword::Error, Keyword::Else], word),
        b'f' => among(
            &[
                Keyword::Final,
                Keyword::Function,
                Keyword::Future,
                Keyword::False,
                Keyword::Foreach,
                Keyword::Flush,
            ],
            word,
        ),
        b'i' => among(
            &[
                Keyword::Import,
                Keyword::Isolated,
                Keyword::Int,
                Keyword::If,
                Keyword::In,
                Keyword::Is,
            ],
            word,
        ),
        b'm' => among(&[Keyword::Map, Keyword::Match], word),
        b'n' => among(&[Keyword::Never], word),
        b'p' => among(&[Keyword::Public, Keyword::Panic], word),
        b'r' => among(
            &[
                Keyword::Returns,
                Keyword::Return,
                Keyword::Record,
                Keyword::ReadOnly,
            ],
            word,
        ),
        b's' => among(&[Keyword::String, Keyword::Start], word),
        b't' => among(&[Keyword::Type, Keyword::True, Keyword::Trap], word),
        b'v' => among(&[Keyword::Var], word),
        b'w' => among(&[Keyword::Worker, Keyword::While, Keyword::Wait], word),
        _ => None,
    }
}

fn among(keywords: &[Keyword], word: &str) -> Option<Keyword>
    ensures { result ≡ find (λ k. bytes_eq (keyword_text k) word.now) keywords.now }
{
    keywords
        .iter()
        .copied()
        .find(|keyword| keyword_text(*keyword) == word)
}

/// Whether the word is one of those of Ballerina for what this profile leaves out.
pub(crate) fn is_left_out(word: &str) -> bool
    ensures { result ≡ list_any (λ w. bytes_eq w word.now) left_out_words }
{
    is_left_out_from(first_byte(word), word)
}

/// The same, of those that begin with this letter.
#[tactic(auto, unfolding(crate::specs::Groups::left_out_from, crate::specs::Groups::left_out_groups))]
fn is_left_out_from(letter: u8, word: &str) -> bool
    ensures { result ≡ list_any (λ w. bytes_eq w word.now) (left_out_from letter) }
{
    match letter {
        b'a' => is_among(&["annotation"], word),
        b'c' => is_among(&["class", "client", "commit"], word),
        b'd' => is_among(&["decimal", "do", "distinct"], word),
        b'e' => is_among(&["enum", "external"], word),
        b'f' => is_among(&["float", "fork", "fail", "from"], word),
        b'h' => is_among(&["handle"], word),
        b'i' => is_among(&["init"], word),
        b'j' => is_among(&["json"], word),
        b'l' => is_among(&["lock", "let", "listener"], word),
        b'n' => is_among(&["new"], word),
        b'o' => is_among(&["object"], word),
        b'r' => is_among(&["resource", "remote", "rollback", "retry"], word),
        b's' => is_among(&["stream", "service", "select"], word),
        b't' => is_among(&["table", "typedesc", "transaction", "typeof"], word),
        b'x' => is_among(&["xml"], word),
        _ => false,
    }
}

fn is_among(words: &[&str], word: &str) -> bool
    ensures { result ≡ list_any (λ w. bytes_eq w.now word.now) words.now }
{
    words.iter().any(|w| *w == word)
}
