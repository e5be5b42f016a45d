//! Names, and words that may be absent.
#![tactic(auto, using(parse_types::proofs::Readings::spelling))]

ghost use Rattle.std.specs.Prelude.{◌≡◌, ◌≤◌, true, length, option_map, IfSome, IfNone};
ghost use Rattle.bal_base.specs.declared.token.Sign.TheVariants.{Colon};
ghost use Rattle.bal_tree.specs.Pieces.{sign as sign_piece, ◌&◌};
ghost use Rattle.bal_tree.specs.NamePieces.{word_pieces, name_pieces};
ghost use Rattle.bal_tree.specs.Spells.{kinds_of};
ghost use Rattle.bal_tree.specs.TypeRules.{name_fits};
ghost use Rattle.parse_types.specs.Reaches as type_spec;
ghost use Rattle.parse_types.specs.Starts.{Reading};
ghost use Rattle.token_steps.specs.Tokens.{Kinds};
ghost use Rattle.parse_expr.specs.Reaches as spec;
ghost use Rattle.parse_expr.specs.Starts.{StartsName};

use bal_base::{Keyword, Place, Sign, Token};
use bal_tree::{Prefix, QualifiedName, Word};
use parse_types::{after_key, after_sign, place, word};

/// The longest name at the front whose first token is a word, and what follows it. `middle` says whether it stands in the middle
/// of a conditional expression, where a colon ends it.
///
/// Nothing is answered where none stands there.
pub fn name(file: u32, middle: bool, tokens: &[Token]) -> Option<(QualifiedName, &[Token])>
    ensures reads { IfSome result (λ r. Reading (name_fits middle r.0.prefix) (name_pieces r.0) file tokens.now r.1.now) }
    ensures longest { IfSome result (λ r. (rest : Kinds) → StartsName middle tokens.now rest → length r.1.now ≤ length rest) }
    ensures none { IfNone result ((rest : Kinds) → StartsName middle tokens.now rest → ⊥) }

    // For the proofs of parsers of what has names: how far it goes is a function of the tokens alone.
    ensures end { option_map (λ r. kinds_of r.1.now) result ≡ type_spec.name middle (kinds_of tokens.now) }
{
    words(file, middle, tokens)
}

fn words(file: u32, middle: bool, tokens: &[Token]) -> Option<(QualifiedName, &[Token])>
    ensures end { option_map (λ r. kinds_of r.1.now) result ≡ type_spec.name middle (kinds_of tokens.now) }
    ensures reads { IfSome result (λ r. Reading (name_fits middle r.0.prefix) (name_pieces r.0) file tokens.now r.1.now) }
{
    let at = place(file, tokens);
    let (first, rest) = word(file, tokens)?;
    if middle {
        return Some((qualified(None, first, at), rest));
    }
    match behind_colon(file, rest) {
        Some((second, rest)) => Some((qualified(Some(Prefix::Word(first)), second, at), rest)),
        None => Some((qualified(None, first, at), rest)),
    }
}

/// The name at the front that begins with `int`.
pub fn int_name(file: u32, tokens: &[Token]) -> Option<(QualifiedName, &[Token])>
    ensures end { option_map (λ r. kinds_of r.1.now) result ≡ spec.int_name (kinds_of tokens.now) }
    ensures reads { (middle : _) → IfSome result (λ r. Reading (name_fits middle r.0.prefix) (name_pieces r.0) file tokens.now r.1.now) }
{
    let at = place(file, tokens);
    let rest = after_key(tokens, Keyword::Int)?;
    let (second, rest) = behind_colon(file, rest)?;
    Some((qualified(Some(Prefix::Int { at }), second, at), rest))
}

/// The word behind a colon.
fn behind_colon(file: u32, tokens: &[Token]) -> Option<(Word, &[Token])>
    ensures end { option_map (λ r. kinds_of r.1.now) result ≡ type_spec.colon_word (kinds_of tokens.now) }
    ensures reads { IfSome result (λ r. Reading true (sign_piece Colon & word_pieces r.0) file tokens.now r.1.now) }
{
    word(file, after_sign(tokens, Sign::Colon)?)
}

fn qualified(prefix: Option<Prefix>, word: Word, at: Place) -> QualifiedName
    ensures { result ≡ record { prefix = prefix; word = word; at = at } }
{
    QualifiedName { prefix, word, at }
}
