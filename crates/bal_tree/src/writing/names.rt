//! Words, names and literals.
#![tactic(auto, using(crate::proofs::Adding::adding))]

ghost use Rattle.bal_base.specs.declared.token.TokenKind.TheVariants.{Int as IntKind, Str as StrKind};
ghost use Rattle.bal_tree.specs.Pieces.{◌&◌, token as token_piece, sign as sign_piece, if_there};
ghost use Rattle.bal_tree.specs.Writing.{Writes};
ghost use Rattle.bal_base.specs.declared.token.Sign.TheVariants.{Minus};
ghost use Rattle.bal_tree.specs.NamePieces.{word_pieces, prefix_pieces, name_pieces, literal_pieces, const_pieces};

use super::output::Output;
use super::signs::{key, sign};
use crate::name::{ConstValue, Literal, Prefix, QualifiedName, Word};
use bal_base::{Keyword, Sign, Text, TokenKind};

pub fn word(out: &mut Output, w: &Word)
    ensures { Writes out.old (word_pieces w.now) out.new }
{
    out.put(TokenKind::Word(w.name.share()));
}

pub fn int(out: &mut Output, value: i64)
    ensures { Writes out.old (token_piece (IntKind value)) out.new }
{
    out.put(TokenKind::Int(value));
}

pub fn string(out: &mut Output, text: &Text)
    ensures { Writes out.old (token_piece (StrKind text.now)) out.new }
{
    out.put(TokenKind::Str(text.share()));
}

pub fn name(out: &mut Output, n: &QualifiedName)
    ensures { Writes out.old (name_pieces n.now) out.new }
{
    prefix_if_there(out, &n.prefix);
    word(out, &n.word);
}

fn prefix_if_there(out: &mut Output, p: &Option<Prefix>)
    ensures { Writes out.old (if_there prefix_pieces p.now) out.new }
{
    if let Some(p) = p {
        prefix(out, p);
    }
}

fn prefix(out: &mut Output, p: &Prefix)
    ensures { Writes out.old (prefix_pieces p.now) out.new }
{
    match p {
        Prefix::Word(w) => word(out, w),
        Prefix::Int { .. } => key(out, Keyword::Int),
    }
    sign(out, Sign::Colon);
}

pub fn literal(out: &mut Output, l: &Literal)
    ensures { Writes out.old (literal_pieces l.now) out.new }
{
    match l {
        Literal::Int { value, .. } => int(out, *value),
        Literal::Str { text, .. } => string(out, text),
        Literal::True { .. } => key(out, Keyword::True),
        Literal::False { .. } => key(out, Keyword::False),
        Literal::Nil { .. } => {
            sign(out, Sign::OpenParen);
            sign(out, Sign::CloseParen);
        }
    }
}

/// An int behind a minus sign.
pub fn negative(out: &mut Output, value: i64)
    ensures { Writes out.old (sign_piece Minus & token_piece (IntKind value)) out.new }
{
    sign(out, Sign::Minus);
    int(out, value);
}

pub fn const_value(out: &mut Output, v: &ConstValue)
    ensures { Writes out.old (const_pieces v.now) out.new }
{
    match v {
        ConstValue::Literal(l) => literal(out, l),
        ConstValue::Negative { int, .. } => negative(out, *int),
    }
}
