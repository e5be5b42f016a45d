//! Primary expressions: those that are one word, or that begin or stand between brackets.
#![tactic(auto, using(parse_types::proofs::Readings::spelling, crate::proofs::ExprReadings::expr_readings, crate::proofs::Rooms::rooms))]

ghost use Rattle.std.specs.Prelude.{◌≡◌, true, false, IfOk, IfSome, option_map};
ghost use Rattle.bal_tree.specs.Spells.{kinds_of};
ghost use Rattle.parse_types.specs.Reaches as type_spec;
ghost use Rattle.parse_types.specs.Starts.{Leaves};
ghost use Rattle.parse_expr.specs.Reaches as spec;
ghost use Rattle.parse_expr.specs.Starts.{PrimaryReading};

use crate::names::{int_name, name};
use crate::reader::ExprReader;
use bal_base::{Keyword, Place, Sign, Stop, Token, TokenKind};
use bal_tree::{Level, Literal, Primary};
use parse_types::{Missing, after_sign, key, place, sign};

impl ExprReader {
    #[cycle(exprs)]
    pub(crate) fn primary(
        self,
        room: usize,
        tokens: &[Token],
    ) -> Result<(Primary, &[Token]), Stop<Missing>>
        ensures end { Leaves (spec.primary (spec.inside room 10 false) self.middle (kinds_of tokens.now)) result }
        ensures reads { IfOk result (λ r. PrimaryReading self.middle r.0 self.file tokens.now r.1.now) }
    {
        let Some((first, rest)) = tokens.split_first() else {
            return Err(Stop::Fault(Missing));
        };
        let at = Place {
            file: self.file,
            at: first.at,
        };
        match &first.kind {
            TokenKind::Word(_) => self.name(tokens),
            TokenKind::Keyword(k) => self.keyword_primary(room, *k, tokens),
            TokenKind::Int(value) => Ok((
                Primary::Literal(Literal::Int { value: *value, at }),
                rest,
            )),
            TokenKind::Str(text) => Ok((
                Primary::Literal(Literal::Str {
                    text: text.share(),
                    at,
                }),
                rest,
            )),
            TokenKind::Sign(s) => self.sign_primary(room, *s, tokens),
        }
    }

    /// A name whose first token is a word.
    fn name(self, tokens: &[Token]) -> Result<(Primary, &[Token]), Stop<Missing>>
        ensures end { Leaves (type_spec.name self.middle (kinds_of tokens.now)) result }
        ensures reads { IfOk result (λ r. PrimaryReading self.middle r.0 self.file tokens.now r.1.now) }
    {
        let Some((found, rest)) = name(self.file, self.middle, tokens) else {
            return Err(Stop::Fault(Missing));
        };
        Ok((Primary::Name(found), rest))
    }

    /// A name that begins with `int`.
    fn int_name(self, tokens: &[Token]) -> Result<(Primary, &[Token]), Stop<Missing>>
        ensures end { Leaves (spec.int_name (kinds_of tokens.now)) result }
        ensures reads { IfOk result (λ r. PrimaryReading self.middle r.0 self.file tokens.now r.1.now) }
    {
        let Some((found, rest)) = int_name(self.file, tokens) else {
            return Err(Stop::Fault(Missing));
        };
        Ok((Primary::Name(found), rest))
    }

    /// A primary expression whose first token is this keyword.
    #[cycle(exprs)]
    fn keyword_primary(
        self,
        room: usize,
        k: Keyword,
        tokens: &[Token],
    ) -> Result<(Primary, &[Token]), Stop<Missing>>
        ensures end { Leaves (spec.keyword_primary (spec.inside room 10 false) k (kinds_of tokens.now)) result }
        ensures reads { IfOk result (λ r. PrimaryReading self.middle r.0 self.file tokens.now r.1.now) }
    {
        match k {
            Keyword::True => {
                let at = place(self.file, tokens);
                let rest = key(tokens, Keyword::True)?;
                Ok((Primary::Literal(Literal::True { at }), rest))
            }
            Keyword::False => {
                let at = place(self.file, tokens);
                let rest = key(tokens, Keyword::False)?;
                Ok((Primary::Literal(Literal::False { at }), rest))
            }
            Keyword::Int => self.int_name(tokens),
            Keyword::Error => self.error(room, tokens),
            _ => Err(Stop::Fault(Missing)),
        }
    }

    /// A primary expression whose first token is this sign.
    #[cycle(exprs)]
    fn sign_primary(
        self,
        room: usize,
        s: Sign,
        tokens: &[Token],
    ) -> Result<(Primary, &[Token]), Stop<Missing>>
        ensures end { Leaves (spec.sign_primary (spec.inside room 10 false) s (kinds_of tokens.now)) result }
        ensures reads { IfOk result (λ r. PrimaryReading self.middle r.0 self.file tokens.now r.1.now) }
    {
        match s {
            Sign::OpenParen => self.parens(room, tokens),
            Sign::OpenBracket => self.list(room, tokens),
            Sign::OpenBrace => self.mapping(room, tokens),
            _ => Err(Stop::Fault(Missing)),
        }
    }

    /// `(e)`, or `()`.
    #[cycle(exprs)]
    fn parens(self, room: usize, tokens: &[Token]) -> Result<(Primary, &[Token]), Stop<Missing>>
        ensures end { Leaves (spec.parens (spec.inside room 10 false) (kinds_of tokens.now)) result }
        ensures reads { IfOk result (λ r. PrimaryReading self.middle r.0 self.file tokens.now r.1.now) }
    {
        let at = place(self.file, tokens);
        let inside = sign(tokens, Sign::OpenParen)?;
        if let Some(rest) = after_sign(inside, Sign::CloseParen) {
            return Ok((Primary::Literal(Literal::Nil { at }), rest));
        }
        let (inner, behind) = self.bracketed().inner(room, Level::Loosest, inside)?;
        let rest = sign(behind, Sign::CloseParen)?;
        Ok((Primary::Parens { inner, at }, rest))
    }
}
