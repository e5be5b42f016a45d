//! Expressions that hold lists, and the parts of those with commas between them.
#![tactic(auto, using(parse_types::proofs::Readings::spelling, crate::proofs::ExprReadings::expr_readings, crate::proofs::Rooms::rooms))]

ghost use Rattle.std.specs.Prelude.{◌≡◌, ◌≤◌, ◌&&◌, true, false, map, length, option_map, is_some, IfOk};
ghost use Rattle.std.specs.List.{list_all};
ghost use Rattle.bal_base.specs.declared.token.Sign.TheVariants.{Comma, OpenBracket, CloseBracket, Colon, Equal};
ghost use Rattle.bal_base.specs.declared.token.TokenKind.TheVariants.{Sign as SignKind};
ghost use Rattle.bal_tree.specs.ExprPieces.{expr_pieces, key_pieces, member_pieces, detail_pieces, as_next};
ghost use Rattle.bal_tree.specs.ExprRules.{expr_is_formed, key_is_formed, member_is_formed, detail_is_formed};
ghost use Rattle.bal_tree.specs.Pieces.{sign as sign_piece, separated, behind, if_boxed, ◌&◌};
ghost use Rattle.bal_tree.specs.Spells.{Spells, kinds_of};
ghost use Rattle.parse_types.specs.Starts.{Leaves, Reading};
ghost use Rattle.parse_expr.specs.Listings.{cause_is_formed};
ghost use Rattle.parse_expr.specs.Reaches as spec;
ghost use Rattle.parse_expr.specs.Starts.{PrimaryReading};

use crate::parameters::word_here;
use crate::reader::ExprReader;
use bal_base::{Keyword, Memory, Place, Sign, Stop, Token, TokenKind};
use bal_tree::{Detail, Expr, Key, Level, Member, Primary, Word};
use parse_types::{Missing, after_sign, key, optional, place, sign, word};

impl ExprReader {
    /// `[a, b]`
    #[cycle(exprs)]
    pub(crate) fn list(
        self,
        room: usize,
        tokens: &[Token],
    ) -> Result<(Primary, &[Token]), Stop<Missing>>
        ensures end { Leaves (spec.list (spec.inside room 10 false) (kinds_of tokens.now)) result }
        ensures reads { IfOk result (λ r. PrimaryReading self.middle r.0 self.file tokens.now r.1.now) }
    {
        let at = place(self.file, tokens);
        let inside = sign(tokens, Sign::OpenBracket)?;
        let (items, rest) = self.items_until(room, Sign::CloseBracket, inside)?;
        Ok((Primary::List { items, at }, rest))
    }

    /// Expressions with commas between them, or none, and the sign that closes them.
    #[cycle(exprs)]
    pub(crate) fn items_until(
        self,
        room: usize,
        close: Sign,
        tokens: &[Token],
    ) -> Result<(Vec<Expr>, &[Token]), Stop<Missing>>
        ensures end { Leaves (spec.items_until (spec.inside room 10 false) close (kinds_of tokens.now)) result }
        ensures reads { IfOk result (λ r. Reading (list_all (λ e. expr_is_formed e false) r.0.items) (separated Comma (map expr_pieces r.0.items) & sign_piece close) self.file tokens.now r.1.now) }
    {
        if let Some(rest) = after_sign(tokens, close) {
            return Ok((Vec::new(self.alloc), rest));
        }
        let (items, behind) = self.items(room, tokens)?;
        let rest = sign(behind, close)?;
        Ok((items, rest))
    }

    /// One or more expressions with commas between them.
    #[cycle(exprs)]
    fn items(self, room: usize, tokens: &[Token]) -> Result<(Vec<Expr>, &[Token]), Stop<Missing>>
        ensures end { Leaves (spec.items (spec.inside room 10 false) (kinds_of tokens.now)) result }
        ensures reads { IfOk result (λ r. Reading (list_all (λ e. expr_is_formed e false) r.0.items) (separated Comma (map expr_pieces r.0.items)) self.file tokens.now r.1.now) }
    {
        let mut items = Vec::new(self.alloc);
        let mut rest = tokens;
        'items: loop {
            let (e, behind) = self.bracketed().inner(room, Level::Loosest, rest)?;
            let item = Box::into_inner(e);
            items.push(item)?;
            match after_sign(behind, Sign::Comma) {
                Some(after) => rest = after,
                None => return Ok((items, behind)),
            }
        }
    }

    /// `{a: x, "b": y, [c]: z}`
    #[cycle(exprs)]
    pub(crate) fn mapping(
        self,
        room: usize,
        tokens: &[Token],
    ) -> Result<(Primary, &[Token]), Stop<Missing>>
        ensures end { Leaves (spec.mapping (spec.inside room 10 false) (kinds_of tokens.now)) result }
        ensures reads { IfOk result (λ r. PrimaryReading self.middle r.0 self.file tokens.now r.1.now) }
    {
        let at = place(self.file, tokens);
        let inside = sign(tokens, Sign::OpenBrace)?;
        if let Some(rest) = after_sign(inside, Sign::CloseBrace) {
            let members = Vec::new(self.alloc);
            return Ok((Primary::Mapping { members, at }, rest));
        }
        let (members, behind) = self.members(room, inside)?;
        let rest = sign(behind, Sign::CloseBrace)?;
        Ok((Primary::Mapping { members, at }, rest))
    }

    /// One or more members with commas between them.
    #[cycle(exprs)]
    fn members(
        self,
        room: usize,
        tokens: &[Token],
    ) -> Result<(Vec<Member>, &[Token]), Stop<Missing>>
        ensures end { Leaves (spec.items (spec.mapping_member (spec.inside room 10 false)) (kinds_of tokens.now)) result }
        ensures reads { IfOk result (λ r. Reading (list_all (λ m. member_is_formed m false) r.0.items) (separated Comma (map member_pieces r.0.items)) self.file tokens.now r.1.now) }
    {
        let mut members = Vec::new(self.alloc);
        let mut rest = tokens;
        'members: loop {
            let (member, behind) = self.mapping_member(room, rest)?;
            members.push(member)?;
            match after_sign(behind, Sign::Comma) {
                Some(after) => rest = after,
                None => return Ok((members, behind)),
            }
        }
    }

    /// `a: x`
    #[cycle(exprs)]
    fn mapping_member(
        self,
        room: usize,
        tokens: &[Token],
    ) -> Result<(Member, &[Token]), Stop<Missing>>
        ensures end { Leaves (spec.mapping_member (spec.inside room 10 false) (kinds_of tokens.now)) result }
        ensures reads { IfOk result (λ r. Reading (member_is_formed r.0 false) (member_pieces r.0) self.file tokens.now r.1.now) }
    {
        let at = place(self.file, tokens);
        let (key, rest) = self.key(room, tokens)?;
        let rest = sign(rest, Sign::Colon)?;
        let (value, rest) = self.bracketed().inner(room, Level::Loosest, rest)?;
        Ok((Member::new(key, value, at), rest))
    }

    /// The key of a member: a word, a string, or an expression in brackets.
    #[cycle(exprs)]
    fn key(self, room: usize, tokens: &[Token]) -> Result<(Key, &[Token]), Stop<Missing>>
        ensures end { Leaves (spec.key (spec.inside room 10 false) (kinds_of tokens.now)) result }
        ensures reads { IfOk result (λ r. Reading (key_is_formed r.0 false) (key_pieces r.0) self.file tokens.now r.1.now) }
    {
        let Some((first, rest)) = tokens.split_first() else {
            return Err(Stop::Fault(Missing));
        };
        let at = Place {
            file: self.file,
            at: first.at,
        };
        match &first.kind {
            TokenKind::Word(name) => {
                let name = name.share();
                Ok((Key::Word(Word { name, at }), rest))
            }
            TokenKind::Str(text) => {
                let text = text.share();
                Ok((Key::Str { text, at }, rest))
            }
            TokenKind::Sign(Sign::OpenBracket) => self.computed_key(room, tokens),
            _ => Err(Stop::Fault(Missing)),
        }
    }

    /// `[e]`
    #[cycle(exprs)]
    fn computed_key(self, room: usize, tokens: &[Token]) -> Result<(Key, &[Token]), Stop<Missing>>
        ensures end { Leaves (spec.index (spec.inside room 10 false) (kinds_of tokens.now)) result }
        ensures reads { IfOk result (λ r. Reading (key_is_formed r.0 false) (key_pieces r.0) self.file tokens.now r.1.now) }
    {
        let at = place(self.file, tokens);
        let rest = sign(tokens, Sign::OpenBracket)?;
        let (value, rest) = self.bracketed().inner(room, Level::Loosest, rest)?;
        let rest = sign(rest, Sign::CloseBracket)?;
        Ok((Key::Computed { value, at }, rest))
    }

    /// `error(message, cause, a = x)`, where the cause and the details may be absent.
    #[cycle(exprs)]
    pub(crate) fn error(
        self,
        room: usize,
        tokens: &[Token],
    ) -> Result<(Primary, &[Token]), Stop<Missing>>
        ensures end { Leaves (spec.error (spec.inside room 10 false) (kinds_of tokens.now)) result }
        ensures reads { IfOk result (λ r. PrimaryReading self.middle r.0 self.file tokens.now r.1.now) }
    {
        let at = place(self.file, tokens);
        let rest = key(tokens, Keyword::Error)?;
        let rest = sign(rest, Sign::OpenParen)?;
        let (message, rest) = self.bracketed().inner(room, Level::Loosest, rest)?;
        let (cause, rest) = self.cause(room, rest)?;
        let (details, rest) = self.details(room, rest)?;
        let rest = sign(rest, Sign::CloseParen)?;
        Ok((
            Primary::Error {
                message,
                cause,
                details,
                at,
            },
            rest,
        ))
    }

    /// `, e`, or nothing where no comma stands there or a detail does.
    #[cycle(exprs)]
    fn cause(
        self,
        room: usize,
        tokens: &[Token],
    ) -> Result<(Option<Box<Expr>>, &[Token]), Stop<Missing>>
        ensures end { Leaves (spec.cause (spec.inside room 10 false) (kinds_of tokens.now)) result }
        ensures formed { IfOk result (λ r. cause_is_formed r.0 ≡ true) }
        ensures spells { IfOk result (λ r. Spells self.file (if_boxed (λ e. as_next (expr_pieces e)) r.0) tokens.now r.1.now) }
        ensures no_longer { IfOk result (λ r. length r.1.now ≤ length tokens.now) }
    {
        let Some(after) = after_sign(tokens, Sign::Comma) else {
            return Ok((None, tokens));
        };
        if begins_detail(after) {
            return Ok((None, tokens));
        }
        let (e, rest) = self.bracketed().inner(room, Level::Loosest, after)?;
        Ok((Some(e), rest))
    }

    /// Details, each behind a comma.
    #[cycle(exprs)]
    fn details(self, room: usize, tokens: &[Token]) -> Result<(Vec<Detail>, &[Token]), Memory>
        ensures end { IfOk result (λ r. kinds_of r.1.now ≡ spec.details (spec.inside room 10 false) (kinds_of tokens.now)) }
        ensures formed { IfOk result (λ r. list_all (λ d. detail_is_formed d false) r.0.items ≡ true) }
        ensures spells { IfOk result (λ r. Spells self.file (behind Comma (map detail_pieces r.0.items)) tokens.now r.1.now) }
        ensures no_longer { IfOk result (λ r. length r.1.now ≤ length tokens.now) }
    {
        let mut details = Vec::new(self.alloc);
        let mut rest = tokens;
        while let Some((detail, after)) = optional(self.detail(room, rest))? {
            details.push(detail)?;
            rest = after;
        }
        Ok((details, rest))
    }

    /// `, a = x`
    #[cycle(exprs)]
    fn detail(self, room: usize, tokens: &[Token]) -> Result<(Detail, &[Token]), Stop<Missing>>
        ensures end { Leaves (spec.detail (spec.inside room 10 false) (kinds_of tokens.now)) result }
        ensures reads { IfOk result (λ r. Reading (detail_is_formed r.0 false) (sign_piece Comma & detail_pieces r.0) self.file tokens.now r.1.now) }
    {
        let rest = sign(tokens, Sign::Comma)?;
        let at = place(self.file, rest);
        let (name, rest) = word_here(self.file, rest)?;
        let rest = sign(rest, Sign::Equal)?;
        let (value, rest) = self.bracketed().inner(room, Level::Loosest, rest)?;
        Ok((Detail::new(name, value, at), rest))
    }
}

/// Whether the first tokens are a word and `=`.
fn begins_detail(tokens: &[Token]) -> bool
    ensures { result ≡ is_some (spec.name_equal (kinds_of tokens.now)) }
{
    let Some((first, rest)) = tokens.split_first() else {
        return false;
    };
    match &first.kind {
        TokenKind::Word(_) => after_sign(rest, Sign::Equal).is_some(),
        _ => false,
    }
}
