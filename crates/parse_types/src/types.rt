//! Type descriptors, from the loosest to the tightest. `room` is how many types may still stand inside one another.
#![tactic(auto, using(crate::proofs::Readings::spelling, crate::proofs::TypeReadings::type_readings, crate::proofs::Levels::levels, crate::proofs::Insides::insides))]

ghost use Rattle.std.specs.Prelude.{◌≡◌, List, false, true, option_map, IfSome, IfOk};
ghost use Rattle.bal_base.specs.declared.token.Sign.TheVariants.{Bar, Ampersand};
ghost use Rattle.bal_base.specs.declared.token.Token.{Token as TokenOf};
ghost use Rattle.bal_base.specs.declared.token.TokenKind.TheVariants.{Sign as SignKind};
ghost use Rattle.bal_tree.specs.Pieces.{starts as starts_piece, sign as sign_piece, ◌&◌};
ghost use Rattle.bal_tree.specs.Spells.{Heads, kinds_of};
ghost use Rattle.bal_tree.specs.TypePieces.{type_pieces, intersection_pieces, postfix_type_pieces};
ghost use Rattle.bal_tree.specs.TypeRules.{type_end, intersection_end, postfix_type_end, type_is_formed, intersection_is_formed, postfix_type_is_formed};
ghost use Rattle.parse_types.specs.Reaches as spec;
ghost use Rattle.parse_types.specs.Starts.{Leaves, LeavesAs, type_left, intersection_left, postfix_left, primary_left, TypeReading, IntersectionReading, PostfixReading, PrimaryReading};

use crate::primary::{int_or_name, name};
use crate::suffixes::{suffix_behind, suffixed};
use bal_base::{Keyword, Memory, Place, Sign, Stop, Token, TokenKind};
use bal_tree::{IntersectionType, Literal, PostfixType, PrimaryType, TypeTree};
use std::alloc::Global;
use token_steps::{Missing, after_sign, optional, place};

/// What reads the types of one file: in the middle of a conditional expression, where a `:` outside brackets ends the
/// middle, or elsewhere.
#[derive(Clone, Copy)]
pub(crate) struct TypeReader {
    pub(crate) alloc: Global,
    pub(crate) file: u32,
    pub(crate) middle: bool,
}

impl TypeReader {
    /// The same between brackets.
    pub(crate) fn bracketed(self) -> TypeReader
        ensures file { result.file ≡ self.file }
        ensures middle { result.middle ≡ false }
    {
        TypeReader {
            middle: false,
            ..self
        }
    }

    /// A type inside another one.
    #[cycle(types)]
    pub(crate) fn inner(
        self,
        room: usize,
        tokens: &[Token],
    ) -> Result<(Box<TypeTree>, &[Token]), Stop<Missing>>
        ensures end { Leaves (spec.inside room self.middle (kinds_of tokens.now)) result }
        ensures reads { IfOk result (λ r. TypeReading self.middle r.0.value self.file tokens.now r.1.now) }
    {
        if room == 0 {
            return Err(Stop::Fault(Missing));
        }
        let (t, rest) = self.type_tree(room - 1, tokens)?;
        Ok((Box::new(self.alloc, t)?, rest))
    }

    /// The longest type at the front.
    #[cycle(types)]
    pub(crate) fn type_tree(
        self,
        room: usize,
        tokens: &[Token],
    ) -> Result<(TypeTree, &[Token]), Stop<Missing>>
        ensures end { LeavesAs type_left (spec.union (spec.inside room) self.middle (kinds_of tokens.now)) result }
        ensures reads { IfOk result (λ r. TypeReading self.middle r.0 self.file tokens.now r.1.now) }
    {
        let at = place(self.file, tokens);
        let (first, mut rest) = self.intersection(room, tokens)?;
        let mut whole = TypeTree::Intersection(first);
        while let Some((right, after)) = self.bar_part(room, &whole, rest)? {
            whole = union_of(self.alloc, whole, right, at)?;
            rest = after;
        }
        Ok((whole, rest))
    }

    /// What stands behind `|`, where the union so far may go on with it.
    #[cycle(types)]
    fn bar_part<'t>(
        self,
        room: usize,
        left: &TypeTree,
        tokens: &'t [Token],
    ) -> Result<Option<(IntersectionType, &'t [Token])>, Memory>
        ensures end { IfOk result (λ o. option_map (λ r. intersection_left r.0 (kinds_of r.1.now)) o
            ≡ spec.bar_step (spec.inside room) self.middle (type_left left.now (kinds_of tokens.now))) }
        ensures reads { IfOk result (λ o. IfSome o (λ r. ((type_end left.now).in_result ≡ false) × ((mid : List TokenOf) × Heads (SignKind Bar) tokens.now mid × IntersectionReading self.middle r.0 self.file mid r.1.now))) }
    {
        if left.ends_in_result() {
            return Ok(None);
        }
        match after_sign(tokens, Sign::Bar) {
            Some(after) => optional(self.intersection(room, after)),
            None => Ok(None),
        }
    }

    #[cycle(types)]
    fn intersection(
        self,
        room: usize,
        tokens: &[Token],
    ) -> Result<(IntersectionType, &[Token]), Stop<Missing>>
        ensures end { LeavesAs intersection_left (spec.intersection (spec.inside room) self.middle (kinds_of tokens.now)) result }
        ensures reads { IfOk result (λ r. IntersectionReading self.middle r.0 self.file tokens.now r.1.now) }
    {
        let at = place(self.file, tokens);
        let (first, mut rest) = self.postfix(room, tokens)?;
        let mut whole = IntersectionType::Postfix(first);
        while let Some((right, after)) = self.ampersand_part(room, &whole, rest)? {
            whole = both_of(self.alloc, whole, right, at)?;
            rest = after;
        }
        Ok((whole, rest))
    }

    /// What stands behind `&`, where the intersection so far may go on with it.
    #[cycle(types)]
    fn ampersand_part<'t>(
        self,
        room: usize,
        left: &IntersectionType,
        tokens: &'t [Token],
    ) -> Result<Option<(PostfixType, &'t [Token])>, Memory>
        ensures end { IfOk result (λ o. option_map (λ r. postfix_left r.0 (kinds_of r.1.now)) o
            ≡ spec.ampersand_step (spec.inside room) self.middle (intersection_left left.now (kinds_of tokens.now))) }
        ensures reads { IfOk result (λ o. IfSome o (λ r. ((intersection_end left.now).in_result ≡ false) × ((mid : List TokenOf) × Heads (SignKind Ampersand) tokens.now mid × PostfixReading self.middle r.0 self.file mid r.1.now))) }
    {
        if left.ends_in_result() {
            return Ok(None);
        }
        match after_sign(tokens, Sign::Ampersand) {
            Some(after) => optional(self.postfix(room, after)),
            None => Ok(None),
        }
    }

    #[cycle(types)]
    fn postfix(
        self,
        room: usize,
        tokens: &[Token],
    ) -> Result<(PostfixType, &[Token]), Stop<Missing>>
        ensures end { LeavesAs postfix_left (spec.postfix (spec.inside room) self.middle (kinds_of tokens.now)) result }
        ensures reads { IfOk result (λ r. PostfixReading self.middle r.0 self.file tokens.now r.1.now) }
    {
        let at = place(self.file, tokens);
        let (first, mut rest) = self.primary(room, tokens)?;
        let mut whole = PostfixType::Primary(first);
        while let Some((suffix, after)) = suffix_behind(&whole, rest) {
            whole = suffixed(self.alloc, whole, suffix, at)?;
            rest = after;
        }
        Ok((whole, rest))
    }

    #[cycle(types)]
    fn primary(
        self,
        room: usize,
        tokens: &[Token],
    ) -> Result<(PrimaryType, &[Token]), Stop<Missing>>
        ensures end { LeavesAs primary_left (spec.primary (spec.inside room) self.middle (kinds_of tokens.now)) result }
        ensures reads { IfOk result (λ r. PrimaryReading self.middle r.0 self.file tokens.now r.1.now) }
    {
        let Some((first, rest)) = tokens.split_first() else {
            return Err(Stop::Fault(Missing));
        };
        let at = Place {
            file: self.file,
            at: first.at,
        };
        match &first.kind {
            TokenKind::Word(_) => name(self.file, self.middle, tokens).ok_or(Stop::Fault(Missing)),
            TokenKind::Keyword(Keyword::Int) => int_or_name(self.file, self.middle, tokens).ok_or(
                Stop::Fault(Missing),
            ),
            TokenKind::Keyword(k) => self.keyword_type(room, *k, tokens),
            TokenKind::Int(value) => Ok((
                PrimaryType::Literal(Literal::Int { value: *value, at }),
                rest,
            )),
            TokenKind::Str(text) => Ok((
                PrimaryType::Literal(Literal::Str {
                    text: text.share(),
                    at,
                }),
                rest,
            )),
            TokenKind::Sign(s) => self.sign_type(room, *s, tokens),
        }
    }
}

/// `T|U`
fn union_of(
    alloc: Global,
    left: TypeTree,
    right: IntersectionType,
    at: Place,
) -> Result<TypeTree, Memory>
    ensures pieces { IfOk result (λ t. type_pieces t ≡ (starts_piece at & type_pieces left & sign_piece Bar & intersection_pieces right)) }
    ensures formed { (m : _) → (type_end left).in_result ≡ false → type_is_formed left m ≡ true → intersection_is_formed right m ≡ true → IfOk result (λ t. type_is_formed t m ≡ true) }
    ensures end { IfOk result (λ t. (type_end t).in_result ≡ (intersection_end right).in_result) }
{
    let left = Box::new(alloc, left)?;
    let right = Box::new(alloc, right)?;
    Ok(TypeTree::Union { left, right, at })
}

/// `T&U`
fn both_of(
    alloc: Global,
    left: IntersectionType,
    right: PostfixType,
    at: Place,
) -> Result<IntersectionType, Memory>
    ensures pieces { IfOk result (λ t. intersection_pieces t ≡ (starts_piece at & intersection_pieces left & sign_piece Ampersand & postfix_type_pieces right)) }
    ensures formed { (m : _) → (intersection_end left).in_result ≡ false → intersection_is_formed left m ≡ true → postfix_type_is_formed right m ≡ true → IfOk result (λ t. intersection_is_formed t m ≡ true) }
    ensures end { IfOk result (λ t. (intersection_end t).in_result ≡ (postfix_type_end right).in_result) }
{
    let left = Box::new(alloc, left)?;
    let right = Box::new(alloc, right)?;
    Ok(IntersectionType::Both { left, right, at })
}
