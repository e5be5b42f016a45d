//! Primary types: those that are one word, or that begin or stand between brackets.
#![tactic(auto, using(crate::proofs::Readings::spelling, crate::proofs::TypeReadings::type_readings))]

ghost use Rattle.std.specs.Prelude.{◌≡◌, ◌⊎◌, true, false, option_map, MatchOption, IfSome, IfOk};
ghost use Rattle.bal_base.specs.declared.token.Sign.TheVariants.{Colon};
ghost use Rattle.bal_base.specs.declared.token.Keyword.TheVariants.{True as TrueKey, False as FalseKey};
ghost use Rattle.bal_tree.specs.Pieces.{sign as sign_piece, ◌&◌};
ghost use Rattle.bal_tree.specs.NamePieces.{word_pieces};
ghost use Rattle.bal_tree.specs.Spells.{kinds_of};
ghost use Rattle.bal_tree.specs.TypePieces.{builtin_key, type_pieces, in_angles as angle_pieces};
ghost use Rattle.bal_tree.specs.TypeRules.{primary_type_end, type_is_formed};
ghost use Rattle.bal_tree.specs.declared.types.PrimaryType.{Name};
ghost use Rattle.parse_types.specs.Reaches as spec;
ghost use Rattle.parse_types.specs.Reaches.{open_at};
ghost use Rattle.parse_types.specs.Starts.{Leaves, LeavesAs, primary_left, PrimaryReading, Reading};

use crate::types::TypeReader;
use bal_base::{Keyword, Place, Sign, Stop, Token};
use bal_tree::{BuiltinType, Literal, Prefix, PrimaryType, QualifiedName, TypeTree, Word};
use token_steps::{Missing, after_key, after_sign, int, key, optional, place, sign, word};

/// A name of a type, whose first token is a word.
pub(crate) fn name(file: u32, middle: bool, tokens: &[Token]) -> Option<(PrimaryType, &[Token])>
    ensures end { option_map (λ r. kinds_of r.1.now) result ≡ spec.name middle (kinds_of tokens.now) }
    ensures reads { IfSome result (λ r. PrimaryReading middle r.0 file tokens.now r.1.now) }
    ensures stays_open { IfSome result (λ r. (primary_type_end r.0).in_result ≡ false) }
{
    let at = place(file, tokens);
    let (first, rest) = word(file, tokens)?;
    if middle {
        return Some((type_name(None, first, at), rest));
    }
    match behind_colon(file, rest) {
        Some((second, rest)) => Some((type_name(Some(Prefix::Word(first)), second, at), rest)),
        None => Some((type_name(None, first, at), rest)),
    }
}

/// The word behind a colon.
fn behind_colon(file: u32, tokens: &[Token]) -> Option<(Word, &[Token])>
    ensures end { option_map (λ r. kinds_of r.1.now) result ≡ spec.colon_word (kinds_of tokens.now) }
    ensures reads { IfSome result (λ r. Reading true (sign_piece Colon & word_pieces r.0) file tokens.now r.1.now) }
{
    word(file, after_sign(tokens, Sign::Colon)?)
}

fn type_name(prefix: Option<Prefix>, word: Word, at: Place) -> PrimaryType
    ensures { result ≡ Name record { prefix = prefix; word = word; at = at } }
{
    PrimaryType::Name(QualifiedName { prefix, word, at })
}

/// `int`, or the name of a type that begins with it.
pub(crate) fn int_or_name(
    file: u32,
    middle: bool,
    tokens: &[Token],
) -> Option<(PrimaryType, &[Token])>
    ensures end { option_map (λ r. kinds_of r.1.now) result ≡ spec.int_or_name (kinds_of tokens.now) }
    ensures reads { IfSome result (λ r. PrimaryReading middle r.0 file tokens.now r.1.now) }
    ensures stays_open { IfSome result (λ r. (primary_type_end r.0).in_result ≡ false) }
{
    let at = place(file, tokens);
    let rest = after_key(tokens, Keyword::Int)?;
    match behind_colon(file, rest) {
        Some((second, rest)) => Some((type_name(Some(Prefix::Int { at }), second, at), rest)),
        None => {
            let builtin = BuiltinType::Int;
            Some((PrimaryType::Builtin { builtin, at }, rest))
        }
    }
}

/// The type that a keyword is.
fn builtin(k: Keyword) -> Option<BuiltinType>
    ensures { MatchOption result (spec.is_word_type k ≡ false ⊎ (k ≡ TrueKey ⊎ k ≡ FalseKey)) (λ b. (spec.is_word_type k ≡ true) × (k ≡ builtin_key b)) }
{
    match k {
        Keyword::String => Some(BuiltinType::String),
        Keyword::Boolean => Some(BuiltinType::Boolean),
        Keyword::Byte => Some(BuiltinType::Byte),
        Keyword::Any => Some(BuiltinType::Any),
        Keyword::AnyData => Some(BuiltinType::AnyData),
        Keyword::Never => Some(BuiltinType::Never),
        Keyword::ReadOnly => Some(BuiltinType::ReadOnly),
        _ => None,
    }
}

/// A type that is a keyword alone.
fn one_word(
    file: u32,
    middle: bool,
    k: Keyword,
    tokens: &[Token],
) -> Option<(PrimaryType, &[Token])>
    ensures end { option_map (λ r. kinds_of r.1.now) result ≡ spec.one_word k (kinds_of tokens.now) }
    ensures reads { IfSome result (λ r. PrimaryReading middle r.0 file tokens.now r.1.now) }
    ensures stays_open { IfSome result (λ r. (primary_type_end r.0).in_result ≡ false) }
{
    let at = place(file, tokens);
    let rest = after_key(tokens, k)?;
    match k {
        Keyword::True => Some((PrimaryType::Literal(Literal::True { at }), rest)),
        Keyword::False => Some((PrimaryType::Literal(Literal::False { at }), rest)),
        _ => {
            let builtin = builtin(k)?;
            Some((PrimaryType::Builtin { builtin, at }, rest))
        }
    }
}

/// `-1`
fn negative(file: u32, middle: bool, tokens: &[Token]) -> Option<(PrimaryType, &[Token])>
    ensures end { option_map (λ r. kinds_of r.1.now) result ≡ spec.negative (kinds_of tokens.now) }
    ensures reads { IfSome result (λ r. PrimaryReading middle r.0 file tokens.now r.1.now) }
    ensures stays_open { IfSome result (λ r. (primary_type_end r.0).in_result ≡ false) }
{
    let at = place(file, tokens);
    let (int, rest) = int(after_sign(tokens, Sign::Minus)?)?;
    Some((PrimaryType::Negative { int, at }, rest))
}

/// `()`
fn nil(file: u32, middle: bool, tokens: &[Token]) -> Option<(PrimaryType, &[Token])>
    ensures end { option_map (λ r. kinds_of r.1.now) result ≡ spec.nil (kinds_of tokens.now) }
    ensures reads { IfSome result (λ r. PrimaryReading middle r.0 file tokens.now r.1.now) }
    ensures stays_open { IfSome result (λ r. (primary_type_end r.0).in_result ≡ false) }
{
    let at = place(file, tokens);
    let inside = after_sign(tokens, Sign::OpenParen)?;
    let rest = after_sign(inside, Sign::CloseParen)?;
    Some((PrimaryType::Literal(Literal::Nil { at }), rest))
}

impl TypeReader {
    /// A type whose first token is this keyword, which is not `int`.
    #[cycle(types)]
    pub(crate) fn keyword_type(
        self,
        room: usize,
        k: Keyword,
        tokens: &[Token],
    ) -> Result<(PrimaryType, &[Token]), Stop<Missing>>
        ensures end { LeavesAs primary_left (spec.keyword_type (spec.inside room) self.middle k (kinds_of tokens.now)) result }
        ensures reads { IfOk result (λ r. PrimaryReading self.middle r.0 self.file tokens.now r.1.now) }
    {
        match k {
            Keyword::Map => self.map_type(room, tokens),
            Keyword::Future => self.future_type(room, tokens),
            Keyword::Error => self.error_type(room, tokens),
            Keyword::Record => self.record_type(room, tokens),
            Keyword::Function | Keyword::Isolated => self.function_type(room, tokens),
            _ => one_word(self.file, self.middle, k, tokens).ok_or(Stop::Fault(Missing)),
        }
    }

    /// A type whose first token is this sign.
    #[cycle(types)]
    pub(crate) fn sign_type(
        self,
        room: usize,
        s: Sign,
        tokens: &[Token],
    ) -> Result<(PrimaryType, &[Token]), Stop<Missing>>
        ensures end { LeavesAs primary_left (spec.sign_type (spec.inside room) self.middle s (kinds_of tokens.now)) result }
        ensures reads { IfOk result (λ r. PrimaryReading self.middle r.0 self.file tokens.now r.1.now) }
    {
        match s {
            Sign::Minus => negative(self.file, self.middle, tokens).ok_or(Stop::Fault(Missing)),
            Sign::OpenParen => match optional(self.parens(room, tokens))? {
                Some(found) => Ok(found),
                None => nil(self.file, self.middle, tokens).ok_or(Stop::Fault(Missing)),
            },
            Sign::OpenBracket => self.tuple(room, tokens),
            _ => Err(Stop::Fault(Missing)),
        }
    }

    /// `<T>`
    #[cycle(types)]
    fn in_angles(
        self,
        room: usize,
        tokens: &[Token],
    ) -> Result<(Box<TypeTree>, &[Token]), Stop<Missing>>
        ensures end { Leaves (spec.in_angles (spec.inside room self.middle) (kinds_of tokens.now)) result }
        ensures reads { IfOk result (λ r. Reading (type_is_formed r.0.value self.middle) (angle_pieces (type_pieces r.0.value)) self.file tokens.now r.1.now) }
    {
        let rest = sign(tokens, Sign::Less)?;
        let (t, rest) = self.inner(room, rest)?;
        let rest = sign(rest, Sign::Greater)?;
        Ok((t, rest))
    }

    #[cycle(types)]
    fn map_type(
        self,
        room: usize,
        tokens: &[Token],
    ) -> Result<(PrimaryType, &[Token]), Stop<Missing>>
        ensures end { LeavesAs primary_left (option_map open_at (spec.map_type (spec.inside room self.middle) (kinds_of tokens.now))) result }
        ensures reads { IfOk result (λ r. PrimaryReading self.middle r.0 self.file tokens.now r.1.now) }
    {
        let at = place(self.file, tokens);
        let rest = key(tokens, Keyword::Map)?;
        let (member, rest) = self.in_angles(room, rest)?;
        Ok((PrimaryType::Map { member, at }, rest))
    }

    #[cycle(types)]
    fn future_type(
        self,
        room: usize,
        tokens: &[Token],
    ) -> Result<(PrimaryType, &[Token]), Stop<Missing>>
        ensures end { LeavesAs primary_left (option_map open_at (spec.future_type (spec.inside room self.middle) (kinds_of tokens.now))) result }
        ensures reads { IfOk result (λ r. PrimaryReading self.middle r.0 self.file tokens.now r.1.now) }
    {
        let at = place(self.file, tokens);
        let rest = key(tokens, Keyword::Future)?;
        let (result, rest) = self.in_angles(room, rest)?;
        Ok((PrimaryType::Future { result, at }, rest))
    }

    /// `error`, with the detail's type in angles where one stands there.
    #[cycle(types)]
    fn error_type(
        self,
        room: usize,
        tokens: &[Token],
    ) -> Result<(PrimaryType, &[Token]), Stop<Missing>>
        ensures end { LeavesAs primary_left (option_map open_at (spec.error_type (spec.inside room self.middle) (kinds_of tokens.now))) result }
        ensures reads { IfOk result (λ r. PrimaryReading self.middle r.0 self.file tokens.now r.1.now) }
    {
        let at = place(self.file, tokens);
        let rest = key(tokens, Keyword::Error)?;
        match optional(self.in_angles(room, rest))? {
            Some((t, rest)) => Ok((
                PrimaryType::Error {
                    detail: Some(t),
                    at,
                },
                rest,
            )),
            None => Ok((PrimaryType::Error { detail: None, at }, rest)),
        }
    }

    /// `(T)`
    #[cycle(types)]
    fn parens(self, room: usize, tokens: &[Token]) -> Result<(PrimaryType, &[Token]), Stop<Missing>>
        ensures end { LeavesAs primary_left (option_map open_at (spec.parens (spec.inside room false) (kinds_of tokens.now))) result }
        ensures reads { IfOk result (λ r. PrimaryReading self.middle r.0 self.file tokens.now r.1.now) }
    {
        let at = place(self.file, tokens);
        let rest = sign(tokens, Sign::OpenParen)?;
        let (inner, rest) = self.bracketed().inner(room, rest)?;
        let rest = sign(rest, Sign::CloseParen)?;
        Ok((PrimaryType::Parens { inner, at }, rest))
    }
}
