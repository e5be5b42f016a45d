//! Types that hold lists: tuples, records and functions.
#![tactic(auto, using(crate::proofs::Readings::spelling, crate::proofs::TypeReadings::type_readings))]

ghost use Rattle.std.specs.Prelude.{◌≡◌, ◌≤◌, ◌&&◌, ℕ, Some, None, true, false, length, map, option_map, IfOk};
ghost use Rattle.std.specs.List.{list_all};
ghost use Rattle.bal_base.specs.declared.token.Sign.TheVariants.{Comma};
ghost use Rattle.bal_base.specs.declared.token.Keyword.TheVariants.{Isolated as IsolatedKey};
ghost use Rattle.bal_tree.specs.Pieces.{key_if, if_there, separated};
ghost use Rattle.bal_tree.specs.NamePieces.{word_pieces};
ghost use Rattle.bal_tree.specs.Spells.{Spells, kinds_of};
ghost use Rattle.bal_tree.specs.TypePieces.{type_pieces, param_type_pieces, param_types_pieces, as_rest, returning, with_last_boxed};
ghost use Rattle.bal_tree.specs.TypeRules.{type_is_formed, param_type_is_formed, param_types_are_formed};
ghost use Rattle.parse_types.specs.Reaches as spec;
ghost use Rattle.parse_types.specs.Reaches.{open_at};
ghost use Rattle.parse_types.specs.Listings.{rest_is_formed};
ghost use Rattle.parse_types.specs.Starts.{Leaves, LeavesAs, primary_left, PrimaryReading, Reading};

use crate::types::TypeReader;
use bal_base::{Keyword, Sign, Stop, Token};
use bal_tree::{ParamType, ParamTypes, PrimaryType, TypeTree, Word};
use token_steps::{Missing, after_key, after_sign, key, optional, place, sign, word};

/// Parts of one kind, and what takes the rest.
type Listed<T> = (Vec<T>, Option<Box<TypeTree>>);

impl TypeReader {
    #[cycle(types)]
    pub(crate) fn tuple(
        self,
        room: usize,
        tokens: &[Token],
    ) -> Result<(PrimaryType, &[Token]), Stop<Missing>>
        ensures end { LeavesAs primary_left (option_map open_at (spec.tuple (spec.inside room false) (kinds_of tokens.now))) result }
        ensures reads { IfOk result (λ r. PrimaryReading self.middle r.0 self.file tokens.now r.1.now) }
    {
        let at = place(self.file, tokens);
        let inside = sign(tokens, Sign::OpenBracket)?;
        if let Some(rest) = after_sign(inside, Sign::CloseBracket) {
            let members = Vec::new(self.alloc);
            return Ok((
                PrimaryType::Tuple {
                    members,
                    rest: None,
                    at,
                },
                rest,
            ));
        }
        let (listed, behind) = self.bracketed().type_list(room, inside)?;
        let rest = sign(behind, Sign::CloseBracket)?;
        let (members, last) = listed;
        Ok((
            PrimaryType::Tuple {
                members,
                rest: last,
                at,
            },
            rest,
        ))
    }

    /// `T, U`, and behind it `V...` where that stands there.
    #[cycle(types)]
    fn type_list(
        self,
        room: usize,
        tokens: &[Token],
    ) -> Result<(Listed<TypeTree>, &[Token]), Stop<Missing>>
        ensures end { Leaves (spec.type_list (spec.inside room self.middle) (kinds_of tokens.now)) result }
        ensures reads { IfOk result (λ r. Reading (list_all (λ t. type_is_formed t self.middle) r.0.0.items && rest_is_formed self.middle r.0.1)
            (separated Comma (with_last_boxed (λ t. as_rest (type_pieces t)) (map type_pieces r.0.0.items) r.0.1)) self.file tokens.now r.1.now) }
    {
        let mut members = Vec::new(self.alloc);
        let mut rest = tokens;
        'types: loop {
            let (t, behind) = self.inner(room, rest)?;
            if let Some(after) = after_sign(behind, Sign::Ellipsis) {
                return Ok(((members, Some(t)), after));
            }
            let member = Box::into_inner(t);
            members.push(member)?;
            match after_sign(behind, Sign::Comma) {
                Some(after) => rest = after,
                None => return Ok(((members, None), behind)),
            }
        }
    }

    #[cycle(types)]
    pub(crate) fn function_type(
        self,
        room: usize,
        tokens: &[Token],
    ) -> Result<(PrimaryType, &[Token]), Stop<Missing>>
        ensures end { LeavesAs primary_left (spec.function_type (spec.inside room) self.middle (kinds_of tokens.now)) result }
        ensures reads { IfOk result (λ r. PrimaryReading self.middle r.0 self.file tokens.now r.1.now) }
    {
        let at = place(self.file, tokens);
        let (isolated, rest) = isolated_if_there(tokens);
        let rest = key(rest, Keyword::Function)?;
        match optional(self.params(room, rest))? {
            None => Ok((PrimaryType::AnyFunction { isolated, at }, rest)),
            Some((params, rest)) => match optional(self.returns(room, rest))? {
                None => Ok((
                    PrimaryType::Function {
                        isolated,
                        params,
                        result: None,
                        at,
                    },
                    rest,
                )),
                Some((t, rest)) => Ok((
                    PrimaryType::Function {
                        isolated,
                        params,
                        result: Some(t),
                        at,
                    },
                    rest,
                )),
            },
        }
    }

    /// `returns T`
    #[cycle(types)]
    fn returns(
        self,
        room: usize,
        tokens: &[Token],
    ) -> Result<(Box<TypeTree>, &[Token]), Stop<Missing>>
        ensures end { Leaves (spec.returns (spec.inside room self.middle) (kinds_of tokens.now)) result }
        ensures reads { IfOk result (λ r. Reading (type_is_formed r.0.value self.middle) (returning (type_pieces r.0.value)) self.file tokens.now r.1.now) }
    {
        let rest = key(tokens, Keyword::Returns)?;
        self.inner(room, rest)
    }

    /// The parameters of a function type, in parentheses.
    #[cycle(types)]
    fn params(self, room: usize, tokens: &[Token]) -> Result<(ParamTypes, &[Token]), Stop<Missing>>
        ensures end { Leaves (spec.params (spec.inside room false) (kinds_of tokens.now)) result }
        ensures reads { IfOk result (λ r. Reading (param_types_are_formed r.0 false) (param_types_pieces r.0) self.file tokens.now r.1.now) }
    {
        let inside = sign(tokens, Sign::OpenParen)?;
        if let Some(rest) = after_sign(inside, Sign::CloseParen) {
            let none = Vec::new(self.alloc);
            let params = ParamTypes::new(none, None);
            return Ok((params, rest));
        }
        let (listed, behind) = self.bracketed().param_list(room, inside)?;
        let rest = sign(behind, Sign::CloseParen)?;
        let (members, last) = listed;
        let params = ParamTypes::new(members, last);
        Ok((params, rest))
    }

    /// `T a, U`, and behind it `V...` where that stands there.
    #[cycle(types)]
    fn param_list(
        self,
        room: usize,
        tokens: &[Token],
    ) -> Result<(Listed<ParamType>, &[Token]), Stop<Missing>>
        ensures end { Leaves (spec.param_list (spec.inside room self.middle) (kinds_of tokens.now)) result }
        ensures reads { IfOk result (λ r. Reading (list_all (λ p. param_type_is_formed p self.middle) r.0.0.items && rest_is_formed self.middle r.0.1)
            (separated Comma (with_last_boxed (λ t. as_rest (type_pieces t)) (map param_type_pieces r.0.0.items) r.0.1)) self.file tokens.now r.1.now) }
    {
        let mut members = Vec::new(self.alloc);
        let mut rest = tokens;
        'params: loop {
            let at = place(self.file, rest);
            let (ty, behind) = self.inner(room, rest)?;
            if let Some(after) = after_sign(behind, Sign::Ellipsis) {
                return Ok(((members, Some(ty)), after));
            }
            let (name, behind) = word_if_there(self.file, behind);
            let param = ParamType::new(ty, name, at);
            members.push(param)?;
            match after_sign(behind, Sign::Comma) {
                Some(after) => rest = after,
                None => return Ok(((members, None), behind)),
            }
        }
    }
}

/// Whether `isolated` stands at the front, and what follows it.
pub fn isolated_if_there(tokens: &[Token]) -> (bool, &[Token])
    ensures end { kinds_of result.1.now ≡ spec.isolated_if_there (kinds_of tokens.now) }
    ensures spells { (file : ℕ) → Spells file (key_if result.0 IsolatedKey) tokens.now result.1.now }
    ensures no_longer { length result.1.now ≤ length tokens.now }
{
    match after_key(tokens, Keyword::Isolated) {
        Some(rest) => (true, rest),
        None => (false, tokens),
    }
}

/// The word, if it is there.
fn word_if_there(file: u32, tokens: &[Token]) -> (Option<Word>, &[Token])
    ensures end { kinds_of result.1.now ≡ spec.word_if_there (kinds_of tokens.now) }
    ensures spells { Spells file (if_there word_pieces result.0) tokens.now result.1.now }
    ensures no_longer { length result.1.now ≤ length tokens.now }
{
    match word(file, tokens) {
        Some((w, rest)) => (Some(w), rest),
        None => (None, tokens),
    }
}
