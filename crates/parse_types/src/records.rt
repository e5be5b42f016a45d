//! Record types.
#![tactic(auto, using(crate::proofs::Readings::spelling, crate::proofs::TypeReadings::type_readings))]

ghost use Rattle.std.specs.Prelude.{◌≡◌, ◌≤◌, ◌&&◌, ℕ, Some, None, true, false, length, map, option_map, is_some, IfOk};
ghost use Rattle.std.specs.List.{list_all};
ghost use Rattle.bal_base.specs.declared.token.Sign.TheVariants.{Semicolon, OpenBraceBar, OpenBrace, Question, CloseBrace, CloseBraceBar};
ghost use Rattle.bal_tree.specs.declared.types.FieldTree.{out-FieldTree};
ghost use Rattle.bal_tree.specs.Pieces.{sign as sign_piece, sign_if, joined, ◌&◌};
ghost use Rattle.bal_tree.specs.NamePieces.{word_pieces};
ghost use Rattle.bal_tree.specs.Spells.{Spells, kinds_of};
ghost use Rattle.bal_tree.specs.TypePieces.{field_pieces};
ghost use Rattle.bal_tree.specs.TypeRules.{field_is_formed};
ghost use Rattle.parse_types.specs.Reaches as spec;
ghost use Rattle.parse_types.specs.Reaches.{open_at};
ghost use Rattle.parse_types.specs.Listings.{rest_is_formed, rest_field_pieces};
ghost use Rattle.parse_types.specs.Starts.{Leaves, LeavesAs, primary_left, PrimaryReading, Reading};

use crate::types::TypeReader;
use bal_base::{Keyword, Place, Sign, Stop, Token};
use bal_tree::{FieldTree, PrimaryType, TypeTree};
use token_steps::{Missing, after_sign, key, optional, place, sign, word};

/// Fields, and what takes the rest.
type Fields = (Vec<FieldTree>, Option<Box<TypeTree>>);

impl TypeReader {
    #[cycle(types)]
    pub(crate) fn record_type(
        self,
        room: usize,
        tokens: &[Token],
    ) -> Result<(PrimaryType, &[Token]), Stop<Missing>>
        ensures end { LeavesAs primary_left (option_map open_at (spec.record_type (spec.inside room false) (kinds_of tokens.now))) result }
        ensures reads { IfOk result (λ r. PrimaryReading self.middle r.0 self.file tokens.now r.1.now) }
    {
        let at = place(self.file, tokens);
        let rest = key(tokens, Keyword::Record)?;
        match after_sign(rest, Sign::OpenBraceBar) {
            Some(inside) => {
                let (listed, behind) = self.bracketed().closed_record(room, inside)?;
                let (fields, last) = listed;
                Ok((
                    PrimaryType::ClosedRecord {
                        fields,
                        rest: last,
                        at,
                    },
                    behind,
                ))
            }
            None => {
                let inside = sign(rest, Sign::OpenBrace)?;
                let (fields, behind) = self.bracketed().open_record(room, inside)?;
                Ok((PrimaryType::OpenRecord { fields, at }, behind))
            }
        }
    }

    /// What stands behind `record {|`.
    #[cycle(types)]
    fn closed_record(
        self,
        room: usize,
        tokens: &[Token],
    ) -> Result<(Fields, &[Token]), Stop<Missing>>
        ensures end { Leaves (spec.closed_record (spec.inside room self.middle) (kinds_of tokens.now)) result }
        ensures reads { IfOk result (λ r. Reading (list_all (λ f. field_is_formed f self.middle) r.0.0.items && rest_is_formed self.middle r.0.1)
            (joined (map field_pieces r.0.0.items) & rest_field_pieces r.0.1 & sign_piece CloseBraceBar) self.file tokens.now r.1.now) }
    {
        let (listed, behind) = self.fields(room, tokens)?;
        let rest = sign(behind, Sign::CloseBraceBar)?;
        Ok((listed, rest))
    }

    /// What stands behind `record {`.
    #[cycle(types)]
    fn open_record(
        self,
        room: usize,
        tokens: &[Token],
    ) -> Result<(Vec<FieldTree>, &[Token]), Stop<Missing>>
        ensures end { Leaves (spec.open_record (spec.inside room self.middle) (kinds_of tokens.now)) result }
        ensures reads { IfOk result (λ r. Reading (list_all (λ f. field_is_formed f self.middle) r.0.items)
            (joined (map field_pieces r.0.items) & sign_piece CloseBrace) self.file tokens.now r.1.now) }
    {
        let (listed, behind) = self.fields(room, tokens)?;
        let (fields, last) = listed;
        if last.is_some() {
            return Err(Stop::Fault(Missing));
        }
        let rest = sign(behind, Sign::CloseBrace)?;
        Ok((fields, rest))
    }

    /// Fields, and behind them `V...;` where that stands there.
    #[cycle(types)]
    fn fields(self, room: usize, tokens: &[Token]) -> Result<(Fields, &[Token]), Stop<Missing>>
        ensures end { LeavesAs (λ t ks. (is_some t.1, ks)) (spec.fields (spec.inside room self.middle) (kinds_of tokens.now)) result }
        ensures formed { IfOk result (λ r. (list_all (λ f. field_is_formed f self.middle) r.0.0.items && rest_is_formed self.middle r.0.1) ≡ true) }
        ensures spells { IfOk result (λ r. Spells self.file (joined (map field_pieces r.0.0.items) & rest_field_pieces r.0.1) tokens.now r.1.now) }
        ensures no_longer { IfOk result (λ r. length r.1.now ≤ length tokens.now) }
    {
        let mut members = Vec::new(self.alloc);
        let mut rest = tokens;
        'fields: loop {
            let at = place(self.file, rest);
            let Some((ty, behind)) = optional(self.inner(room, rest))? else {
                return Ok(((members, None), rest));
            };
            if let Some(after) = after_sign(behind, Sign::Ellipsis) {
                let after = sign(after, Sign::Semicolon)?;
                return Ok(((members, Some(ty)), after));
            }
            let (f, after) = field_behind(self.file, ty, at, behind)?;
            members.push(f)?;
            rest = after;
        }
    }
}

/// The field of this type, whose name stands here.
fn field_behind(
    file: u32,
    ty: Box<TypeTree>,
    at: Place,
    tokens: &[Token],
) -> Result<(FieldTree, &[Token]), Stop<Missing>>
    ensures end { Leaves (spec.field_behind (kinds_of tokens.now)) result }
    ensures ty { IfOk result (λ r. (out-FieldTree r.0).ty ≡ ty) }
    ensures at { IfOk result (λ r. (out-FieldTree r.0).at ≡ at) }
    ensures reads { IfOk result (λ r. Reading true (word_pieces (out-FieldTree r.0).name & sign_if (out-FieldTree r.0).optional Question & sign_piece Semicolon) file tokens.now r.1.now) }
{
    let Some((name, behind)) = word(file, tokens) else {
        return Err(Stop::Fault(Missing));
    };
    let (optional, behind) = question_if_there(behind);
    let rest = sign(behind, Sign::Semicolon)?;
    Ok((FieldTree::new(ty, name, optional, at), rest))
}

/// The sign `?`, if it is there.
fn question_if_there(tokens: &[Token]) -> (bool, &[Token])
    ensures end { kinds_of result.1.now ≡ spec.question_if_there (kinds_of tokens.now) }
    ensures spells { (file : ℕ) → Spells file (sign_if result.0 Question) tokens.now result.1.now }
    ensures no_longer { length result.1.now ≤ length tokens.now }
{
    match after_sign(tokens, Sign::Question) {
        Some(rest) => (true, rest),
        None => (false, tokens),
    }
}
