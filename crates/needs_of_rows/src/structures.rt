//! Rows of lists, mappings and errors that are made.
#![tactic(auto, using(crate::proofs::Finding::finding))]

ghost use Rattle.std.specs.Option.{option_copied};
ghost use Rattle.std.specs.Prelude.{◌≡◌, ◌↔◌, ◌<◌, ◌+◌, IfOk, IsTrue, Some, length, nat_le, not, option_map, slice_get};
ghost use Rattle.type_model.specs.Places.{item_type as type_at_place};
ghost use Rattle.code_needs.specs.Combining.{◌&◌, as_many as count_needs, at_most as most_needs, each, need, of_list as list_needs, of_mapping as mapping_needs, of_some, only_if};
ghost use Rattle.code_needs.specs.declared.kind.Kind.TheVariants.{ImmutableData, NilsOrErrors, Strings};
ghost use Rattle.code_needs.specs.Needs.{Below as IsBelow, FitsFields as FitsThese, HasErrorsOf as HasErrors, HasMade as HasAllMade, Names as HasName};
ghost use Rattle.code_needs.specs.RowNeeds.{items_fit as item_needs, may_stand as stand_needs, names_required as name_needs, what_pairs_need as pair_needs, within as within_needs};
ghost use Rattle.pair_questions.specs.Pairs.{pairs_of};
ghost use Rattle.needs_of_rows.specs.Finding.{Finds};
ghost use Rattle.needs_of_rows.specs.inner.FirstPairs.{first_pairs};
ghost use Rattle.needs_of_rows.specs.PairsTaken.{TakesPairs};

use crate::found::Found;
use crate::lists::{may_stand, may_stand_each};
use bal_base::Memory;
use code_needs::Kind;
use need_questions::NeedQuestion;
use pair_questions::{Members, Pair};
use std::alloc::Global;
use type_model::{AtomDef, FieldDef, SemType, Ty};

/// What is made: with which atom, whether it may change, and of how many items or pairs.
#[derive(Clone, Copy)]
pub struct Making {
    /// The atom.
    pub atom: u32,
    /// Whether it is immutable.
    pub immutable: bool,
    /// How many items or pairs there are.
    pub count: u32,
}

// ---- lists

/// The type at a place of a list: its own, or the rest's.
fn type_at<'c>(fixed: &'c [Ty], rest: &'c Option<Ty>, place: usize) -> Option<&'c Ty>
    ensures { option_copied result ≡ type_at_place fixed.now rest.now place }
{
    match fixed.get(place) {
        Some(t) => Some(t),
        None => rest.as_ref(),
    }
}

/// An item that fits its place.
fn item_fits<'c>(found: &mut Found<'c>, item: &'c SemType, t: Option<&'c Ty>)
    ensures { Finds (of_some (option_copied t.entry) (λ u. need (IsBelow item.now u.sem))) found.old found.new }
{
    match t {
        Some(t) => found.below(item, &t.sem),
        None => found.refuse(),
    }
}

/// Items that fit their places, from the first one on.
fn items_fit<'c>(found: &mut Found<'c>, items: &'c [SemType], fixed: &'c [Ty], rest: &'c Option<Ty>)
    ensures { Finds (item_needs items.now 0 fixed.now rest.now) found.old found.new }
{
    for (k, item) in items.iter().enumerate() {
        item_fits(found, item, type_at(fixed, rest, k));
    }
}

/// Whether there are no more fixed places than items.
fn are_at_most(fixed: &[Ty], count: usize) -> bool
    ensures { result ≡ nat_le (length fixed.now) count }
{
    fixed.len() <= count
}

/// No fewer items than there are fixed places.
fn at_most(found: &mut Found<'_>, fixed: &[Ty], count: usize)
    ensures { Finds (most_needs fixed.now count) found.old found.new }
{
    match are_at_most(fixed, count) {
        true => {}
        false => found.refuse(),
    }
}

/// Items for a list of these places.
fn items_in<'c>(
    found: &mut Found<'c>,
    fixed: &'c [Ty],
    rest: &'c Option<Ty>,
    items: &'c [SemType],
    count: usize,
)
    ensures { Finds (most_needs fixed.now count & item_needs items.now 0 fixed.now rest.now) found.old found.new }
{
    at_most(found, fixed, count);
    items_fit(found, items, fixed, rest);
}

/// Items for a list of this definition.
fn items_of_list<'c>(found: &mut Found<'c>, def: &'c AtomDef, items: &'c [SemType], count: usize)
    ensures { Finds (list_needs (Some def.now) (λ fixed rest. most_needs fixed count & item_needs items.now 0 fixed rest)) found.old found.new }
{
    match def {
        AtomDef::List { fixed, rest } => items_in(found, fixed.as_slice(), rest, items, count),
        AtomDef::Mapping { .. } => found.refuse(),
        AtomDef::Arrow { .. } => found.refuse(),
        AtomDef::Error { .. } => found.refuse(),
        AtomDef::Future { .. } => found.refuse(),
    }
}

/// Items for a list of this atom.
fn list_items<'c>(
    found: &mut Found<'c>,
    def: Option<&'c AtomDef>,
    items: &'c [SemType],
    count: usize,
)
    ensures { Finds (list_needs (option_copied def.entry) (λ fixed rest. most_needs fixed count & item_needs items.now 0 fixed rest)) found.old found.new }
{
    match def {
        Some(def) => items_of_list(found, def, items, count),
        None => found.refuse(),
    }
}

/// So many items of a list with the atom, which is then a result.
pub fn makes_list<'c>(
    found: &mut Found<'c>,
    def: Option<&'c AtomDef>,
    items: &'c [SemType],
    making: Making,
    given: Option<&'c SemType>,
)
    ensures { Finds (count_needs items.now making.count & list_needs (option_copied def.entry) (λ fixed rest. most_needs fixed making.count & item_needs items.now 0 fixed rest) & each (stand_needs making.immutable) items.now & of_some (option_copied given.entry) (λ r. need (HasAllMade r making.atom making.immutable))) found.old found.new }
{
    found.as_many(items, making.count as usize);
    list_items(found, def, items, making.count as usize);
    may_stand_each(found, making.immutable, items);
    found.has_made(given, making.atom, making.immutable);
}

// ---- pairs

/// Whether there are two operands for each of so many pairs.
fn are_pairs(operands: &[SemType], count: u32) -> bool
    ensures { IsTrue result ↔ (length operands.now ≡ count + count) }
{
    let pairs = count as usize;
    operands.len() == pairs + pairs
}

/// The pair whose key is at the place.
fn pair_at<'c>(operands: &'c [SemType], place: usize) -> Pair<'c>
    requires { place + 1 < length operands.now }
    ensures key { slice_get operands.now place ≡ Some result.key.now }
    ensures value { slice_get operands.now (place + 1) ≡ Some result.value.now }
{
    let behind = place + 1;
    Pair {
        key: &operands[place],
        value: &operands[behind],
    }
}

/// So many pairs, of as many operands.
fn taken_pairs<'c>(
    alloc: Global,
    operands: &'c [SemType],
    count: u32,
) -> Result<Vec<Pair<'c>>, Memory>
    requires { length operands.now ≡ count + count }
    ensures { IfOk result (λ taken. pairs_of taken.items ≡ first_pairs count operands.now) }
{
    let mut taken = Vec::new(alloc);
    for k in 0..count as usize {
        taken.push(pair_at(operands, k + k))?;
    }
    Ok(taken)
}

/// So many pairs, as they are found where there may be others.
fn all_pairs<'c>(
    alloc: Global,
    operands: &'c [SemType],
    count: u32,
) -> Result<Option<Vec<Pair<'c>>>, Memory>
    requires { length operands.now ≡ count + count }
    ensures { IfOk result (λ taken. TakesPairs count operands.now (option_map (λ v. v.items) taken)) }
{
    match taken_pairs(alloc, operands, count) {
        Ok(taken) => Ok(Some(taken)),
        Err(memory) => Err(memory),
    }
}

/// The operands in pairs, where they are so many pairs.
pub fn pairs_in<'c>(
    alloc: Global,
    operands: &'c [SemType],
    count: u32,
) -> Result<Option<Vec<Pair<'c>>>, Memory>
    ensures { IfOk result (λ taken. TakesPairs count operands.now (option_map (λ v. v.items) taken)) }
{
    match are_pairs(operands, count) {
        true => all_pairs(alloc, operands, count),
        false => Ok(None),
    }
}

/// Keys that are strings.
fn string_keys<'c>(found: &mut Found<'c>, pairs: &'c [Pair<'c>])
    ensures { Finds (each (λ p. within_needs p.0 Strings) (pairs_of pairs.now)) found.old found.new }
{
    for pair in pairs {
        found.within(pair.key, Kind::Strings);
    }
}

/// Values that may stand in the structure.
fn values_stand<'c>(found: &mut Found<'c>, immutable: bool, pairs: &'c [Pair<'c>])
    ensures { Finds (each (λ p. stand_needs immutable p.1) (pairs_of pairs.now)) found.old found.new }
{
    for pair in pairs {
        may_stand(found, immutable, pair.value);
    }
}

/// Pairs that fit what the mapping may have.
fn pairs_fit<'c>(
    found: &mut Found<'c>,
    fields: &'c [FieldDef],
    rest: &'c Option<Ty>,
    pairs: &'c [Pair<'c>],
)
    ensures { Finds (each (λ p. need (FitsThese fields.now rest.now p)) (pairs_of pairs.now)) found.old found.new }
{
    for pair in pairs {
        found.ask(NeedQuestion::FitsFields(Members { fields, rest }, *pair));
    }
}

/// A field that isn't optional is named.
fn name_required<'c>(found: &mut Found<'c>, field: &'c FieldDef, pairs: &'c [Pair<'c>])
    ensures { Finds (only_if (not field.now.optional) (need (HasName (pairs_of pairs.now) field.now.name))) found.old found.new }
{
    match field.optional {
        true => {}
        false => found.ask(NeedQuestion::Names(pairs, &field.name)),
    }
}

/// Each field that isn't optional is named.
fn names_required<'c>(found: &mut Found<'c>, fields: &'c [FieldDef], pairs: &'c [Pair<'c>])
    ensures { Finds (name_needs fields.now (pairs_of pairs.now)) found.old found.new }
{
    for field in fields {
        name_required(found, field, pairs);
    }
}

/// What the pairs of a mapping need of its members.
fn members_fit<'c>(
    found: &mut Found<'c>,
    fields: &'c [FieldDef],
    rest: &'c Option<Ty>,
    pairs: &'c [Pair<'c>],
)
    ensures { Finds (pair_needs fields.now rest.now (pairs_of pairs.now)) found.old found.new }
{
    pairs_fit(found, fields, rest, pairs);
    names_required(found, fields, pairs);
}

/// Pairs for a mapping of this definition.
fn pairs_of_mapping<'c>(found: &mut Found<'c>, def: &'c AtomDef, pairs: &'c [Pair<'c>])
    ensures { Finds (mapping_needs (Some def.now) (λ fields rest. pair_needs fields rest (pairs_of pairs.now))) found.old found.new }
{
    match def {
        AtomDef::Mapping { fields, rest } => members_fit(found, fields.as_slice(), rest, pairs),
        AtomDef::List { .. } => found.refuse(),
        AtomDef::Arrow { .. } => found.refuse(),
        AtomDef::Error { .. } => found.refuse(),
        AtomDef::Future { .. } => found.refuse(),
    }
}

/// Pairs for a mapping of this atom.
fn mapping_pairs<'c>(found: &mut Found<'c>, def: Option<&'c AtomDef>, pairs: &'c [Pair<'c>])
    ensures { Finds (mapping_needs (option_copied def.entry) (λ fields rest. pair_needs fields rest (pairs_of pairs.now))) found.old found.new }
{
    match def {
        Some(def) => pairs_of_mapping(found, def, pairs),
        None => found.refuse(),
    }
}

/// Pairs of a mapping with the atom, which is then a result.
pub fn makes_mapping<'c>(
    found: &mut Found<'c>,
    def: Option<&'c AtomDef>,
    pairs: &'c [Pair<'c>],
    making: Making,
    given: Option<&'c SemType>,
)
    ensures { Finds (each (λ p. within_needs p.0 Strings) (pairs_of pairs.now) & mapping_needs (option_copied def.entry) (λ fields rest. pair_needs fields rest (pairs_of pairs.now)) & each (λ p. stand_needs making.immutable p.1) (pairs_of pairs.now) & of_some (option_copied given.entry) (λ r. need (HasAllMade r making.atom making.immutable))) found.old found.new }
{
    string_keys(found, pairs);
    mapping_pairs(found, def, pairs);
    values_stand(found, making.immutable, pairs);
    found.has_made(given, making.atom, making.immutable);
}

// ---- errors

/// Keys that are strings, and values that are immutable data.
fn details<'c>(found: &mut Found<'c>, pairs: &'c [Pair<'c>])
    ensures { Finds (each (λ p. within_needs p.0 Strings & within_needs p.1 ImmutableData) (pairs_of pairs.now)) found.old found.new }
{
    for pair in pairs {
        found.both_within(pair.key, Kind::Strings, pair.value, Kind::ImmutableData);
    }
}

/// A message, a cause or nil, and details of an error, which is then a result.
pub fn makes_error<'c>(
    found: &mut Found<'c>,
    message: &'c SemType,
    cause: &'c SemType,
    pairs: &'c [Pair<'c>],
    given: Option<&'c SemType>,
)
    ensures { Finds (within_needs message.now Strings & within_needs cause.now NilsOrErrors & each (λ p. within_needs p.0 Strings & within_needs p.1 ImmutableData) (pairs_of pairs.now) & of_some (option_copied given.entry) (λ r. need (HasErrors r (pairs_of pairs.now)))) found.old found.new }
{
    found.both_within(message, Kind::Strings, cause, Kind::NilsOrErrors);
    details(found, pairs);
    found.has_errors(given, pairs);
}
