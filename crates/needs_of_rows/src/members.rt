//! Rows of what stands in lists and mappings.
#![tactic(auto, using(crate::proofs::Finding::finding))]

ghost use Rattle.std.specs.Option.{option_copied};
ghost use Rattle.code_needs.specs.Combining.{◌&◌, absent as absent_needs, need, of_some, one, three, two};
ghost use Rattle.code_needs.specs.declared.kind.Kind.TheVariants.{Integers, Lists, Mappings, MappingsOrNils, Nils, Strings};
ghost use Rattle.code_needs.specs.Needs.{Has as HasKind, HasField as HasThisField, ItemHas as ItemHasAll, ItemIn as IsItemIn, MemberHas as MemberHasAll, MemberIn as IsMemberIn, PartIn as IsPartIn};
ghost use Rattle.code_needs.specs.RowNeeds.{within as within_needs};
ghost use Rattle.needs_of_rows.specs.Finding.{Finds};

use crate::found::Found;
use crate::operands::{one_of, three_of, two_of};
use bal_base::Text;
use code_needs::Kind;
use code_verifier::{OfMembers, OfParts, Question};
use need_questions::NeedQuestion;
use type_model::{Keys, SemType};

// ---- results

/// What stands at an index.
fn has_item<'c>(found: &mut Found<'c>, given: Option<&'c SemType>, l: &'c SemType, i: &'c SemType)
    ensures { Finds (of_some (option_copied given.entry) (λ r. need (IsItemIn l.now i.now r))) found.old found.new }
{
    match given {
        Some(r) => {
            found.ask(NeedQuestion::Plain(Question::Members(OfMembers::ItemIn(l, i, r))));
        }
        None => found.refuse(),
    }
}

/// What stands at a key is in the type, and so is nil.
fn member_or_nil<'c>(found: &mut Found<'c>, m: &'c SemType, k: &'c SemType, r: &'c SemType)
    ensures { Finds (need (IsMemberIn m.now k.now r.now) & need (HasKind r.now Nils)) found.old found.new }
{
    found.ask(NeedQuestion::Plain(Question::Members(OfMembers::MemberIn(m, k, r))));
    found.has_kind(r, Kind::Nils);
}

/// What stands at a key, and nil.
fn has_member<'c>(found: &mut Found<'c>, given: Option<&'c SemType>, m: &'c SemType, k: &'c SemType)
    ensures { Finds (of_some (option_copied given.entry) (λ r. need (IsMemberIn m.now k.now r) & need (HasKind r Nils))) found.old found.new }
{
    match given {
        Some(r) => member_or_nil(found, m, k, r),
        None => found.refuse(),
    }
}

/// What stands at such a key is in the type, and so are all shapes of a kind.
fn part_or<'c>(
    found: &mut Found<'c>,
    whole: &'c SemType,
    keys: &'c Keys,
    kind: Kind,
    r: &'c SemType,
)
    ensures { Finds (need (IsPartIn whole.now keys.now r.now) & need (HasKind r.now kind)) found.old found.new }
{
    found.ask(NeedQuestion::Plain(Question::Parts(OfParts::PartIn(whole, keys, r))));
    found.has_kind(r, kind);
}

/// What stands at such a key, and all shapes of a kind.
pub fn has_part_or<'c>(
    found: &mut Found<'c>,
    given: Option<&'c SemType>,
    whole: &'c SemType,
    keys: &'c Keys,
    kind: Kind,
)
    ensures { Finds (of_some (option_copied given.entry) (λ r. need (IsPartIn whole.now keys.now r) & need (HasKind r kind))) found.old found.new }
{
    match given {
        Some(r) => part_or(found, whole, keys, kind, r),
        None => found.refuse(),
    }
}

// ---- reads

/// A list and an index, and the item.
pub fn gets_item<'c>(found: &mut Found<'c>, operands: &'c [SemType], given: Option<&'c SemType>)
    ensures { Finds (two operands.now (λ l i. within_needs l Lists & within_needs i Integers & of_some (option_copied given.entry) (λ r. need (IsItemIn l i r)))) found.old found.new }
{
    match two_of(operands) {
        Some((l, i)) => {
            found.both_within(l, Kind::Lists, i, Kind::Integers);
            has_item(found, given, l, i);
        }
        None => found.refuse(),
    }
}

/// A mapping and a key, and the member or nil.
pub fn gets_key<'c>(found: &mut Found<'c>, operands: &'c [SemType], given: Option<&'c SemType>)
    ensures { Finds (two operands.now (λ m k. within_needs m Mappings & within_needs k Strings & of_some (option_copied given.entry) (λ r. need (IsMemberIn m k r) & need (HasKind r Nils)))) found.old found.new }
{
    match two_of(operands) {
        Some((m, k)) => {
            found.both_within(m, Kind::Mappings, k, Kind::Strings);
            has_member(found, given, m, k);
        }
        None => found.refuse(),
    }
}

/// A mapping that has the field, and its member. `keys` is the field alone.
pub fn gets_field<'c>(
    found: &mut Found<'c>,
    operands: &'c [SemType],
    name: &'c Text,
    keys: &'c Keys,
    given: Option<&'c SemType>,
)
    ensures { Finds (one operands.now (λ m. need (HasThisField m name.now) & of_some (option_copied given.entry) (λ r. need (IsPartIn m keys.now r)))) found.old found.new }
{
    match one_of(operands) {
        Some(m) => {
            found.ask(NeedQuestion::HasField(m, name));
            found.has_part(given, m, keys);
        }
        None => found.refuse(),
    }
}

/// A mapping or nil, and the member or nil. `keys` is the field alone.
pub fn gets_optional<'c>(
    found: &mut Found<'c>,
    operands: &'c [SemType],
    keys: &'c Keys,
    given: Option<&'c SemType>,
)
    ensures { Finds (one operands.now (λ m. within_needs m MappingsOrNils & of_some (option_copied given.entry) (λ r. need (IsPartIn m keys.now r) & need (HasKind r Nils)))) found.old found.new }
{
    match one_of(operands) {
        Some(m) => {
            found.within(m, Kind::MappingsOrNils);
            has_part_or(found, given, m, keys, Kind::Nils);
        }
        None => found.refuse(),
    }
}

// ---- stores

/// A list, an index, and a value that may stand there.
fn stores_item<'c>(found: &mut Found<'c>, operands: &'c [SemType])
    ensures { Finds (three operands.now (λ l i v. within_needs l Lists & within_needs i Integers & need (ItemHasAll l i v))) found.old found.new }
{
    match three_of(operands) {
        Some((l, i, v)) => {
            found.both_within(l, Kind::Lists, i, Kind::Integers);
            found.ask(NeedQuestion::Plain(Question::Members(OfMembers::ItemHas(l, i, v))));
        }
        None => found.refuse(),
    }
}

/// A list, an index and a value, and no result.
pub fn sets_item<'c>(found: &mut Found<'c>, operands: &'c [SemType], given: Option<&'c SemType>)
    ensures { Finds (three operands.now (λ l i v. within_needs l Lists & within_needs i Integers & need (ItemHasAll l i v)) & absent_needs (option_copied given.entry)) found.old found.new }
{
    stores_item(found, operands);
    found.absent(given);
}

/// A mapping, a key, and a value that may stand there.
fn stores_member<'c>(found: &mut Found<'c>, operands: &'c [SemType])
    ensures { Finds (three operands.now (λ m k v. within_needs m Mappings & within_needs k Strings & need (MemberHasAll m k v))) found.old found.new }
{
    match three_of(operands) {
        Some((m, k, v)) => {
            found.both_within(m, Kind::Mappings, k, Kind::Strings);
            found.ask(NeedQuestion::Plain(Question::Members(OfMembers::MemberHas(m, k, v))));
        }
        None => found.refuse(),
    }
}

/// A mapping, a key and a value, and no result.
pub fn sets_key<'c>(found: &mut Found<'c>, operands: &'c [SemType], given: Option<&'c SemType>)
    ensures { Finds (three operands.now (λ m k v. within_needs m Mappings & within_needs k Strings & need (MemberHasAll m k v)) & absent_needs (option_copied given.entry)) found.old found.new }
{
    stores_member(found, operands);
    found.absent(given);
}
