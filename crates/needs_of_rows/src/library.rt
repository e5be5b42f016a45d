//! Rows of the library's calls.
#![tactic(auto, using(crate::proofs::Finding::finding))]

ghost use Rattle.std.specs.Option.{option_copied};
ghost use Rattle.std.specs.Prelude.{Some};
ghost use Rattle.code_needs.specs.Combining.{◌&◌, absent as absent_needs, each, need, none as none_needs, nothing as no_needs, of_list as list_needs, of_some, one, one_and_more, three, two};
ghost use Rattle.code_needs.specs.declared.kind.Kind.TheVariants.{Anydata, Booleans, Integers, Lists, Mappings, Nils, Strings};
ghost use Rattle.code_needs.specs.Needs.{PartHas as HasEachOf, PartIn as IsPartIn};
ghost use Rattle.code_needs.specs.RowNeeds.{has as has_needs, has_all as all_needs, makes_none as none_made, part_of as part_needs, prompted as prompt_needs, within as within_needs};
ghost use Rattle.needs_of_rows.specs.Finding.{Finds};
ghost use Rattle.needs_of_rows.specs.inner.ItemsMade.{items_of, list_of as made_needs};

use crate::found::Found;
use crate::lists::has_each;
use crate::operands::{first_of, one_of, three_of, two_of};
use code_needs::Kind;
use type_model::{AtomDef, Keys, SemType, Ty};

// ---- no list is made

/// No list is made.
fn no_atom(found: &mut Found<'_>, atom: Option<u32>)
    ensures { Finds (absent_needs atom) found.old found.new }
{
    match atom {
        Some(_) => found.refuse(),
        None => {}
    }
}

/// No list is made, and a result has all of a kind.
pub fn gives_kind<'c>(
    found: &mut Found<'c>,
    atom: Option<u32>,
    wanted: Kind,
    given: Option<&'c SemType>,
)
    ensures { Finds (none_made atom (has_needs (option_copied given.entry) wanted)) found.old found.new }
{
    no_atom(found, atom);
    found.has(given, wanted);
}

/// No list is made, and a result has all of a type.
fn gives_type<'c>(
    found: &mut Found<'c>,
    atom: Option<u32>,
    t: &'c SemType,
    given: Option<&'c SemType>,
)
    ensures { Finds (none_made atom (all_needs (option_copied given.entry) t.now)) found.old found.new }
{
    no_atom(found, atom);
    found.has_all(given, t);
}

/// No list is made, and a result has all that stands at such a key.
fn gives_part<'c>(
    found: &mut Found<'c>,
    atom: Option<u32>,
    whole: &'c SemType,
    keys: &'c Keys,
    given: Option<&'c SemType>,
)
    ensures { Finds (none_made atom (of_some (option_copied given.entry) (λ r. need (IsPartIn whole.now keys.now r)))) found.old found.new }
{
    no_atom(found, atom);
    found.has_part(given, whole, keys);
}

/// One operand of a kind, and a result with all of a kind.
pub fn call_on_one<'c>(
    found: &mut Found<'c>,
    operands: &'c [SemType],
    kind: Kind,
    atom: Option<u32>,
    wanted: Kind,
    given: Option<&'c SemType>,
)
    ensures { Finds (one operands.now (λ a. within_needs a kind & none_made atom (has_needs (option_copied given.entry) wanted))) found.old found.new }
{
    match one_of(operands) {
        Some(a) => {
            found.within(a, kind);
            gives_kind(found, atom, wanted, given);
        }
        None => found.refuse(),
    }
}

/// `v.toString()`
pub fn writes_text<'c>(
    found: &mut Found<'c>,
    operands: &'c [SemType],
    atom: Option<u32>,
    given: Option<&'c SemType>,
)
    ensures { Finds (one operands.now (λ v. none_made atom (has_needs (option_copied given.entry) Strings))) found.old found.new }
{
    match one_of(operands) {
        Some(_) => gives_kind(found, atom, Kind::Strings, given),
        None => found.refuse(),
    }
}

/// `v.clone()`
pub fn copies<'c>(
    found: &mut Found<'c>,
    operands: &'c [SemType],
    atom: Option<u32>,
    given: Option<&'c SemType>,
)
    ensures { Finds (one operands.now (λ v. within_needs v Anydata & none_made atom (all_needs (option_copied given.entry) v))) found.old found.new }
{
    match one_of(operands) {
        Some(v) => {
            found.within(v, Kind::Anydata);
            gives_type(found, atom, v, given);
        }
        None => found.refuse(),
    }
}

/// An operand of a kind and a string, and a boolean: `s.startsWith(t)`, `m.hasKey(k)`.
pub fn tests_string<'c>(
    found: &mut Found<'c>,
    operands: &'c [SemType],
    first: Kind,
    atom: Option<u32>,
    given: Option<&'c SemType>,
)
    ensures { Finds (two operands.now (λ s t. within_needs s first & within_needs t Strings & none_made atom (has_needs (option_copied given.entry) Booleans))) found.old found.new }
{
    match two_of(operands) {
        Some((s, t)) => {
            found.both_within(s, first, t, Kind::Strings);
            gives_kind(found, atom, Kind::Booleans, given);
        }
        None => found.refuse(),
    }
}

/// One operand, whatever it is.
fn alone<'c>(found: &mut Found<'c>, operands: &'c [SemType])
    ensures { Finds (one operands.now (λ s. no_needs)) found.old found.new }
{
    match one_of(operands) {
        Some(_) => {}
        None => found.refuse(),
    }
}

/// No operand, or a prompt.
fn prompted<'c>(found: &mut Found<'c>, operands: &'c [SemType])
    ensures { Finds (prompt_needs operands.now) found.old found.new }
{
    match operands.first() {
        None => {}
        Some(_) => alone(found, operands),
    }
}

/// `io:readln()`, `io:readln(p)`
pub fn reads_line<'c>(
    found: &mut Found<'c>,
    operands: &'c [SemType],
    atom: Option<u32>,
    given: Option<&'c SemType>,
)
    ensures { Finds (prompt_needs operands.now & none_made atom (has_needs (option_copied given.entry) Strings)) found.old found.new }
{
    prompted(found, operands);
    gives_kind(found, atom, Kind::Strings, given);
}

/// A whole of a kind, a first index, and an end.
fn between<'c>(found: &mut Found<'c>, operands: &'c [SemType], whole: Kind)
    ensures { Finds (three operands.now (λ a from to. within_needs a whole & within_needs from Integers & within_needs to Integers)) found.old found.new }
{
    match three_of(operands) {
        Some((a, from, to)) => {
            found.within(a, whole);
            found.both_within(from, Kind::Integers, to, Kind::Integers);
        }
        None => found.refuse(),
    }
}

/// A whole of a kind, a first index, and an end or none.
pub(crate) fn part_of<'c>(found: &mut Found<'c>, operands: &'c [SemType], whole: Kind)
    ensures { Finds (part_needs whole operands.now) found.old found.new }
{
    match two_of(operands) {
        Some((a, from)) => found.both_within(a, whole, from, Kind::Integers),
        None => between(found, operands, whole),
    }
}

/// `s.substring(a)`, `s.substring(a, b)`
pub fn takes_substring<'c>(
    found: &mut Found<'c>,
    operands: &'c [SemType],
    atom: Option<u32>,
    given: Option<&'c SemType>,
)
    ensures { Finds (part_needs Strings operands.now & none_made atom (has_needs (option_copied given.entry) Strings)) found.old found.new }
{
    part_of(found, operands, Kind::Strings);
    gives_kind(found, atom, Kind::Strings, given);
}

/// `l.push(v, w)`. `keys` is all indexes.
pub fn pushes<'c>(
    found: &mut Found<'c>,
    operands: &'c [SemType],
    keys: &'c Keys,
    atom: Option<u32>,
    given: Option<&'c SemType>,
)
    ensures { Finds (one_and_more operands.now (λ l values. within_needs l Lists & each (λ v. need (HasEachOf l keys.now v)) values & none_made atom (has_needs (option_copied given.entry) Nils))) found.old found.new }
{
    match first_of(operands) {
        Some((l, more)) => {
            found.within(l, Kind::Lists);
            has_each(found, l, keys, more);
            gives_kind(found, atom, Kind::Nils, given);
        }
        None => found.refuse(),
    }
}

/// `l.pop()`. `keys` is all indexes.
pub fn pops<'c>(
    found: &mut Found<'c>,
    operands: &'c [SemType],
    keys: &'c Keys,
    atom: Option<u32>,
    given: Option<&'c SemType>,
)
    ensures { Finds (one operands.now (λ l. within_needs l Lists & none_made atom (of_some (option_copied given.entry) (λ r. need (IsPartIn l keys.now r))))) found.old found.new }
{
    match one_of(operands) {
        Some(l) => {
            found.within(l, Kind::Lists);
            gives_part(found, atom, l, keys, given);
        }
        None => found.refuse(),
    }
}

/// `l.remove(i)`. `keys` is all indexes.
pub fn removes_item<'c>(
    found: &mut Found<'c>,
    operands: &'c [SemType],
    keys: &'c Keys,
    atom: Option<u32>,
    given: Option<&'c SemType>,
)
    ensures { Finds (two operands.now (λ l i. within_needs l Lists & within_needs i Integers & none_made atom (of_some (option_copied given.entry) (λ r. need (IsPartIn l keys.now r))))) found.old found.new }
{
    match two_of(operands) {
        Some((l, i)) => {
            found.both_within(l, Kind::Lists, i, Kind::Integers);
            gives_part(found, atom, l, keys, given);
        }
        None => found.refuse(),
    }
}

/// `m.get(k)`, `m.remove(k)`. `keys` is all keys.
pub fn gets_member<'c>(
    found: &mut Found<'c>,
    operands: &'c [SemType],
    keys: &'c Keys,
    atom: Option<u32>,
    given: Option<&'c SemType>,
)
    ensures { Finds (two operands.now (λ m k. within_needs m Mappings & within_needs k Strings & none_made atom (of_some (option_copied given.entry) (λ r. need (IsPartIn m keys.now r))))) found.old found.new }
{
    match two_of(operands) {
        Some((m, k)) => {
            found.both_within(m, Kind::Mappings, k, Kind::Strings);
            gives_part(found, atom, m, keys, given);
        }
        None => found.refuse(),
    }
}

// ---- a list is made

/// What the items of a list that is made are to have.
#[derive(Clone, Copy)]
pub(crate) enum Items<'c> {
    /// All of a kind.
    Of(Kind),
    /// All that stands at such a key.
    Parts(&'c SemType, &'c Keys),
}

/// Items of this type have it.
fn has_items<'c>(found: &mut Found<'c>, t: &'c SemType, items: Items<'c>)
    ensures { Finds (items_of items.entry t.now) found.old found.new }
{
    match items {
        Items::Of(kind) => found.has_kind(t, kind),
        Items::Parts(whole, keys) => found.has_part(Some(t), whole, keys),
    }
}

/// There are items beyond the fixed ones, and they have it.
fn has_rest<'c>(found: &mut Found<'c>, rest: &'c Option<Ty>, items: Items<'c>)
    ensures { Finds (of_some rest.now (λ t. items_of items.entry t.sem)) found.old found.new }
{
    match rest {
        Some(t) => has_items(found, &t.sem, items),
        None => found.refuse(),
    }
}

/// There are no fixed items.
fn none_fixed(found: &mut Found<'_>, fixed: &[Ty])
    ensures { Finds (none_needs fixed.now) found.old found.new }
{
    match fixed.first() {
        None => {}
        Some(_) => found.refuse(),
    }
}

/// There are no fixed items, and those beyond have it.
fn rest_alone<'c>(found: &mut Found<'c>, fixed: &'c [Ty], rest: &'c Option<Ty>, items: Items<'c>)
    ensures { Finds (none_needs fixed.now & of_some rest.now (λ t. items_of items.entry t.sem)) found.old found.new }
{
    none_fixed(found, fixed);
    has_rest(found, rest, items);
}

/// The definition is one of lists without fixed items, whose items have it.
fn list_by<'c>(found: &mut Found<'c>, def: &'c AtomDef, items: Items<'c>)
    ensures { Finds (list_needs (Some def.now) (λ fixed rest. none_needs fixed & of_some rest (λ t. items_of items.entry t.sem))) found.old found.new }
{
    match def {
        AtomDef::List { fixed, rest } => rest_alone(found, fixed.as_slice(), rest, items),
        AtomDef::Mapping { .. } => found.refuse(),
        AtomDef::Arrow { .. } => found.refuse(),
        AtomDef::Error { .. } => found.refuse(),
        AtomDef::Future { .. } => found.refuse(),
    }
}

/// The atom is one of lists without fixed items, whose items have it.
fn list_of<'c>(found: &mut Found<'c>, def: Option<&'c AtomDef>, items: Items<'c>)
    ensures { Finds (list_needs (option_copied def.entry) (λ fixed rest. none_needs fixed & of_some rest (λ t. items_of items.entry t.sem))) found.old found.new }
{
    match def {
        Some(def) => list_by(found, def, items),
        None => found.refuse(),
    }
}

/// Such a list is made, and a result has all of the atom's type.
pub(crate) fn gives_list<'c>(
    found: &mut Found<'c>,
    def: Option<&'c AtomDef>,
    items: Items<'c>,
    own: &'c SemType,
    given: Option<&'c SemType>,
)
    ensures { Finds (made_needs (option_copied def.entry) items.entry own.now (option_copied given.entry)) found.old found.new }
{
    list_of(found, def, items);
    found.has_all(given, own);
}
