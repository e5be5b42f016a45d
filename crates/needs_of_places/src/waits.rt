//! Waits for one of several, and for all of them.
ghost use Rattle.std.specs.Option.{option_copied};
ghost use Rattle.std.specs.Prelude.{◌≡◌, ◌<◌, ◌==◌, ◌+◌, ◌∷◌, List, None as Absent, Option as Maybe, Some, length, slice_get, ℕ};
ghost use Rattle.type_model.specs.declared.basic.BasicSet.TheVariants.{Never};
ghost use Rattle.type_model.specs.declared.basic.SemType.{Atom, Basic};
ghost use Rattle.operations.specs.Rows.{Surroundings};
ghost use Rattle.operations.specs.declared.operation.Operation.TheVariants.{WaitAll as WaitsForAll, WaitAny as WaitsForAny};
ghost use Rattle.stack_code.specs.Commands.{Do};
ghost use Rattle.code_needs.specs.Combining.{◌&◌, Needs as AllNeeds, of_mapping as mapping_needs, of_some, test as test_needs};
ghost use Rattle.code_needs.specs.RowNeeds.{awaits as await_needs, has_all as all_needs, held_by, some_name as name_needs};
ghost use Rattle.needs_of_rows.specs.Finding.{Finds};
ghost use Rattle.needs_of_places.specs.inner.Awaited.{AwaitsOne};
ghost use Rattle.needs_of_places.specs.inner.Held.{held_in, no_names};
ghost use Rattle.needs_of_places.specs.Lending.{AreLent};
ghost use Rattle.needs_of_places.specs.Sites.{known_at, row_at};

use crate::named::{atom_at, worker_result};
use crate::site::{Lent, Site, Taken};
use needs_of_rows::{Found, waits_for};
use type_model::{AtomDef, FieldDef, SemType};

/// The type that is held for each name of a wait.
#[derive(Clone, Copy)]
pub(crate) enum Held<'c> {
    /// The same for all.
    Given(Option<&'c SemType>),
    /// That of the field in the same place.
    Fields(&'c [FieldDef]),
}

/// The type of the field in the place.
fn field_type<'c>(fields: &'c [FieldDef], place: usize) -> Option<&'c SemType>
    ensures { option_copied result ≡ held_by fields.now place }
{
    match fields.get(place) {
        Some(field) => Some(&field.ty.sem),
        None => None,
    }
}

/// The type that is held for the name in the place.
fn held_at<'c>(held: Held<'c>, place: usize) -> Option<&'c SemType>
    ensures { option_copied result ≡ held_in held.entry place }
{
    match held {
        Held::Given(given) => given,
        Held::Fields(fields) => field_type(fields, place),
    }
}

/// The result of a worker is in the type that is held for it.
fn worker_ends<'c>(found: &mut Found<'c>, ended: Option<&'c SemType>, held: Option<&'c SemType>)
    ensures { Finds (of_some (option_copied ended.entry) (λ t. all_needs (option_copied held.entry) t)) found.old found.new }
{
    match ended {
        Some(t) => found.has_all(held, t),
        None => found.refuse(),
    }
}

/// The first future of those that are left may give what is in the type that is held for it. Those that are left behind it.
fn future_ends<'c>(
    found: &mut Found<'c>,
    lent: Lent<'c>,
    held: Option<&'c SemType>,
    left: &'c [SemType],
) -> &'c [SemType]
    requires { AreLent lent }
    ensures { (place : Surroundings) → AwaitsOne place (option_copied held.entry) Absent left.now found.old found.new result.now }
{
    match left {
        [] => {
            found.refuse();
            left
        }
        [t, more @ ..] => {
            waits_for(found, t, lent.results, held);
            more
        }
    }
}

/// What one name may give is in the type that is held for it. The futures that are left behind it.
fn awaited<'c>(
    found: &mut Found<'c>,
    site: Site<'c>,
    lent: Lent<'c>,
    name: Option<u32>,
    held: Option<&'c SemType>,
    left: &'c [SemType],
) -> &'c [SemType]
    requires { AreLent lent }
    ensures { AwaitsOne (known_at site.entry) (option_copied held.entry) name left.now found.old found.new result.now }
{
    match name {
        Some(worker) => {
            worker_ends(found, worker_result(site, lent.never, worker), held);
            left
        }
        None => future_ends(found, lent, held, left),
    }
}

/// The name in the place.
fn name_at(names: &[Option<u32>], place: usize) -> Option<u32>
    requires { place < length names.now }
    ensures { slice_get names.now place ≡ Some result }
{
    names[place]
}

/// What each name may give is in the type that is held for it, and no future is left.
fn awaits<'c>(
    found: &mut Found<'c>,
    site: Site<'c>,
    taken: Taken<'c>,
    lent: Lent<'c>,
    held: Held<'c>,
    names: &'c [Option<u32>],
)
    requires { AreLent lent }
    ensures { Finds (await_needs (known_at site.entry) (held_in held.entry) 0 names.now taken.entry.operands.now) found.old found.new }
{
    let mut left = taken.operands;
    for k in 0..names.len() {
        left = awaited(found, site, lent, name_at(names, k), held_at(held, k), left);
    }
    found.none(left);
}

/// Whether there is no name.
fn are_none(names: &[Option<u32>]) -> bool
    ensures { result ≡ no_names names.now }
{
    names.is_empty()
}

/// There is a name.
fn some_name<'c>(found: &mut Found<'c>, names: &'c [Option<u32>])
    ensures { Finds (name_needs names.now) found.old found.new }
{
    match are_none(names) {
        true => found.refuse(),
        false => {}
    }
}

/// What a wait for one of these needs.
pub(crate) fn waits_any<'c>(
    found: &mut Found<'c>,
    site: Site<'c>,
    taken: Taken<'c>,
    lent: Lent<'c>,
    names: &'c [Option<u32>],
)
    requires { AreLent lent }
    ensures { Finds (row_at site.entry taken.entry.operands.now (option_copied taken.entry.given) (Some (Do (WaitsForAny names.now)))) found.old found.new }
{
    some_name(found, names);
    awaits(found, site, taken, lent, Held::Given(taken.given), names);
}

/// Whether there are as many names as fields.
fn are_as_many(names: &[Option<u32>], fields: &[FieldDef]) -> bool
    ensures { result ≡ (length names.now == length fields.now) }
{
    names.len() == fields.len()
}

/// There are as many names as fields.
fn as_many<'c>(found: &mut Found<'c>, names: &'c [Option<u32>], fields: &'c [FieldDef])
    ensures { Finds (test_needs (length names.now == length fields.now)) found.old found.new }
{
    match are_as_many(names, fields) {
        true => {}
        false => found.refuse(),
    }
}

/// What each name may give is in the type of its field.
fn fields_held<'c>(
    found: &mut Found<'c>,
    site: Site<'c>,
    taken: Taken<'c>,
    lent: Lent<'c>,
    fields: &'c [FieldDef],
    names: &'c [Option<u32>],
)
    requires { AreLent lent }
    ensures { Finds (test_needs (length names.now == length fields.now) & await_needs (known_at site.entry) (held_by fields.now) 0 names.now taken.entry.operands.now) found.old found.new }
{
    as_many(found, names, fields);
    awaits(found, site, taken, lent, Held::Fields(fields), names);
}

/// The same of the fields of a mapping of this definition.
fn members_held<'c>(
    found: &mut Found<'c>,
    site: Site<'c>,
    taken: Taken<'c>,
    lent: Lent<'c>,
    def: &'c AtomDef,
    names: &'c [Option<u32>],
)
    requires { AreLent lent }
    ensures { Finds (mapping_needs (Some def.now) (λ fields rest. test_needs (length names.now == length fields) & await_needs (known_at site.entry) (held_by fields) 0 names.now taken.entry.operands.now)) found.old found.new }
{
    match def {
        AtomDef::Mapping { fields, .. } => {
            fields_held(found, site, taken, lent, fields.as_slice(), names);
        }
        AtomDef::List { .. } => found.refuse(),
        AtomDef::Arrow { .. } => found.refuse(),
        AtomDef::Error { .. } => found.refuse(),
        AtomDef::Future { .. } => found.refuse(),
    }
}

/// The same, where there is a definition.
fn mapping_held<'c>(
    found: &mut Found<'c>,
    site: Site<'c>,
    taken: Taken<'c>,
    lent: Lent<'c>,
    def: Option<&'c AtomDef>,
    names: &'c [Option<u32>],
)
    requires { AreLent lent }
    ensures { Finds (mapping_needs (option_copied def.entry) (λ fields rest. test_needs (length names.now == length fields) & await_needs (known_at site.entry) (held_by fields) 0 names.now taken.entry.operands.now)) found.old found.new }
{
    match def {
        Some(def) => members_held(found, site, taken, lent, def, names),
        None => found.refuse(),
    }
}

/// What a wait for all of these needs, which makes a mapping with this atom.
pub(crate) fn waits_all<'c>(
    found: &mut Found<'c>,
    site: Site<'c>,
    taken: Taken<'c>,
    lent: Lent<'c>,
    atom: u32,
    names: &'c [Option<u32>],
)
    requires lent { AreLent lent }
    requires own { lent.own.now ≡ Atom atom }
    ensures { Finds (row_at site.entry taken.entry.operands.now (option_copied taken.entry.given) (Some (Do (WaitsForAll atom names.now)))) found.old found.new }
{
    mapping_held(found, site, taken, lent, atom_at(site.code, atom), names);
    found.has_all(taken.given, lent.own);
}
