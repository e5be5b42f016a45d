//! Which constructor choice is meant, as constructors begin.
#![tactic(auto, using(check_work::proofs::Noting::meeting, check_kinds::proofs::Over::overs))]

ghost use Rattle.std.specs.Prelude.{◌≡◌, ◌<◌, ◌++◌, [], IfOk, IfSome, List, None as Absent, OnOk, Ok as Given, false, length, map, true};
ghost use Rattle.checks.specs.Checks.{Comes};
ghost use Rattle.needs.specs.Needs.{Runs};
ghost use Rattle.flow_narrowing.specs.Flows.{IfShared};
ghost use Rattle.type_model.specs.declared.atoms.AtomDef.{AtomDef as Atom};
ghost use Rattle.type_model.specs.Calls.{KeepsTypes};
ghost use Rattle.type_model.specs.Defined.{TyBelow};
ghost use Rattle.typed_tree.specs.Listed.{one};
ghost use Rattle.expr_needs.specs.ExprTable.{read_expr, read_member, seen_of};
ghost use Rattle.expr_needs.specs.Needs.{ChoosesList, ChoosesMapping};
ghost use Rattle.check_kinds.specs.Over.{ComesOver};
ghost use Rattle.check_words.specs.Constructors.{ListFits, MappingFits, at_work, chooses_constructor};
ghost use Rattle.check_words.specs.Meets.{meets};
ghost use Rattle.check_words.specs.Stands.{Stands};
ghost use Rattle.check_words.specs.Words.{opens_constructor};
ghost use Rattle.check_work.specs.Views.{Holds, going, state_of};
ghost use Rattle.needs_of_choices.specs.Choosing.{HasSome, IsFromFirst, chosen, chosen_by, chosen_for, unchosen as unchosen_of};

use bal_base::{Fault, Memory, Place, Stop};
use bal_tree::{Expr, Member};
use check_constructors::{first_list_choice, first_mapping_choice};
use check_kinds::is_readonly;
use check_work::{Checker, Work, has_stopped, last, note};
use descriptors::lift;
use expr_needs::Expected;
use needs_of_structures::new_constructor;
use std::alloc::Global;
use type_model::{Choice, Ty, Types};
use typed_tree::SharedTy;

/// Whether the type has constructor choices.
fn has_choices(t: &Ty) -> bool
    ensures some { result ≡ true → HasSome (t.now.lists ++ t.now.maps) }
    ensures none { result ≡ false → t.now.lists ++ t.now.maps ≡ [] }
{
    !t.lists.as_slice().is_empty() || !t.maps.as_slice().is_empty()
}

/// What was chosen, as the atom and whether the value is immutable.
fn from_first(first: Result<Choice, Stop<Fault>>) -> Result<(Option<u32>, bool), Stop<Fault>>
    ensures { IsFromFirst first result }
{
    match first {
        Ok(c) => Ok((Some(c.atom), c.immutable)),
        Err(stop) => Err(stop),
    }
}

/// Of a type without choices: the value is immutable where all of the type is.
fn unchosen<T: Types>(
    alloc: Global,
    types: &mut T,
    t: &Ty,
    at: Place,
) -> Result<(Option<u32>, bool), Stop<Fault>>
    requires { TyBelow (length (T.atoms types.old)) t.now }
    ensures atoms { T.atoms types.new ≡ T.atoms types.old }
    ensures below { IfOk result (λ p. p.0 ≡ Absent) }
    ensures comes { ComesOver (unchosen_of T.passes t.now at) (T.atoms types.old) result (T.atoms types.new) }
{
    match is_readonly(alloc, types, &t.sem, at) {
        Ok(immutable) => Ok((None, immutable)),
        Err(stop) => Err(stop),
    }
}

/// A constructor of what was chosen is open.
fn open_chosen(
    alloc: Global,
    work: &mut Work<'_>,
    chosen: (Option<u32>, bool),
) -> Result<(), Memory>
    ensures stands { (env : List Atom) → IfSome chosen.0 (λ atom. atom < length env) → Stands (state_of env work.old) → OnOk result (Stands (state_of env work.new)) }
    ensures comes { (env : List Atom) → OnOk result (Comes (opens_constructor (at_work chosen.0 chosen.1)) (state_of env work.old) (Given tt) (state_of env work.new)) }
{
    work.constructors
        .push(new_constructor(alloc, chosen.0, chosen.1))?;
    Ok(())
}

// ---- list

/// What a list constructor with these items chooses of a type.
fn list_of<T: Types>(
    alloc: Global,
    types: &mut T,
    t: &Ty,
    items: &[Expr],
    at: Place,
) -> Result<(Option<u32>, bool), Stop<Fault>>
    requires { TyBelow (length (T.atoms types.old)) t.now }
    ensures atoms { T.atoms types.new ≡ T.atoms types.old }
    ensures below { IfOk result (λ p. IfSome p.0 (λ atom. atom < length (T.atoms types.old))) }
    ensures comes { ComesOver (chosen_by T.passes (λ u. u.lists) (ListFits (map (λ i. i.literal) (map read_expr items.now))) (t.now.lists ++ t.now.maps) t.now at) (T.atoms types.old) result (T.atoms types.new) }
{
    match has_choices(t) {
        true => from_first(first_list_choice(types, t.lists.as_slice(), items, at)),
        false => unchosen(alloc, types, t, at),
    }
}

/// The same of what is wanted, if something is.
fn list_for<T: Types>(
    alloc: Global,
    types: &mut T,
    want: &Option<SharedTy>,
    items: &[Expr],
    at: Place,
) -> Result<(Option<u32>, bool), Stop<Fault>>
    requires { IfShared (TyBelow (length (T.atoms types.old))) want.now }
    ensures atoms { T.atoms types.new ≡ T.atoms types.old }
    ensures below { IfOk result (λ p. IfSome p.0 (λ atom. atom < length (T.atoms types.old))) }
    ensures comes { ComesOver (chosen_for T.passes (λ u. u.lists) (ListFits (map (λ i. i.literal) (map read_expr items.now))) want.now at) (T.atoms types.old) result (T.atoms types.new) }
{
    match want {
        Some(t) => list_of(alloc, types, t, items, at),
        None => Ok((None, false)),
    }
}

/// The same where so is expected. Where nothing stands as wanted it is as if memory were wanted.
fn list_chosen<T: Types>(
    alloc: Global,
    types: &mut T,
    work: &Work<'_>,
    expected: Expected,
    items: &[Expr],
    at: Place,
) -> Result<(Option<u32>, bool), Stop<Fault>>
    requires { Stands (state_of (T.atoms types.old) work.now) }
    ensures atoms { T.atoms types.new ≡ T.atoms types.old }
    ensures below { IfOk result (λ p. IfSome p.0 (λ atom. atom < length (T.atoms types.old))) }
    ensures comes { Comes (chosen T.passes (λ u. u.lists) (ListFits (map (λ i. i.literal) (map read_expr items.now))) expected at) (state_of (T.atoms types.old) work.now) result (state_of (T.atoms types.new) work.now) }
{
    match expected {
        Expected::Nothing => Ok((None, false)),
        Expected::Immutable => Ok((None, true)),
        Expected::Wanted => match last(work.wants.as_slice()) {
            Some(want) => list_for(alloc, types, want, items, at),
            None => Err(Stop::Memory),
        },
    }
}

/// A constructor of what was chosen is open.
fn choose_list<T: Types>(
    alloc: Global,
    types: &mut T,
    work: &mut Work<'_>,
    expected: Expected,
    items: &[Expr],
    at: Place,
) -> Result<(), Stop<Fault>>
    requires { Stands (state_of (T.atoms types.old) work.old) }
    ensures kept { KeepsTypes (T.atoms types.old) (T.atoms types.new) }
    ensures stands { OnOk result (Stands (state_of (T.atoms types.new) work.new)) }
    ensures comes { Comes (chooses_constructor T.passes (λ u. u.lists) (ListFits (map (λ i. i.literal) (map read_expr items.now))) expected at) (state_of (T.atoms types.old) work.old) result (state_of (T.atoms types.new) work.new) }
{
    match list_chosen(alloc, types, work, expected, items, at) {
        Ok(chosen) => lift(open_chosen(alloc, work, chosen)),
        Err(stop) => Err(stop),
    }
}

/// A list constructor with these items begins. Of what is wanted it chooses the first list that fits; where that has no choices it is
/// immutable if all of it is, which is one question. It costs by the choices, and by their items that are literals (Ballerina
/// specification, "List constructor" and "Inherent types").
///
/// - `NoChoice` at the place: no choice fits.
/// - `TypeLimit` at the place: the question is too large.
pub fn chooses_list<T: Types>(
    checker: &mut Checker<'_, T>,
    expected: Expected,
    items: &[Expr],
    at: Place,
)
    requires { Holds (T.atoms checker.old.types) checker.old.names.now checker.old.work }
    ensures holds { Holds (T.atoms checker.new.types) checker.new.names.now checker.new.work }
    ensures names { checker.new.names.now ≡ checker.old.names.now }
    ensures met { Runs (meets T.passes checker.old.names.now) (one (ChoosesList expected (map (λ i. i.literal) (map read_expr items.now)) at)) (going (T.atoms checker.old.types) checker.old.work) (going (T.atoms checker.new.types) checker.new.work) }
{
    if has_stopped(&checker.work) {
        return;
    }
    let answer = choose_list(
        checker.alloc,
        &mut checker.types,
        &mut checker.work,
        expected,
        items,
        at,
    );
    note(&checker.types, &mut checker.work, answer);
}

// ---- mapping

/// What a mapping constructor with these members chooses of a type.
fn mapping_of<T: Types>(
    alloc: Global,
    types: &mut T,
    t: &Ty,
    members: &[Member],
    at: Place,
) -> Result<(Option<u32>, bool), Stop<Fault>>
    requires { TyBelow (length (T.atoms types.old)) t.now }
    ensures atoms { T.atoms types.new ≡ T.atoms types.old }
    ensures below { IfOk result (λ p. IfSome p.0 (λ atom. atom < length (T.atoms types.old))) }
    ensures comes { ComesOver (chosen_by T.passes (λ u. u.maps) (MappingFits (map seen_of (map read_member members.now))) (t.now.lists ++ t.now.maps) t.now at) (T.atoms types.old) result (T.atoms types.new) }
{
    match has_choices(t) {
        true => from_first(first_mapping_choice(types, t.maps.as_slice(), members, at)),
        false => unchosen(alloc, types, t, at),
    }
}

/// The same of what is wanted, if something is.
fn mapping_for<T: Types>(
    alloc: Global,
    types: &mut T,
    want: &Option<SharedTy>,
    members: &[Member],
    at: Place,
) -> Result<(Option<u32>, bool), Stop<Fault>>
    requires { IfShared (TyBelow (length (T.atoms types.old))) want.now }
    ensures atoms { T.atoms types.new ≡ T.atoms types.old }
    ensures below { IfOk result (λ p. IfSome p.0 (λ atom. atom < length (T.atoms types.old))) }
    ensures comes { ComesOver (chosen_for T.passes (λ u. u.maps) (MappingFits (map seen_of (map read_member members.now))) want.now at) (T.atoms types.old) result (T.atoms types.new) }
{
    match want {
        Some(t) => mapping_of(alloc, types, t, members, at),
        None => Ok((None, false)),
    }
}

/// The same where so is expected. Where nothing stands as wanted it is as if memory were wanted.
fn mapping_chosen<T: Types>(
    alloc: Global,
    types: &mut T,
    work: &Work<'_>,
    expected: Expected,
    members: &[Member],
    at: Place,
) -> Result<(Option<u32>, bool), Stop<Fault>>
    requires { Stands (state_of (T.atoms types.old) work.now) }
    ensures atoms { T.atoms types.new ≡ T.atoms types.old }
    ensures below { IfOk result (λ p. IfSome p.0 (λ atom. atom < length (T.atoms types.old))) }
    ensures comes { Comes (chosen T.passes (λ u. u.maps) (MappingFits (map seen_of (map read_member members.now))) expected at) (state_of (T.atoms types.old) work.now) result (state_of (T.atoms types.new) work.now) }
{
    match expected {
        Expected::Nothing => Ok((None, false)),
        Expected::Immutable => Ok((None, true)),
        Expected::Wanted => match last(work.wants.as_slice()) {
            Some(want) => mapping_for(alloc, types, want, members, at),
            None => Err(Stop::Memory),
        },
    }
}

/// A constructor of what was chosen is open.
fn choose_mapping<T: Types>(
    alloc: Global,
    types: &mut T,
    work: &mut Work<'_>,
    expected: Expected,
    members: &[Member],
    at: Place,
) -> Result<(), Stop<Fault>>
    requires { Stands (state_of (T.atoms types.old) work.old) }
    ensures kept { KeepsTypes (T.atoms types.old) (T.atoms types.new) }
    ensures stands { OnOk result (Stands (state_of (T.atoms types.new) work.new)) }
    ensures comes { Comes (chooses_constructor T.passes (λ u. u.maps) (MappingFits (map seen_of (map read_member members.now))) expected at) (state_of (T.atoms types.old) work.old) result (state_of (T.atoms types.new) work.new) }
{
    match mapping_chosen(alloc, types, work, expected, members, at) {
        Ok(chosen) => lift(open_chosen(alloc, work, chosen)),
        Err(stop) => Err(stop),
    }
}

/// A mapping constructor with these members begins. Of what is wanted it chooses the first mapping that fits; where that has no choices it
/// is immutable if all of it is, which is one question. It costs by the choices, and by the pairs of their fields and members (Ballerina
/// specification, "Mapping constructor" and "Inherent types").
///
/// - `NoChoice` at the place: no choice fits.
/// - `TypeLimit` at the place: the question is too large.
pub fn chooses_mapping<T: Types>(
    checker: &mut Checker<'_, T>,
    expected: Expected,
    members: &[Member],
    at: Place,
)
    requires { Holds (T.atoms checker.old.types) checker.old.names.now checker.old.work }
    ensures holds { Holds (T.atoms checker.new.types) checker.new.names.now checker.new.work }
    ensures names { checker.new.names.now ≡ checker.old.names.now }
    ensures met { Runs (meets T.passes checker.old.names.now) (one (ChoosesMapping expected (map seen_of (map read_member members.now)) at)) (going (T.atoms checker.old.types) checker.old.work) (going (T.atoms checker.new.types) checker.new.work) }
{
    if has_stopped(&checker.work) {
        return;
    }
    let answer = choose_mapping(
        checker.alloc,
        &mut checker.types,
        &mut checker.work,
        expected,
        members,
        at,
    );
    note(&checker.types, &mut checker.work, answer);
}
