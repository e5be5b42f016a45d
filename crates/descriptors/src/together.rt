//! Types that are put together of others.
ghost use Rattle.std.specs.Prelude.{◌≡◌, ℕ, IfOk, List, length};
ghost use Rattle.bal_base.specs.declared.place.Place.{Place};
ghost use Rattle.bal_tree.specs.declared.name.ConstValue.TheVariants.{Negative};
ghost use Rattle.type_model.specs.declared.atoms.AtomDef.{AtomDef as Atom};
ghost use Rattle.type_model.specs.Defined.{TyBelow};
ghost use Rattle.descriptors.specs.Described.{plain as plain_of, IsCopy, is_chosen as is_chosen_in, with_choices as joined_choices, choices_with, immutable_choice, IsOptional, IsUnion, IsIntersection, AreCopies, literal_set as set_of_literal, value_set as set_of_value};
ghost use Rattle.descriptors.specs.Steps.{AllBelow, lifted};

use crate::sides::{both, either};
use bal_base::{Fault, Memory, Stop};
use bal_tree::Literal;
use std::alloc::Global;
use type_model::{BasicSet, Choice, ChoiceList, SemType, Ty, TyList};

/// What was made, or why not, as the answer of a check.
pub fn lift<A>(made: Result<A, Memory>) -> Result<A, Stop<Fault>>
    ensures { result ≡ lifted made }
{
    match made {
        Ok(made) => Ok(made),
        Err(Memory) => Err(Stop::Memory),
    }
}

/// The type without constructor choices.
pub fn plain(alloc: Global, sem: SemType) -> Ty
    ensures { result ≡ plain_of sem }
{
    Ty {
        sem,
        lists: ChoiceList::of(Vec::new(alloc)),
        maps: ChoiceList::of(Vec::new(alloc)),
    }
}

/// Another copy of the choices.
pub fn copy_choices(alloc: Global, choices: &ChoiceList) -> Result<ChoiceList, Memory>
    ensures { IfOk result (λ r. r ≡ choices.now) }
{
    Ok(ChoiceList::of(choices.as_slice().to_vec(alloc)?))
}

/// Another copy of the type.
pub fn copy(alloc: Global, t: &Ty) -> Result<Ty, Memory>
    ensures { IfOk result (IsCopy t.now) }
{
    let sem = t.sem.copy(alloc)?;
    let lists = copy_choices(alloc, &t.lists)?;
    let maps = copy_choices(alloc, &t.maps)?;
    Ok(Ty { sem, lists, maps })
}

/// So many copies of the type.
pub(crate) fn copies(alloc: Global, t: &Ty, count: usize) -> Result<TyList, Memory>
    ensures copies { IfOk result (λ made. (env : List Atom) → AreCopies count t.now env made) }
    ensures defined { IfOk result (λ made. (n : ℕ) → TyBelow n t.now → AllBelow n made) }
{
    let mut copies = Vec::new(alloc);
    for _place in 0..count {
        copies.push(copy(alloc, t)?)?;
    }
    Ok(TyList::of(copies))
}

fn is_chosen(choices: &[Choice], choice: Choice) -> bool
    ensures { result ≡ is_chosen_in choices.now choice }
{
    choices.iter().any(|c| c.atom == choice.atom)
}

/// The choices of the first list, and behind them those of the second whose atom isn't there yet.
fn with_choices(
    alloc: Global,
    choices: &ChoiceList,
    more: &ChoiceList,
) -> Result<ChoiceList, Memory>
    ensures { IfOk result (λ r. r ≡ joined_choices choices.now more.now) }
{
    let mut all = choices.as_slice().to_vec(alloc)?;
    for choice in more.as_slice() {
        if !is_chosen(&all, *choice) {
            all.push(*choice)?;
        }
    }
    Ok(ChoiceList::of(all))
}

fn immutable(choice: Choice) -> Choice
    ensures { result ≡ immutable_choice choice }
{
    Choice {
        atom: choice.atom,
        immutable: true,
    }
}

/// The choices of an intersection whose left side has these ones.
fn intersection_choices(
    alloc: Global,
    is_readonly: bool,
    choices: &ChoiceList,
) -> Result<ChoiceList, Memory>
    ensures { IfOk result (λ r. r ≡ choices_with is_readonly choices.now) }
{
    let mut kept = Vec::new(alloc);
    if is_readonly {
        for choice in choices.as_slice() {
            kept.push(immutable(*choice))?;
        }
    }
    Ok(ChoiceList::of(kept))
}

/// T or nil, with the choices of T.
pub(crate) fn optional(alloc: Global, t: Ty) -> Result<Ty, Memory>
    ensures is { IfOk result (λ u. (env : List Atom) → IsOptional t env u) }
    ensures defined { IfOk result (λ u. (n : ℕ) → TyBelow n t → TyBelow n u) }
{
    let sem = either(alloc, t.sem, SemType::Basic(BasicSet::Nil))?;
    Ok(Ty {
        sem,
        lists: t.lists,
        maps: t.maps,
    })
}

/// The union, with the choices of both sides in order.
pub(crate) fn union(alloc: Global, s: Ty, t: Ty) -> Result<Ty, Memory>
    ensures is { IfOk result (λ u. (env : List Atom) → IsUnion s t env u) }
    ensures defined { IfOk result (λ u. (n : ℕ) → TyBelow n s → TyBelow n t → TyBelow n u) }
{
    let lists = with_choices(alloc, &s.lists, &t.lists)?;
    let maps = with_choices(alloc, &s.maps, &t.maps)?;
    let sem = either(alloc, s.sem, t.sem)?;
    Ok(Ty { sem, lists, maps })
}

/// The intersection, with the choices of the left side for immutable values where the right side is `readonly`.
pub(crate) fn intersection(alloc: Global, is_readonly: bool, s: Ty, t: Ty) -> Result<Ty, Memory>
    ensures is { IfOk result (λ u. (env : List Atom) → IsIntersection is_readonly s t env u) }
    ensures defined { IfOk result (λ u. (n : ℕ) → TyBelow n s → TyBelow n t → TyBelow n u) }
{
    let lists = intersection_choices(alloc, is_readonly, &s.lists)?;
    let maps = intersection_choices(alloc, is_readonly, &s.maps)?;
    let sem = both(alloc, s.sem, t.sem)?;
    Ok(Ty { sem, lists, maps })
}

/// The set of the literal's value.
pub fn literal_set(literal: &Literal) -> BasicSet
    ensures { result ≡ set_of_literal literal.now }
{
    match literal {
        Literal::Int { value, .. } => BasicSet::IntRange(*value, *value),
        Literal::Str { text, .. } => BasicSet::StringOne(text.share()),
        Literal::True { .. } => BasicSet::Bool(true),
        Literal::False { .. } => BasicSet::Bool(false),
        Literal::Nil { .. } => BasicSet::Nil,
    }
}

/// The set of an int behind a minus sign.
pub fn negative_set(int: &i64) -> BasicSet
    ensures { (at : Place) → result ≡ set_of_value (Negative int.now at) }
{
    let int = *int;
    let value = int.wrapping_neg();
    BasicSet::IntRange(value, value)
}
