//! What is known of variables at a place.
ghost use Rattle.std.specs.Prelude.{◌≡◌, ◌↔◌, IfOk, IsTrue, length, true};
ghost use Rattle.descriptors.specs.Described.{IsUnion, is_chosen as is_chosen_in, with_choices as joined_choices};
ghost use Rattle.type_model.specs.Defined.{TyBelow};
ghost use Rattle.type_model.specs.SameType.{IsSameType};
ghost use Rattle.flow_narrowing.specs.inner.Alike.{are_chosen as are_chosen_in, has_choices as has_choices_of};
ghost use Rattle.flow_narrowing.specs.Flows.{AreJoined, AreSame, IfShared, IsJoin, IsJoined, NarrowedTo, UnionOf, VariableBelow, VariablesBelow, joins as joins_of, now as now_of, or_declared as or_declared_of};

use crate::combined::either;
use bal_base::{Memory, Name, Row};
use descriptors::is_same;
use std::alloc::Global;
use std::rc::Rc;
use type_model::{Choice, ChoiceList, SemType, Ty, Types};
use typed_tree::SharedTy;

/// A variable that is seen at a place, as it is known there: a parameter, a captured variable, a local one or that of a
/// loop.
#[derive(Drop)]
pub struct Variable {
    pub name: Name,
    /// Its slot in the unit. Slots that constructs take for themselves lie between those of variables.
    pub slot: u32,
    /// The type that it was declared with.
    pub declared: SharedTy,
    /// The type that it has at the place, unless that is the declared one.
    pub narrowed: Option<SharedTy>,
    /// Whether it can't be assigned: it is final, a parameter, or that of a loop.
    pub fixed: bool,
    /// Whether it is assigned after its declaration.
    pub assigned: bool,
    /// Whether it is a copy of a variable around the unit.
    pub captured: bool,
}

/// Variables in the order of their declarations.
pub type VariableList = Row<Variable>;

/// The variables that are visible at a place, and whether the place is reached.
#[derive(Drop)]
pub struct Flow {
    pub variables: VariableList,
    pub reached: bool,
}

impl Variable {
    /// The type that the variable has at the place. Takes no memory.
    pub fn now(&self) -> &Ty
        ensures { result.now ≡ now_of self.now }
    {
        self.shared_now().as_ref()
    }

    /// The same, as it is shared.
    fn shared_now(&self) -> &SharedTy
        ensures { result.now.value ≡ now_of self.now }
    {
        or_declared(&self.narrowed, &self.declared)
    }
}

/// The narrowed type, or else the declared one.
pub(crate) fn or_declared<'a>(
    narrowed: &'a Option<SharedTy>,
    declared: &'a SharedTy,
) -> &'a SharedTy
    ensures { result.now.value ≡ or_declared_of narrowed.now declared.now }
{
    match narrowed {
        Some(t) => t,
        None => declared,
    }
}

impl Flow {
    /// What is known where two ways of the same variables meet. Of each variable it is the union of its types in those of
    /// the two that go on, or in both where neither does, written anew, with the constructor choices of the first and then
    /// those of the second, each atom once; a variable that has its declared type in both keeps it. A type that is written
    /// alike in both is the union itself, and is shared. It costs by the variables, and a type for each variable whose
    /// types differ.
    pub fn join<T: Types>(alloc: Global, types: &mut T, a: &Flow, b: &Flow) -> Result<Flow, Memory>
        requires first { VariablesBelow (length (T.atoms types.old)) a.now.variables }
        requires second { VariablesBelow (length (T.atoms types.old)) b.now.variables }
        requires same { length b.now.variables ≡ length a.now.variables }
        ensures atoms { T.atoms types.new ≡ T.atoms types.old }
        ensures defined { IfOk result (λ f. VariablesBelow (length (T.atoms types.old)) f.variables) }
        ensures is { IfOk result (IsJoin (T.atoms types.old) a.now b.now) }
    {
        let which = ways_that_count(a.reached, b.reached);
        let first = a.variables.as_slice();
        let second = b.variables.as_slice();
        let variables = all_joined(alloc, types, which, first, second)?;
        Ok(Flow {
            variables,
            reached: a.reached || b.reached,
        })
    }
}

/// Which of two ways are joined.
#[derive(Clone, Copy)]
pub(crate) enum Joins {
    First,
    Second,
    Both,
}

/// Those that go on, or both where neither does.
pub(crate) fn ways_that_count(first: bool, second: bool) -> Joins
    ensures { result ≡ joins_of first second }
{
    match first {
        true => match second {
            true => Joins::Both,
            false => Joins::First,
        },
        false => match second {
            true => Joins::Second,
            false => Joins::Both,
        },
    }
}

fn all_joined<T: Types>(
    alloc: Global,
    types: &mut T,
    which: Joins,
    first: &[Variable],
    second: &[Variable],
) -> Result<VariableList, Memory>
    requires first { VariablesBelow (length (T.atoms types.old)) first.now }
    requires second { VariablesBelow (length (T.atoms types.old)) second.now }
    requires same { length second.now ≡ length first.now }
    ensures atoms { T.atoms types.new ≡ T.atoms types.old }
    ensures defined { IfOk result (VariablesBelow (length (T.atoms types.old))) }
    ensures joined { IfOk result (AreJoined (T.atoms types.old) which (length first.now) first.now second.now) }
{
    let mut variables = Vec::new(alloc);
    for i in 0..first.len() {
        variables.push(joined(alloc, types, which, &first[i], &second[i])?)?;
    }
    Ok(VariableList::of(variables))
}

/// What is known of one variable.
fn joined<T: Types>(
    alloc: Global,
    types: &mut T,
    which: Joins,
    v: &Variable,
    w: &Variable,
) -> Result<Variable, Memory>
    requires first { VariableBelow (length (T.atoms types.old)) v.now }
    requires second { VariableBelow (length (T.atoms types.old)) w.now }
    ensures atoms { T.atoms types.new ≡ T.atoms types.old }
    ensures defined { IfOk result (VariableBelow (length (T.atoms types.old))) }
    ensures joined { IfOk result (IsJoined (T.atoms types.old) which v.now w.now) }
{
    let narrowed = narrowed_to(alloc, types, which, v, w)?;
    let declared = v.declared.clone()?;
    Ok(Variable {
        name: v.name.share(),
        slot: v.slot,
        declared,
        narrowed,
        fixed: v.fixed,
        assigned: v.assigned,
        captured: v.captured,
    })
}

/// The narrowed type of one variable, if it has one.
fn narrowed_to<T: Types>(
    alloc: Global,
    types: &mut T,
    which: Joins,
    v: &Variable,
    w: &Variable,
) -> Result<Option<SharedTy>, Memory>
    requires first { VariableBelow (length (T.atoms types.old)) v.now }
    requires second { VariableBelow (length (T.atoms types.old)) w.now }
    ensures atoms { T.atoms types.new ≡ T.atoms types.old }
    ensures defined { IfOk result (IfShared (TyBelow (length (T.atoms types.old)))) }
    ensures narrowed { IfOk result (NarrowedTo (T.atoms types.old) which v.now w.now) }
{
    match which {
        Joins::First => shared(&v.narrowed),
        Joins::Second => shared(&w.narrowed),
        Joins::Both => {
            let s = v.shared_now();
            let t = w.shared_now();
            union_of(alloc, types, s, t, &v.narrowed, &w.narrowed)
        }
    }
}

/// The same type, if there is one.
fn shared(t: &Option<SharedTy>) -> Result<Option<SharedTy>, Memory>
    ensures { IfOk result (AreSame t.now) }
{
    match t {
        None => Ok(None),
        Some(t) => Ok(Some(t.clone()?)),
    }
}

/// The union of the two types of a variable, unless it has its declared type both times.
pub(crate) fn union_of<T: Types>(
    alloc: Global,
    types: &mut T,
    s: &SharedTy,
    t: &SharedTy,
    first: &Option<SharedTy>,
    second: &Option<SharedTy>,
) -> Result<Option<SharedTy>, Memory>
    requires first { TyBelow (length (T.atoms types.old)) s.now.value }
    requires second { TyBelow (length (T.atoms types.old)) t.now.value }
    ensures atoms { T.atoms types.new ≡ T.atoms types.old }
    ensures defined { IfOk result (IfShared (TyBelow (length (T.atoms types.old)))) }
    ensures union { IfOk result (UnionOf (T.atoms types.old) s.now.value t.now.value first.now second.now) }
{
    match first {
        None => match second {
            None => Ok(None),
            Some(_) => Ok(Some(union(alloc, types, s, t)?)),
        },
        Some(_) => Ok(Some(union(alloc, types, s, t)?)),
    }
}

/// The union of two types, to be shared: the first one itself where the second one adds nothing to it.
fn union<T: Types>(
    alloc: Global,
    types: &mut T,
    s: &SharedTy,
    t: &SharedTy,
) -> Result<SharedTy, Memory>
    requires first { TyBelow (length (T.atoms types.old)) s.now.value }
    requires second { TyBelow (length (T.atoms types.old)) t.now.value }
    ensures atoms { T.atoms types.new ≡ T.atoms types.old }
    ensures defined { IfOk result (λ u. TyBelow (length (T.atoms types.old)) u.value) }
    ensures union { IfOk result (λ u. IsUnion s.now.value t.now.value (T.atoms types.old) u.value) }
{
    if adds_nothing(s.as_ref(), t.as_ref()) {
        return Ok(s.clone()?);
    }
    let written = written_union(alloc, types, s.as_ref(), t.as_ref())?;
    Ok(Rc::new(alloc, written)?)
}

/// Whether the second type is written as the first one and has no choices that the first one lacks.
fn adds_nothing(s: &Ty, t: &Ty) -> bool
    ensures { IsTrue result ↔ (IsSameType s.now.sem t.now.sem × (has_choices_of s.now t.now ≡ true)) }
{
    is_same(&s.sem, &t.sem) && has_choices(s, t)
}

/// Whether the first type has all choices of the second one.
fn has_choices(s: &Ty, t: &Ty) -> bool
    ensures { result ≡ has_choices_of s.now t.now }
{
    are_chosen(s.lists.as_slice(), t.lists.as_slice())
        && are_chosen(s.maps.as_slice(), t.maps.as_slice())
}

fn are_chosen(choices: &[Choice], others: &[Choice]) -> bool
    ensures { result ≡ are_chosen_in choices.now others.now }
{
    others.iter().all(|c| is_chosen(choices, *c))
}

/// The union of two types, written anew, with the choices of both.
fn written_union<T: Types>(alloc: Global, types: &mut T, s: &Ty, t: &Ty) -> Result<Ty, Memory>
    requires first { TyBelow (length (T.atoms types.old)) s.now }
    requires second { TyBelow (length (T.atoms types.old)) t.now }
    ensures atoms { T.atoms types.new ≡ T.atoms types.old }
    ensures defined { IfOk result (TyBelow (length (T.atoms types.old))) }
    ensures union { IfOk result (IsUnion s.now t.now (T.atoms types.old)) }
{
    let shapes = either(alloc, &s.sem, &t.sem)?;
    let sem = types.compact(alloc, &shapes)?;
    with_choices_of_both(alloc, sem, s, t)
}

/// The type with these shapes and the choices of both others.
fn with_choices_of_both(alloc: Global, sem: SemType, s: &Ty, t: &Ty) -> Result<Ty, Memory>
    ensures { IfOk result (λ u. u ≡ record { sem = sem; lists = joined_choices s.now.lists t.now.lists; maps = joined_choices s.now.maps t.now.maps }) }
{
    let lists = with_choices(alloc, &s.lists, &t.lists)?;
    let maps = with_choices(alloc, &s.maps, &t.maps)?;
    Ok(Ty { sem, lists, maps })
}

fn is_chosen(choices: &[Choice], choice: Choice) -> bool
    ensures { result ≡ is_chosen_in choices.now choice }
{
    choices.iter().any(|c| c.atom == choice.atom)
}

/// The choices of the first list, and behind them those of the second whose atom isn't there yet.
fn with_choices(
    alloc: Global,
    choices: &ChoiceList,
    more: &ChoiceList,
) -> Result<ChoiceList, Memory>
    ensures { IfOk result (λ r. r ≡ joined_choices choices.now more.now) }
{
    let mut all = choices.as_slice().to_vec(alloc)?;
    for choice in more.as_slice() {
        if !is_chosen(&all, *choice) {
            all.push(*choice)?;
        }
    }
    Ok(ChoiceList::of(all))
}
