//! Where two ways meet that began at one place: only what changed in one of them is joined.
ghost use Rattle.std.specs.Prelude.{◌≡◌, ℕ, All, IfOk, IfSome, OnOk, length, slice_get, true};
ghost use Rattle.type_model.specs.Defined.{TyBelow};
ghost use Rattle.flow_narrowing.specs.Changes.{Logs, is_told as is_told_in, told as told_in, undone};
ghost use Rattle.flow_narrowing.specs.Flows.{IfShared, IsJoin, VariablesBelow};
ghost use Rattle.flow_narrowing.specs.Meetings.{ChangeBelow, ChangeJoined, TypeJoined, flow_at, flow_now};

use crate::changes::{Change, End, Flows};
use crate::flow::{Joins, Variable, or_declared, union_of, ways_that_count};
use bal_base::Memory;
use std::alloc::Global;
use type_model::Types;
use typed_tree::SharedTy;

impl Flows {
    /// Goes on where two ways meet that began here: what is known there is the join of the flows to which their ends lead
    /// ([`Flow::join`](crate::Flow::join)). Only variables that changed in one of the two are looked at. Where both ways
    /// count it costs a type for each of them, and for each change a look through the changes of both.
    pub fn join<T: Types>(
        &mut self,
        alloc: Global,
        types: &mut T,
        first: End,
        second: End,
    ) -> Result<(), Memory>
        requires first { VariablesBelow (length (T.atoms types.old)) (undone first.changes.items self.old.variables.items) }
        requires second { VariablesBelow (length (T.atoms types.old)) (undone second.changes.items self.old.variables.items) }
        ensures atoms { T.atoms types.new ≡ T.atoms types.old }
        ensures is { OnOk result (IsJoin (T.atoms types.old) (flow_at self.old.variables.items first) (flow_at self.old.variables.items second) (flow_now self.new)) }
        ensures defined { OnOk result (VariablesBelow (length (T.atoms types.old)) self.new.variables.items) }
        ensures logged { OnOk result (Logs self.old.log.items self.old.variables.items self.new.log.items self.new.variables.items) }
    {
        match ways_that_count(first.reached, second.reached) {
            Joins::First => self.resume(first),
            Joins::Second => self.resume(second),
            Joins::Both => {
                let reached = first.reached;
                let ends = Ends { first, second };
                let changes = joined_changes(alloc, types, self.variables.as_slice(), &ends)?;
                self.resume(End { changes, reached })
            }
        }
    }
}

/// Where two ways have come to that began at one place.
#[derive(Drop)]
struct Ends {
    first: End,
    second: End,
}

/// The changes that lead to where the two ways meet.
fn joined_changes<T: Types>(
    alloc: Global,
    types: &mut T,
    variables: &[Variable],
    ends: &Ends,
) -> Result<Vec<Change>, Memory>
    requires first { VariablesBelow (length (T.atoms types.old)) (undone ends.now.first.changes.items variables.now) }
    requires second { VariablesBelow (length (T.atoms types.old)) (undone ends.now.second.changes.items variables.now) }
    ensures atoms { T.atoms types.new ≡ T.atoms types.old }
    ensures joined { IfOk result (λ cs. All (ChangeJoined (T.atoms types.old) variables.now ends.now.first.changes.items ends.now.second.changes.items) cs.items) }
    ensures below { IfOk result (λ cs. All (ChangeBelow (length (T.atoms types.old))) cs.items) }
    ensures first { IfOk result (λ cs. All (λ c. is_told_in cs.items c.index ≡ true) ends.now.first.changes.items) }
    ensures second { IfOk result (λ cs. All (λ c. is_told_in cs.items c.index ≡ true) ends.now.second.changes.items) }
{
    let mut joined = Vec::new(alloc);
    for c in ends.first.changes.as_slice() {
        join_change(alloc, types, variables, ends, c.index, &mut joined)?;
    }
    for c in ends.second.changes.as_slice() {
        join_change(alloc, types, variables, ends, c.index, &mut joined)?;
    }
    Ok(joined)
}

/// Joins what is known of the variable at the index, unless that is done.
fn join_change<T: Types>(
    alloc: Global,
    types: &mut T,
    variables: &[Variable],
    ends: &Ends,
    index: usize,
    joined: &mut Vec<Change>,
) -> Result<(), Memory>
    requires first { VariablesBelow (length (T.atoms types.old)) (undone ends.now.first.changes.items variables.now) }
    requires second { VariablesBelow (length (T.atoms types.old)) (undone ends.now.second.changes.items variables.now) }
    requires joined { All (ChangeJoined (T.atoms types.old) variables.now ends.now.first.changes.items ends.now.second.changes.items) joined.old.items }
    requires below { All (ChangeBelow (length (T.atoms types.old))) joined.old.items }
    ensures atoms { T.atoms types.new ≡ T.atoms types.old }
    ensures joined { OnOk result (All (ChangeJoined (T.atoms types.old) variables.now ends.now.first.changes.items ends.now.second.changes.items) joined.new.items) }
    ensures below { OnOk result (All (ChangeBelow (length (T.atoms types.old))) joined.new.items) }
    ensures told { OnOk result (is_told_in joined.new.items index ≡ true) }
    ensures kept { OnOk result ((i : ℕ) → is_told_in joined.old.items i ≡ true → is_told_in joined.new.items i ≡ true) }
{
    if is_told(joined, index) {
        return Ok(());
    }
    let was = joined_type(alloc, types, variables, ends, index)?;
    joined.push(Change { index, was })?;
    Ok(())
}

/// The narrowed type of the variable at the index where the two ways meet, if it has one.
fn joined_type<T: Types>(
    alloc: Global,
    types: &mut T,
    variables: &[Variable],
    ends: &Ends,
    index: usize,
) -> Result<Option<SharedTy>, Memory>
    requires first { VariablesBelow (length (T.atoms types.old)) (undone ends.now.first.changes.items variables.now) }
    requires second { VariablesBelow (length (T.atoms types.old)) (undone ends.now.second.changes.items variables.now) }
    ensures atoms { T.atoms types.new ≡ T.atoms types.old }
    ensures defined { IfOk result (IfShared (TyBelow (length (T.atoms types.old)))) }
    ensures joined { IfOk result (λ u. IfSome (slice_get variables.now index) (λ v. TypeJoined (T.atoms types.old) ends.now.first.changes.items ends.now.second.changes.items index v u)) }
{
    match variables.get(index) {
        Some(v) => {
            let first = told(ends.first.changes.as_slice(), index, &v.narrowed);
            let second = told(ends.second.changes.as_slice(), index, &v.narrowed);
            let s = or_declared(first, &v.declared);
            let t = or_declared(second, &v.declared);
            union_of(alloc, types, s, t, first, second)
        }
        None => Ok(None),
    }
}

/// What the changes give the variable at the index, the first one of it, or else the other type.
fn told<'a>(changes: &'a [Change], index: usize, or: &'a Option<SharedTy>) -> &'a Option<SharedTy>
    ensures { result.now ≡ told_in changes.now index or.now }
{
    for c in changes {
        if c.index == index {
            return &c.was;
        }
    }
    or
}

/// Whether one of the changes is of the variable at the index.
fn is_told(changes: &[Change], index: usize) -> bool
    ensures { result ≡ is_told_in changes.now index }
{
    changes.iter().any(|c| c.index == index)
}
