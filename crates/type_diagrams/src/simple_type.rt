//! The type of a set of simple shapes.
ghost use Rattle.std.specs.Prelude.{◌≡◌, ◌++◌, ◌∷◌, [], IfOk, OnOk, if◌then◌else◌, map, true, false};
ghost use Rattle.std.specs.Ordering.{int_cmp};
ghost use Rattle.type_model.specs.declared.basic.BasicSet.TheVariants.{StringOne};
ghost use Rattle.type_diagrams.specs.Simple.{by_simple};
ghost use Rattle.type_diagrams.specs.Sets.{Each, IsBelowAll, IsCanonical, Rises, answer_for, covers, has_int, has_shape, least_int, set_of};
ghost use Rattle.type_diagrams.specs.Written.{AddsInts, HaveTogether, IsSimpleType, IsUnionOfSets, IsUnionWithout};
ghost use Rattle.bal_base.specs.Valid.{IsInt};

use crate::simple::SimpleSet;
use bal_base::{Memory, Text};
use std::alloc::Global;
use type_model::{BasicSet, SemType};

impl SimpleSet {
    /// The type with the shapes of the set. It names no atom.
    pub fn as_type(&self, alloc: Global) -> Result<SemType, Memory>
        requires { IsCanonical (set_of self.now) }
        ensures { IfOk result (IsSimpleType (has_shape (set_of self.now))) }
    {
        let mut sets = self.without_strings(alloc)?;
        if !self.rest {
            push_texts(&mut sets, &self.texts)?;
            return union(alloc, &sets);
        }
        sets.push(BasicSet::StringAll)?;
        if self.texts.is_empty() {
            return union(alloc, &sets);
        }
        let mut left_out = Vec::new(alloc);
        push_texts(&mut left_out, &self.texts)?;
        all_but(alloc, &sets, &left_out)
    }

    /// Sets that together have nil, the booleans and the ints of the set.
    fn without_strings(&self, alloc: Global) -> Result<Vec<BasicSet>, Memory>
        requires { IsCanonical (set_of self.now) }
        ensures { IfOk result (λ sets. HaveTogether (by_simple self.now.nil (λ b. if b then self.now.yes else self.now.no) (has_int (set_of self.now)) (λ t. false)) sets.items) }
    {
        let mut sets = Vec::new(alloc);
        push_if(&mut sets, self.nil, BasicSet::Nil)?;
        push_if(&mut sets, self.no, BasicSet::Bool(false))?;
        push_if(&mut sets, self.yes, BasicSet::Bool(true))?;
        push_ranges(&mut sets, self.first, &self.flips)?;
        Ok(sets)
    }
}

fn push_if(sets: &mut Vec<BasicSet>, keep: bool, set: BasicSet) -> Result<(), Memory>
    ensures { OnOk result (sets.new.items ≡ (if keep then sets.old.items ++ set ∷ [] else sets.old.items)) }
{
    if keep {
        sets.push(set)?;
    }
    Ok(())
}

/// Adds the ranges of the ints that such flips have.
fn push_ranges(sets: &mut Vec<BasicSet>, first: bool, flips: &[i64]) -> Result<(), Memory>
    requires ints { Each IsInt flips.now }
    requires above { IsBelowAll int_cmp least_int flips.now }
    requires rise { Rises int_cmp flips.now }
    ensures { OnOk result (AddsInts (answer_for (covers true int_cmp) first flips.now) sets.old.items sets.new.items) }
{
    let (mut rest, mut low, mut inside) = (flips, i64::MIN, first);
    while let Some((flip, behind)) = rest.split_first() {
        push_if(sets, inside, BasicSet::IntRange(low, *flip - 1))?;
        (rest, low, inside) = (behind, *flip, !inside);
    }
    push_if(sets, inside, BasicSet::IntRange(low, i64::MAX))
}

/// Adds a set for each of the texts.
fn push_texts(sets: &mut Vec<BasicSet>, texts: &[Text]) -> Result<(), Memory>
    ensures { OnOk result (sets.new.items ≡ sets.old.items ++ map StringOne texts.now) }
{
    for text in texts {
        sets.push(BasicSet::StringOne(text.share()))?;
    }
    Ok(())
}

/// The union of sets, in halves, so that it isn't nested deep.
fn union(alloc: Global, sets: &[BasicSet]) -> Result<SemType, Memory>
    ensures { IfOk result (IsUnionOfSets sets.now) }
{
    match sets {
        [] => Ok(SemType::Basic(BasicSet::Never)),
        [set] => Ok(SemType::Basic(set.copy())),
        _ => {
            let (front, back) = sets.split_at(sets.len() / 2);
            let front = Box::new(alloc, union(alloc, front)?)?;
            let back = Box::new(alloc, union(alloc, back)?)?;
            Ok(SemType::Or(front, back))
        }
    }
}

/// What is in one of the sets and in none of the others.
fn all_but(alloc: Global, sets: &[BasicSet], left_out: &[BasicSet]) -> Result<SemType, Memory>
    ensures { IfOk result (IsUnionWithout sets.now left_out.now) }
{
    let sets = Box::new(alloc, union(alloc, sets)?)?;
    let left_out = Box::new(alloc, union(alloc, left_out)?)?;
    let outside = Box::new(alloc, SemType::Not(left_out))?;
    Ok(SemType::And(sets, outside))
}
