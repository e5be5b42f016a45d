//! Needs of each type of a list.
#![tactic(auto, using(crate::proofs::Finding::finding))]

ghost use Rattle.std.specs.Prelude.{◌≡◌, ◌↔◌, IsTrue, length};
ghost use Rattle.code_needs.specs.Combining.{each, need};
ghost use Rattle.code_needs.specs.Needs.{PartHas as HasEachOf};
ghost use Rattle.code_needs.specs.PlaceNeeds.{same_each as same_needs};
ghost use Rattle.code_needs.specs.RowNeeds.{below_each as below_needs, may_stand as stand_needs};
ghost use Rattle.needs_of_rows.specs.Finding.{Finds};

use crate::found::Found;
use code_needs::Kind;
use code_verifier::{OfParts, Question};
use need_questions::NeedQuestion;
use type_model::{Keys, SemType};

/// Whether there are as many.
fn are_as_many(ss: &[SemType], ts: &[SemType]) -> bool
    ensures { IsTrue result ↔ (length ss.now ≡ length ts.now) }
{
    ss.len() == ts.len()
}

/// As many types are to be below the others, one by one.
fn below_pairs<'c>(found: &mut Found<'c>, ss: &'c [SemType], ts: &'c [SemType])
    requires { length ss.now ≡ length ts.now }
    ensures { Finds (below_needs ss.now ts.now) found.old found.new }
{
    for (k, s) in ss.iter().enumerate() {
        found.below(s, &ts[k]);
    }
}

/// The types are to be below the others, one by one.
pub fn below_each<'c>(found: &mut Found<'c>, ss: &'c [SemType], ts: &'c [SemType])
    ensures { Finds (below_needs ss.now ts.now) found.old found.new }
{
    match are_as_many(ss, ts) {
        true => below_pairs(found, ss, ts),
        false => found.refuse(),
    }
}

/// As many types are to have the same shapes as the others, one by one.
fn same_pairs<'c>(found: &mut Found<'c>, ss: &'c [SemType], ts: &'c [SemType])
    requires { length ss.now ≡ length ts.now }
    ensures { Finds (same_needs ss.now ts.now) found.old found.new }
{
    for (k, s) in ss.iter().enumerate() {
        found.same(s, &ts[k]);
    }
}

/// The types are to have the same shapes as the others, one by one.
pub fn same_each<'c>(found: &mut Found<'c>, ss: &'c [SemType], ts: &'c [SemType])
    ensures { Finds (same_needs ss.now ts.now) found.old found.new }
{
    match are_as_many(ss, ts) {
        true => same_pairs(found, ss, ts),
        false => found.refuse(),
    }
}

/// What an immutable structure holds is to be immutable data.
pub fn may_stand<'c>(found: &mut Found<'c>, immutable: bool, t: &'c SemType)
    ensures { Finds (stand_needs immutable t.now) found.old found.new }
{
    match immutable {
        true => found.within(t, Kind::ImmutableData),
        false => {}
    }
}

/// The same of each type.
pub fn may_stand_each<'c>(found: &mut Found<'c>, immutable: bool, ts: &'c [SemType])
    ensures { Finds (each (stand_needs immutable) ts.now) found.old found.new }
{
    for t in ts {
        may_stand(found, immutable, t);
    }
}

/// Each shape of the values is to stand at such a key.
pub fn has_each<'c>(
    found: &mut Found<'c>,
    whole: &'c SemType,
    keys: &'c Keys,
    values: &'c [SemType],
)
    ensures { Finds (each (λ v. need (HasEachOf whole.now keys.now v)) values.now) found.old found.new }
{
    for v in values {
        found.ask(NeedQuestion::Plain(Question::Parts(OfParts::PartHas(whole, keys, v))));
    }
}
