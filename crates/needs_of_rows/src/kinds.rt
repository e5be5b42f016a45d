//! Rows of operands of kinds.
#![tactic(auto, using(crate::proofs::Finding::finding))]

ghost use Rattle.std.specs.Option.{option_copied};
ghost use Rattle.code_needs.specs.Combining.{◌&◌, absent as absent_needs, need, nothing as no_needs, none as none_needs, of_some, one, two};
ghost use Rattle.code_needs.specs.declared.kind.Kind.TheVariants.{Booleans, Nils};
ghost use Rattle.code_needs.specs.Needs.{Below as IsBelow, HasBoth as HasAllOf, Ordered as AreInOrder};
ghost use Rattle.code_needs.specs.RowNeeds.{has as has_needs, in_order as order_needs, within as within_needs};
ghost use Rattle.needs_of_rows.specs.Finding.{Finds};

use crate::found::Found;
use crate::operands::{one_of, two_of};
use code_needs::Kind;
use code_verifier::{OfKinds, Question};
use need_questions::NeedQuestion;
use type_model::SemType;

/// One operand of a kind, and a result with all of a kind.
pub fn on_one<'c>(
    found: &mut Found<'c>,
    operands: &'c [SemType],
    kind: Kind,
    wanted: Kind,
    given: Option<&'c SemType>,
)
    ensures { Finds (one operands.now (λ a. within_needs a kind & has_needs (option_copied given.entry) wanted)) found.old found.new }
{
    match one_of(operands) {
        Some(a) => {
            found.within(a, kind);
            found.has(given, wanted);
        }
        None => found.refuse(),
    }
}

/// Two operands of kinds, and a result with all of a kind.
pub fn on_two<'c>(
    found: &mut Found<'c>,
    operands: &'c [SemType],
    first: Kind,
    second: Kind,
    wanted: Kind,
    given: Option<&'c SemType>,
)
    ensures { Finds (two operands.now (λ a b. within_needs a first & within_needs b second & has_needs (option_copied given.entry) wanted)) found.old found.new }
{
    match two_of(operands) {
        Some((a, b)) => {
            found.both_within(a, first, b, second);
            found.has(given, wanted);
        }
        None => found.refuse(),
    }
}

/// One operand of a kind.
fn only_within<'c>(found: &mut Found<'c>, operands: &'c [SemType], kind: Kind)
    ensures { Finds (one operands.now (λ a. within_needs a kind)) found.old found.new }
{
    match one_of(operands) {
        Some(a) => found.within(a, kind),
        None => found.refuse(),
    }
}

/// One operand of a kind, and no result.
pub fn takes_one<'c>(
    found: &mut Found<'c>,
    operands: &'c [SemType],
    kind: Kind,
    given: Option<&'c SemType>,
)
    ensures { Finds (one operands.now (λ a. within_needs a kind) & absent_needs (option_copied given.entry)) found.old found.new }
{
    only_within(found, operands, kind);
    found.absent(given);
}

/// One operand, and no result.
pub fn drops<'c>(found: &mut Found<'c>, operands: &'c [SemType], given: Option<&'c SemType>)
    ensures { Finds (one operands.now (λ a. absent_needs (option_copied given.entry))) found.old found.new }
{
    match one_of(operands) {
        Some(_) => found.absent(given),
        None => found.refuse(),
    }
}

/// One operand, and a boolean.
pub fn tests<'c>(found: &mut Found<'c>, operands: &'c [SemType], given: Option<&'c SemType>)
    ensures { Finds (one operands.now (λ a. has_needs (option_copied given.entry) Booleans)) found.old found.new }
{
    match one_of(operands) {
        Some(_) => found.has(given, Kind::Booleans),
        None => found.refuse(),
    }
}

/// Two operands, and a boolean.
pub fn compares<'c>(found: &mut Found<'c>, operands: &'c [SemType], given: Option<&'c SemType>)
    ensures { Finds (two operands.now (λ a b. has_needs (option_copied given.entry) Booleans)) found.old found.new }
{
    match two_of(operands) {
        Some(_) => found.has(given, Kind::Booleans),
        None => found.refuse(),
    }
}

/// Two ints or two strings, and a boolean.
pub fn orders<'c>(found: &mut Found<'c>, operands: &'c [SemType], given: Option<&'c SemType>)
    ensures { Finds (order_needs operands.now (option_copied given.entry)) found.old found.new }
{
    match two_of(operands) {
        Some((a, b)) => {
            found.ask(NeedQuestion::Plain(Question::Kinds(OfKinds::Ordered(a, b))));
            found.has(given, Kind::Booleans);
        }
        None => found.refuse(),
    }
}

/// One operand, and what of it is in the type.
pub fn casts<'c>(
    found: &mut Found<'c>,
    operands: &'c [SemType],
    t: &'c SemType,
    given: Option<&'c SemType>,
)
    ensures { Finds (one operands.now (λ v. of_some (option_copied given.entry) (λ r. need (HasAllOf r v t.now)))) found.old found.new }
{
    match one_of(operands) {
        Some(v) => found.has_both(given, v, t),
        None => found.refuse(),
    }
}

/// No operand, and no result.
pub fn nothing<'c>(found: &mut Found<'c>, operands: &'c [SemType], given: Option<&'c SemType>)
    ensures { Finds (none_needs operands.now & absent_needs (option_copied given.entry)) found.old found.new }
{
    found.none(operands);
    found.absent(given);
}

/// No operand, and nil.
pub fn gives_nil<'c>(found: &mut Found<'c>, operands: &'c [SemType], given: Option<&'c SemType>)
    ensures { Finds (none_needs operands.now & has_needs (option_copied given.entry) Nils) found.old found.new }
{
    found.none(operands);
    found.has(given, Kind::Nils);
}

/// A result, whatever it is.
fn something<'c>(found: &mut Found<'c>, given: Option<&'c SemType>)
    ensures { Finds (of_some (option_copied given.entry) (λ r. no_needs)) found.old found.new }
{
    match given {
        Some(_) => {}
        None => found.refuse(),
    }
}

/// No operand, and a result.
pub fn receives<'c>(found: &mut Found<'c>, operands: &'c [SemType], given: Option<&'c SemType>)
    ensures { Finds (none_needs operands.now & of_some (option_copied given.entry) (λ r. no_needs)) found.old found.new }
{
    found.none(operands);
    something(found, given);
}
