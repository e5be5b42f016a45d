//! Rows of constants, of slots and variables, and of returns.
#![tactic(auto, using(crate::proofs::Finding::finding))]

ghost use Rattle.std.specs.Option.{option_copied};
ghost use Rattle.code_needs.specs.Combining.{◌&◌, absent as absent_needs, need, none as none_needs, of_some, one};
ghost use Rattle.code_needs.specs.Needs.{Below as IsBelow, HasConstant as HasThis};
ghost use Rattle.code_needs.specs.RowNeeds.{reads as read_needs, writes as write_needs};
ghost use Rattle.needs_of_rows.specs.Finding.{Finds};

use crate::found::Found;
use crate::operands::one_of;
use operations::Constant;
use type_model::SemType;

/// No operand, and the constant.
pub fn constant<'c>(
    found: &mut Found<'c>,
    operands: &'c [SemType],
    c: &'c Constant,
    given: Option<&'c SemType>,
)
    ensures { Finds (none_needs operands.now & of_some (option_copied given.entry) (λ r. need (HasThis r c.now))) found.old found.new }
{
    found.none(operands);
    found.has_constant(given, c);
}

/// A result with all of what is held.
fn read<'c>(found: &mut Found<'c>, held: Option<&'c SemType>, given: Option<&'c SemType>)
    ensures { Finds (read_needs (option_copied held.entry) (option_copied given.entry)) found.old found.new }
{
    match held {
        Some(t) => found.has_all(given, t),
        None => found.refuse(),
    }
}

/// No operand, and what is held: by a slot, a module variable, or a worker at its end.
pub fn reads<'c>(
    found: &mut Found<'c>,
    operands: &'c [SemType],
    held: Option<&'c SemType>,
    given: Option<&'c SemType>,
)
    ensures { Finds (none_needs operands.now & read_needs (option_copied held.entry) (option_copied given.entry)) found.old found.new }
{
    found.none(operands);
    read(found, held, given);
}

/// A value that may be held.
fn write<'c>(found: &mut Found<'c>, v: &'c SemType, held: Option<&'c SemType>)
    ensures { Finds (of_some (option_copied held.entry) (λ t. need (IsBelow v.now t))) found.old found.new }
{
    match held {
        Some(t) => found.below(v, t),
        None => found.refuse(),
    }
}

/// One operand that may be held.
fn writes_one<'c>(found: &mut Found<'c>, operands: &'c [SemType], held: Option<&'c SemType>)
    ensures { Finds (one operands.now (λ v. of_some (option_copied held.entry) (λ t. need (IsBelow v t)))) found.old found.new }
{
    match one_of(operands) {
        Some(v) => write(found, v, held),
        None => found.refuse(),
    }
}

/// One operand that may be held, and no result.
pub fn writes<'c>(
    found: &mut Found<'c>,
    operands: &'c [SemType],
    held: Option<&'c SemType>,
    given: Option<&'c SemType>,
)
    ensures { Finds (write_needs (option_copied held.entry) operands.now (option_copied given.entry)) found.old found.new }
{
    writes_one(found, operands, held);
    found.absent(given);
}

/// One operand below the type.
fn one_below<'c>(found: &mut Found<'c>, operands: &'c [SemType], t: &'c SemType)
    ensures { Finds (one operands.now (λ v. need (IsBelow v t.now))) found.old found.new }
{
    match one_of(operands) {
        Some(v) => found.below(v, t),
        None => found.refuse(),
    }
}

/// One operand below the unit's result, and nothing behind it.
pub fn returns<'c>(
    found: &mut Found<'c>,
    operands: &'c [SemType],
    outcome: &'c SemType,
    given: Option<&'c SemType>,
)
    ensures { Finds (one operands.now (λ v. need (IsBelow v outcome.now)) & absent_needs (option_copied given.entry)) found.old found.new }
{
    one_below(found, operands, outcome);
    found.absent(given);
}
