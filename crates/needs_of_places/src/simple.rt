//! Operations whose rows name kinds alone.
ghost use Rattle.std.specs.Option.{option_copied};
ghost use Rattle.std.specs.Prelude.{List};
ghost use Rattle.type_model.specs.declared.atoms.AtomDef.{AtomDef as Definition};
ghost use Rattle.operations.specs.Rows.{Surroundings};
ghost use Rattle.needs_of_rows.specs.Finding.{Finds};
ghost use Rattle.needs_of_places.specs.inner.Grouped.{plain_command, simple_command};
ghost use Rattle.needs_of_places.specs.Sites.{row_of};

use crate::site::Taken;
use code_needs::Kind;
use needs_of_rows::{
    Found, calls_value, compares, drops, gets_item, gets_key, gives_nil, nothing, on_one, on_two,
    orders, receives, sets_item, sets_key, starts_value, takes_one,
};
use stack_code::Instr;

/// What an operation of ints, strings, booleans or any values needs.
fn simple<'c>(found: &mut Found<'c>, taken: Taken<'c>, instr: &Instr)
    ensures { (env : List Definition) (place : Surroundings) → Finds (row_of env place taken.entry.operands.now (option_copied taken.entry.given) (simple_command instr.now)) found.old found.new }
{
    match instr {
        Instr::Add => on_two(
            found,
            taken.operands,
            Kind::Integers,
            Kind::Integers,
            Kind::Integers,
            taken.given,
        ),
        Instr::Sub => on_two(
            found,
            taken.operands,
            Kind::Integers,
            Kind::Integers,
            Kind::Integers,
            taken.given,
        ),
        Instr::Mul => on_two(
            found,
            taken.operands,
            Kind::Integers,
            Kind::Integers,
            Kind::Integers,
            taken.given,
        ),
        Instr::Div => on_two(
            found,
            taken.operands,
            Kind::Integers,
            Kind::Integers,
            Kind::Integers,
            taken.given,
        ),
        Instr::Rem => on_two(
            found,
            taken.operands,
            Kind::Integers,
            Kind::Integers,
            Kind::Integers,
            taken.given,
        ),
        Instr::Neg => on_one(
            found,
            taken.operands,
            Kind::Integers,
            Kind::Integers,
            taken.given,
        ),
        Instr::Concat => on_two(
            found,
            taken.operands,
            Kind::Strings,
            Kind::Strings,
            Kind::Strings,
            taken.given,
        ),
        Instr::Less => orders(found, taken.operands, taken.given),
        Instr::LessEqual => orders(found, taken.operands, taken.given),
        Instr::Not => on_one(
            found,
            taken.operands,
            Kind::Booleans,
            Kind::Booleans,
            taken.given,
        ),
        Instr::Equal => on_two(
            found,
            taken.operands,
            Kind::Anydata,
            Kind::Anydata,
            Kind::Booleans,
            taken.given,
        ),
        Instr::Same => compares(found, taken.operands, taken.given),
        Instr::GetChar => on_two(
            found,
            taken.operands,
            Kind::Strings,
            Kind::Integers,
            Kind::Strings,
            taken.given,
        ),
        _ => found.refuse(),
    }
}

/// What an operation of members, messages or function values needs, or a simple one.
pub(crate) fn plain<'c>(found: &mut Found<'c>, taken: Taken<'c>, instr: &Instr)
    ensures { (env : List Definition) (place : Surroundings) → Finds (row_of env place taken.entry.operands.now (option_copied taken.entry.given) (plain_command instr.now)) found.old found.new }
{
    match instr {
        Instr::Pop => drops(found, taken.operands, taken.given),
        Instr::Tick => nothing(found, taken.operands, taken.given),
        Instr::GetItem => gets_item(found, taken.operands, taken.given),
        Instr::GetKey => gets_key(found, taken.operands, taken.given),
        Instr::SetItem => sets_item(found, taken.operands, taken.given),
        Instr::SetKey => sets_key(found, taken.operands, taken.given),
        Instr::CallValue(count) => calls_value(found, taken.operands, *count as usize, taken.given),
        Instr::Panic => takes_one(found, taken.operands, Kind::Errors, taken.given),
        Instr::StartValue(count) => starts_value(
            found,
            taken.operands,
            *count as usize,
            taken.given,
        ),
        Instr::Workers => nothing(found, taken.operands, taken.given),
        Instr::Send(_) => on_one(
            found,
            taken.operands,
            Kind::Sendable,
            Kind::Nils,
            taken.given,
        ),
        Instr::Post(_) => takes_one(found, taken.operands, Kind::Sendable, taken.given),
        Instr::Done(_) => gives_nil(found, taken.operands, taken.given),
        Instr::Receive(_) => receives(found, taken.operands, taken.given),
        Instr::Flush(_) => gives_nil(found, taken.operands, taken.given),
        _ => simple(found, taken, instr),
    }
}
