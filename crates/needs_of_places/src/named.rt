//! Operations that name constants, slots, variables, types, units and workers.
ghost use Rattle.std.specs.Option.{option_copied};
ghost use Rattle.std.specs.Prelude.{◌≡◌, ◌∷◌, length, map, option_map, slice_get};
ghost use Rattle.type_model.specs.declared.basic.BasicSet.TheVariants.{Never};
ghost use Rattle.type_model.specs.declared.basic.SemType.{Basic};
ghost use Rattle.stack_code.specs.Places.{crew, result_in};
ghost use Rattle.code_needs.specs.Combining.{◌&◌, as_many as count_needs, need, none as none_needs, of_some, one};
ghost use Rattle.code_needs.specs.declared.kind.Kind.TheVariants.{Booleans};
ghost use Rattle.code_needs.specs.Needs.{HasBoth as HasAllOf, HasConstant as HasThis};
ghost use Rattle.code_needs.specs.RowNeeds.{below_each as below_needs, has as has_needs, has_all as all_needs};
ghost use Rattle.needs_of_rows.specs.Finding.{Finds};
ghost use Rattle.needs_of_places.specs.inner.Grouped.{named_command};
ghost use Rattle.needs_of_places.specs.Sites.{known_at, row_at};

use crate::simple::plain;
use crate::site::{Site, Taken};
use needs_of_rows::{Found, calls, casts, constant, reads, returns, tests, writes};
use operations::Constant;
use stack_code::{Code, Instr, Unit};
use type_model::{AtomDef, SemType};

// ---- what is there

/// The constant with the number.
pub(crate) fn constant_at<'c>(code: &'c Code, number: u32) -> Option<&'c Constant>
    ensures { option_copied result ≡ slice_get code.now.constants number }
{
    code.constants.as_slice().get(number as usize)
}

/// The type of the slot.
fn slot_at<'c>(unit: &'c Unit, slot: u32) -> Option<&'c SemType>
    ensures { option_copied result ≡ slice_get unit.now.slots slot }
{
    unit.slots.as_slice().get(slot as usize)
}

/// The type of the module variable.
fn variable_at<'c>(code: &'c Code, variable: u32) -> Option<&'c SemType>
    ensures { option_copied result ≡ slice_get code.now.variables variable }
{
    code.variables.as_slice().get(variable as usize)
}

/// The tested type with the number.
fn tested_at<'c>(code: &'c Code, number: u32) -> Option<&'c SemType>
    ensures { option_copied result ≡ slice_get code.now.tested number }
{
    code.tested.as_slice().get(number as usize)
}

/// The unit with the number.
pub(crate) fn unit_at<'c>(code: &'c Code, number: u32) -> Option<&'c Unit>
    ensures { option_copied result ≡ slice_get code.now.units number }
{
    code.units.as_slice().get(number as usize)
}

/// The definition of the atom.
pub(crate) fn atom_at<'c>(code: &'c Code, atom: u32) -> Option<&'c AtomDef>
    ensures { option_copied result ≡ slice_get code.now.atoms atom }
{
    code.atoms.as_slice().get(atom as usize)
}

// ---- workers

/// The result of the unit, and no shape where there is none.
fn result_of<'c>(unit: Option<&'c Unit>, never: &'c SemType) -> &'c SemType
    requires { never.now ≡ Basic Never }
    ensures { result.now ≡ result_in (option_copied unit.entry) }
{
    match unit {
        Some(u) => &u.result,
        None => never,
    }
}

/// The unit of the named worker in the place.
fn named_unit(function: &Unit, place: usize) -> Option<u32>
    ensures { result ≡ option_map (λ w. w.unit) (slice_get function.now.workers place) }
{
    match function.workers.as_slice().get(place) {
        Some(w) => Some(w.unit),
        None => None,
    }
}

/// The unit of a worker of the function, whose own is the first one.
fn unit_of_worker(function: &Unit, own: u32, worker: u32) -> Option<u32>
    ensures { result ≡ slice_get (own ∷ map (λ w. w.unit) function.now.workers) worker }
{
    if worker == 0 {
        return Some(own);
    }
    named_unit(function, worker as usize - 1)
}

/// The unit of a worker of the function with the number.
fn crew_at(code: &Code, function: u32, worker: u32) -> Option<u32>
    ensures { result ≡ slice_get (crew code.now function) worker }
{
    match unit_at(code, function) {
        Some(f) => unit_of_worker(f, function, worker),
        None => None,
    }
}

/// The result of a worker of the function. `never` is no shape.
pub(crate) fn worker_result<'c>(
    site: Site<'c>,
    never: &'c SemType,
    worker: u32,
) -> Option<&'c SemType>
    requires { never.now ≡ Basic Never }
    ensures { option_copied result ≡ slice_get (known_at site.entry).workers worker }
{
    match crew_at(site.code, site.function, worker) {
        Some(unit) => Some(result_of(unit_at(site.code, unit), never)),
        None => None,
    }
}

// ---- rows

/// The constant, where there is one.
fn constant_row<'c>(found: &mut Found<'c>, taken: Taken<'c>, c: Option<&'c Constant>)
    ensures { Finds (of_some (option_copied c.entry) (λ k. none_needs taken.entry.operands.now & of_some (option_copied taken.entry.given) (λ r. need (HasThis r k)))) found.old found.new }
{
    match c {
        Some(c) => constant(found, taken.operands, c, taken.given),
        None => found.refuse(),
    }
}

/// A test for the type, where there is one.
fn test_row<'c>(found: &mut Found<'c>, taken: Taken<'c>, t: Option<&'c SemType>)
    ensures { Finds (of_some (option_copied t.entry) (λ u. one taken.entry.operands.now (λ v. has_needs (option_copied taken.entry.given) Booleans))) found.old found.new }
{
    match t {
        Some(_) => tests(found, taken.operands, taken.given),
        None => found.refuse(),
    }
}

/// A cast to the type, where there is one.
fn cast_row<'c>(found: &mut Found<'c>, taken: Taken<'c>, t: Option<&'c SemType>)
    ensures { Finds (of_some (option_copied t.entry) (λ u. one taken.entry.operands.now (λ v. of_some (option_copied taken.entry.given) (λ r. need (HasAllOf r v u))))) found.old found.new }
{
    match t {
        Some(t) => casts(found, taken.operands, t, taken.given),
        None => found.refuse(),
    }
}

/// A call of the unit, with an operand for each of its parameters, where there is one.
fn call_row<'c>(found: &mut Found<'c>, taken: Taken<'c>, unit: Option<&'c Unit>)
    ensures { Finds (of_some (option_copied unit.entry) (λ u. count_needs taken.entry.operands.now (length u.params) & below_needs taken.entry.operands.now u.params & all_needs (option_copied taken.entry.given) u.result)) found.old found.new }
{
    match unit {
        Some(u) => calls(
            found,
            taken.operands,
            u.params.as_slice().len(),
            Some(u),
            taken.given,
        ),
        None => found.refuse(),
    }
}

/// What an operation needs that names a constant, a slot, a variable, a type or a unit, or that is a plain one.
pub(crate) fn named<'c>(found: &mut Found<'c>, site: Site<'c>, taken: Taken<'c>, instr: &'c Instr)
    ensures { Finds (row_at site.entry taken.entry.operands.now (option_copied taken.entry.given) (named_command site.entry.code.now instr.now)) found.old found.new }
{
    match instr {
        Instr::Const(number) => constant_row(found, taken, constant_at(site.code, *number)),
        Instr::Load(s) => reads(found, taken.operands, slot_at(site.unit, *s), taken.given),
        Instr::Store(s) => writes(found, taken.operands, slot_at(site.unit, *s), taken.given),
        Instr::LoadModule(m) => reads(
            found,
            taken.operands,
            variable_at(site.code, *m),
            taken.given,
        ),
        Instr::StoreModule(m) => writes(
            found,
            taken.operands,
            variable_at(site.code, *m),
            taken.given,
        ),
        Instr::Test(t) => test_row(found, taken, tested_at(site.code, *t)),
        Instr::Cast(t) => cast_row(found, taken, tested_at(site.code, *t)),
        Instr::Call(number) => call_row(found, taken, unit_at(site.code, *number)),
        Instr::Return => returns(found, taken.operands, &site.unit.result, taken.given),
        _ => plain(found, taken, instr),
    }
}
