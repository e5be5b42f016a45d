//! Variables that a body captures, and how they come into its unit.
#![tactic(auto, using(check_words::proofs::Same::sharing))]

ghost use Rattle.std.specs.Prelude.{◌≡◌, IfOk, OnOk, Some as There, is_some, map};
ghost use Rattle.std.specs.List.{list_any};
ghost use Rattle.type_model.specs.Places.{is_same_text};
ghost use Rattle.check_words.specs.Calls.{capture_if, captured_as as captured_as_of, captures as captures_of, is_captured as is_captured_of};
ghost use Rattle.check_words.specs.Sharing.{SameCaptured, SameShared, SameUnit, SameVariable};
ghost use Rattle.check_words.specs.State.{find_variable as variable_in, shared_now};
ghost use Rattle.flow_narrowing.specs.Flows.{AreSame};
ghost use Rattle.check_work.specs.Views.{unit_of};
ghost use Rattle.needs_of_units.specs.Captures.{IsCapturedInto, capture_of, inner_type as inner_type_of, inner_narrowed, inner_variable as inner_variable_of, with_captures};

use bal_base::{Memory, Name, Place};
use bal_tree::Word;
use check_work::{Unit, find_variable, shared, shared_if};
use flow_narrowing::Variable;
use std::alloc::Global;
use typed_tree::{Captured, SharedTy};

/// A variable that a body captures, and the place of its first use.
#[derive(Clone, Copy)]
pub struct Capture<'v> {
    pub variable: &'v Variable,
    pub at: Place,
}

fn is_captured(captures: &[Capture<'_>], name: &Name) -> bool
    ensures { result ≡ is_captured_of (map capture_of captures.now) name.now }
{
    any_named(captures, name)
}

fn any_named(captures: &[Capture<'_>], name: &Name) -> bool
    ensures { result ≡ list_any (λ c. is_same_text c.variable.now.name name.now) captures.now }
{
    captures.iter().any(|c| c.variable.name == *name)
}

/// The variable, if it isn't captured yet.
fn capture_new<'v>(
    captures: &mut Vec<Capture<'v>>,
    variable: &'v Variable,
    at: Place,
) -> Result<(), Memory>
    ensures { OnOk result (map capture_of captures.new.items ≡ capture_if (map capture_of captures.old.items) at (There variable.now)) }
{
    if is_captured(captures.as_slice(), &variable.name) {
        return Ok(());
    }
    captures.push(Capture { variable, at })?;
    Ok(())
}

/// The variable that the word stands for, if it stands for one.
fn capture_named<'v>(
    captures: &mut Vec<Capture<'v>>,
    variables: &'v [Variable],
    word: &Word,
) -> Result<(), Memory>
    ensures { OnOk result (map capture_of captures.new.items ≡ capture_if (map capture_of captures.old.items) word.now.at (variable_in variables.now word.now.name)) }
{
    match find_variable(variables, &word.name) {
        Some(variable) => capture_new(captures, variable, word.at),
        None => Ok(()),
    }
}

/// Of the variables those that the words use, each once, at its first use. It costs by the variables for each of the words.
pub fn find_captures<'v>(
    alloc: Global,
    variables: &'v [Variable],
    uses: &[Word],
) -> Result<Vec<Capture<'v>>, Memory>
    ensures { IfOk result (λ cs. map capture_of cs.items ≡ captures_of variables.now uses.now) }
{
    let mut found = Vec::new(alloc);
    for word in uses {
        capture_named(&mut found, variables, word)?;
    }
    Ok(found)
}

/// The type that the variable has here.
fn type_now(v: &Variable) -> Result<SharedTy, Memory>
    ensures { IfOk result (SameShared (shared_now v.now)) }
{
    match &v.narrowed {
        Some(t) => Ok(shared(t)?),
        None => Ok(shared(&v.declared)?),
    }
}

/// The variable as it is captured.
fn captured_as(c: &Capture<'_>) -> Result<Captured, Memory>
    ensures { IfOk result (SameCaptured (captured_as_of (capture_of c.now))) }
{
    let ty = type_now(c.variable)?;
    Ok(Captured {
        slot: c.variable.slot,
        narrowed: is_there(&c.variable.narrowed),
        ty,
        at: c.at,
    })
}

fn is_there(t: &Option<SharedTy>) -> bool
    ensures { result ≡ is_some t.now }
{
    match t {
        Some(_) => true,
        None => false,
    }
}

/// The type of its slot in the inner unit: in a worker that of the slot around, in an anonymous function the type that it has where it is captured.
fn inner_type(c: &Capture<'_>, in_worker: bool) -> Result<SharedTy, Memory>
    ensures { IfOk result (SameShared (inner_type_of in_worker (capture_of c.now))) }
{
    match in_worker {
        true => Ok(shared(&c.variable.declared)?),
        false => type_now(c.variable),
    }
}

/// In a worker it is narrowed as it is where it is captured, and in an anonymous function it isn't narrowed.
fn inner_narrowing(c: &Capture<'_>, in_worker: bool) -> Result<Option<SharedTy>, Memory>
    ensures { IfOk result (AreSame (inner_narrowed in_worker (capture_of c.now))) }
{
    match in_worker {
        true => shared_if(&c.variable.narrowed),
        false => Ok(None),
    }
}

/// The variable in the inner unit.
fn inner_variable(c: &Capture<'_>, in_worker: bool, slot: u32) -> Result<Variable, Memory>
    ensures { IfOk result (SameVariable (inner_variable_of in_worker slot (capture_of c.now))) }
{
    let narrowed = inner_narrowing(c, in_worker)?;
    let declared = inner_type(c, in_worker)?;
    Ok(Variable {
        name: c.variable.name.share(),
        slot,
        declared,
        narrowed,
        fixed: c.variable.fixed,
        assigned: c.variable.assigned,
        captured: true,
    })
}

/// One captured variable more.
fn capture_into(unit: &mut Unit, c: &Capture<'_>, in_worker: bool) -> Result<(), Memory>
    ensures { OnOk result (IsCapturedInto in_worker (capture_of c.now) (unit_of unit.old) (unit_of unit.new)) }
{
    let slot = unit.new_slot(inner_type(c, in_worker)?)?;
    let variable = inner_variable(c, in_worker, slot)?;
    unit.captured.push(captured_as(c)?)?;
    unit.here.declare(variable)?;
    Ok(())
}

/// The captured variables stand in the next slots of the unit.
pub fn capture_all(unit: &mut Unit, cs: &[Capture<'_>], in_worker: bool) -> Result<(), Memory>
    ensures { OnOk result (SameUnit (with_captures in_worker (map capture_of cs.now) (unit_of unit.old)) (unit_of unit.new)) }
{
    for c in cs {
        capture_into(unit, c, in_worker)?;
    }
    Ok(())
}
