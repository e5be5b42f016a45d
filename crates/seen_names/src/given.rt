//! Names that are put behind the other parts.
#![tactic(auto, using(check_work::proofs::Noting::meeting))]

ghost use Rattle.std.specs.Prelude.{◌≡◌, List, OnOk};
ghost use Rattle.checks.specs.Checks.{Comes};
ghost use Rattle.descriptors.specs.Steps.{AreNames};
ghost use Rattle.type_model.specs.declared.atoms.AtomDef.{AtomDef as Atom};
ghost use Rattle.check_words.specs.Stands.{Stands};
ghost use Rattle.check_words.specs.Values.{gives_named as gives_named_of};
ghost use Rattle.check_work.specs.Views.{state_of};

use crate::parts::part_of_seen;
use crate::seen::seen_as;
use bal_base::{Fault, Stop};
use bal_tree::QualifiedName;
use check_work::{Work, at_hand};
use descriptors::Names;
use std::alloc::Global;

/// A part more, which is what the name stands for. Refusals and cost are those of [`part_of_seen`] and [`seen_as`]. Where no unit is at hand it is
/// as if memory were wanted.
pub fn give_named(
    alloc: Global,
    names: &Names,
    work: &mut Work<'_>,
    name: &QualifiedName,
) -> Result<(), Stop<Fault>>
    ensures stands { (env : List Atom) → AreNames env names.now → Stands (state_of env work.old) → OnOk result (Stands (state_of env work.new)) }
    ensures comes { (env : List Atom) → Comes (gives_named_of names.now name.now) (state_of env work.old) result (state_of env work.new) }
{
    let unit = at_hand(&work.unit)?;
    let variables = unit.here.variables.as_slice();
    let seen = seen_as(names, &work.site, variables, name);
    let part = part_of_seen(alloc, seen, name.at)?;
    work.found.push(part)?;
    work.ways = None;
    Ok(())
}
