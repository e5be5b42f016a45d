//! The types that a code tests, each once.
#![tactic(auto, using(crate::proofs::Noting::noting))]

ghost use Rattle.std.specs.Prelude.{◌↔◌, All, IfOk, map};
ghost use Rattle.type_model.specs.declared.basic.SemType.{SemType as Written};
ghost use Rattle.lower_expr.specs.Drafts.{step_of};
ghost use Rattle.tested_types.specs.Asked.{AreOnce, IsAmong, IsAsked, IsDefinedAt};

use crate::members::members;
use crate::steps::steps;
use bal_base::Memory;
use lower_expr::Step;
use std::alloc::Global;
use type_model::{AtomDef, SemType};

/// The types that code of these steps tests or casts to, and those of members of structures with these inherent atoms, over these
/// definitions: each once, as it is written, in the order in which they are met. The time grows with the steps and members, and for
/// each test, cast and member with the types that are met before. It answers want of memory also where an atom has no definition;
/// checked packages have none of these.
pub fn tested(
    alloc: Global,
    drafted: &[Step<'_>],
    atoms: &[AtomDef],
    inherent: &[u32],
) -> Result<Vec<SemType>, Memory>
    ensures once { IfOk result (λ found. AreOnce found.items) }
    ensures are { IfOk result (λ found. (t : Written) → IsAmong found.items t ↔ IsAsked (map step_of drafted.now) atoms.now inherent.now t) }
    ensures defined { IfOk result (λ found. All (IsDefinedAt atoms.now) inherent.now) }
{
    let mut types = Vec::new(alloc);
    steps(&mut types, alloc, drafted)?;
    members(&mut types, alloc, atoms, inherent)?;
    Ok(types)
}
