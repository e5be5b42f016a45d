//! Whether the types of a function's workers name only atoms that are there.
#![tactic(auto)]

ghost use Rattle.std.specs.Prelude.{◌≡◌, All, IfOk, IsTrue, length};
ghost use Rattle.type_model.specs.Defined.{NamesBelow};
ghost use Rattle.worker_pairing.specs.Faults.{Atoms};
ghost use Rattle.worker_pairing.specs.Marks.{members_of};
ghost use Rattle.worker_members.specs.Held.{sem_said};
ghost use Rattle.worker_messages.specs.Defined.{AreDefined};
ghost use Rattle.package_plans.specs.inner.Below.{IsMemberBelow};

use bal_base::Memory;
use std::alloc::Global;
use typed_tree::TypedFunction;
use worker_members::{HeldMember, HeldMembers, Returned, Said, SaidType, members};

/// Whether the type names only the first `atoms`.
fn is_below(ty: SaidType<'_>, atoms: usize) -> bool
    ensures { IsTrue result → NamesBelow atoms (sem_said ty.entry) }
{
    match ty {
        SaidType::Of(t) => t.sem.names_below(atoms),
        SaidType::Nil => true,
    }
}

/// The same of what events send and receive.
fn are_said_below(said: &[Said<'_>], atoms: usize) -> bool
    ensures { IsTrue result → All (λ s. NamesBelow atoms (sem_said s.ty)) said.now }
{
    said.iter().all(|s| is_below(s.ty, atoms))
}

/// The same of what is returned.
fn are_returned_below(returned: &[Returned<'_>], atoms: usize) -> bool
    ensures { IsTrue result → All (λ r. NamesBelow atoms (sem_said r.ty)) returned.now }
{
    returned.iter().all(|r| is_below(r.ty, atoms))
}

/// The same of a worker.
fn is_member_below(member: &HeldMember<'_>, atoms: usize) -> bool
    ensures { IsTrue result → IsMemberBelow atoms member.now }
{
    are_said_below(member.sayings.as_slice(), atoms)
        && are_returned_below(member.returns.as_slice(), atoms)
        && member.result.sem.names_below(atoms)
}

/// The same of all workers of a function.
fn are_members_below(members: &HeldMembers<'_>, atoms: usize) -> bool
    ensures { IsTrue result → All (IsMemberBelow atoms) members.now.workers.items }
{
    members.workers.iter().all(|m| is_member_below(m, atoms))
}

/// Whether the types of what a function's workers send, receive and return name only the first `atoms`.
pub(crate) fn is_defined(alloc: Global, f: &TypedFunction, atoms: usize) -> Result<bool, Memory>
    ensures { IfOk result (λ b. IsTrue b → (env : Atoms) → length env ≡ atoms → AreDefined env (members_of f.now)) }
{
    let members = members(alloc, f)?;
    Ok(are_members_below(&members, atoms))
}
