//! The types of tests and casts, to be shared.
#![tactic(auto)]

ghost use Rattle.std.specs.Prelude.{IfOk, map};
ghost use Rattle.std.specs.List.{AllZip};
ghost use Rattle.type_model.specs.SameType.{IsSameType};
ghost use Rattle.typed_tree.specs.SharedTypes.{sem_of};

use bal_base::{Memory, Row};
use stack_code::Code;
use std::alloc::Global;
use std::rc::Rc;
use type_model::{SemType, Ty};
use typed_tree::SharedTy;

/// The type, to be shared.
fn shared_type(alloc: Global, sem: &SemType) -> Result<SharedTy, Memory>
    ensures { IfOk result (λ t. IsSameType sem.now (sem_of t)) }
{
    let ty = Ty {
        sem: sem.copy(alloc)?,
        lists: Row::of(Vec::new(alloc)),
        maps: Row::of(Vec::new(alloc)),
    };
    Ok(Rc::new(alloc, ty)?)
}

/// The types that the code tests, to be shared.
pub fn tested_types(alloc: Global, code: &Code) -> Result<Vec<SharedTy>, Memory>
    ensures { IfOk result (λ ts. AllZip IsSameType code.now.tested (map sem_of ts.items)) }
{
    let mut types = Vec::new(alloc);
    for sem in code.tested.as_slice() {
        types.push(shared_type(alloc, sem)?)?;
    }
    Ok(types)
}
