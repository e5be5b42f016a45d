//! Kinds of values as types that are shared.
ghost use Rattle.std.specs.Prelude.{IfOk, List, length};
ghost use Rattle.descriptors.specs.Steps.{AreOwnTypes};
ghost use Rattle.type_model.specs.declared.atoms.AtomDef.{AtomDef as Atom};
ghost use Rattle.type_model.specs.Defined.{TyBelow};
ghost use Rattle.check_words.specs.Words.{OfKind};

use crate::kinds::kind_type;
use bal_base::Memory;
use descriptors::OwnTypes;
use expr_needs::Kind;
use std::alloc::Global;
use std::rc::Rc;
use typed_tree::SharedTy;

/// The type of the kind, which is [`kind_type`], to be shared.
pub fn kind_shared(alloc: Global, own: &OwnTypes, kind: Kind) -> Result<SharedTy, Memory>
    ensures is { IfOk result (λ t. (env : List Atom) → AreOwnTypes env own.now → OfKind kind env t.value) }
    ensures defined { IfOk result (λ t. (env : List Atom) → AreOwnTypes env own.now → TyBelow (length env) t.value) }
{
    let ty = kind_type(alloc, own, kind)?;
    Ok(Rc::new(alloc, ty)?)
}
