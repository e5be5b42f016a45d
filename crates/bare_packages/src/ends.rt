//! What stands behind the statements of a body whose end isn't reached, and the type of anything.
#![tactic(auto)]

ghost use Rattle.std.specs.Prelude.{◌≡◌, ◌++◌, List, IfOk, OnOk};
ghost use Rattle.typed_tree.specs.SharedTypes.{sem_of};
ghost use Rattle.typed_tree.specs.declared.stmt.TypedStmt.{TypedStmt};
ghost use Rattle.declared_reads.specs.Declared.{AreDeclared, IsAnything, IsEnd, IsNever};

use crate::stmts::stmts;
use bal_base::{Memory, Place};
use operations::Constant;
use std::alloc::Global;
use std::rc::Rc;
use type_model::{BasicSet, ChoiceList, SemType, Ty};
use typed_tree::{SharedTy, TypedExpr, TypedStmt};

/// All shapes.
fn everything(alloc: Global) -> Result<SemType, Memory>
    ensures { IfOk result IsAnything }
{
    Ok(SemType::Not(Box::new(alloc, SemType::Basic(BasicSet::Never))?))
}

/// The type of anything, without constructor choices.
pub fn anything(alloc: Global) -> Result<SharedTy, Memory>
    ensures { IfOk result (λ t. IsAnything (sem_of t)) }
{
    let any = Ty {
        sem: everything(alloc)?,
        lists: ChoiceList::of(Vec::new(alloc)),
        maps: ChoiceList::of(Vec::new(alloc)),
    };
    Ok(Rc::new(alloc, any)?)
}

/// A statement that can't be done: it goes on by nil, which is no boolean.
fn never(alloc: Global, any: &SharedTy, at: Place) -> Result<TypedStmt, Memory>
    ensures { IfOk result IsNever }
{
    let nil = TypedExpr::Implied {
        value: Constant::Nil,
        ty: any.clone()?,
        at,
    };
    Ok(TypedStmt::If {
        condition: Box::new(alloc, nil)?,
        first: Vec::new(alloc),
        second: Vec::new(alloc),
        at,
    })
}

/// A statement that can't be done stands behind the others where their end isn't reached.
fn end(
    alloc: Global,
    any: &SharedTy,
    ends: bool,
    at: Place,
    ss: &mut Vec<TypedStmt>,
) -> Result<(), Memory>
    ensures { OnOk result ((end : List TypedStmt) × IsEnd ends end × (ss.new.items ≡ ss.old.items ++ end)) }
{
    if !ends {
        ss.push(never(alloc, any, at)?)?;
    }
    Ok(())
}

/// The statements of a body read variables as declared, and what stands behind them is as it should.
pub fn statements(
    alloc: Global,
    any: &SharedTy,
    ends: bool,
    at: Place,
    ss: &mut Vec<TypedStmt>,
) -> Result<(), Memory>
    requires { IsAnything (sem_of any.now) }
    ensures { OnOk result (AreDeclared ends ss.old.items ss.new.items) }
{
    stmts(alloc, any, ss)?;
    end(alloc, any, ends, at, ss)
}
