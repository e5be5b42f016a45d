//! Copies of the definitions of atoms.

ghost use Rattle.std.specs.Prelude.{◌≡◌, IfOk};
ghost use Rattle.std.specs.List.{AllZip};
ghost use Rattle.code_assembly.specs.Copies.{AreSameRests, IsSameDef, IsSameField, IsSameTy};

use bal_base::Memory;
use std::alloc::Global;
use type_model::{AtomDef, ChoiceList, FieldDef, FieldList, Ty, TyList};

fn choices(alloc: Global, choices: &ChoiceList) -> Result<ChoiceList, Memory>
    ensures { IfOk result (λ cs. cs ≡ choices.now) }
{
    Ok(ChoiceList::of(choices.as_slice().to_vec(alloc)?))
}

fn ty(alloc: Global, t: &Ty) -> Result<Ty, Memory>
    ensures { IfOk result (IsSameTy t.now) }
{
    let sem = t.sem.copy(alloc)?;
    let lists = choices(alloc, &t.lists)?;
    let maps = choices(alloc, &t.maps)?;
    Ok(Ty { sem, lists, maps })
}

fn tys(alloc: Global, ts: &[Ty]) -> Result<TyList, Memory>
    ensures { IfOk result (AllZip IsSameTy ts.now) }
{
    let mut copies = Vec::new(alloc);
    for t in ts {
        copies.push(ty(alloc, t)?)?;
    }
    Ok(TyList::of(copies))
}

fn rest(alloc: Global, rest: &Option<Ty>) -> Result<Option<Ty>, Memory>
    ensures { IfOk result (AreSameRests rest.now) }
{
    match rest {
        Some(t) => Ok(Some(ty(alloc, t)?)),
        None => Ok(None),
    }
}

fn field(alloc: Global, f: &FieldDef) -> Result<FieldDef, Memory>
    ensures { IfOk result (IsSameField f.now) }
{
    Ok(FieldDef {
        name: f.name.share(),
        ty: ty(alloc, &f.ty)?,
        optional: f.optional,
    })
}

fn fields(alloc: Global, fs: &[FieldDef]) -> Result<FieldList, Memory>
    ensures { IfOk result (AllZip IsSameField fs.now) }
{
    let mut copies = Vec::new(alloc);
    for f in fs {
        copies.push(field(alloc, f)?)?;
    }
    Ok(FieldList::of(copies))
}

fn def(alloc: Global, d: &AtomDef) -> Result<AtomDef, Memory>
    ensures { IfOk result (IsSameDef d.now) }
{
    match d {
        AtomDef::List {
            fixed,
            rest: others,
        } => Ok(AtomDef::List {
            fixed: tys(alloc, fixed.as_slice())?,
            rest: rest(alloc, others)?,
        }),
        AtomDef::Mapping {
            fields: own,
            rest: others,
        } => Ok(AtomDef::Mapping {
            fields: fields(alloc, own.as_slice())?,
            rest: rest(alloc, others)?,
        }),
        AtomDef::Arrow {
            args,
            result,
            isolated,
        } => Ok(AtomDef::Arrow {
            args: args.copy(alloc)?,
            result: result.copy(alloc)?,
            isolated: *isolated,
        }),
        AtomDef::Error { detail } => Ok(AtomDef::Error {
            detail: detail.copy(alloc)?,
        }),
        AtomDef::Future { result } => Ok(AtomDef::Future {
            result: result.copy(alloc)?,
        }),
    }
}

/// Copies of definitions, in order.
pub fn defs(alloc: Global, defs: &[AtomDef]) -> Result<Vec<AtomDef>, Memory>
    ensures { IfOk result (λ ds. AllZip IsSameDef defs.now ds.items) }
{
    let mut copies = Vec::new(alloc);
    for d in defs {
        copies.push(def(alloc, d)?)?;
    }
    Ok(copies)
}
