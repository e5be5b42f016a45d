//! Needs of what functions give to arguments.
ghost use Rattle.std.specs.Prelude.{◌≡◌, All, IfOk, List, length};
ghost use Rattle.std.specs.List.{AllZip};
ghost use Rattle.bal_base.specs.Stops.{IfFault};
ghost use Rattle.type_model.specs.declared.basic.SemType.{SemType as TypeOf, Atom};
ghost use Rattle.type_model.specs.Application.{Applies as AppliesTo, IsFunctionType, IsListType, NamesDefined};
ghost use Rattle.type_model.specs.Calls.{Applied, KeepsTypes};
ghost use Rattle.type_model.specs.Defined.{DefBelow, IsDefined};
ghost use Rattle.code_needs.specs.Needs.{Applies, Gives};
ghost use Rattle.atom_questions.specs.Added.{HasOneMore, IsArgsDef, IsFunctionsOf, IsPlainOf};
ghost use Rattle.atom_questions.specs.Both.{AnswersBoth};
ghost use Rattle.atom_questions.specs.inner.Stopping.{ApplyPasses, IsListDef, IsToldByApplying, IsToldOf, ResultPasses, TypesPass};
ghost use Rattle.atom_questions.specs.Limits.{AsksGiven, OneMoreStops};

use crate::adding::{add_one, below};
use crate::limits::QuestionLimit;
use bal_base::{Memory, Stop};
use std::alloc::Global;
use type_model::{Answer, Apply, AtomDef, BasicSet, ChoiceList, SemType, Ty, TyList, Types};

/// A copy of the type, without constructor choices.
fn plain(alloc: Global, t: &SemType) -> Result<Ty, Memory>
    ensures { IfOk result (IsPlainOf t.now) }
{
    Ok(Ty {
        sem: t.copy(alloc)?,
        lists: ChoiceList::of(Vec::new(alloc)),
        maps: ChoiceList::of(Vec::new(alloc)),
    })
}

/// Copies of the types, without constructor choices.
fn plain_types(alloc: Global, types: &[SemType]) -> Result<Vec<Ty>, Memory>
    ensures { IfOk result (λ copies. AllZip IsPlainOf types.now copies.items) }
{
    let mut copies = Vec::new(alloc);
    for t in types {
        copies.push(plain(alloc, t)?)?;
    }
    Ok(copies)
}

/// Lists of just these arguments.
pub(crate) fn args_def(alloc: Global, args: &[SemType]) -> Result<AtomDef, Memory>
    ensures { IfOk result (IsArgsDef args.now) }
{
    Ok(AtomDef::List {
        fixed: TyList::of(plain_types(alloc, args)?),
        rest: None,
    })
}

/// The functions of a type.
pub(crate) fn functions_of(alloc: Global, f: &SemType) -> Result<SemType, Memory>
    ensures { IfOk result (IsFunctionsOf f.now) }
{
    let own = Box::new(alloc, f.copy(alloc)?)?;
    let all = Box::new(alloc, SemType::Basic(BasicSet::FunctionAll))?;
    Ok(SemType::And(own, all))
}

/// What the functions give to the arguments, or arguments at which one fails. `Types` where the question is too large.
pub(crate) fn apply<T: Types>(
    alloc: Global,
    types: &mut T,
    g: &SemType,
    args: &SemType,
) -> Result<Apply, Stop<QuestionLimit>>
    requires g_defined { IsDefined (T.atoms types.old) g.now }
    requires args_defined { IsDefined (T.atoms types.old) args.now }
    requires functions { IsFunctionType (T.atoms types.old) g.now }
    requires lists { IsListType (T.atoms types.old) args.now }
    ensures atoms { T.atoms types.new ≡ T.atoms types.old }
    ensures defined { IfOk result (NamesDefined (T.atoms types.old)) }
    ensures applies { IfOk result (AppliesTo (T.atoms types.old) g.now args.now) }
    ensures limit { IfFault result (TypesPass T.passes (T.atoms types.old) (Applied g.now args.now)) }
{
    match types.apply(alloc, g, args) {
        Ok(applied) => Ok(applied),
        Err(Stop::Fault(limit)) => Err(Stop::Fault(QuestionLimit::Types(limit))),
        Err(Stop::Memory) => Err(Stop::Memory),
    }
}

/// Whether what is given is in the type; no, where a function fails.
fn results_in<T: Types>(
    alloc: Global,
    types: &mut T,
    applied: Apply,
    r: &SemType,
) -> Result<Answer, Stop<QuestionLimit>>
    requires defined { NamesDefined (T.atoms types.old) applied }
    requires right { IsDefined (T.atoms types.old) r.now }
    ensures atoms { T.atoms types.new ≡ T.atoms types.old }
    ensures told { IfOk result (IsToldOf (T.atoms types.old) r.now applied) }
    ensures limit { IfFault result (ResultPasses T.passes (T.atoms types.old) r.now applied) }
{
    match applied {
        Apply::Result(t) => below(alloc, types, &t, r),
        Apply::Outside(arguments) => Ok(Answer::No(arguments)),
    }
}

/// Whether what the functions give to the arguments is in the type; no, where one fails.
fn given_in<T: Types>(
    alloc: Global,
    types: &mut T,
    g: &SemType,
    args: &SemType,
    r: &SemType,
) -> Result<Answer, Stop<QuestionLimit>>
    requires g_defined { IsDefined (T.atoms types.old) g.now }
    requires args_defined { IsDefined (T.atoms types.old) args.now }
    requires functions { IsFunctionType (T.atoms types.old) g.now }
    requires lists { IsListType (T.atoms types.old) args.now }
    requires right { IsDefined (T.atoms types.old) r.now }
    ensures atoms { T.atoms types.new ≡ T.atoms types.old }
    ensures told { IfOk result (IsToldByApplying (T.atoms types.old) g.now args.now r.now) }
    ensures limit { IfFault result (ApplyPasses T.passes (T.atoms types.old) g.now args.now r.now) }
{
    match apply(alloc, types, g, args) {
        Ok(applied) => results_in(alloc, types, applied, r),
        Err(stop) => Err(stop),
    }
}

/// The same of a type's functions alone, and of lists of an atom.
fn given_to_atom<T: Types>(
    alloc: Global,
    types: &mut T,
    f: &SemType,
    atom: u32,
    r: &SemType,
) -> Result<Answer, Stop<QuestionLimit>>
    requires f_defined { IsDefined (T.atoms types.old) f.now }
    requires atom { IsDefined (T.atoms types.old) (Atom atom) }
    requires lists { IsListType (T.atoms types.old) (Atom atom) }
    requires right { IsDefined (T.atoms types.old) r.now }
    ensures atoms { T.atoms types.new ≡ T.atoms types.old }
    ensures told { IfOk result (λ answer. (g : TypeOf) × IsFunctionsOf f.now g × IsToldByApplying (T.atoms types.old) g (Atom atom) r.now answer) }
    ensures limit { IfFault result (λ limit. (g : TypeOf) × IsFunctionsOf f.now g × ApplyPasses T.passes (T.atoms types.old) g (Atom atom) r.now limit) }
{
    match functions_of(alloc, f) {
        Ok(g) => given_in(alloc, types, &g, &SemType::Atom(atom), r),
        Err(Memory) => Err(Stop::Memory),
    }
}

/// The same of lists so defined, which are added.
fn given_to<T: Types>(
    alloc: Global,
    types: &mut T,
    f: &SemType,
    def: AtomDef,
    r: &SemType,
) -> Result<Answer, Stop<QuestionLimit>>
    requires f_defined { IsDefined (T.atoms types.old) f.now }
    requires right { IsDefined (T.atoms types.old) r.now }
    requires below { DefBelow (length (T.atoms types.old)) def }
    requires lists { IsListDef def }
    ensures kept { KeepsTypes (T.atoms types.old) (T.atoms types.new) }
    ensures added { HasOneMore (T.atoms types.old) (λ d. d ≡ def) (T.atoms types.new) }
    ensures answers { (args : List TypeOf) → IsArgsDef args def → All (IsDefined (T.atoms types.old)) args → IfOk result (AnswersBoth (T.atoms types.old) (Applies f.now args) (Gives f.now args r.now)) }
    ensures limit { (args : List TypeOf) → IsArgsDef args def → IfFault result (OneMoreStops T.passes (T.atoms types.old) (λ d. d ≡ def) (AsksGiven f.now args (length (T.atoms types.old)) r.now)) }
{
    match add_one(alloc, types, def) {
        Ok(atom) => given_to_atom(alloc, types, f, atom, r),
        Err(stop) => Err(stop),
    }
}

/// Whether no function of the first type fails at arguments of these types, and all that such functions give to them is in
/// the last one, which costs an atom and up to two questions. `Atoms` where there would be too many atoms, `Types` where a
/// question is too large.
pub fn gives<T: Types>(
    alloc: Global,
    types: &mut T,
    f: &SemType,
    args: &[SemType],
    r: &SemType,
) -> Result<Answer, Stop<QuestionLimit>>
    requires f_defined { IsDefined (T.atoms types.old) f.now }
    requires args_defined { All (IsDefined (T.atoms types.old)) args.now }
    requires right { IsDefined (T.atoms types.old) r.now }
    ensures kept { KeepsTypes (T.atoms types.old) (T.atoms types.new) }
    ensures added { HasOneMore (T.atoms types.old) (IsArgsDef args.now) (T.atoms types.new) }
    ensures answers { IfOk result (AnswersBoth (T.atoms types.old) (Applies f.now args.now) (Gives f.now args.now r.now)) }
    ensures limit { IfFault result (OneMoreStops T.passes (T.atoms types.old) (IsArgsDef args.now) (AsksGiven f.now args.now (length (T.atoms types.old)) r.now)) }
{
    match args_def(alloc, args) {
        Ok(def) => given_to(alloc, types, f, def, r),
        Err(Memory) => Err(Stop::Memory),
    }
}
