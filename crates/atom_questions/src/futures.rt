//! Needs of futures of what functions give to arguments.
ghost use Rattle.std.specs.Prelude.{◌≡◌, ◌++◌, ◌∷◌, [], All, IfOk, List, OnOk, length};
ghost use Rattle.bal_base.specs.Stops.{IfFault};
ghost use Rattle.type_model.specs.declared.atoms.AtomDef.{AtomDef as Definition};
ghost use Rattle.type_model.specs.declared.basic.SemType.{SemType as TypeOf, Atom};
ghost use Rattle.type_model.specs.Application.{Applies as AppliesTo, IsListType, NamesDefined};
ghost use Rattle.type_model.specs.Calls.{Applied, KeepsTypes};
ghost use Rattle.type_model.specs.Defined.{DefBelow, IsDefined};
ghost use Rattle.code_needs.specs.Needs.{Applies, GivesFuture};
ghost use Rattle.atom_questions.specs.Added.{HasOneMore, IsArgsDef, IsFunctionsOf};
ghost use Rattle.atom_questions.specs.Both.{AnswersBoth};
ghost use Rattle.atom_questions.specs.FutureNeeds.{AsksApplied, FutureStops, HasFutureMore};
ghost use Rattle.atom_questions.specs.inner.Applying.{FutureOfStops, IsFutureOfGiven, IsFutureTold, IsGiven};
ghost use Rattle.atom_questions.specs.inner.Stopping.{IsListDef, TypesPass};
ghost use Rattle.atom_questions.specs.Limits.{OneMoreStops};

use crate::adding::{add_one, has_atom};
use crate::applications::{apply, args_def, functions_of};
use crate::limits::QuestionLimit;
use bal_base::{Memory, Stop};
use std::alloc::Global;
use type_model::{Answer, Apply, AtomDef, SemType, Types};

/// What the functions of a type give to lists of an atom.
fn given_by_atom<T: Types>(
    alloc: Global,
    types: &mut T,
    f: &SemType,
    atom: u32,
) -> Result<Apply, Stop<QuestionLimit>>
    requires f_defined { IsDefined (T.atoms types.old) f.now }
    requires atom { IsDefined (T.atoms types.old) (Atom atom) }
    requires lists { IsListType (T.atoms types.old) (Atom atom) }
    ensures atoms { T.atoms types.new ≡ T.atoms types.old }
    ensures defined { IfOk result (NamesDefined (T.atoms types.old)) }
    ensures applies { IfOk result (λ applied. (g : TypeOf) × IsFunctionsOf f.now g × AppliesTo (T.atoms types.old) g (Atom atom) applied) }
    ensures limit { IfFault result (λ limit. (g : TypeOf) × IsFunctionsOf f.now g × TypesPass T.passes (T.atoms types.old) (Applied g (Atom atom)) limit) }
{
    match functions_of(alloc, f) {
        Ok(g) => apply(alloc, types, &g, &SemType::Atom(atom)),
        Err(Memory) => Err(Stop::Memory),
    }
}

/// The same of lists so defined, which are added.
fn given_by<T: Types>(
    alloc: Global,
    types: &mut T,
    f: &SemType,
    def: AtomDef,
) -> Result<Apply, Stop<QuestionLimit>>
    requires f_defined { IsDefined (T.atoms types.old) f.now }
    requires below { DefBelow (length (T.atoms types.old)) def }
    requires lists { IsListDef def }
    ensures kept { KeepsTypes (T.atoms types.old) (T.atoms types.new) }
    ensures added { OnOk result (T.atoms types.new ≡ T.atoms types.old ++ def ∷ []) }
    ensures more { HasOneMore (T.atoms types.old) (λ d. d ≡ def) (T.atoms types.new) }
    ensures defined { IfOk result (NamesDefined (T.atoms types.new)) }
    ensures given { (args : List TypeOf) → IsArgsDef args def → IfOk result (IsGiven (T.atoms types.new) f.now args) }
    ensures limit { IfFault result (OneMoreStops T.passes (T.atoms types.old) (λ d. d ≡ def) (AsksApplied f.now (length (T.atoms types.old)))) }
{
    match add_one(alloc, types, def) {
        Ok(atom) => given_by_atom(alloc, types, f, atom),
        Err(stop) => Err(stop),
    }
}

/// What the functions of a type give to arguments of these types, or arguments at which one fails: an atom and a question.
fn given<T: Types>(
    alloc: Global,
    types: &mut T,
    f: &SemType,
    args: &[SemType],
) -> Result<Apply, Stop<QuestionLimit>>
    requires f_defined { IsDefined (T.atoms types.old) f.now }
    requires args_defined { All (IsDefined (T.atoms types.old)) args.now }
    ensures kept { KeepsTypes (T.atoms types.old) (T.atoms types.new) }
    ensures added { OnOk result ((def : Definition) × IsArgsDef args.now def × (T.atoms types.new ≡ T.atoms types.old ++ def ∷ [])) }
    ensures more { HasOneMore (T.atoms types.old) (IsArgsDef args.now) (T.atoms types.new) }
    ensures defined { IfOk result (NamesDefined (T.atoms types.new)) }
    ensures given { IfOk result (IsGiven (T.atoms types.new) f.now args.now) }
    ensures limit { IfFault result (OneMoreStops T.passes (T.atoms types.old) (IsArgsDef args.now) (AsksApplied f.now (length (T.atoms types.old)))) }
{
    match args_def(alloc, args) {
        Ok(def) => given_by(alloc, types, f, def),
        Err(Memory) => Err(Stop::Memory),
    }
}

/// Whether futures with what was given as results are in the type; no, where a function fails.
fn futures_in<T: Types>(
    alloc: Global,
    types: &mut T,
    applied: Apply,
    r: &SemType,
) -> Result<Answer, Stop<QuestionLimit>>
    requires defined { NamesDefined (T.atoms types.old) applied }
    requires right { IsDefined (T.atoms types.old) r.now }
    ensures kept { KeepsTypes (T.atoms types.old) (T.atoms types.new) }
    ensures added { HasOneMore (T.atoms types.old) (IsFutureOfGiven applied) (T.atoms types.new) }
    ensures told { IfOk result (IsFutureTold (T.atoms types.old) r.now applied) }
    ensures limit { IfFault result (FutureOfStops T.passes (T.atoms types.old) r.now applied) }
{
    match applied {
        Apply::Result(t) => has_atom(alloc, types, AtomDef::Future { result: t }, r),
        Apply::Outside(arguments) => Ok(Answer::No(arguments)),
    }
}

/// Whether no function of the first type fails at arguments of these types, and futures of all that such functions give to
/// them are in the last one, which costs up to two atoms and two questions. `Atoms` where there would be too many atoms,
/// `Types` where a question is too large.
pub fn gives_future<T: Types>(
    alloc: Global,
    types: &mut T,
    f: &SemType,
    args: &[SemType],
    r: &SemType,
) -> Result<Answer, Stop<QuestionLimit>>
    requires f_defined { IsDefined (T.atoms types.old) f.now }
    requires args_defined { All (IsDefined (T.atoms types.old)) args.now }
    requires right { IsDefined (T.atoms types.old) r.now }
    ensures kept { KeepsTypes (T.atoms types.old) (T.atoms types.new) }
    ensures added { HasFutureMore (T.atoms types.old) f.now args.now (T.atoms types.new) }
    ensures answers { IfOk result (AnswersBoth (T.atoms types.old) (Applies f.now args.now) (GivesFuture f.now args.now r.now)) }
    ensures limit { IfFault result (FutureStops T.passes (T.atoms types.old) f.now args.now r.now) }
{
    match given(alloc, types, f, args) {
        Ok(applied) => futures_in(alloc, types, applied, r),
        Err(stop) => Err(stop),
    }
}
