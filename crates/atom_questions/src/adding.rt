//! An atom more, and what is asked of it.
ghost use Rattle.std.specs.Prelude.{◌≡◌, ◌++◌, ◌∷◌, [], All, IfOk, OnErr, OnOk, length};
ghost use Rattle.bal_base.specs.Stops.{IfFault};
ghost use Rattle.type_model.specs.declared.basic.SemType.{Atom};
ghost use Rattle.type_model.specs.Calls.{KeepsTypes, Without};
ghost use Rattle.type_model.specs.Defined.{DefBelow, IsDefined, IsDefinedGroup};
ghost use Rattle.type_model.specs.Inclusion.{AnswersSub};
ghost use Rattle.type_model.specs.Places.{HasDistinctFields};
ghost use Rattle.atom_questions.specs.Added.{HasOneMore};
ghost use Rattle.atom_questions.specs.FutureNeeds.{AsksAtom};
ghost use Rattle.atom_questions.specs.inner.Applying.{IsAnsweredOf};
ghost use Rattle.atom_questions.specs.inner.Stopping.{TooManyAtoms, TypesPass};
ghost use Rattle.atom_questions.specs.Limits.{OneMoreStops};

use crate::limits::QuestionLimit;
use bal_base::{Memory, Stop};
use std::alloc::Global;
use type_model::{Answer, AtomDef, AtomLimit, SemType, Types};

/// One definition.
fn one_def(alloc: Global, def: AtomDef) -> Result<Vec<AtomDef>, Memory>
    ensures { IfOk result (λ defs. defs.items ≡ def ∷ []) }
{
    let mut defs = Vec::new(alloc);
    defs.push(def)?;
    Ok(defs)
}

/// Definitions more, which may name each other and the atoms that are there; gives the number of the first. `Atoms` where there
/// would be too many.
pub fn add_defs<T: Types>(
    alloc: Global,
    types: &mut T,
    defs: Vec<AtomDef>,
) -> Result<u32, Stop<QuestionLimit>>
    requires named { IsDefinedGroup (T.atoms types.old) defs.items }
    requires distinct { All HasDistinctFields defs.items }
    ensures first { IfOk result (λ first. first ≡ length (T.atoms types.old)) }
    ensures added { OnOk result (T.atoms types.new ≡ T.atoms types.old ++ defs.items) }
    ensures refused { OnErr result (T.atoms types.new ≡ T.atoms types.old) }
    ensures limit { IfFault result (TooManyAtoms (T.atoms types.old) defs.items) }
    ensures kept { KeepsTypes (T.atoms types.old) (T.atoms types.new) }
{
    match types.add(alloc, defs) {
        Ok(first) => Ok(first),
        Err(Stop::Fault(AtomLimit)) => Err(Stop::Fault(QuestionLimit::Atoms)),
        Err(Stop::Memory) => Err(Stop::Memory),
    }
}

/// An atom more, which names those that are there alone; gives its number. `Atoms` where there would be too many.
pub(crate) fn add_one<T: Types>(
    alloc: Global,
    types: &mut T,
    def: AtomDef,
) -> Result<u32, Stop<QuestionLimit>>
    requires named { DefBelow (length (T.atoms types.old)) def }
    requires distinct { HasDistinctFields def }
    ensures first { IfOk result (λ first. first ≡ length (T.atoms types.old)) }
    ensures added { OnOk result (T.atoms types.new ≡ T.atoms types.old ++ def ∷ []) }
    ensures refused { OnErr result (T.atoms types.new ≡ T.atoms types.old) }
    ensures limit { IfFault result (TooManyAtoms (T.atoms types.old) (def ∷ [])) }
    ensures kept { KeepsTypes (T.atoms types.old) (T.atoms types.new) }
{
    match one_def(alloc, def) {
        Ok(defs) => add_defs(alloc, types, defs),
        Err(Memory) => Err(Stop::Memory),
    }
}

/// Whether the first type is below the second. `Types` where the question is too large.
pub fn below<T: Types>(
    alloc: Global,
    types: &mut T,
    s: &SemType,
    t: &SemType,
) -> Result<Answer, Stop<QuestionLimit>>
    requires left { IsDefined (T.atoms types.old) s.now }
    requires right { IsDefined (T.atoms types.old) t.now }
    ensures atoms { T.atoms types.new ≡ T.atoms types.old }
    ensures answer { IfOk result (AnswersSub (T.atoms types.old) s.now t.now) }
    ensures limit { IfFault result (TypesPass T.passes (T.atoms types.old) (Without s.now t.now)) }
{
    match types.sub(alloc, s, t) {
        Ok(answer) => Ok(answer),
        Err(Stop::Fault(limit)) => Err(Stop::Fault(QuestionLimit::Types(limit))),
        Err(Stop::Memory) => Err(Stop::Memory),
    }
}

/// Whether all shapes of the atom, which is added, are in the type.
pub(crate) fn has_atom<T: Types>(
    alloc: Global,
    types: &mut T,
    def: AtomDef,
    r: &SemType,
) -> Result<Answer, Stop<QuestionLimit>>
    requires named { DefBelow (length (T.atoms types.old)) def }
    requires distinct { HasDistinctFields def }
    requires right { IsDefined (T.atoms types.old) r.now }
    ensures kept { KeepsTypes (T.atoms types.old) (T.atoms types.new) }
    ensures added { HasOneMore (T.atoms types.old) (λ d. d ≡ def) (T.atoms types.new) }
    ensures answer { IfOk result (IsAnsweredOf (T.atoms types.old) def r.now) }
    ensures limit { IfFault result (OneMoreStops T.passes (T.atoms types.old) (λ d. d ≡ def) (AsksAtom (length (T.atoms types.old)) r.now)) }
{
    match add_one(alloc, types, def) {
        Ok(atom) => below(alloc, types, &SemType::Atom(atom), r),
        Err(stop) => Err(stop),
    }
}
