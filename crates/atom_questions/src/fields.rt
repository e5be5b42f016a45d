//! Needs of mappings that have a key.
ghost use Rattle.std.specs.Prelude.{◌≡◌, IfOk, length};
ghost use Rattle.bal_base.specs.Stops.{IfFault};
ghost use Rattle.type_model.specs.declared.basic.BasicSet.TheVariants.{Never};
ghost use Rattle.type_model.specs.declared.basic.SemType.{Atom};
ghost use Rattle.type_model.specs.Calls.{KeepsTypes, Without};
ghost use Rattle.type_model.specs.Defined.{DefBelow, IsDefined};
ghost use Rattle.type_model.specs.Places.{HasDistinctFields};
ghost use Rattle.code_needs.specs.Needs.{HasField};
ghost use Rattle.code_verifier.specs.Asked.{Answers};
ghost use Rattle.code_verifier.specs.KindSets.{IsAllBut};
ghost use Rattle.atom_questions.specs.Added.{HasOneMore, IsAny, IsFieldDef};
ghost use Rattle.atom_questions.specs.inner.Fields.{IsOneField};
ghost use Rattle.atom_questions.specs.inner.Stopping.{IsAnsweredIn};
ghost use Rattle.atom_questions.specs.Limits.{OneMoreStops};

use crate::adding::{add_one, below};
use crate::limits::QuestionLimit;
use bal_base::{Memory, Stop, Text};
use std::alloc::Global;
use type_model::{Answer, AtomDef, BasicSet, ChoiceList, FieldDef, FieldList, SemType, Ty, Types};

/// All shapes.
fn everything(alloc: Global) -> Result<SemType, Memory>
    ensures { IfOk result (IsAllBut Never) }
{
    Ok(SemType::Not(Box::new(alloc, SemType::Basic(BasicSet::Never))?))
}

/// The type of all shapes, without constructor choices.
fn any(alloc: Global) -> Result<Ty, Memory>
    ensures { IfOk result IsAny }
{
    Ok(Ty {
        sem: everything(alloc)?,
        lists: ChoiceList::of(Vec::new(alloc)),
        maps: ChoiceList::of(Vec::new(alloc)),
    })
}

/// One field, which is required.
fn one_field(alloc: Global, name: &Text, ty: Ty) -> Result<FieldList, Memory>
    ensures { IfOk result (IsOneField name.now ty) }
{
    let mut fields = Vec::new(alloc);
    fields.push(FieldDef {
        name: name.share(),
        ty,
        optional: false,
    })?;
    Ok(FieldList::of(fields))
}

/// Mappings that have the key.
fn field_def(alloc: Global, name: &Text) -> Result<AtomDef, Memory>
    ensures { IfOk result (IsFieldDef name.now) }
{
    let rest = any(alloc)?;
    let ty = any(alloc)?;
    let fields = one_field(alloc, name, ty)?;
    Ok(AtomDef::Mapping {
        fields,
        rest: Some(rest),
    })
}

/// Whether all shapes of a type are in the atom, which is added.
fn is_in_atom<T: Types>(
    alloc: Global,
    types: &mut T,
    m: &SemType,
    def: AtomDef,
) -> Result<Answer, Stop<QuestionLimit>>
    requires defined { IsDefined (T.atoms types.old) m.now }
    requires named { DefBelow (length (T.atoms types.old)) def }
    requires distinct { HasDistinctFields def }
    ensures kept { KeepsTypes (T.atoms types.old) (T.atoms types.new) }
    ensures added { HasOneMore (T.atoms types.old) (λ d. d ≡ def) (T.atoms types.new) }
    ensures answer { IfOk result (IsAnsweredIn (T.atoms types.old) def m.now) }
    ensures limit { IfFault result (OneMoreStops T.passes (T.atoms types.old) (λ d. d ≡ def) (λ env asked. asked ≡ Without m.now (Atom (length (T.atoms types.old))))) }
{
    match add_one(alloc, types, def) {
        Ok(atom) => below(alloc, types, m, &SemType::Atom(atom)),
        Err(stop) => Err(stop),
    }
}

/// Whether all shapes of a type are mappings that have the key, which costs an atom and a question. `Atoms` where there would
/// be too many atoms, `Types` where the question is too large.
pub fn has_field<T: Types>(
    alloc: Global,
    types: &mut T,
    m: &SemType,
    name: &Text,
) -> Result<Answer, Stop<QuestionLimit>>
    requires { IsDefined (T.atoms types.old) m.now }
    ensures kept { KeepsTypes (T.atoms types.old) (T.atoms types.new) }
    ensures added { HasOneMore (T.atoms types.old) (IsFieldDef name.now) (T.atoms types.new) }
    ensures answers { IfOk result (Answers (T.atoms types.old) (HasField m.now name.now)) }
    ensures limit { IfFault result (OneMoreStops T.passes (T.atoms types.old) (IsFieldDef name.now) (λ env asked. asked ≡ Without m.now (Atom (length (T.atoms types.old))))) }
{
    match field_def(alloc, name) {
        Ok(def) => is_in_atom(alloc, types, m, def),
        Err(Memory) => Err(Stop::Memory),
    }
}
