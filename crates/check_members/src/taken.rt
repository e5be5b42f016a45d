//! The types of members.
#![tactic(auto, using(crate::proofs::TakenMembers::outs))]

ghost use Rattle.std.specs.Prelude.{◌≡◌, ◌<◌, All, IfOk, List, length};
ghost use Rattle.bal_base.specs.declared.fault.FaultCode.TheVariants.{NoField};
ghost use Rattle.bal_base.specs.declared.text.Text.{Text as TextOf};
ghost use Rattle.type_model.specs.declared.answers.Keys.TheVariants.{Field as FieldKey};
ghost use Rattle.type_model.specs.declared.atoms.AtomDef.{AtomDef as Atom};
ghost use Rattle.type_model.specs.Calls.{KeepsTypes};
ghost use Rattle.type_model.specs.Defined.{IsDefined, IsDefinedGroup};
ghost use Rattle.type_model.specs.Places.{HasDistinctFields};
ghost use Rattle.descriptors.specs.Language.{IsEverything};
ghost use Rattle.check_words.specs.Members.{HaveField, field_type as field_type_of, has_key as has_key_of, member_at as member_at_of, some_member_at as some_member_at_of};
ghost use Rattle.check_words.specs.Words.{unless};
ghost use Rattle.check_kinds.specs.Over.{ComesOver};
ghost use Rattle.check_members.specs.Taken.{AreHaving, IsNoField, all_below, if_there, some_of, with_field_of};

use bal_base::{Fault, FaultCode, Kept, Memory, Place, Stop, Text};
use checks::{add, has_some, is_below, member};
use descriptors::plain;
use std::alloc::Global;
use type_model::{AtomDef, BasicSet, FieldDef, FieldList, Keys, SemType, Types};

/// The type of what stands at such keys in the shapes of the container. `TypeLimit` at the place where that is too large a question.
pub fn member_at<T: Types>(
    alloc: Global,
    types: &mut T,
    container: &SemType,
    keys: &Keys,
    at: Place,
) -> Result<SemType, Stop<Fault>>
    requires { IsDefined (T.atoms types.old) container.now }
    ensures atoms { T.atoms types.new ≡ T.atoms types.old }
    ensures defined { IfOk result (IsDefined (T.atoms types.old)) }
    ensures comes { ComesOver (member_at_of T.passes container.now keys.now at) (T.atoms types.old) result (T.atoms types.new) }
{
    member(alloc, types, container, keys, Some(at))
}

/// The same, where there has to be one.
///
/// - `NoField` at the place: nothing stands at such keys in any shape of the container.
/// - `TypeLimit` at the place: a question is too large.
pub fn some_member_at<T: Types>(
    alloc: Global,
    types: &mut T,
    container: &SemType,
    keys: &Keys,
    at: Place,
) -> Result<SemType, Stop<Fault>>
    requires { IsDefined (T.atoms types.old) container.now }
    ensures atoms { T.atoms types.new ≡ T.atoms types.old }
    ensures defined { IfOk result (IsDefined (T.atoms types.old)) }
    ensures comes { ComesOver (some_member_at_of T.passes container.now keys.now at) (T.atoms types.old) result (T.atoms types.new) }
{
    match member_at(alloc, types, container, keys, at) {
        Ok(found) => some(alloc, types, found, at),
        Err(stop) => Err(stop),
    }
}

/// The type, where it has a shape.
fn some<T: Types>(
    alloc: Global,
    types: &mut T,
    found: SemType,
    at: Place,
) -> Result<SemType, Stop<Fault>>
    requires { IsDefined (T.atoms types.old) found }
    ensures atoms { T.atoms types.new ≡ T.atoms types.old }
    ensures defined { IfOk result (IsDefined (T.atoms types.old)) }
    ensures comes { ComesOver (some_of T.passes found at) (T.atoms types.old) result (T.atoms types.new) }
{
    match has_some(alloc, types, &found, Some(at)) {
        Ok(there) => given_if(there, found, at),
        Err(stop) => Err(stop),
    }
}

fn no_field(at: Place) -> Stop<Fault>
    ensures { IsNoField at result }
{
    Stop::Fault(Fault {
        code: FaultCode::NoField,
        at: Some(at),
        kept: Kept::Nothing,
    })
}

fn given_if(there: bool, found: SemType, at: Place) -> Result<SemType, Stop<Fault>>
    ensures defined { (env : List Atom) → IsDefined env found → IfOk result (IsDefined env) }
    ensures comes { (env : List Atom) → ComesOver (if_there there found at) env result env }
{
    match there {
        true => Ok(found),
        false => Err(no_field(at)),
    }
}

fn needed(there: bool, at: Place) -> Result<(), Stop<Fault>>
    ensures { (env : List Atom) → ComesOver (unless there NoField at) env result env }
{
    match there {
        true => Ok(()),
        false => Err(no_field(at)),
    }
}

/// Every shape.
fn everything(alloc: Global) -> Result<SemType, Memory>
    ensures { IfOk result IsEverything }
{
    let nothing = Box::new(alloc, SemType::Basic(BasicSet::Never))?;
    Ok(SemType::Not(nothing))
}

/// The mappings with a field of this type, and any number of others.
fn with_field(
    alloc: Global,
    name: &Text,
    ty: SemType,
    rest: SemType,
) -> Result<Vec<AtomDef>, Memory>
    ensures { IfOk result (λ defs. defs.items ≡ with_field_of name.now ty rest) }
{
    let mut fields = Vec::new(alloc);
    fields.push(FieldDef {
        name: name.share(),
        ty: plain(alloc, ty),
        optional: false,
    })?;
    let mut defs = Vec::new(alloc);
    defs.push(AtomDef::Mapping {
        fields: FieldList::of(fields),
        rest: Some(plain(alloc, rest)),
    })?;
    Ok(defs)
}

/// The mappings that have the field.
fn having(alloc: Global, name: &Text) -> Result<Vec<AtomDef>, Memory>
    ensures { IfOk result (λ defs. AreHaving name.now defs.items) }
{
    let ty = everything(alloc)?;
    let rest = everything(alloc)?;
    with_field(alloc, name, ty, rest)
}

/// Each mapping of the type has the field: `NoField` at the place where one may lack it, `TypeLimit` there where the question is too
/// large, and `AtomLimit` where there would be too many atoms. It adds an atom.
fn has_key<T: Types>(
    alloc: Global,
    types: &mut T,
    name: &Text,
    t: &SemType,
    at: Place,
) -> Result<(), Stop<Fault>>
    requires { IsDefined (T.atoms types.old) t.now }
    ensures kept { KeepsTypes (T.atoms types.old) (T.atoms types.new) }
    ensures comes { ComesOver (has_key_of T.passes name.now t.now at) (T.atoms types.old) result (T.atoms types.new) }
{
    match having(alloc, name) {
        Ok(defs) => among_new(alloc, types, defs, t, at),
        Err(Memory) => Err(Stop::Memory),
    }
}

/// The type has to be below the first of these atoms, which are added.
fn among_new<T: Types>(
    alloc: Global,
    types: &mut T,
    defs: Vec<AtomDef>,
    t: &SemType,
    at: Place,
) -> Result<(), Stop<Fault>>
    requires defined { IsDefined (T.atoms types.old) t.now }
    requires named { IsDefinedGroup (T.atoms types.old) defs.items }
    requires distinct { All HasDistinctFields defs.items }
    requires some { 0 < length defs.items }
    ensures kept { KeepsTypes (T.atoms types.old) (T.atoms types.new) }
    ensures comes { (name : TextOf) → HaveField name defs.items → ComesOver (has_key_of T.passes name t.now at) (T.atoms types.old) result (T.atoms types.new) }
{
    match add(alloc, types, defs, Some(at)) {
        Ok(atom) => all_of(alloc, types, t, atom, at),
        Err(stop) => Err(stop),
    }
}

/// The type has to be below the atom.
fn all_of<T: Types>(
    alloc: Global,
    types: &mut T,
    t: &SemType,
    atom: u32,
    at: Place,
) -> Result<(), Stop<Fault>>
    requires defined { IsDefined (T.atoms types.old) t.now }
    requires there { atom < length (T.atoms types.old) }
    ensures atoms { T.atoms types.new ≡ T.atoms types.old }
    ensures comes { ComesOver (all_below T.passes t.now atom at) (T.atoms types.old) result (T.atoms types.new) }
{
    let all = SemType::Atom(atom);
    match is_below(alloc, types, t, &all, Some(at)) {
        Ok(there) => needed(there, at),
        Err(stop) => Err(stop),
    }
}

/// The type of the field in a type of mappings, all of which have to have it. It adds an atom, and asks two questions.
///
/// - `NoField` at the place: some mapping of the type may lack the field.
/// - `TypeLimit` at the place: a question is too large. `AtomLimit` there: there would be too many atoms.
pub fn field_type<T: Types>(
    alloc: Global,
    types: &mut T,
    name: &Text,
    t: &SemType,
    at: Place,
) -> Result<SemType, Stop<Fault>>
    requires { IsDefined (T.atoms types.old) t.now }
    ensures kept { KeepsTypes (T.atoms types.old) (T.atoms types.new) }
    ensures defined { IfOk result (IsDefined (T.atoms types.new)) }
    ensures comes { ComesOver (field_type_of T.passes name.now t.now at) (T.atoms types.old) result (T.atoms types.new) }
{
    match has_key(alloc, types, name, t, at) {
        Ok(()) => field_at(alloc, types, name, t, at),
        Err(stop) => Err(stop),
    }
}

fn field_at<T: Types>(
    alloc: Global,
    types: &mut T,
    name: &Text,
    t: &SemType,
    at: Place,
) -> Result<SemType, Stop<Fault>>
    requires { IsDefined (T.atoms types.old) t.now }
    ensures atoms { T.atoms types.new ≡ T.atoms types.old }
    ensures defined { IfOk result (IsDefined (T.atoms types.old)) }
    ensures comes { ComesOver (member_at_of T.passes t.now (FieldKey name.now) at) (T.atoms types.old) result (T.atoms types.new) }
{
    let keys = Keys::Field(name.share());
    member_at(alloc, types, t, &keys, at)
}
