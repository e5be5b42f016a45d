//! Lists of type descriptors.
ghost use Rattle.std.specs.Prelude.{◌≡◌, ◌∷◌, ◌++◌, [], IfOk, None, false, map};
ghost use Rattle.std.specs.List.{list_any};
ghost use Rattle.type_model.specs.declared.atoms.AtomDef.TheVariants.{Mapping};
ghost use Rattle.type_model.specs.Places.{HasDistinctFields, is_same_text};
ghost use Rattle.type_model.specs.Defined.{TyBelow};
ghost use Rattle.descriptors.specs.declared.draft.Draft.{Draft as DraftOf};
ghost use Rattle.descriptors.specs.Described.{new_field};
ghost use Rattle.descriptors.specs.Descriptors.{descriptor_of, in_a_row, fields_in_a_row, of_field, of_param};
ghost use Rattle.descriptors.specs.Drafts.{AreNamesBelow, Drafts, all_drafted, field_drafted, fields_drafted};
ghost use Rattle.descriptors.specs.Steps.{AllBelow, FieldBelow, FieldsBelow};

use crate::descriptors::{param_type, type_tree};
use crate::draft::Draft;
use crate::names::{Names, Scope};
use bal_base::{Fault, FaultCode, Kept, Stop, Text};
use bal_tree::{FieldTree, ParamType, TypeTree, Word};
use indexmap::IndexSet;
use std::alloc::Global;
use type_model::{FieldDef, FieldList, Ty, TyList};

/// The types of the members of a list, or of the parts of one.
#[cycle(types)]
pub(crate) fn type_list(
    alloc: Global,
    draft: &mut Draft,
    names: &Names,
    scope: Scope,
    trees: &[TypeTree],
) -> Result<TyList, Stop<Fault>>
    ensures { Drafts (AreNamesBelow names.now) AllBelow (all_drafted names.now scope [] (in_a_row (map descriptor_of trees.now))) draft.old result draft.new }
{
    let mut done = Vec::new(alloc);
    for tree in trees {
        let t = type_tree(alloc, draft, names, scope, tree)?;
        done.push(t)?;
    }
    Ok(TyList::of(done))
}

/// The types of the parameters of a function type.
#[cycle(types)]
pub(crate) fn param_list(
    alloc: Global,
    draft: &mut Draft,
    names: &Names,
    scope: Scope,
    trees: &[ParamType],
) -> Result<TyList, Stop<Fault>>
    ensures { Drafts (AreNamesBelow names.now) AllBelow (all_drafted names.now scope [] (in_a_row (map of_param trees.now))) draft.old result draft.new }
{
    let mut done = Vec::new(alloc);
    for tree in trees {
        let t = param_type(alloc, draft, names, scope, tree)?;
        done.push(t)?;
    }
    Ok(TyList::of(done))
}

/// The fields of a record: `Duplicate` at the second of two that have one name.
#[cycle(types)]
pub(crate) fn field_list(
    alloc: Global,
    draft: &mut Draft,
    names: &Names,
    scope: Scope,
    trees: &[FieldTree],
) -> Result<FieldList, Stop<Fault>>
    ensures fields { Drafts (AreNamesBelow names.now) FieldsBelow (fields_drafted names.now scope [] (fields_in_a_row (map of_field trees.now))) draft.old result draft.new }
    ensures distinct { IfOk result (λ fields. HasDistinctFields (Mapping fields None)) }
{
    let mut done = Vec::new(alloc);
    let mut taken = IndexSet::new(alloc);
    for tree in trees {
        let field = field(alloc, draft, names, scope, &mut taken, tree)?;
        done.push(field)?;
    }
    Ok(FieldList::of(done))
}

/// A field of a record, where these names are taken, to which its own is added.
#[cycle(types)]
fn field(
    alloc: Global,
    draft: &mut Draft,
    names: &Names,
    scope: Scope,
    taken: &mut IndexSet<Text>,
    tree: &FieldTree,
) -> Result<FieldDef, Stop<Fault>>
    ensures field { Drafts (AreNamesBelow names.now) FieldBelow (field_drafted names.now scope taken.old.keys (of_field tree.now)) draft.old result draft.new }
    ensures unused { IfOk result (λ f. list_any (is_same_text f.name) taken.old.keys ≡ false) }
    ensures taken { IfOk result (λ f. taken.new.keys ≡ taken.old.keys ++ f.name ∷ []) }
{
    let t = type_tree(alloc, draft, names, scope, &tree.ty)?;
    named_field(taken, &tree.name, t, tree.optional)
}

/// The field with this name, unless it is taken.
fn named_field(
    taken: &mut IndexSet<Text>,
    name: &Word,
    ty: Ty,
    optional: bool,
) -> Result<FieldDef, Stop<Fault>>
    ensures field { (draft : DraftOf) → Drafts (λ n. TyBelow n ty) FieldBelow (new_field taken.old.keys name.now optional ty) draft result draft }
    ensures unused { IfOk result (λ f. list_any (is_same_text f.name) taken.old.keys ≡ false) }
    ensures taken { IfOk result (λ f. taken.new.keys ≡ taken.old.keys ++ f.name ∷ []) }
{
    let added = match taken.insert(name.name.as_text().share()) {
        Ok(added) => added,
        Err(_) => return Err(Stop::Memory),
    };
    if added {
        Ok(FieldDef {
            name: name.name.as_text().share(),
            ty,
            optional,
        })
    } else {
        Err(Stop::Fault(Fault {
            code: FaultCode::Duplicate,
            at: Some(name.at),
            kept: Kept::Nothing,
        }))
    }
}
