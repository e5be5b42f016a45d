//! Types that need atoms of their own.
ghost use Rattle.std.specs.Prelude.{◌≡◌, ◌∷◌, [], IfOk};
ghost use Rattle.type_model.specs.Defined.{DefBelow, NamesBelow, TyBelow};
ghost use Rattle.type_model.specs.Places.{HasDistinctFields};
ghost use Rattle.type_model.specs.declared.atoms.AtomDef.TheVariants.{Mapping};
ghost use Rattle.descriptors.specs.Described.{choice_of, list_of as list_of_atom, mapping_of as mapping_of_atom};
ghost use Rattle.descriptors.specs.Drafts.{Drafts, drafted_arrow, drafted_list, drafted_mapping, drafted_plain};
ghost use Rattle.descriptors.specs.Steps.{AllBelow, FieldsBelow, IfBelow};

use crate::draft::Draft;
use crate::together::{lift, plain};
use bal_base::{Fault, Memory, Place, Stop};
use std::alloc::Global;
use type_model::{AtomDef, Choice, ChoiceList, FieldList, SemType, Ty, TyList};

fn one_choice(alloc: Global, atom: u32) -> Result<ChoiceList, Memory>
    ensures { IfOk result (λ r. r ≡ choice_of atom ∷ []) }
{
    let mut choices = Vec::new(alloc);
    choices.push(Choice {
        atom,
        immutable: false,
    })?;
    Ok(ChoiceList::of(choices))
}

/// The type of the lists of an atom.
fn list_of(alloc: Global, atom: u32) -> Result<Ty, Memory>
    ensures { IfOk result (λ t. t ≡ list_of_atom atom) }
{
    let lists = one_choice(alloc, atom)?;
    Ok(Ty {
        sem: SemType::Atom(atom),
        lists,
        maps: ChoiceList::of(Vec::new(alloc)),
    })
}

/// The type of the mappings of an atom.
fn mapping_of(alloc: Global, atom: u32) -> Result<Ty, Memory>
    ensures { IfOk result (λ t. t ≡ mapping_of_atom atom) }
{
    let maps = one_choice(alloc, atom)?;
    Ok(Ty {
        sem: SemType::Atom(atom),
        lists: ChoiceList::of(Vec::new(alloc)),
        maps,
    })
}

/// Lists with these types at their first places, and then members of `rest`, or none.
pub(crate) fn new_list(
    alloc: Global,
    draft: &mut Draft,
    fixed: TyList,
    rest: Option<Ty>,
    at: Place,
) -> Result<Ty, Stop<Fault>>
    ensures { Drafts (λ n. AllBelow n fixed × IfBelow n rest) TyBelow (drafted_list fixed rest at) draft.old result draft.new }
{
    let atom = draft.atom(AtomDef::List { fixed, rest }, at)?;
    lift(list_of(alloc, atom))
}

/// Mappings with these fields, and beside them members of `rest`, or none.
pub(crate) fn new_mapping(
    alloc: Global,
    draft: &mut Draft,
    fields: FieldList,
    rest: Option<Ty>,
    at: Place,
) -> Result<Ty, Stop<Fault>>
    requires { HasDistinctFields (Mapping fields rest) }
    ensures { Drafts (λ n. FieldsBelow n fields × IfBelow n rest) TyBelow (drafted_mapping fields rest at) draft.old result draft.new }
{
    let atom = draft.atom(AtomDef::Mapping { fields, rest }, at)?;
    lift(mapping_of(alloc, atom))
}

/// Errors, functions or futures, which have no constructor choices.
pub(crate) fn new_plain(
    alloc: Global,
    draft: &mut Draft,
    def: AtomDef,
    at: Place,
) -> Result<Ty, Stop<Fault>>
    requires { HasDistinctFields def }
    ensures { Drafts (λ n. DefBelow n def) TyBelow (drafted_plain def at) draft.old result draft.new }
{
    let atom = draft.atom(def, at)?;
    Ok(plain(alloc, SemType::Atom(atom)))
}

/// Functions that give a result in `gives` to lists with these types at their first places, and then members of `rest`, or none.
pub(crate) fn new_arrow(
    alloc: Global,
    draft: &mut Draft,
    isolated: bool,
    fixed: TyList,
    rest: Option<Ty>,
    gives: SemType,
    at: Place,
) -> Result<Ty, Stop<Fault>>
    ensures { Drafts (λ n. (AllBelow n fixed × IfBelow n rest) × NamesBelow n gives) TyBelow (drafted_arrow isolated fixed rest gives at) draft.old result draft.new }
{
    let arguments = draft.atom(AtomDef::List { fixed, rest }, at)?;
    let def = AtomDef::Arrow {
        args: SemType::Atom(arguments),
        result: gives,
        isolated,
    };
    new_plain(alloc, draft, def, at)
}
