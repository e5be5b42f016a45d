//! Rows of the library's calls that make a list.
#![tactic(auto, using(crate::proofs::Finding::finding))]

ghost use Rattle.std.specs.Option.{option_copied};
ghost use Rattle.code_needs.specs.Combining.{◌&◌, need, one, one_and_more};
ghost use Rattle.code_needs.specs.declared.kind.Kind.TheVariants.{Lists};
ghost use Rattle.code_needs.specs.Needs.{Has as HasKind, PartIn as IsPartIn};
ghost use Rattle.code_needs.specs.RowNeeds.{part_of as part_needs, within as within_needs};
ghost use Rattle.needs_of_rows.specs.Finding.{Finds};
ghost use Rattle.needs_of_rows.specs.ListsMade.{list_with as made_needs};

use crate::found::Found;
use crate::library::{Items, gives_list, part_of};
use crate::operands::one_of;
use code_needs::Kind;
use type_model::{AtomDef, Keys, SemType};

/// A list that is made: the definition of its atom, and its type.
#[derive(Clone, Copy)]
pub struct NewList<'c> {
    /// The definition.
    pub def: Option<&'c AtomDef>,
    /// The type of lists with the atom.
    pub own: &'c SemType,
}

/// One operand of a kind, and a list whose items have all of a kind: `s.toCodePointInts()`, `m.keys()`.
pub fn lists_kind<'c>(
    found: &mut Found<'c>,
    operands: &'c [SemType],
    kind: Kind,
    list: NewList<'c>,
    wanted: Kind,
    given: Option<&'c SemType>,
)
    ensures { Finds (one operands.now (λ a. within_needs a kind & made_needs (option_copied list.entry.def) (λ t. need (HasKind t wanted)) list.entry.own.now (option_copied given.entry))) found.old found.new }
{
    match one_of(operands) {
        Some(a) => {
            found.within(a, kind);
            gives_list(found, list.def, Items::Of(wanted), list.own, given);
        }
        None => found.refuse(),
    }
}

/// `l.reverse()`. `keys` is all indexes.
pub fn reverses<'c>(
    found: &mut Found<'c>,
    operands: &'c [SemType],
    keys: &'c Keys,
    list: NewList<'c>,
    given: Option<&'c SemType>,
)
    ensures { Finds (one operands.now (λ l. within_needs l Lists & made_needs (option_copied list.entry.def) (λ t. need (IsPartIn l keys.now t)) list.entry.own.now (option_copied given.entry))) found.old found.new }
{
    match one_of(operands) {
        Some(l) => {
            found.within(l, Kind::Lists);
            gives_list(found, list.def, Items::Parts(l, keys), list.own, given);
        }
        None => found.refuse(),
    }
}

/// A list whose items have all that stands in the first operand.
fn sliced<'c>(
    found: &mut Found<'c>,
    operands: &'c [SemType],
    keys: &'c Keys,
    list: NewList<'c>,
    given: Option<&'c SemType>,
)
    ensures { Finds (one_and_more operands.now (λ l bounds. made_needs (option_copied list.entry.def) (λ t. need (IsPartIn l keys.now t)) list.entry.own.now (option_copied given.entry))) found.old found.new }
{
    match operands.first() {
        Some(l) => gives_list(found, list.def, Items::Parts(l, keys), list.own, given),
        None => found.refuse(),
    }
}

/// `l.slice(a)`, `l.slice(a, b)`. `keys` is all indexes.
pub fn slices<'c>(
    found: &mut Found<'c>,
    operands: &'c [SemType],
    keys: &'c Keys,
    list: NewList<'c>,
    given: Option<&'c SemType>,
)
    ensures { Finds (part_needs Lists operands.now & one_and_more operands.now (λ l bounds. made_needs (option_copied list.entry.def) (λ t. need (IsPartIn l keys.now t)) list.entry.own.now (option_copied given.entry))) found.old found.new }
{
    part_of(found, operands, Kind::Lists);
    sliced(found, operands, keys, list, given);
}
