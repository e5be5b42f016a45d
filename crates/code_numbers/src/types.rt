//! Types and definitions that name atoms that are there.
ghost use Rattle.std.specs.Prelude.{◌↔◌, All, IsTrue};
ghost use Rattle.bal_base.specs.Valid.{IsText};
ghost use Rattle.type_model.specs.Defined.{IsClosed, NamesBelow};
ghost use Rattle.type_model.specs.Places.{HasDistinctFields};
ghost use Rattle.stack_code.specs.Tables.{HasTypes};
ghost use Rattle.code_numbers.specs.inner.Named.{HasTexts, OthersName, UnitNames};

use crate::constants::is_text;
use stack_code::{Code, Unit};
use type_model::{AtomDef, FieldDef, SemType};

/// Whether the names of fields are texts.
fn names_are_texts(fields: &[FieldDef]) -> bool
    ensures { IsTrue result ↔ All (λ f. IsText f.name) fields.now }
{
    fields.iter().all(|f| is_text(&f.name))
}

/// Whether the names of a mapping's fields are texts.
fn has_texts(def: &AtomDef) -> bool
    ensures { IsTrue result ↔ HasTexts def.now }
{
    match def {
        AtomDef::Mapping { fields, .. } => names_are_texts(fields.as_slice()),
        AtomDef::List { .. } => true,
        AtomDef::Arrow { .. } => true,
        AtomDef::Error { .. } => true,
        AtomDef::Future { .. } => true,
    }
}

fn have_texts(defs: &[AtomDef]) -> bool
    ensures { IsTrue result ↔ All HasTexts defs.now }
{
    defs.iter().all(|def| has_texts(def))
}

/// Whether the types name the first so many atoms alone.
fn types_below(types: &[SemType], atoms: usize) -> bool
    ensures { IsTrue result ↔ All (NamesBelow atoms) types.now }
{
    types.iter().all(|t| t.names_below(atoms))
}

/// The same of the types of a unit.
fn unit_names(unit: &Unit, atoms: usize) -> bool
    ensures { IsTrue result ↔ UnitNames atoms unit.now }
{
    types_below(unit.params.as_slice(), atoms)
        && types_below(unit.captured.as_slice(), atoms)
        && types_below(unit.slots.as_slice(), atoms)
        && unit.result.names_below(atoms)
}

fn units_name(units: &[Unit], atoms: usize) -> bool
    ensures { IsTrue result ↔ All (UnitNames atoms) units.now }
{
    units.iter().all(|unit| unit_names(unit, atoms))
}

/// Whether all definitions name atoms that are there, and fields have names of their own, which are texts.
fn definitions_hold(defs: &[AtomDef]) -> bool
    ensures { IsTrue result ↔ (IsClosed defs.now × All HasDistinctFields defs.now × All HasTexts defs.now) }
{
    AtomDef::are_below(defs, defs.len()) && AtomDef::have_distinct_fields(defs) && have_texts(defs)
}

/// Whether all other types name the first so many atoms alone.
fn others_name(code: &Code, atoms: usize) -> bool
    ensures { IsTrue result ↔ OthersName atoms code.now }
{
    types_below(code.tested.as_slice(), atoms)
        && types_below(code.variables.as_slice(), atoms)
        && units_name(code.units.as_slice(), atoms)
}

/// Whether each atom that a type or a definition of the code names is there, and fields have names of their own.
pub fn types_hold(code: &Code) -> bool
    ensures { IsTrue result ↔ HasTypes code.now }
{
    let defs = code.atoms.as_slice();
    definitions_hold(defs) && others_name(code, defs.len())
}
