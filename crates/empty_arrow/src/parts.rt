//! What error and future atoms ask of the parts of their shapes.
ghost use Rattle.std.specs.Prelude.{◌≡◌};
ghost use Rattle.type_model.specs.Defined.{IsClosed, IsDefined};
ghost use Rattle.type_diagrams.specs.Conditions.{condition_of};
ghost use Rattle.empty_arrow.specs.Parts.{HasPart, part_of};

use type_model::{AtomDef, SemType};

/// The type of the detail or of the results.
pub(crate) fn part(defs: &[AtomDef], atom: u32) -> &SemType
    requires closed { IsClosed defs.now }
    requires part { HasPart defs.now atom }
    ensures asks { part_of defs.now atom ≡ condition_of defs.now result.now }
    ensures defined { IsDefined defs.now result.now }
{
    match &defs[atom as usize] {
        AtomDef::Error { detail } => detail,
        AtomDef::Future { result } => result,
        AtomDef::List { .. } | AtomDef::Mapping { .. } | AtomDef::Arrow { .. } => unreachable!(),
    }
}
