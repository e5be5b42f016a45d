//! Arrows by the numbers of their atoms.
ghost use Rattle.std.specs.Prelude.{◌≡◌, ◌&&◌, not, All};
ghost use Rattle.std.specs.List.{list_any};
ghost use Rattle.type_model.specs.Defined.{IsClosed, IsDefined};
ghost use Rattle.type_diagrams.specs.Conditions.{condition_of};
ghost use Rattle.type_diagrams.specs.Members.{arguments_of, outcome_of};
ghost use Rattle.empty_arrow.specs.Arrows.{IsArrow, is_isolated};

use type_model::{AtomDef, SemType};

/// What an arrow takes and what it gives.
#[derive(Clone, Copy)]
pub struct Arrow<'a> {
    pub args: &'a SemType,
    pub result: &'a SemType,
    /// Whether it has isolated functions alone.
    pub isolated: bool,
}

/// The arrow of an atom. Takes no memory.
pub fn arrow_of(defs: &[AtomDef], atom: u32) -> Arrow<'_>
    requires closed { IsClosed defs.now }
    requires arrow { IsArrow defs.now atom }
    ensures args { arguments_of defs.now atom ≡ condition_of defs.now result.args.now }
    ensures args_defined { IsDefined defs.now result.args.now }
    ensures result { outcome_of defs.now atom ≡ condition_of defs.now result.result.now }
    ensures result_defined { IsDefined defs.now result.result.now }
    ensures isolated { result.isolated ≡ is_isolated defs.now atom }
{
    match &defs[atom as usize] {
        AtomDef::Arrow {
            args,
            result,
            isolated,
        } => Arrow {
            args,
            result,
            isolated: *isolated,
        },
        AtomDef::List { .. } | AtomDef::Mapping { .. } => unreachable!(),
        AtomDef::Error { .. } | AtomDef::Future { .. } => unreachable!(),
    }
}

/// Whether one of the arrows has isolated functions alone.
pub(crate) fn any_isolated(defs: &[AtomDef], atoms: &[u32]) -> bool
    requires closed { IsClosed defs.now }
    requires arrows { All (IsArrow defs.now) atoms.now }
    ensures { result ≡ list_any (is_isolated defs.now) atoms.now }
{
    for atom in atoms {
        if arrow_of(defs, *atom).isolated {
            return true;
        }
    }
    false
}

/// Whether no function with this mark is in the arrow.
pub(crate) fn is_free(defs: &[AtomDef], atom: u32, isolated: bool) -> bool
    requires closed { IsClosed defs.now }
    requires arrow { IsArrow defs.now atom }
    ensures { result ≡ (is_isolated defs.now atom && not isolated) }
{
    arrow_of(defs, atom).isolated && !isolated
}
