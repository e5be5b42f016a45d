//! Atoms of mappings with such types at their keys.
ghost use Rattle.std.specs.Prelude.{IfOk};
ghost use Rattle.std.specs.List.{AllZip};
ghost use Rattle.detail_questions.specs.inner.Cells.{CellsBelow, IsCell, IsFieldAt, IsTable, lacks_at};

use crate::cells::{Cells, cell_type, may_lack};
use bal_base::{Memory, Text};
use std::alloc::Global;
use type_model::{AtomDef, FieldDef, FieldList};

/// The field of a name.
fn field(alloc: Global, name: &Text, cells: Cells<'_>) -> Result<FieldDef, Memory>
    ensures { IfOk result (IsFieldAt (IsCell cells.entry) (CellsBelow cells.entry) (lacks_at cells.entry) name.now) }
{
    match cell_type(alloc, cells, Some(name)) {
        Ok(ty) => Ok(FieldDef {
            name: name.share(),
            ty,
            optional: may_lack(cells, name),
        }),
        Err(Memory) => Err(Memory),
    }
}

/// The fields of all names.
fn fields(alloc: Global, names: &[Text], cells: Cells<'_>) -> Result<Vec<FieldDef>, Memory>
    ensures { IfOk result (λ made. AllZip (IsFieldAt (IsCell cells.entry) (CellsBelow cells.entry) (lacks_at cells.entry)) names.now made.items) }
{
    let mut made = Vec::new(alloc);
    for name in names {
        made.push(field(alloc, name, cells)?)?;
    }
    Ok(made)
}

/// Mappings with such types at these names, and beside them.
pub(crate) fn table(alloc: Global, names: &[Text], cells: Cells<'_>) -> Result<AtomDef, Memory>
    ensures { IfOk result (IsTable (IsCell cells.entry) (CellsBelow cells.entry) (lacks_at cells.entry) names.now) }
{
    let rest = cell_type(alloc, cells, None)?;
    let fields = FieldList::of(fields(alloc, names, cells)?);
    Ok(AtomDef::Mapping {
        fields,
        rest: Some(rest),
    })
}
