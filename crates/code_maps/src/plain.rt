//! The types that operations give and no tree names.

ghost use Rattle.std.specs.Prelude.{IfOk};
ghost use Rattle.code_maps.specs.Given.{ArePlain, IsBooleans, plain_of};

use bal_base::Memory;
use std::alloc::Global;
use type_model::{BasicSet, SemType};

/// The types of all booleans, all ints and all strings.
#[derive(Drop)]
pub struct Plain {
    pub boolean: SemType,
    pub int: SemType,
    pub string: SemType,
}

/// The type of all booleans.
fn booleans(alloc: Global) -> Result<SemType, Memory>
    ensures { IfOk result IsBooleans }
{
    let yes = Box::new(alloc, SemType::Basic(BasicSet::Bool(true)))?;
    let no = Box::new(alloc, SemType::Basic(BasicSet::Bool(false)))?;
    Ok(SemType::Or(yes, no))
}

/// These types, as they are written.
pub fn plain_types(alloc: Global) -> Result<Plain, Memory>
    ensures { IfOk result (λ plain. ArePlain (plain_of plain)) }
{
    let boolean = booleans(alloc)?;
    Ok(Plain {
        boolean,
        int: SemType::Basic(BasicSet::IntRange(i64::MIN, i64::MAX)),
        string: SemType::Basic(BasicSet::StringAll),
    })
}
