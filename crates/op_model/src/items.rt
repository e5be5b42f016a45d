//! The plain program of a store into a list.
ghost use Rattle.std.specs.Prelude.{◌≡◌, OnOk};
ghost use Rattle.op_model.specs.Stores.{set_item as set_item_of};

use bal_base::Memory;
use value_model::Value;

/// The item at the place is this value from now on; past the end the value comes behind what fills the gap.
pub fn set_item(
    items: &mut Vec<Value>,
    place: usize,
    gap: Vec<Value>,
    value: Value,
) -> Result<(), Memory>
    ensures { OnOk result (items.new.items ≡ set_item_of items.old.items place gap.items value) }
{
    if place < items.len() {
        items[place] = value;
        return Ok(());
    }
    let mut gap = gap;
    items.append(&mut gap)?;
    items.push(value)?;
    Ok(())
}
