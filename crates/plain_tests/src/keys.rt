//! The keys of entries, in order.
ghost use Rattle.std.specs.Prelude.{◌≡◌, IfOk, OnOk};
ghost use Rattle.empty_product.specs.Keys.{AreInOrder, HasAdded};
ghost use Rattle.plain_tests.specs.Shapes.{AreKeysOf};

use bal_base::{Memory, Text};
use std::alloc::Global;
use value_model::Value;

/// Puts the key at its place, unless it is there.
fn add_key(keys: &mut Vec<Text>, key: &Text) -> Result<(), Memory>
    requires { AreInOrder keys.old.items }
    ensures ordered { OnOk result (AreInOrder keys.new.items) }
    ensures added { OnOk result (HasAdded (λ k. k ≡ key.now) keys.old.items keys.new.items) }
{
    let _scalars = key.as_str();
    match keys.as_slice().binary_search(key) {
        Ok(_place) => Ok(()),
        Err(place) => {
            keys.insert(place, key.share())?;
            Ok(())
        }
    }
}

/// The keys of the entries, each once.
pub(crate) fn keys_of(alloc: Global, entries: &[(Text, Value)]) -> Result<Vec<Text>, Memory>
    ensures { IfOk result (λ keys. AreKeysOf entries.now keys.items) }
{
    let mut keys = Vec::new(alloc);
    for e in entries {
        add_key(&mut keys, &e.0)?;
    }
    Ok(keys)
}
