//! Entries of mappings that are made.
ghost use Rattle.std.specs.Prelude.{◌≡◌, [], IfOk, OnOk, option_map};
ghost use Rattle.op_model.specs.Operands as operands;
ghost use Rattle.op_model.specs.Stores as stores;
ghost use Rattle.plain_structures.specs.Entries.{AreAdded};

use bal_base::{Memory, Text};
use plain_run::Entries;
use std::alloc::Global;
use value_model::Value;

/// The entry with the key gets this value; a new key comes last.
pub fn set_entry(entries: &mut Entries, key: &Text, v: &Value) -> Result<(), Memory>
    ensures { OnOk result (entries.new ≡ stores.set_entry entries.old key.now v.now) }
{
    entries.set(key, v.share())
}

/// Sets entries for keys and values in turn, as far as each key is a string; and whether each one is.
#[tactic(auto, using(crate::proofs::Adding::adding))]
fn add_pairs(entries: &mut Entries, pairs: &[Value]) -> Result<bool, Memory>
    ensures { IfOk result (λ all. AreAdded entries.old pairs.now all entries.new) }
{
    let mut left = pairs;
    'pairs: loop {
        match left {
            [] => return Ok(true),
            [Value::Str(key), v, rest @ ..] => {
                set_entry(entries, key, v)?;
                left = rest;
            }
            _ => return Ok(false),
        }
    }
}

/// The entries of keys and values in turn, where each key is a string. Of a key that comes again the last value stands.
pub fn entries_of(alloc: Global, pairs: &[Value]) -> Result<Option<Entries>, Memory>
    ensures { IfOk result (λ entries. entries ≡ option_map (λ ps. stores.entries_from [] ps) (operands.pairs_of pairs.now)) }
{
    let mut entries = Entries::new(alloc);
    if add_pairs(&mut entries, pairs)? {
        return Ok(Some(entries));
    }
    Ok(None)
}
