//! The entries of a mapping.
ghost use Rattle.std.specs.Prelude.{◌≡◌, ◌+◌, ◌++◌, ◌∷◌, ◌<◌, ◌^◌, [], IfOk, IfSome, OnErr, OnOk, Some, length, option_copied, option_map, position, remove, slice_get};
ghost use Rattle.type_model.specs.Places.{is_same_text};
ghost use Rattle.value_model.specs.Heap.{entry_at};
ghost use Rattle.op_model.specs.Stores.{set_entry};
ghost use Rattle.plain_run.specs.Entries.{ArePlaces, IsGrown, IsNoted};

use bal_base::{Memory, Text};
use std::alloc::Global;
use std::collections::HashMap;
use std::marker::Model;
use std::mem;
use std::ops::DerefSlice;
use value_model::Value;

/// The most entries that are looked through for a key one after another.
const MOST_WALKED: usize = 8;

/// Entries of a mapping, in the order in which their keys came. Where they are many, an index keeps the place of each key: then
/// a look-up looks at few of them.
#[derive(Drop)]
pub struct Entries {
    items: Vec<(Text, Value)>,
    index: Option<Box<HashMap<Text, usize>>>,
}

impl Model for Entries {
    ghost use Rattle.std.specs.Prelude.{List, option_map};
    ghost use Rattle.bal_base.specs.declared.text.Text.{Text};
    ghost use Rattle.value_model.specs.declared.value.Value.{Value as ValueOf};
    ghost use Rattle.plain_run.specs.Entries.{IsIndex};

    ghost Value = { List (Text × ValueOf) };

    ghost view = { λ a. a.items.items };

    ghost invariant = { λ a. IsIndex a.items.items (option_map (λ b. b.value) a.index) };
}

/// Keeps the place of a key, unless one is kept already.
#[tactic(auto, using(crate::proofs::Indexed::noting))]
fn note(places: &mut HashMap<Text, usize>, key: &Text, at: usize) -> Result<(), Memory>
    ensures { OnOk result (IsNoted places.old key.now at places.new) }
{
    if places.get(key).is_none() {
        places.insert(key.share(), at)?;
    }
    Ok(())
}

/// The place of each key.
fn places_of(alloc: Global, items: &[(Text, Value)]) -> Result<HashMap<Text, usize>, Memory>
    ensures { IfOk result (ArePlaces items.now) }
{
    let mut places = HashMap::new(alloc);
    for (i, e) in items.iter().enumerate() {
        note(&mut places, &e.0, i)?;
    }
    Ok(places)
}

/// The index of these entries and of one more with this key behind them.
fn with_key(
    index: Option<Box<HashMap<Text, usize>>>,
    key: &Text,
    at: usize,
) -> Result<Option<Box<HashMap<Text, usize>>>, Memory>
    ensures { IfOk result (λ new. IsGrown (option_map (λ b. b.value) index) key.now at (option_map (λ b. b.value) new)) }
{
    match index {
        None => Ok(None),
        Some(mut places) => {
            note(&mut places, key, at)?;
            Ok(Some(places))
        }
    }
}

impl Entries {
    /// No entries.
    pub fn new(alloc: Global) -> Entries
        ensures { result ≡ [] }
    {
        Entries {
            items: Vec::new(alloc),
            index: None,
        }
    }

    /// The given entries, which aren't copied.
    pub fn of(items: Vec<(Text, Value)>) -> Entries
        ensures { result ≡ items.items }
    {
        Entries { items, index: None }
    }

    /// How many there are.
    pub fn len(&self) -> usize
        ensures len { result ≡ length self.now }
        ensures small { result < 2 ^ 63 }
    {
        self.items.len()
    }

    /// All of them, in order.
    pub fn as_slice(&self) -> &[(Text, Value)]
        ensures value { result.now ≡ self.now }
    {
        self.items.as_slice()
    }

    /// Where the key stands first. Few entries are looked at, unless many were taken over or left by a removal since the last
    /// store.
    pub fn find(&self, key: &Text) -> Option<usize>
        ensures place { result ≡ position (λ e. is_same_text e.0 key.now) self.now }
        ensures bound { IfSome result (λ i. i < length self.now) }
    {
        match &self.index {
            Some(places) => places.get(key).copied(),
            None => self.items.iter().position(|e| e.0 == *key),
        }
    }

    /// The value at a key, where it is there: that of the first entry with it.
    pub fn get(&self, key: &Text) -> Option<&Value>
        ensures { option_copied result ≡ entry_at self.now key.now }
    {
        match self.find(key) {
            Some(i) => Some(&self.items[i].1),
            None => None,
        }
    }

    /// Makes the index, where there is none and they are many.
    fn make_index(&mut self) -> Result<(), Memory>
        ensures { self.new ≡ self.old }
    {
        if self.index.is_none() && self.items.len() > MOST_WALKED {
            let alloc = *self.items.allocator();
            let places = places_of(alloc, self.items.as_slice())?;
            self.index = Some(Box::new(alloc, places)?);
        }
        Ok(())
    }

    /// One entry more, behind the others.
    pub fn push(&mut self, key: Text, v: Value) -> Result<(), Memory>
        ensures pushed { OnOk result (self.new ≡ self.old ++ (key, v) ∷ []) }
        ensures refused { OnErr result (self.new ≡ self.old) }
    {
        self.make_index()?;
        let index = mem::replace(&mut self.index, None);
        let index = with_key(index, &key, self.items.len())?;
        self.items.push((key, v))?;
        self.index = index;
        Ok(())
    }

    /// The entry with the key gets this value; a new key comes last.
    pub fn set(&mut self, key: &Text, v: Value) -> Result<(), Memory>
        ensures set { OnOk result (self.new ≡ set_entry self.old key.now v) }
        ensures refused { OnErr result (self.new ≡ self.old) }
    {
        self.make_index()?;
        match self.find(key) {
            Some(i) => {
                let kept = self.items[i].0.share();
                self.items[i] = (kept, v);
                Ok(())
            }
            None => self.push(key.share(), v),
        }
    }

    /// Takes the entry at a place out. All that stand behind it are moved.
    pub fn remove(&mut self, at: usize) -> (Text, Value)
        requires { at < length self.old }
        ensures removed { slice_get self.old at ≡ Some result }
        ensures left { self.new ≡ remove self.old at }
    {
        self.index = None;
        self.items.remove(at)
    }
}

impl DerefSlice for Entries {
    type Elem = (Text, Value);

    ghost deref_gives = { λ a xs. xs ≡ a };

    fn deref(&self) -> &[(Text, Value)]
        ensures value { result.now ≡ self.now }
    {
        self.items.as_slice()
    }
}
