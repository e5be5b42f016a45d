//! The one shape of a simple value, an immutable structure or an error.
ghost use Rattle.std.specs.Prelude.{◌≡◌, IfOk, find, option_copied, option_map};
ghost use Rattle.bal_base.specs.declared.shape.Shape as shape;
ghost use Rattle.bal_base.specs.Valid.{IsInt, IsText};
ghost use Rattle.type_model.specs.Places.{is_same_text};
ghost use Rattle.value_model.specs.declared.value.Value.TheVariants.{Error as ErrorOf, Struct as StructOf};
ghost use Rattle.value_model.specs.Heap as model;
ghost use Rattle.plain_run.specs.Held.{heap_of, members_of, structure_of};
ghost use Rattle.plain_tests.specs.Shapes.{Finds, FindsAt, FindsEach, FindsError, FindsFields, FindsHeld, FindsShape, IsErrorNumber, IsWithDetail};
ghost use Rattle.plain_tests.specs.Shapes as shapes;

use crate::keys::keys_of;
use bal_base::{Fields, Memory, Shape, Shapes, Text};
use plain_run::{Heap, Members, Structure};
use std::alloc::Global;
use value_model::Value;

/// The members of a structure that is immutable.
fn frozen_in(s: &Structure) -> Option<&Members>
    ensures { option_map members_of (option_copied result) ≡ shapes.frozen_in (structure_of s.now) }
{
    if s.mutable { None } else { Some(&s.members) }
}

/// The members of the structure with this number, where it is there and immutable.
fn frozen_at(heap: &Heap, n: u32) -> Option<&Members>
    ensures { option_map members_of (option_copied result) ≡ shapes.frozen_at (heap_of heap.now) n }
{
    match heap.structures.get(n as usize) {
        None => None,
        Some(s) => frozen_in(s),
    }
}

/// The shape of a value inside an immutable structure, where it has one with so many levels at most.
#[cycle(shapes)]
fn inner_shape(alloc: Global, heap: &Heap, v: &Value, most: usize) -> Result<Option<Shape>, Memory>
    ensures { IfOk result (Finds (heap_of heap.now) most v.now) }
{
    match v {
        Value::Nil => Ok(Some(Shape::Nil)),
        Value::Bool(b) => Ok(Some(Shape::Bool(*b))),
        Value::Int(i) => Ok(Some(int_shape(*i))),
        Value::Str(text) => Ok(Some(text_shape(text))),
        Value::Struct(n) => structure_shape(alloc, heap, *n, most),
        Value::Error(_) | Value::Function(_) | Value::Future { .. } => Ok(None),
    }
}

/// That of a structure.
#[cycle(shapes)]
fn structure_shape(alloc: Global, heap: &Heap, n: u32, most: usize) -> Result<Option<Shape>, Memory>
    ensures { IfOk result (Finds (heap_of heap.now) most (StructOf n)) }
{
    if most == 0 {
        return Ok(None);
    }
    match frozen_at(heap, n) {
        None => Ok(None),
        Some(members) => members_shape(alloc, heap, members, most - 1),
    }
}

/// The shape of a list or mapping with these members, where theirs have so many levels at most.
#[cycle(shapes)]
fn members_shape(
    alloc: Global,
    heap: &Heap,
    members: &Members,
    most: usize,
) -> Result<Option<Shape>, Memory>
    ensures { IfOk result (FindsHeld (heap_of heap.now) most (members_of members.now)) }
{
    match members {
        Members::Items(items) => list_shape(alloc, heap, items.as_slice(), most),
        Members::Entries(entries) => mapping_shape(alloc, heap, entries.as_slice(), most),
    }
}

/// That of a list.
#[cycle(shapes)]
fn list_shape(
    alloc: Global,
    heap: &Heap,
    items: &[Value],
    most: usize,
) -> Result<Option<Shape>, Memory>
    ensures { IfOk result (FindsHeld (heap_of heap.now) most (model.Items items.now)) }
{
    match item_shapes(alloc, heap, items, most)? {
        None => Ok(None),
        Some(shapes) => Ok(Some(Shape::List {
            mark: true,
            items: Shapes::of(shapes),
        })),
    }
}

/// The shapes of values, where each has one.
#[cycle(shapes)]
fn item_shapes(
    alloc: Global,
    heap: &Heap,
    items: &[Value],
    most: usize,
) -> Result<Option<Vec<Shape>>, Memory>
    ensures { IfOk result (λ found. FindsEach (heap_of heap.now) most items.now (option_map (λ xs. xs.items) found)) }
{
    let mut shapes = Vec::new(alloc);
    for v in items {
        match inner_shape(alloc, heap, v, most)? {
            None => return Ok(None),
            Some(shape) => shapes.push(shape)?,
        }
    }
    Ok(Some(shapes))
}

/// That of a mapping: its fields stand in the order of their keys. No key stands in it twice.
#[cycle(shapes)]
fn mapping_shape(
    alloc: Global,
    heap: &Heap,
    entries: &[(Text, Value)],
    most: usize,
) -> Result<Option<Shape>, Memory>
    ensures { IfOk result (FindsHeld (heap_of heap.now) most (model.Entries entries.now)) }
{
    let keys = keys_of(alloc, entries)?;
    if keys.as_slice().len() < entries.len() {
        return Ok(None);
    }
    match field_shapes(alloc, heap, entries, keys.as_slice(), most)? {
        None => Ok(None),
        Some(fields) => Ok(Some(Shape::Mapping {
            mark: true,
            fields: Fields::of(fields),
        })),
    }
}

/// The fields at these keys, where each has one.
#[cycle(shapes)]
fn field_shapes(
    alloc: Global,
    heap: &Heap,
    entries: &[(Text, Value)],
    keys: &[Text],
    most: usize,
) -> Result<Option<Vec<(Text, Shape)>>, Memory>
    ensures { IfOk result (λ found. FindsFields (heap_of heap.now) most entries.now keys.now (option_map (λ fields. fields.items) found)) }
{
    let mut fields = Vec::new(alloc);
    for key in keys {
        match key_shape(alloc, heap, entries, key, most)? {
            None => return Ok(None),
            Some(shape) => fields.push((key.share(), shape))?,
        }
    }
    Ok(Some(fields))
}

/// The first entry with the key.
fn entry_with<'a>(entries: &'a [(Text, Value)], key: &Text) -> Option<&'a (Text, Value)>
    ensures { option_copied result ≡ find (λ e. is_same_text e.0 key.now) entries.now }
{
    entries.iter().find(|e| e.0 == *key)
}

/// The shape of the value at a key.
#[cycle(shapes)]
fn key_shape(
    alloc: Global,
    heap: &Heap,
    entries: &[(Text, Value)],
    key: &Text,
    most: usize,
) -> Result<Option<Shape>, Memory>
    ensures { IfOk result (FindsAt (heap_of heap.now) most entries.now key.now) }
{
    match entry_with(entries, key) {
        None => Ok(None),
        Some(e) => inner_shape(alloc, heap, &e.1, most),
    }
}

/// The shape of an int, which is as wide as the language says.
fn int_shape(i: i64) -> Shape
    ensures shape { result ≡ shape.Int i }
    ensures int { IsInt i }
{
    let _ = i64::MIN <= i;
    Shape::Int(i)
}

/// The shape of a string: its characters are scalar values.
fn text_shape(text: &Text) -> Shape
    ensures shape { result ≡ shape.Str text.now }
    ensures text { IsText text.now }
{
    let _ = text.as_str();
    Shape::Str(text.share())
}

/// The shape of an error with this detail, which is an immutable mapping.
fn detailed(alloc: Global, heap: &Heap, detail: u32) -> Result<Option<Shape>, Memory>
    ensures { IfOk result (FindsError (heap_of heap.now) detail) }
{
    match structure_shape(alloc, heap, detail, heap.structures.len())? {
        None => Ok(None),
        Some(shape) => with_detail(alloc, shape),
    }
}

/// The error shape with this detail, where it may have it.
fn with_detail(alloc: Global, detail: Shape) -> Result<Option<Shape>, Memory>
    ensures { IfOk result (IsWithDetail detail) }
{
    if !detail.is_marked_mapping() {
        return Ok(None);
    }
    Ok(Some(Shape::Error {
        detail: Box::new(alloc, detail)?,
    }))
}

/// The number of the detail of an error that is there.
fn detail_at(heap: &Heap, n: u32) -> Option<u32>
    ensures { result ≡ shapes.detail_at (heap_of heap.now) n }
{
    match heap.errors.get(n as usize) {
        None => None,
        Some(e) => Some(e.detail),
    }
}

/// The shape of the error with this number.
fn error_shape(alloc: Global, heap: &Heap, n: u32) -> Result<Option<Shape>, Memory>
    ensures { IfOk result (FindsShape (heap_of heap.now) (ErrorOf n)) }
{
    match detail_at(heap, n) {
        None => Ok(None),
        Some(detail) => detailed(alloc, heap, detail),
    }
}

/// The number of an error, where the value is one.
fn error_number(v: &Value) -> Option<u32>
    ensures { IsErrorNumber v.now result }
{
    match v {
        Value::Error(n) => Some(*n),
        _ => None,
    }
}

/// The shape of a value that isn't mutable, no function and no future, where it has one.
pub(crate) fn one_shape(alloc: Global, heap: &Heap, v: &Value) -> Result<Option<Shape>, Memory>
    ensures { IfOk result (FindsShape (heap_of heap.now) v.now) }
{
    match error_number(v) {
        Some(n) => error_shape(alloc, heap, n),
        None => inner_shape(alloc, heap, v, heap.structures.len()),
    }
}
