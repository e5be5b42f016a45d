//! Texts of values.
#![tactic(auto, using(crate::proofs::Inside::inside_rules))]

ghost use Rattle.std.specs.Prelude.{◌≡◌, ◌==◌, ◌∷◌, ◌++◌, IfOk, OnOk, codes, flat_map};
ghost use Rattle.std.specs.List.{list_any};
ghost use Rattle.text_forms.specs.Forms.{Adds, listed, quoted, written};
ghost use Rattle.op_model.specs.Texts as texts;
ghost use Rattle.value_model.specs.declared.value.Value.TheVariants.{Error, Struct};
ghost use Rattle.plain_run.specs.Held.{error_of, heap_of, members_of};
ghost use Rattle.plain_texts.specs.Parts.{parts_text};

use bal_base::{Memory, Text};
use plain_run::{ErrorObject, Heap, Members};
use std::alloc::Global;
use text_forms::{add_if, add_int, add_quoted, add_text, add_truth, add_word};
use value_model::Value;

/// Whether the structure is among these.
fn is_among(around: &[u32], n: u32) -> bool
    ensures { result ≡ list_any (λ m. m == n) around.now }
{
    around.iter().any(|m| *m == n)
}

/// The structures around what is in one of them.
fn inside(alloc: Global, n: u32, around: &[u32]) -> Result<Vec<u32>, Memory>
    ensures { IfOk result (λ all. all.items ≡ n ∷ around.now) }
{
    let mut all = Vec::new(alloc);
    all.push(n)?;
    all.extend_from_slice(around)?;
    Ok(all)
}

/// Adds the text of a value inside a structure, where these structures are around it and so many more may stand in one another.
#[cycle(texts)]
fn add_inner(
    alloc: Global,
    out: &mut String,
    heap: &Heap,
    depth: u64,
    around: &[u32],
    v: &Value,
) -> Result<(), Memory>
    ensures { OnOk result (Adds (written out.old) (texts.inner_text (heap_of heap.now) depth around.now v.now) (written out.new)) }
{
    match v {
        Value::Nil => add_word(out, "null"),
        Value::Bool(b) => add_truth(out, *b),
        Value::Int(n) => add_int(out, *n),
        Value::Str(t) => add_quoted(out, t.as_str()),
        Value::Struct(n) => add_structure(alloc, out, heap, depth, around, *n),
        Value::Error(n) => add_error(alloc, out, heap, depth, around, *n),
        Value::Function(_) => add_word(out, "function"),
        Value::Future { .. } => add_word(out, "future"),
    }
}

/// Adds the text of a structure, which is not written again inside itself.
#[cycle(texts)]
fn add_structure(
    alloc: Global,
    out: &mut String,
    heap: &Heap,
    depth: u64,
    around: &[u32],
    n: u32,
) -> Result<(), Memory>
    ensures { OnOk result (Adds (written out.old) (texts.inner_text (heap_of heap.now) depth around.now (Struct n)) (written out.new)) }
{
    if depth == 0 {
        return add_word(out, "...");
    }
    if is_among(around, n) {
        return add_word(out, "...");
    }
    let all = inside(alloc, n, around)?;
    add_members_of(alloc, out, heap, depth - 1, all.as_slice(), n)
}

/// Adds the text of a structure by its members.
#[cycle(texts)]
fn add_members_of(
    alloc: Global,
    out: &mut String,
    heap: &Heap,
    depth: u64,
    around: &[u32],
    n: u32,
) -> Result<(), Memory>
    ensures { OnOk result (Adds (written out.old) (texts.structure_text (heap_of heap.now) (texts.inner_text (heap_of heap.now) depth around.now) n) (written out.new)) }
{
    match heap.structures.get(n as usize) {
        None => Ok(()),
        Some(s) => add_members(alloc, out, heap, depth, around, &s.members),
    }
}

/// Adds the text of a list or of a mapping.
#[cycle(texts)]
fn add_members(
    alloc: Global,
    out: &mut String,
    heap: &Heap,
    depth: u64,
    around: &[u32],
    members: &Members,
) -> Result<(), Memory>
    ensures { OnOk result (Adds (written out.old) (texts.members_text (texts.inner_text (heap_of heap.now) depth around.now) (members_of members.now)) (written out.new)) }
{
    match members {
        Members::Items(items) => {
            add_word(out, "[")?;
            add_items(alloc, out, heap, depth, around, items.as_slice())?;
            add_word(out, "]")
        }
        Members::Entries(entries) => {
            add_word(out, "{")?;
            add_entries(alloc, out, heap, depth, around, entries.as_slice())?;
            add_word(out, "}")
        }
    }
}

/// Adds the texts of items, with a comma between each two.
#[cycle(texts)]
fn add_items(
    alloc: Global,
    out: &mut String,
    heap: &Heap,
    depth: u64,
    around: &[u32],
    items: &[Value],
) -> Result<(), Memory>
    ensures { OnOk result (Adds (written out.old) (listed (texts.inner_text (heap_of heap.now) depth around.now) items.now) (written out.new)) }
{
    for (i, v) in items.iter().enumerate() {
        add_if(out, i > 0, ",")?;
        add_inner(alloc, out, heap, depth, around, v)?;
    }
    Ok(())
}

/// Adds the texts of entries, with a comma between each two.
#[cycle(texts)]
fn add_entries(
    alloc: Global,
    out: &mut String,
    heap: &Heap,
    depth: u64,
    around: &[u32],
    entries: &[(Text, Value)],
) -> Result<(), Memory>
    ensures { OnOk result (Adds (written out.old) (listed (λ e. quoted e.0 ++ codes ":" ++ texts.inner_text (heap_of heap.now) depth around.now e.1) entries.now) (written out.new)) }
{
    for (i, e) in entries.iter().enumerate() {
        add_if(out, i > 0, ",")?;
        add_entry(alloc, out, heap, depth, around, e)?;
    }
    Ok(())
}

/// Adds the text of an entry behind its key.
#[cycle(texts)]
fn add_entry(
    alloc: Global,
    out: &mut String,
    heap: &Heap,
    depth: u64,
    around: &[u32],
    e: &(Text, Value),
) -> Result<(), Memory>
    ensures { OnOk result (Adds (written out.old) (quoted e.now.0 ++ codes ":" ++ texts.inner_text (heap_of heap.now) depth around.now e.now.1) (written out.new)) }
{
    add_quoted(out, e.0.as_str())?;
    add_word(out, ":")?;
    add_inner(alloc, out, heap, depth, around, &e.1)
}

/// Adds the text of an error.
#[cycle(texts)]
fn add_error(
    alloc: Global,
    out: &mut String,
    heap: &Heap,
    depth: u64,
    around: &[u32],
    n: u32,
) -> Result<(), Memory>
    ensures { OnOk result (Adds (written out.old) (texts.inner_text (heap_of heap.now) depth around.now (Error n)) (written out.new)) }
{
    if depth == 0 {
        return add_word(out, "...");
    }
    add_parts_of(alloc, out, heap, depth - 1, around, n)
}

/// Adds the text of an error by its parts.
#[cycle(texts)]
fn add_parts_of(
    alloc: Global,
    out: &mut String,
    heap: &Heap,
    depth: u64,
    around: &[u32],
    n: u32,
) -> Result<(), Memory>
    ensures { OnOk result (Adds (written out.old) (texts.error_text (heap_of heap.now) (texts.inner_text (heap_of heap.now) depth around.now) n) (written out.new)) }
{
    match heap.errors.get(n as usize) {
        None => Ok(()),
        Some(e) => add_parts(alloc, out, heap, depth, around, e),
    }
}

/// Adds the message, the cause and the details of an error.
#[cycle(texts)]
fn add_parts(
    alloc: Global,
    out: &mut String,
    heap: &Heap,
    depth: u64,
    around: &[u32],
    e: &ErrorObject,
) -> Result<(), Memory>
    ensures { OnOk result (Adds (written out.old) (parts_text (heap_of heap.now) (texts.inner_text (heap_of heap.now) depth around.now) (error_of e.now)) (written out.new)) }
{
    add_word(out, "error(")?;
    add_quoted(out, e.message.as_str())?;
    add_cause(alloc, out, heap, depth, around, &e.cause)?;
    add_details(alloc, out, heap, depth, around, e.detail)?;
    add_word(out, ")")
}

/// Adds the text of the cause of an error behind a comma, where there is one.
#[cycle(texts)]
fn add_cause(
    alloc: Global,
    out: &mut String,
    heap: &Heap,
    depth: u64,
    around: &[u32],
    cause: &Option<u32>,
) -> Result<(), Memory>
    ensures { OnOk result (Adds (written out.old) (texts.cause_text (heap_of heap.now) (texts.inner_text (heap_of heap.now) depth around.now) cause.now) (written out.new)) }
{
    match cause {
        None => Ok(()),
        Some(n) => {
            add_word(out, ",")?;
            add_error(alloc, out, heap, depth, around, *n)
        }
    }
}

/// Adds the details of an error, each behind a comma.
#[cycle(texts)]
fn add_details(
    alloc: Global,
    out: &mut String,
    heap: &Heap,
    depth: u64,
    around: &[u32],
    n: u32,
) -> Result<(), Memory>
    ensures { OnOk result (Adds (written out.old) (texts.details_text (heap_of heap.now) (texts.inner_text (heap_of heap.now) depth around.now) n) (written out.new)) }
{
    match heap.structures.get(n as usize) {
        None => Ok(()),
        Some(s) => match &s.members {
            Members::Items(_) => Ok(()),
            Members::Entries(es) => add_each_detail(alloc, out, heap, depth, around, es.as_slice()),
        },
    }
}

/// Adds these details, each behind a comma.
#[cycle(texts)]
fn add_each_detail(
    alloc: Global,
    out: &mut String,
    heap: &Heap,
    depth: u64,
    around: &[u32],
    details: &[(Text, Value)],
) -> Result<(), Memory>
    ensures { OnOk result (Adds (written out.old) (flat_map (λ e. codes "," ++ e.0 ++ codes "=" ++ texts.inner_text (heap_of heap.now) depth around.now e.1) details.now) (written out.new)) }
{
    for e in details {
        add_detail(alloc, out, heap, depth, around, e)?;
    }
    Ok(())
}

/// Adds a detail of an error behind a comma and its key.
#[cycle(texts)]
fn add_detail(
    alloc: Global,
    out: &mut String,
    heap: &Heap,
    depth: u64,
    around: &[u32],
    e: &(Text, Value),
) -> Result<(), Memory>
    ensures { OnOk result (Adds (written out.old) (codes "," ++ e.now.0 ++ codes "=" ++ texts.inner_text (heap_of heap.now) depth around.now e.now.1) (written out.new)) }
{
    add_word(out, ",")?;
    add_text(out, e.0.as_str())?;
    add_word(out, "=")?;
    add_inner(alloc, out, heap, depth, around, &e.1)
}

/// Adds the text of a value that stands in no structure.
fn add_within(alloc: Global, out: &mut String, heap: &Heap, v: &Value) -> Result<(), Memory>
    ensures { OnOk result (Adds (written out.old) (texts.text_within (heap_of heap.now) v.now) (written out.new)) }
{
    let depth = heap.structures.len() as u64 + heap.errors.as_slice().len() as u64;
    add_inner(alloc, out, heap, depth, &[], v)
}

/// Adds the text of a value: nil has none, and a string is its own.
fn add_value(alloc: Global, out: &mut String, heap: &Heap, v: &Value) -> Result<(), Memory>
    ensures { OnOk result (Adds (written out.old) (texts.text_of (heap_of heap.now) v.now) (written out.new)) }
{
    match v {
        Value::Nil => Ok(()),
        Value::Str(t) => {
            add_text(out, t.as_str())?;
            Ok(())
        }
        _ => add_within(alloc, out, heap, v),
    }
}

/// Adds the texts of values, one behind the other.
fn add_values(alloc: Global, out: &mut String, heap: &Heap, values: &[Value]) -> Result<(), Memory>
    ensures { OnOk result (Adds (written out.old) (flat_map (texts.text_of (heap_of heap.now)) values.now) (written out.new)) }
{
    for v in values {
        add_value(alloc, out, heap, v)?;
    }
    Ok(())
}

/// The texts of values, one behind the other.
pub fn texts_of(alloc: Global, heap: &Heap, values: &[Value]) -> Result<String, Memory>
    ensures { IfOk result (λ text. written text ≡ flat_map (texts.text_of (heap_of heap.now)) values.now) }
{
    let mut out = String::new(alloc);
    add_values(alloc, &mut out, heap, values)?;
    Ok(out)
}

/// The text of a value, as it is printed.
pub fn text_of(alloc: Global, heap: &Heap, v: &Value) -> Result<Text, Memory>
    ensures { IfOk result (λ text. text ≡ texts.text_of (heap_of heap.now) v.now) }
{
    let mut out = String::new(alloc);
    add_value(alloc, &mut out, heap, v)?;
    Text::from_string(alloc, out)
}
