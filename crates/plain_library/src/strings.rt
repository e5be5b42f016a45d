//! Strings.
ghost use Rattle.std.specs.Prelude.{◌≡◌, ◌∷◌, [], IfOk, length, map, not, pos, position, reverse, take};
ghost use Rattle.type_model.specs.Places.{is_same_text};
ghost use Rattle.operations.specs.declared.library.LibraryCall.TheVariants as call;
ghost use Rattle.value_model.specs.declared.value.Value.TheVariants.{Int, Str};
ghost use Rattle.op_model.specs.Library.{TakesPart};
ghost use Rattle.op_model.specs.Strings as strings;
ghost use Rattle.plain_run.specs.Came.{WorldStays, came_of};
ghost use Rattle.plain_run.specs.Held.{world_of};
ghost use Rattle.plain_structures.specs.Rows.{RowStays};
ghost use Rattle.plain_library.specs.Calls.{IsCalled, IsMade};
ghost use Rattle.plain_library.specs.Parts as parts;

use crate::lists::gives_list;
use crate::parts::{length_of_text, text_end, text_part};
use bal_base::{Memory, Text};
use plain_run::{Came, World, panics};
use plain_structures::{characters, text_of_characters};
use std::alloc::Global;
use value_model::{PanicName, Value};

/// `s.length()`. The text knows it, so nothing is walked over.
pub fn string_length(operands: &[Value], world: &World) -> Result<Option<Came>, Memory>
    ensures { IfOk result (IsCalled call.StringLength operands.now world.now world.now) }
{
    match operands {
        [Value::Str(t)] => {
            let length = length_of_text(t);
            Ok(Some(Came::Gave(Some(Value::Int(length)))))
        }
        _ => Ok(None),
    }
}

/// Whether the first characters are those.
fn begins(characters: &[char], front: &[char]) -> bool
    ensures { result ≡ is_same_text (take (length front.now) characters.now) front.now }
{
    characters.starts_with(front)
}

/// `s.startsWith(t)`
pub fn starts_with(alloc: Global, operands: &[Value], world: &World) -> Result<Option<Came>, Memory>
    ensures { IfOk result (IsCalled call.StartsWith operands.now world.now world.now) }
{
    match operands {
        [Value::Str(s), Value::Str(t)] => {
            let all = characters(alloc, s)?;
            let front = characters(alloc, t)?;
            let holds = begins(all.as_slice(), front.as_slice());
            Ok(Some(Came::Gave(Some(Value::Bool(holds)))))
        }
        _ => Ok(None),
    }
}

/// Whether it is one of the characters 0x9 to 0xD, or the space.
fn is_blank(c: char) -> bool
    ensures { result ≡ strings.is_blank c }
{
    matches!(c, '\t'..='\r' | ' ')
}

/// Where the first character stands that is no blank.
fn first_place(characters: &[char]) -> Option<usize>
    ensures { result ≡ position (λ c. not (strings.is_blank c)) characters.now }
{
    characters.iter().position(|c| !is_blank(*c))
}

/// The characters without the blanks at the front.
#[tactic(auto, using(crate::proofs::Blanks::blanks))]
fn without_front(characters: &[char]) -> &[char]
    ensures { result.now ≡ strings.without_front characters.now }
{
    match first_place(characters) {
        Some(i) => &characters[i..],
        None => &[],
    }
}

/// The characters without the blanks at the front, in the other order.
fn turned(alloc: Global, characters: &[char]) -> Result<Vec<char>, Memory>
    ensures { IfOk result (λ cs. cs.items ≡ reverse (strings.without_front characters.now)) }
{
    let mut all = Vec::from_slice(alloc, without_front(characters))?;
    all.reverse();
    Ok(all)
}

/// The text without the blanks at both ends.
fn trimmed(alloc: Global, text: &Text) -> Result<Text, Memory>
    ensures { IfOk result (λ t. t ≡ strings.trimmed text.now) }
{
    let all = characters(alloc, text)?;
    let back = turned(alloc, all.as_slice())?;
    let front = turned(alloc, back.as_slice())?;
    text_of_characters(alloc, front.as_slice())
}

/// `s.trim()`
pub fn trim(alloc: Global, operands: &[Value], world: &World) -> Result<Option<Came>, Memory>
    ensures { IfOk result (IsCalled call.Trim operands.now world.now world.now) }
{
    match operands {
        [Value::Str(t)] => {
            let text = trimmed(alloc, t)?;
            Ok(Some(Came::Gave(Some(Value::Str(text)))))
        }
        _ => Ok(None),
    }
}

/// A part of the text as a string, or a panic where there is no such part. Where all code points are ASCII only those of
/// the part are walked over.
fn takes_part(
    alloc: Global,
    world: &mut World,
    text: &Text,
    start: i64,
    end: i64,
) -> Result<Came, Memory>
    ensures row { IfOk result (λ came. TakesPart (world_of world.old) text.now start end (came_of came world.new)) }
    ensures stays { IfOk result (WorldStays world.old world.new) }
{
    match text_part(text, start, end) {
        None => panics(alloc, world, PanicName::IndexOutOfRange),
        Some(part) => {
            let text = Text::new(alloc, part)?;
            Ok(Came::Gave(Some(Value::Str(text))))
        }
    }
}

/// A part of the text.
fn substring_of(
    alloc: Global,
    world: &mut World,
    text: &Text,
    start: i64,
    end: Option<i64>,
) -> Result<Option<Came>, Memory>
    ensures row { IfOk result (IsCalled call.Substring (parts.bounded (Str text.now) start end) world.old world.new) }
    ensures stays { IfOk result (RowStays world.old world.new) }
{
    let end = text_end(text, end);
    let came = takes_part(alloc, world, text, start, end)?;
    Ok(Some(came))
}

/// The part of the text from a place, up to the one that these values name or to the end.
fn substring_from(
    alloc: Global,
    world: &mut World,
    text: &Text,
    start: i64,
    ends: &[Value],
) -> Result<Option<Came>, Memory>
    ensures row { IfOk result (IsCalled call.Substring (Str text.now ∷ Int start ∷ ends.now) world.old world.new) }
    ensures stays { IfOk result (RowStays world.old world.new) }
{
    match ends {
        [] => substring_of(alloc, world, text, start, None),
        [Value::Int(end)] => substring_of(alloc, world, text, start, Some(*end)),
        _ => Ok(None),
    }
}

/// A part of the text between places that these values name.
fn substring_at(
    alloc: Global,
    world: &mut World,
    text: &Text,
    places: &[Value],
) -> Result<Option<Came>, Memory>
    ensures row { IfOk result (IsCalled call.Substring (Str text.now ∷ places.now) world.old world.new) }
    ensures stays { IfOk result (RowStays world.old world.new) }
{
    match places {
        [Value::Int(start), ends @ ..] => substring_from(alloc, world, text, *start, ends),
        _ => Ok(None),
    }
}

/// `s.substring(i)` and `s.substring(i, j)`
pub fn substring(
    alloc: Global,
    operands: &[Value],
    world: &mut World,
) -> Result<Option<Came>, Memory>
    ensures row { IfOk result (IsCalled call.Substring operands.now world.old world.new) }
    ensures stays { IfOk result (RowStays world.old world.new) }
{
    match operands {
        [Value::Str(text), places @ ..] => substring_at(alloc, world, text, places),
        _ => Ok(None),
    }
}

/// The letter in upper case, where it is an ASCII letter.
fn upper(c: char) -> char
    ensures { result ≡ strings.upper_ascii c }
{
    c.to_ascii_uppercase()
}

/// The letter in lower case, where it is an ASCII letter.
fn lower(c: char) -> char
    ensures { result ≡ strings.lower_ascii c }
{
    c.to_ascii_lowercase()
}

/// All of them in upper case.
fn all_upper(alloc: Global, characters: &[char]) -> Result<Vec<char>, Memory>
    ensures { IfOk result (λ cs. cs.items ≡ map strings.upper_ascii characters.now) }
{
    let mut all = Vec::new(alloc);
    for c in characters {
        all.push(upper(*c))?;
    }
    Ok(all)
}

/// The text in upper case.
fn upper_text(alloc: Global, text: &Text) -> Result<Text, Memory>
    ensures { IfOk result (λ t. t ≡ map strings.upper_ascii text.now) }
{
    let all = characters(alloc, text)?;
    let turned = all_upper(alloc, all.as_slice())?;
    text_of_characters(alloc, turned.as_slice())
}

/// All of them in lower case.
fn all_lower(alloc: Global, characters: &[char]) -> Result<Vec<char>, Memory>
    ensures { IfOk result (λ cs. cs.items ≡ map strings.lower_ascii characters.now) }
{
    let mut all = Vec::new(alloc);
    for c in characters {
        all.push(lower(*c))?;
    }
    Ok(all)
}

/// The text in lower case.
fn lower_text(alloc: Global, text: &Text) -> Result<Text, Memory>
    ensures { IfOk result (λ t. t ≡ map strings.lower_ascii text.now) }
{
    let all = characters(alloc, text)?;
    let turned = all_lower(alloc, all.as_slice())?;
    text_of_characters(alloc, turned.as_slice())
}

/// `s.toUpperAscii()`
pub fn to_upper_ascii(
    alloc: Global,
    operands: &[Value],
    world: &World,
) -> Result<Option<Came>, Memory>
    ensures { IfOk result (IsCalled call.ToUpperAscii operands.now world.now world.now) }
{
    match operands {
        [Value::Str(t)] => {
            let text = upper_text(alloc, t)?;
            Ok(Some(Came::Gave(Some(Value::Str(text)))))
        }
        _ => Ok(None),
    }
}

/// `s.toLowerAscii()`
pub fn to_lower_ascii(
    alloc: Global,
    operands: &[Value],
    world: &World,
) -> Result<Option<Came>, Memory>
    ensures { IfOk result (IsCalled call.ToLowerAscii operands.now world.now world.now) }
{
    match operands {
        [Value::Str(t)] => {
            let text = lower_text(alloc, t)?;
            Ok(Some(Came::Gave(Some(Value::Str(text)))))
        }
        _ => Ok(None),
    }
}

/// The code points of characters, as ints.
fn points(alloc: Global, characters: &[char]) -> Result<Vec<Value>, Memory>
    ensures { IfOk result (λ vs. vs.items ≡ map (λ c. Int (pos c)) characters.now) }
{
    let mut all = Vec::new(alloc);
    for c in characters {
        all.push(Value::Int(i64::from(u32::from(*c))))?;
    }
    Ok(all)
}

/// The code points of a text, as a list.
fn point_list(
    alloc: Global,
    atom: u32,
    world: &mut World,
    text: &Text,
) -> Result<Option<Came>, Memory>
    ensures row { IfOk result (IsMade call.ToCodePointInts atom (Str text.now ∷ []) world.old world.new) }
    ensures stays { IfOk result (RowStays world.old world.new) }
{
    let all = characters(alloc, text)?;
    let items = points(alloc, all.as_slice())?;
    let came = gives_list(alloc, world, atom, items)?;
    Ok(Some(came))
}

/// `s.toCodePointInts()`
pub fn to_code_point_ints(
    alloc: Global,
    atom: u32,
    operands: &[Value],
    world: &mut World,
) -> Result<Option<Came>, Memory>
    ensures row { IfOk result (IsMade call.ToCodePointInts atom operands.now world.old world.new) }
    ensures stays { IfOk result (RowStays world.old world.new) }
{
    match operands {
        [Value::Str(text)] => point_list(alloc, atom, world, text),
        _ => Ok(None),
    }
}
