//! Parts of lists and texts.
ghost use Rattle.std.specs.Prelude.{◌≡◌, ◌↔◌, ◌<◌, ◌^◌, IsTrue, chars, length, option_map, pos};
ghost use Rattle.op_model.specs.Strings.{AreBounds};
ghost use Rattle.plain_library.specs.Parts as parts;

use bal_base::Text;

/// The end that is given, or the length.
pub fn end_or(end: Option<i64>, length: usize) -> i64
    requires { length < 2 ^ 63 }
    ensures { result ≡ parts.end_or end length }
{
    match end {
        Some(end) => end,
        None => length as i64,
    }
}

/// Whether these are places of a list of this length, the first one not behind the second.
fn are_bounds(start: i64, end: i64, length: usize) -> bool
    ensures { IsTrue result ↔ AreBounds start end length }
{
    0 <= start && start <= end && end as u64 <= length as u64
}

/// The part from a place to before another, where these are places of the list.
pub fn part<T>(all: &[T], start: i64, end: i64) -> Option<&[T]>
    ensures { parts.IsPartOf all.now start end (option_map (λ s. s.now) result) }
{
    if are_bounds(start, end, all.len()) {
        Some(&all[start as usize..end as usize])
    } else {
        None
    }
}

/// How many bytes there are, which are fewer than an int can count.
fn bytes_of(text: &str) -> usize
    ensures value { result ≡ length text.now }
    ensures small { result < 2 ^ 63 }
{
    text.len()
}

/// How many code points the text has. Nothing is walked over.
pub fn length_of_text(text: &Text) -> i64
    ensures { result ≡ pos (length text.now) }
{
    let _bytes = bytes_of(text.as_str());
    text.length() as i64
}

/// The end that is given, or the length of the text.
pub fn text_end(text: &Text, end: Option<i64>) -> i64
    ensures { result ≡ parts.end_or end (length text.now) }
{
    match end {
        Some(end) => end,
        None => length_of_text(text),
    }
}

/// The part of the text from a place to before another, where these are places of the text. Takes no memory, and where
/// all code points are ASCII nothing is walked over.
pub fn text_part(text: &Text, start: i64, end: i64) -> Option<&str>
    ensures { parts.IsPartOf text.now start end (option_map (λ s. chars s.now) result) }
{
    if are_bounds(start, end, text.length()) {
        text.substring(start as usize, end as usize)
    } else {
        None
    }
}
