//! Texts in which a byte may be written by an escape: `\n`, `\r`, `\t`, `\"`, `\\`, and `\x` with two hexadecimal digits. Each
//! other byte stands for itself.

ghost use Rattle.std.specs.Prelude.{◌<◌, IfSome};

use std::alloc::{AllocError, Global};

/// What stands between the quotes of the string with which the text begins, and what is behind it.
pub fn quoted(text: &str) -> Option<(&str, &str)> {
    let behind = text.strip_prefix('"')?;
    let (inside, rest) = behind.split_at_checked(quote_at(behind.as_bytes()))?;
    Some((inside, rest.strip_prefix('"')?))
}

/// Where the first quote stands that belongs to no escape, or the text's length.
fn quote_at(text: &[u8]) -> usize {
    let mut in_escape = false;
    for (i, byte) in text.iter().enumerate() {
        if in_escape {
            in_escape = false;
        } else if *byte == b'"' {
            return i;
        } else {
            in_escape = *byte == b'\\';
        }
    }
    text.len()
}

/// The bytes for which the text stands, or nothing where an escape isn't one.
pub fn unescaped(alloc: Global, text: &str) -> Result<Option<Vec<u8>>, AllocError> {
    let mut bytes = Vec::new(alloc);
    let mut rest = text.as_bytes();
    for _ in 0..text.len() {
        if rest.is_empty() {
            break;
        }
        match first_byte(rest) {
            Some((byte, behind)) => {
                bytes.push(byte)?;
                rest = behind;
            }
            None => return Ok(None),
        }
    }
    Ok(Some(bytes))
}

/// The byte for which the front of the text stands, and what is behind it.
fn first_byte(text: &[u8]) -> Option<(u8, &[u8])> {
    match text {
        [b'\\', behind @ ..] => escaped_byte(behind),
        [byte, behind @ ..] => Some((*byte, behind)),
        [] => None,
    }
}

/// The same, where the text stands behind a backslash.
fn escaped_byte(text: &[u8]) -> Option<(u8, &[u8])> {
    match text {
        [b'x', high, low, behind @ ..] => Some((byte_of(*high, *low)?, behind)),
        [mark, behind @ ..] => Some((marked(*mark)?, behind)),
        [] => None,
    }
}

/// The byte for which this one stands behind a backslash.
fn marked(mark: u8) -> Option<u8> {
    match mark {
        b'n' => Some(b'\n'),
        b'r' => Some(b'\r'),
        b't' => Some(b'\t'),
        b'"' | b'\\' => Some(mark),
        _ => None,
    }
}

/// The byte that is written by these two digits.
fn byte_of(high: u8, low: u8) -> Option<u8> {
    let high = digit(high)?;
    let low = digit(low)?;
    Some(high * 16 + low)
}

fn digit(byte: u8) -> Option<u8>
    ensures { IfSome result (λ n. n < 16) }
{
    match byte {
        b'0'..=b'9' => Some(byte - b'0'),
        b'a'..=b'f' => Some(byte - b'a' + 10),
        _ => None,
    }
}

/// The bytes as a text, those that aren't printed as themselves by escapes.
pub fn escaped(alloc: Global, bytes: &[u8]) -> Result<String, AllocError> {
    let mut out = String::new(alloc);
    for byte in bytes {
        push_byte(&mut out, *byte)?;
    }
    Ok(out)
}

fn push_byte(out: &mut String, byte: u8) -> Result<(), AllocError> {
    match mark_of(byte) {
        Some(mark) => out.push_str(mark),
        None if (b' '..=b'~').contains(&byte) => out.push(char::from(byte)),
        None => write!(out, "\\x{byte:02x}"),
    }
}

/// The short escape of a byte, if it has one.
fn mark_of(byte: u8) -> Option<&'static str> {
    match byte {
        b'\n' => Some("\\n"),
        b'\r' => Some("\\r"),
        b'\t' => Some("\\t"),
        b'"' => Some("\\\""),
        b'\\' => Some("\\\\"),
        _ => None,
    }
}
