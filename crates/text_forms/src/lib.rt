//! How simple values are written, and in what forms they stand in longer texts.
//!
//! - [`add_word`], [`add_text`], [`add_quoted`], [`add_int`], [`add_number`] and [`add_truth`] write behind what is
//!   written already, and [`add_if`] a word that may be absent.
//!
//! `specs/Forms.antt` says what the forms are, as lists of characters.
#![tactic(auto)]

ghost use Rattle.std.specs.Prelude.{◌≡◌, ◌∷◌, [], OnOk, chars, decimal, true};
ghost use Rattle.std.specs.Fmt.{signed_decimal};
ghost use Rattle.std.specs.List.{list_all};
ghost use Rattle.std.specs.Char.{is_ascii};
ghost use Rattle.text_forms.specs.Forms.{Adds, escaped, quoted, text_if, truth_text, written};

use bal_base::Memory;
use itoa::Buffer;

/// Adds a word or a sign, which is ASCII.
pub fn add_word(out: &mut String, word: &str) -> Result<(), Memory>
    requires { list_all is_ascii word.now ≡ true }
    ensures { OnOk result (Adds (written out.old) word.now (written out.new)) }
{
    add_text(out, word)?;
    Ok(())
}

/// Adds a word or a sign, which is ASCII, where it is there.
pub fn add_if(out: &mut String, there: bool, word: &str) -> Result<(), Memory>
    requires { list_all is_ascii word.now ≡ true }
    ensures { OnOk result (Adds (written out.old) (text_if there word.now) (written out.new)) }
{
    if there {
        return add_word(out, word);
    }
    Ok(())
}

/// Adds the text as it is.
pub fn add_text(out: &mut String, text: &str) -> Result<(), Memory>
    ensures { OnOk result (Adds (written out.old) (chars text.now) (written out.new)) }
{
    out.push_str(text)?;
    Ok(())
}

/// Adds the text between quotes, in which quotes, backslashes and the ends of lines are escaped. Takes time linear
/// in the text.
pub fn add_quoted(out: &mut String, text: &str) -> Result<(), Memory>
    ensures { OnOk result (Adds (written out.old) (quoted (chars text.now)) (written out.new)) }
{
    add_word(out, "\"")?;
    for c in text.chars() {
        add_escaped(out, c)?;
    }
    add_word(out, "\"")?;
    Ok(())
}

/// Adds a character as it stands between quotes.
fn add_escaped(out: &mut String, c: char) -> Result<(), Memory>
    ensures { OnOk result (Adds (written out.old) (escaped c) (written out.new)) }
{
    match c {
        '"' => add_word(out, "\\\""),
        '\\' => add_word(out, "\\\\"),
        '\n' => add_word(out, "\\n"),
        '\r' => add_word(out, "\\r"),
        '\t' => add_word(out, "\\t"),
        c => add_char(out, c),
    }
}

fn add_char(out: &mut String, c: char) -> Result<(), Memory>
    ensures { OnOk result (Adds (written out.old) (c ∷ []) (written out.new)) }
{
    out.push(c)?;
    Ok(())
}

/// Adds the int in decimal digits, behind a minus sign where it is below zero.
pub fn add_int(out: &mut String, n: i64) -> Result<(), Memory>
    ensures { OnOk result (Adds (written out.old) (signed_decimal n) (written out.new)) }
{
    let mut buffer = Buffer::new();
    add_text(out, buffer.format(n))?;
    Ok(())
}

/// Adds the number in decimal digits.
pub fn add_number(out: &mut String, n: u64) -> Result<(), Memory>
    ensures { OnOk result (Adds (written out.old) (decimal n) (written out.new)) }
{
    let mut buffer = Buffer::new();
    add_text(out, buffer.format(n))?;
    Ok(())
}

/// Adds `true` or `false`.
pub fn add_truth(out: &mut String, b: bool) -> Result<(), Memory>
    ensures { OnOk result (Adds (written out.old) (truth_text b) (written out.new)) }
{
    add_word(out, if b { "true" } else { "false" })
}
