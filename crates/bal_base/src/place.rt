//! Places in source files.
ghost use Rattle.std.specs.Prelude.{◌≡◌, ◌<◌, chars, length, take, IsCharBoundary};
ghost use Rattle.bal_base.specs.Place.{line_after, column_after};

/// A place in a source file.
#[derive(Clone, Copy)]
pub struct Place {
    /// The file's number among those of the package, from 0.
    pub file: u32,
    /// The offset in bytes from the file's start.
    pub at: u32,
}

/// The line and the column of the place `at` bytes into `text`, both counted from 1. A line ends with
/// a line feed, and a column is a code point. Takes time linear in `at`, and no memory.
pub fn line_column(text: &str, at: u32) -> (u32, u32)
    requires boundary { IsCharBoundary text.now at }
    requires small { at < 4294967295 }
    ensures line { result.0 ≡ line_after (chars (take at text.now)) }
    ensures column { result.1 ≡ column_after (chars (take at text.now)) }
{
    after(&text[..at as usize])
}

/// The line and the column of what follows `before`.
fn after(before: &str) -> (u32, u32)
    requires { length before.now < 4294967295 }
    ensures line { result.0 ≡ line_after (chars before.now) }
    ensures column { result.1 ≡ column_after (chars before.now) }
{
    let mut line = 1;
    let mut column = 1;
    for c in before.chars() {
        if c == '\n' {
            line += 1;
            column = 1;
        } else {
            column += 1;
        }
    }
    (line, column)
}
