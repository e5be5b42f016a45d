//! What is told of a row.
ghost use Rattle.std.specs.Prelude.{◌≡◌, ◌||◌, true, false};
ghost use Rattle.row_lines.specs.Telling.{FailsUnless, nothing};

use crate::escapes::escaped;
use std::alloc::{AllocError, Global};
use std::marker::Model;

/// What is told of a row: a line for each reason for which it fails. It keeps whether memory ran out, so that no call on it can
/// fail. It is seen as whether the row fails and whether memory ran out.
#[derive(Drop)]
pub struct Told {
    alloc: Global,
    lines: String,
    fails: bool,
    asks: bool,
    lacks_memory: bool,
}

impl Model for Told {
    ghost use Rattle.row_lines.specs.Telling.{Telling};

    ghost Value = { Telling };

    ghost view = { λ t. record { asks = t.asks; fails = t.fails; lacks_memory = t.lacks_memory } };
}

/// How many bytes are told of a text.
const MOST_TOLD: usize = 60;

impl Told {
    /// Nothing is told: the row holds.
    pub fn new(alloc: Global) -> Told
        ensures { result ≡ nothing }
    {
        Told {
            alloc,
            lines: String::new(alloc),
            fails: false,
            asks: true,
            lacks_memory: false,
        }
    }

    pub fn alloc(&self) -> Global {
        self.alloc
    }

    /// The line asks nothing, and isn't counted unless it fails.
    pub fn asks_nothing(&mut self)
        ensures asks { self.new.asks ≡ false }
        ensures fails { self.new.fails ≡ self.old.fails }
    {
        self.asks = false;
    }

    /// Tells a reason for which the row fails.
    pub fn fails(&mut self, why: &str)
        ensures { self.new.fails ≡ true }
    {
        self.put(&["    ", why, "\n"]);
    }

    /// Tells that a line of the row isn't read, and why.
    pub fn misread(&mut self, line: &str, why: &str)
        ensures { self.new.fails ≡ true }
    {
        self.put(&["    ", line, ": ", why, "\n"]);
    }

    /// Tells that something else came than what is wanted of a part.
    pub fn other(&mut self, part: &str, wanted: &str, came: &str)
        ensures { self.new.fails ≡ true }
    {
        self.put(&[
            "    ",
            part,
            ": ",
            wanted,
            " is wanted, and ",
            came,
            " came\n",
        ]);
    }

    /// Tells a reason that was put together, or that there was no memory for it.
    pub fn reason(&mut self, why: Result<String, AllocError>)
        ensures { self.new.fails ≡ true }
    {
        match why {
            Ok(why) => self.fails(why.as_str()),
            Err(_) => self.memory(),
        }
    }

    /// The row fails for reasons that were told.
    pub fn differs(&mut self)
        ensures { self.new.fails ≡ true }
    {
        self.fails = true;
    }

    /// Tells that memory ran out.
    pub fn memory(&mut self)
        ensures fails { self.new.fails ≡ true }
        ensures memory { self.new.lacks_memory ≡ true }
    {
        self.fails = true;
        self.lacks_memory = true;
    }

    /// Compares two texts.
    pub fn text(&mut self, part: &str, wanted: &str, came: &str)
        ensures { FailsUnless (came.now ≡ wanted.now) self.old self.new }
    {
        if came != wanted {
            self.other(part, wanted, came);
        }
    }

    /// Compares two numbers.
    pub fn number(&mut self, part: &str, wanted: u64, came: u64)
        ensures { FailsUnless (came ≡ wanted) self.old self.new }
    {
        if came != wanted {
            let why = format!(in self.alloc; "{part}: {wanted} is wanted, and {came} came");
            self.reason(why);
        }
    }

    /// Compares two texts of bytes, and tells them from their first difference on.
    pub fn bytes(&mut self, part: &str, wanted: &[u8], came: &[u8])
        ensures { FailsUnless (came.now ≡ wanted.now) self.old self.new }
    {
        if came != wanted {
            self.reason(difference(self.alloc, part, wanted, came));
        }
    }

    /// Adds a line that is put together of these parts.
    fn put(&mut self, parts: &[&str])
        ensures { self.new.fails ≡ true }
    {
        self.fails = true;
        if push_all(&mut self.lines, parts).is_err() {
            self.lacks_memory = true;
        }
    }

    /// Whether the row fails.
    pub fn is_failing(&self) -> bool
        ensures { result ≡ self.now.fails }
    {
        self.fails
    }

    /// Whether the row is counted.
    pub(crate) fn counts(&self) -> bool
        ensures { result ≡ (self.now.asks || self.now.fails) }
    {
        self.asks || self.fails
    }

    /// The lines of the reasons, and one that says so where memory ran out.
    pub(crate) fn lines(&self) -> (&str, &'static str) {
        let end = if self.lacks_memory {
            "    out of memory\n"
        } else {
            ""
        };
        (self.lines.as_str(), end)
    }
}

fn push_all(lines: &mut String, parts: &[&str]) -> Result<(), AllocError> {
    for part in parts {
        lines.push_str(part)?;
    }
    Ok(())
}

/// Two texts from their first difference on.
fn difference(alloc: Global, part: &str, wanted: &[u8], came: &[u8]) -> Result<String, AllocError> {
    let at = common_len(wanted, came);
    let wanted = escaped(alloc, told_of(wanted, at))?;
    let came = escaped(alloc, told_of(came, at))?;
    format!(in alloc; "{part} from byte {at}: \"{wanted}\" is wanted, and \"{came}\" came")
}

/// How many bytes the two have in common before they differ.
fn common_len(left: &[u8], right: &[u8]) -> usize {
    left.iter().zip(right).take_while(|(a, b)| a == b).count()
}

/// What is told of a text from this byte on.
fn told_of(text: &[u8], at: usize) -> &[u8] {
    let behind = text.get(at..).unwrap_or(&[]);
    behind.get(..MOST_TOLD).unwrap_or(behind)
}
