//! Fronts of bytes, and of lines.
ghost use Rattle.std.specs.Prelude.{◌≡◌, ◌≤◌, ◌+◌, length, take, drop, position};
ghost use Rattle.bal_io.specs.Content.{is_line_feed, GivesLine, without_return as without_return_lem};
ghost use Rattle.bal_io.specs.Fronts.{IsLineFront};

/// How far the front of a line goes.
#[derive(Clone, Copy)]
pub(crate) enum Extent {
    /// To a line feed, which follows it.
    LineFeed,
    /// To as many bytes as were asked for, and the line goes on.
    Full,
    /// To the end of the bytes.
    AllTaken,
}

/// The front of some bytes, as far as a line goes.
#[derive(Clone, Copy)]
pub(crate) struct LineFront<'a> {
    /// The bytes of the line.
    pub(crate) text: &'a [u8],
    /// How far they go.
    pub(crate) extent: Extent,
}

/// The first `n` bytes, or all where there are fewer.
pub(crate) fn front(bytes: &[u8], n: u64) -> &[u8]
    ensures { result.now ≡ take n bytes.now }
{
    if n < bytes.len() as u64 {
        &bytes[..n as usize]
    } else {
        bytes
    }
}

/// The bytes after the first `n`.
pub(crate) fn after(bytes: &[u8], n: usize) -> &[u8]
    requires { n ≤ length bytes.now }
    ensures { result.now ≡ drop n bytes.now }
{
    &bytes[n..]
}

/// The first `max + 1` bytes, or all where there are fewer.
pub(crate) fn first_bytes(bytes: &[u8], max: u64) -> &[u8]
    ensures { result.now ≡ take (max + 1) bytes.now }
{
    if max < bytes.len() as u64 {
        &bytes[..max as usize + 1]
    } else {
        bytes
    }
}

/// Where the first line feed stands.
fn line_feed_at(bytes: &[u8]) -> Option<usize>
    ensures { result ≡ position is_line_feed bytes.now }
{
    bytes.iter().position(|b| *b == b'\n')
}

/// The first line of the bytes, of which it gives at most `max` bytes.
pub(crate) fn front_of_line(bytes: &[u8], max: u64) -> LineFront<'_>
    ensures { IsLineFront max result.text.now result.extent bytes.now }
{
    let seen = first_bytes(bytes, max);
    match line_feed_at(seen) {
        Some(at) => LineFront {
            text: &bytes[..at],
            extent: Extent::LineFeed,
        },
        None if seen.len() as u64 > max => LineFront {
            text: &bytes[..max as usize],
            extent: Extent::Full,
        },
        None => LineFront {
            text: bytes,
            extent: Extent::AllTaken,
        },
    }
}

/// The line without a carriage return at its end.
pub(crate) fn without_return(line: &[u8]) -> &[u8]
    ensures { result.now ≡ without_return_lem line.now }
{
    match line {
        [text @ .., b'\r'] => text,
        _ => line,
    }
}

/// The first line of some bytes, as a call for a line gives it.
#[derive(Clone, Copy)]
pub(crate) struct FirstLine<'a> {
    /// The bytes that are given.
    pub(crate) text: &'a [u8],
    /// How many bytes are taken.
    pub(crate) size: usize,
    /// Whether the whole line is given.
    pub(crate) whole: bool,
}

/// The first line of the bytes, after which nothing follows. Of a longer line it gives and takes `max` bytes.
pub(crate) fn first_line(bytes: &[u8], max: u64) -> FirstLine<'_>
    ensures within { result.size ≤ length bytes.now }
    ensures bound { length result.text.now ≤ max }
    ensures line { GivesLine max record { bytes = result.text.now; whole = result.whole } bytes.now
        (drop result.size bytes.now) }
{
    let LineFront { text, extent } = front_of_line(bytes, max);
    match extent {
        Extent::LineFeed => FirstLine {
            text: without_return(text),
            size: text.len() + 1,
            whole: true,
        },
        Extent::Full => FirstLine {
            text,
            size: text.len(),
            whole: false,
        },
        Extent::AllTaken => FirstLine {
            text,
            size: text.len(),
            whole: true,
        },
    }
}
