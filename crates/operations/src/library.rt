//! The calls of the library.
ghost use Rattle.std.specs.Prelude.{◌≡◌};
ghost use Rattle.operations.specs.LibraryNumbers.{number_of};

/// A call of the library, in the order of their numbers. A method's receiver is its first argument.
#[derive(Clone, Copy)]
pub enum LibraryCall {
    /// `io:println(v, w)`
    Println,
    /// `io:print(v, w)`
    Print,
    /// `io:readln()`, `io:readln(p)`
    Readln,
    /// `int:fromString(s)`
    FromString,
    /// `n.abs()`
    Abs,
    /// `v.toString()`
    ToString,
    /// `v.clone()`
    Clone,
    /// `v.cloneReadOnly()`, without the cast to the receiver's type that follows it.
    CloneReadOnly,
    /// `s.length()`
    StringLength,
    /// `s.startsWith(t)`
    StartsWith,
    /// `s.trim()`
    Trim,
    /// `s.substring(a)`, `s.substring(a, b)`
    Substring,
    /// `s.toUpperAscii()`
    ToUpperAscii,
    /// `s.toLowerAscii()`
    ToLowerAscii,
    /// `s.toCodePointInts()`
    ToCodePointInts,
    /// `l.length()`
    ListLength,
    /// `l.push(v, w)`
    Push,
    /// `l.pop()`
    Pop,
    /// `l.remove(i)`
    RemoveItem,
    /// `l.slice(a)`, `l.slice(a, b)`
    Slice,
    /// `l.reverse()`
    Reverse,
    /// `m.length()`
    MappingLength,
    /// `m.keys()`
    Keys,
    /// `m.hasKey(k)`
    HasKey,
    /// `m.get(k)`
    Get,
    /// `m.remove(k)`
    RemoveKey,
    /// `e.message()`
    Message,
    /// `e.cause()`
    Cause,
    /// `e.detail()`
    Detail,
}

impl LibraryCall {
    /// The number by which code names the call.
    pub fn number(self) -> u16
        ensures { result ≡ number_of self }
    {
        match self {
            LibraryCall::Println => 0,
            LibraryCall::Print => 1,
            LibraryCall::Readln => 2,
            LibraryCall::FromString => 3,
            LibraryCall::Abs => 4,
            LibraryCall::ToString => 5,
            LibraryCall::Clone => 6,
            LibraryCall::CloneReadOnly => 7,
            LibraryCall::StringLength => 8,
            LibraryCall::StartsWith => 9,
            LibraryCall::Trim => 10,
            LibraryCall::Substring => 11,
            LibraryCall::ToUpperAscii => 12,
            LibraryCall::ToLowerAscii => 13,
            LibraryCall::ToCodePointInts => 14,
            LibraryCall::ListLength => 15,
            LibraryCall::Push => 16,
            LibraryCall::Pop => 17,
            LibraryCall::RemoveItem => 18,
            LibraryCall::Slice => 19,
            LibraryCall::Reverse => 20,
            LibraryCall::MappingLength => 21,
            LibraryCall::Keys => 22,
            LibraryCall::HasKey => 23,
            LibraryCall::Get => 24,
            LibraryCall::RemoveKey => 25,
            LibraryCall::Message => 26,
            LibraryCall::Cause => 27,
            LibraryCall::Detail => 28,
        }
    }
}
