//! The names of calls.
ghost use Rattle.std.specs.Prelude.{◌≡◌, true};
ghost use Rattle.std.specs.Char.{is_ascii};
ghost use Rattle.std.specs.List.{list_all};
ghost use Rattle.type_model.specs.Places.{is_same_text};
ghost use Rattle.check_words.specs.Library.{is_named as is_row_named, row_of};

use bal_base::Name;
use operations::LibraryCall;

/// How the call is written.
fn call_name(call: LibraryCall) -> &'static str
    ensures name { result.now ≡ (row_of call).name }
    ensures ascii { list_all is_ascii result.now ≡ true }
{
    match call {
        LibraryCall::Println => "println",
        LibraryCall::Print => "print",
        LibraryCall::Readln => "readln",
        LibraryCall::FromString => "fromString",
        LibraryCall::Abs => "abs",
        LibraryCall::ToString => "toString",
        LibraryCall::Clone => "clone",
        LibraryCall::CloneReadOnly => "cloneReadOnly",
        LibraryCall::StringLength => "length",
        LibraryCall::StartsWith => "startsWith",
        LibraryCall::Trim => "trim",
        LibraryCall::Substring => "substring",
        LibraryCall::ToUpperAscii => "toUpperAscii",
        LibraryCall::ToLowerAscii => "toLowerAscii",
        LibraryCall::ToCodePointInts => "toCodePointInts",
        LibraryCall::ListLength => "length",
        LibraryCall::Push => "push",
        LibraryCall::Pop => "pop",
        LibraryCall::RemoveItem => "remove",
        LibraryCall::Slice => "slice",
        LibraryCall::Reverse => "reverse",
        LibraryCall::MappingLength => "length",
        LibraryCall::Keys => "keys",
        LibraryCall::HasKey => "hasKey",
        LibraryCall::Get => "get",
        LibraryCall::RemoveKey => "remove",
        LibraryCall::Message => "message",
        LibraryCall::Cause => "cause",
        LibraryCall::Detail => "detail",
    }
}

/// Whether the call has the name. It compares the two, and takes no memory.
pub fn is_named(call: LibraryCall, name: &Name) -> bool
    ensures { result ≡ is_row_named name.now (row_of call) }
{
    is_word(name, call_name(call))
}

/// Whether the name is this word.
pub(crate) fn is_word(name: &Name, word: &str) -> bool
    requires { list_all is_ascii word.now ≡ true }
    ensures { result ≡ is_same_text word.now name.now }
{
    name.as_str() == word
}
