//! What calls take.
ghost use Rattle.std.specs.Prelude.{◌≡◌, ◌+◌, length};
ghost use Rattle.check_words.specs.Library.{argument_of, row_of, takes_so_many as row_takes};
ghost use Rattle.check_library.specs.Rows.{kind_of};

use expr_needs::Kind;
use operations::LibraryCall;

/// What a call is a method of: `None` where it is a method of any value, or a function.
pub fn receiver(call: LibraryCall) -> Option<Kind>
    ensures { result ≡ (row_of call).receiver }
{
    match call {
        LibraryCall::Println | LibraryCall::Print | LibraryCall::Readln => None,
        LibraryCall::FromString | LibraryCall::ToString => None,
        LibraryCall::Abs => Some(Kind::Integer),
        LibraryCall::Clone | LibraryCall::CloneReadOnly => Some(Kind::Anydata),
        LibraryCall::StringLength | LibraryCall::StartsWith => Some(Kind::Text),
        LibraryCall::Trim | LibraryCall::Substring => Some(Kind::Text),
        LibraryCall::ToUpperAscii | LibraryCall::ToLowerAscii => Some(Kind::Text),
        LibraryCall::ToCodePointInts => Some(Kind::Text),
        LibraryCall::ListLength | LibraryCall::Push | LibraryCall::Pop => Some(Kind::AnyList),
        LibraryCall::RemoveItem | LibraryCall::Slice => Some(Kind::AnyList),
        LibraryCall::Reverse => Some(Kind::AnyList),
        LibraryCall::MappingLength | LibraryCall::Keys => Some(Kind::AnyMapping),
        LibraryCall::HasKey | LibraryCall::Get => Some(Kind::AnyMapping),
        LibraryCall::RemoveKey => Some(Kind::AnyMapping),
        LibraryCall::Message | LibraryCall::Cause | LibraryCall::Detail => Some(Kind::AnyError),
    }
}

/// How many arguments a call needs.
fn least(call: LibraryCall) -> usize
    ensures { result ≡ length (row_of call).needed }
{
    match call {
        LibraryCall::FromString | LibraryCall::StartsWith | LibraryCall::Substring => 1,
        LibraryCall::RemoveItem | LibraryCall::Slice => 1,
        LibraryCall::HasKey | LibraryCall::Get | LibraryCall::RemoveKey => 1,
        LibraryCall::Println | LibraryCall::Print | LibraryCall::Readln => 0,
        LibraryCall::Abs | LibraryCall::ToString => 0,
        LibraryCall::Clone | LibraryCall::CloneReadOnly => 0,
        LibraryCall::StringLength | LibraryCall::Trim => 0,
        LibraryCall::ToUpperAscii | LibraryCall::ToLowerAscii => 0,
        LibraryCall::ToCodePointInts => 0,
        LibraryCall::ListLength | LibraryCall::Push | LibraryCall::Pop => 0,
        LibraryCall::Reverse | LibraryCall::MappingLength | LibraryCall::Keys => 0,
        LibraryCall::Message | LibraryCall::Cause | LibraryCall::Detail => 0,
    }
}

/// How many arguments more it may have, where their number is bounded.
fn spare(call: LibraryCall) -> usize
    ensures { result ≡ length (row_of call).possible }
{
    match call {
        LibraryCall::Readln | LibraryCall::Substring | LibraryCall::Slice => 1,
        LibraryCall::FromString | LibraryCall::StartsWith => 0,
        LibraryCall::RemoveItem => 0,
        LibraryCall::HasKey | LibraryCall::Get | LibraryCall::RemoveKey => 0,
        LibraryCall::Println | LibraryCall::Print => 0,
        LibraryCall::Abs | LibraryCall::ToString => 0,
        LibraryCall::Clone | LibraryCall::CloneReadOnly => 0,
        LibraryCall::StringLength | LibraryCall::Trim => 0,
        LibraryCall::ToUpperAscii | LibraryCall::ToLowerAscii => 0,
        LibraryCall::ToCodePointInts => 0,
        LibraryCall::ListLength | LibraryCall::Push | LibraryCall::Pop => 0,
        LibraryCall::Reverse | LibraryCall::MappingLength | LibraryCall::Keys => 0,
        LibraryCall::Message | LibraryCall::Cause | LibraryCall::Detail => 0,
    }
}

/// Whether any number of values may stand behind what it needs.
fn takes_all(call: LibraryCall) -> bool
    ensures { result ≡ (row_of call).more }
{
    matches!(
        call,
        LibraryCall::Println | LibraryCall::Print | LibraryCall::Push
    )
}

/// Whether a call may have so many arguments, the receiver not counted.
pub fn takes_so_many(call: LibraryCall, count: usize) -> bool
    ensures { result ≡ row_takes (row_of call) count }
{
    let needed = least(call);
    needed <= count && (takes_all(call) || count <= needed + spare(call))
}

/// What all arguments of a call have to be that it doesn't take in any number.
fn argument_kind(call: LibraryCall) -> Option<Kind>
    ensures { result ≡ kind_of call }
{
    match call {
        LibraryCall::FromString | LibraryCall::StartsWith => Some(Kind::Text),
        LibraryCall::HasKey | LibraryCall::Get | LibraryCall::RemoveKey => Some(Kind::Text),
        LibraryCall::Substring | LibraryCall::RemoveItem => Some(Kind::Integer),
        LibraryCall::Slice => Some(Kind::Integer),
        LibraryCall::Println | LibraryCall::Print | LibraryCall::Readln => None,
        LibraryCall::Abs | LibraryCall::ToString => None,
        LibraryCall::Clone | LibraryCall::CloneReadOnly => None,
        LibraryCall::StringLength | LibraryCall::Trim => None,
        LibraryCall::ToUpperAscii | LibraryCall::ToLowerAscii => None,
        LibraryCall::ToCodePointInts => None,
        LibraryCall::ListLength | LibraryCall::Push | LibraryCall::Pop => None,
        LibraryCall::Reverse | LibraryCall::MappingLength | LibraryCall::Keys => None,
        LibraryCall::Message | LibraryCall::Cause | LibraryCall::Detail => None,
    }
}

/// What the argument with this number has to be, the receiver not counted: `None` where it may be any value.
pub fn argument(call: LibraryCall, number: usize) -> Option<Kind>
    ensures { result ≡ argument_of (row_of call) number }
{
    if number < least(call) + spare(call) {
        argument_kind(call)
    } else {
        None
    }
}
