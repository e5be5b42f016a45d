//! What names behind prefixes of the library stand for.
ghost use Rattle.std.specs.Prelude.{◌≡◌, find};
ghost use Rattle.std.specs.Option.{option_map};
ghost use Rattle.check_words.specs.Library.{functions_of_int, functions_of_io, is_named as is_row_named, row_of};
ghost use Rattle.check_words.specs.Seen.{constant_of_int as int_constant};

use crate::names::{is_named, is_word};
use bal_base::Name;
use operations::{Constant, LibraryCall};

/// The methods, in the order in which they are looked for.
pub const METHODS: [LibraryCall; 25] = [
    LibraryCall::Abs,
    LibraryCall::ToString,
    LibraryCall::Clone,
    LibraryCall::CloneReadOnly,
    LibraryCall::StringLength,
    LibraryCall::StartsWith,
    LibraryCall::Trim,
    LibraryCall::Substring,
    LibraryCall::ToUpperAscii,
    LibraryCall::ToLowerAscii,
    LibraryCall::ToCodePointInts,
    LibraryCall::ListLength,
    LibraryCall::Push,
    LibraryCall::Pop,
    LibraryCall::RemoveItem,
    LibraryCall::Slice,
    LibraryCall::Reverse,
    LibraryCall::MappingLength,
    LibraryCall::Keys,
    LibraryCall::HasKey,
    LibraryCall::Get,
    LibraryCall::RemoveKey,
    LibraryCall::Message,
    LibraryCall::Cause,
    LibraryCall::Detail,
];

/// The first of these calls that has the name.
fn among(calls: &[LibraryCall], name: &Name) -> Option<LibraryCall>
    ensures { result ≡ find (λ call. is_row_named name.now (row_of call)) calls.now }
{
    calls.iter().copied().find(|call| is_named(*call, name))
}

/// The function of `io` that has the name (Ballerina library, `ballerina/io`).
pub fn function_of_io(name: &Name) -> Option<LibraryCall>
    ensures { option_map row_of result ≡ find (is_row_named name.now) functions_of_io }
{
    among(
        &[
            LibraryCall::Println,
            LibraryCall::Print,
            LibraryCall::Readln,
        ],
        name,
    )
}

/// The function of `int` that has the name (Ballerina library, `ballerina/lang.int`).
pub fn function_of_int(name: &Name) -> Option<LibraryCall>
    ensures { option_map row_of result ≡ find (is_row_named name.now) functions_of_int }
{
    among(&[LibraryCall::FromString], name)
}

/// The constant of `int` that has the name: `MAX_VALUE` or `MIN_VALUE`.
pub fn constant_of_int(name: &Name) -> Option<Constant>
    ensures { result ≡ int_constant name.now }
{
    if is_word(name, "MAX_VALUE") {
        return Some(Constant::Int(i64::MAX));
    }
    if is_word(name, "MIN_VALUE") {
        return Some(Constant::Int(i64::MIN));
    }
    None
}
