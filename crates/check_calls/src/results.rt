//! What calls of the library give.
ghost use Rattle.std.specs.Prelude.{◌≡◌};
ghost use Rattle.check_calls.specs.Results.{result_of as result_in, is_push as is_push_of};

use expr_needs::Kind;
use operations::LibraryCall;

/// What a call of the library gives.
#[derive(Clone, Copy)]
pub enum LibraryResult {
    /// A value of the kind.
    Of(Kind),
    /// An int or an error.
    IntOrError,
    /// The detail of an error.
    Details,
    /// What its receiver is.
    Receiver,
    /// What its receiver is, made immutable.
    Frozen,
    /// An item of its receiver, which is a list.
    Item,
    /// A member of its receiver, which is a mapping.
    Field,
    /// A new list of values of the kind.
    ListOf(Kind),
    /// A new list of items of its receiver.
    ListOfItems,
}

/// What the call gives (Ballerina library, `ballerina/io` and the lang libraries).
pub fn result_of(call: LibraryCall) -> LibraryResult
    ensures { result ≡ result_in call }
{
    match call {
        LibraryCall::Println | LibraryCall::Print | LibraryCall::Push => {
            LibraryResult::Of(Kind::Nothing)
        }
        LibraryCall::Readln | LibraryCall::ToString | LibraryCall::Trim => {
            LibraryResult::Of(Kind::Text)
        }
        LibraryCall::Substring | LibraryCall::ToUpperAscii => LibraryResult::Of(Kind::Text),
        LibraryCall::ToLowerAscii | LibraryCall::Message => LibraryResult::Of(Kind::Text),
        LibraryCall::Abs | LibraryCall::StringLength => LibraryResult::Of(Kind::Integer),
        LibraryCall::ListLength | LibraryCall::MappingLength => { LibraryResult::Of(Kind::Integer) }
        LibraryCall::StartsWith | LibraryCall::HasKey => LibraryResult::Of(Kind::Truth),
        LibraryCall::Cause => LibraryResult::Of(Kind::ErrorOrNil),
        LibraryCall::FromString => LibraryResult::IntOrError,
        LibraryCall::Detail => LibraryResult::Details,
        LibraryCall::Clone => LibraryResult::Receiver,
        LibraryCall::CloneReadOnly => LibraryResult::Frozen,
        LibraryCall::Pop | LibraryCall::RemoveItem => LibraryResult::Item,
        LibraryCall::Get | LibraryCall::RemoveKey => LibraryResult::Field,
        LibraryCall::ToCodePointInts => LibraryResult::ListOf(Kind::Integer),
        LibraryCall::Keys => LibraryResult::ListOf(Kind::Text),
        LibraryCall::Slice | LibraryCall::Reverse => LibraryResult::ListOfItems,
    }
}

/// Whether the arguments of the call are stored into its receiver.
pub fn is_push(call: LibraryCall) -> bool
    ensures { result ≡ is_push_of call }
{
    matches!(call, LibraryCall::Push)
}
