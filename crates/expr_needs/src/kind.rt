//! The kinds of values that rows of the language name.
ghost use Rattle.std.specs.Prelude.{◌≡◌};
ghost use Rattle.expr_needs.specs.Operators.{expectation as expected_of};

use crate::expected::Expected;

/// What a row asks of an operand, or what a construct gives: a set of shapes, as `specs/Kinds.antt` of `check_words` says.
#[derive(Clone, Copy)]
pub enum Kind {
    /// `int`
    Integer,
    /// `string`
    Text,
    /// `int|string`
    IntOrText,
    /// `boolean`
    Truth,
    /// `()`
    Nothing,
    /// `anydata`
    Anydata,
    /// `anydata|readonly`: what may be sent to another worker.
    Sendable,
    /// `(any|error)[]`
    AnyList,
    /// `map<any|error>`
    AnyMapping,
    /// `map<any|error>?`
    MappingOrNil,
    /// `function`
    AnyFunction,
    /// `error`
    AnyError,
    /// `error?`
    ErrorOrNil,
    /// All futures.
    AnyFuture,
}

/// What is expected of an operand that has to be of the kind.
pub fn expectation(kind: Kind) -> Expected
    ensures { result ≡ expected_of kind }
{
    match kind {
        Kind::Integer | Kind::Text | Kind::IntOrText | Kind::Truth | Kind::Nothing => {
            Expected::Immutable
        }
        Kind::AnyFunction | Kind::AnyError | Kind::ErrorOrNil => Expected::Immutable,
        Kind::Anydata | Kind::Sendable | Kind::AnyList => Expected::Nothing,
        Kind::AnyMapping | Kind::MappingOrNil | Kind::AnyFuture => Expected::Nothing,
    }
}
