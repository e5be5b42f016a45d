//! The kinds of shapes that typing rows name.

/// A set of shapes, as `IsOfKind` in `specs/Needs.antt` says.
#[derive(Clone, Copy)]
pub enum Kind {
    /// `()`
    Nils,
    /// `boolean`
    Booleans,
    /// `int`
    Integers,
    /// `string`
    Strings,
    /// All lists.
    Lists,
    /// All mappings.
    Mappings,
    /// All errors.
    Errors,
    /// All functions.
    Functions,
    /// All futures.
    Futures,
    /// `anydata`
    Anydata,
    /// `anydata|readonly`: what may be sent to another worker.
    Sendable,
    /// `anydata & readonly`: what may stand in an immutable structure.
    ImmutableData,
    /// The details of all errors.
    Details,
    /// `error?`
    NilsOrErrors,
    /// All mappings, and nil.
    MappingsOrNils,
    /// `int|error`
    IntegersOrErrors,
}
