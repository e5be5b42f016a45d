//! The panics that the language names.
ghost use Rattle.std.specs.Prelude.{◌≡◌};
ghost use Rattle.value_model.specs.PanicName.{panic_message};

/// A panic whose message begins with `{ballerina}`.
#[derive(Clone, Copy)]
pub enum PanicName {
    /// An int that is too large or too small.
    NumberOverflow,
    /// A division by zero, or a remainder of one.
    DivisionByZero,
    /// A place outside a list or a string.
    IndexOutOfRange,
    /// A member or a length that the inherent type does not allow, or a store into an immutable structure.
    InherentTypeViolation,
    /// A gap in a list that nothing can fill.
    NoFillerValue,
    /// A cast to a type to which the value does not belong.
    TypeCastError,
    /// A module variable that is read before its turn.
    NotInitialised,
    /// Too many calls inside one another.
    StackOverflow,
    /// A list, a string or a line of input that is too long.
    TooLong,
    /// A structure that contains itself and is to be made immutable.
    CyclicValue,
    /// A key that a mapping does not have.
    KeyNotFound,
    /// A line of input that is not UTF-8.
    BadInput,
}

impl PanicName {
    /// The message of the panic's error, which is ASCII. Takes no memory.
    pub fn message(self) -> &'static str
        ensures { result.now ≡ panic_message self }
    {
        match self {
            PanicName::NumberOverflow => "{ballerina}NumberOverflow",
            PanicName::DivisionByZero => "{ballerina}DivisionByZero",
            PanicName::IndexOutOfRange => "{ballerina}IndexOutOfRange",
            PanicName::InherentTypeViolation => "{ballerina}InherentTypeViolation",
            PanicName::NoFillerValue => "{ballerina}NoFillerValue",
            PanicName::TypeCastError => "{ballerina}TypeCastError",
            PanicName::NotInitialised => "{ballerina}NotInitialised",
            PanicName::StackOverflow => "{ballerina}StackOverflow",
            PanicName::TooLong => "{ballerina}TooLong",
            PanicName::CyclicValue => "{ballerina}CyclicValue",
            PanicName::KeyNotFound => "{ballerina}KeyNotFound",
            PanicName::BadInput => "{ballerina}BadInput",
        }
    }
}
