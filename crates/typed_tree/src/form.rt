//! The constructs that evaluate all their operands, from left to right, before they do anything.

use crate::unit::SharedTy;
use bal_base::Text;
use operations::{Awaited, Constant, LibraryCall};

/// A construct that evaluates its operands from left to right, and then does something with their values. What
/// it does is a list of operations.
#[derive(Drop)]
pub enum StrictForm {
    /// A literal ("Literal").
    Literal(Constant),
    /// The name of a constant, or `int:MAX_VALUE` and the like ("Variable reference expression").
    Constant(Constant),
    /// The name of a module variable, by its number.
    Variable(u32),
    /// The name of a function as a value.
    FunctionName {
        unit: u32,
    },
    /// An operator on one or two operands.
    Operator(Operator),
    /// `e is T` ("Type test expression")
    Is(SharedTy),
    /// `<T>e` ("Type cast expression")
    Cast(SharedTy),
    /// `[a, b]` ("List constructor")
    List {
        atom: u32,
        immutable: bool,
    },
    /// `{a: x, [c]: z}`: each key, and the value behind it ("Mapping constructor").
    Mapping {
        atom: u32,
        immutable: bool,
    },
    /// `error(m, c, a = x)`: the message, the cause or nil, and each name and the value behind it ("Error
    /// constructor").
    Error,
    /// `a[i]`, `a.f` or `a?.f`: the container, and behind it the index or key of the first two.
    Read(Read),
    /// A call of a function by name or by value ("Function call expression").
    Call(Callee),
    /// A call of the library, the receiver of a method first ("Method call expression"). `cast` is the type to
    /// which the result of `cloneReadOnly` is cast.
    Library {
        call: LibraryCall,
        atom: Option<u32>,
        cast: Option<SharedTy>,
    },
    /// `start f(a)` ("Start action")
    Start(Callee),
    /// `e -> W` ("Async send action")
    Send(Peer),
    /// `e ->> W` ("Sync send action")
    SyncSend(Peer),
    /// `<- W` ("Single receive action"). What it wants is its type.
    Receive(Peer),
    /// `flush W` ("Flush action")
    Flush(Peer),
    /// `wait f`, or `wait f|g`: the futures of those names that are no workers ("Single wait action",
    /// "Alternate wait action").
    WaitAny(Awaited),
    /// `wait {a: f, b: g}`, whose result has this atom ("Multiple wait action").
    WaitAll {
        atom: u32,
        awaited: Awaited,
    },
}

/// The worker that an action names: its number in the function, or none where it names no other worker of the
/// function, which is refused when messages are paired.
pub type Peer = Option<u32>;

/// An operator on one or two operands, as its operands' types resolve it.
#[derive(Clone, Copy)]
pub enum Operator {
    /// `-a`
    Negate,
    /// `!a`
    Not,
    /// `a * b`
    Multiply,
    /// `a / b`
    Divide,
    /// `a % b`
    Remainder,
    /// `a + b` of ints
    Add,
    /// `a + b` of strings
    Concat,
    /// `a - b`
    Subtract,
    /// `a < b`
    Less,
    /// `a <= b`
    LessEqual,
    /// `a > b`
    Greater,
    /// `a >= b`
    GreaterEqual,
    /// `a == b`
    Equal,
    /// `a != b`
    NotEqual,
    /// `a === b`
    Same,
    /// `a !== b`
    NotSame,
}

/// How a member is read.
#[derive(Drop)]
pub enum Read {
    /// `a[i]` of a list ("Member access expression")
    Item,
    /// `a[k]` of a mapping
    Key,
    /// `a[i]` of a string
    Char,
    /// `a.f` ("Field access expression")
    Field(Text),
    /// `a?.f` ("Optional field access expression")
    OptionalField(Text),
}

/// What is called or started.
#[derive(Clone, Copy)]
pub enum Callee {
    /// A function by name: its unit, how many arguments are its parameters, and the atom of the list of those behind
    /// them, where it takes a rest.
    Unit {
        unit: u32,
        fixed: u32,
        rest: Option<u32>,
    },
    /// A function value, which is the first operand.
    Value,
}
