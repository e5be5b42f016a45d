//! The operations of evaluation and of code.

use crate::library::LibraryCall;
use bal_base::{Row, Text};
use type_model::SemType;

/// A value that stands in a program.
#[derive(Drop)]
pub enum Constant {
    /// `()`
    Nil,
    /// `true` and `false`
    Bool(bool),
    /// An int.
    Int(i64),
    /// A string.
    Str(Text),
}

/// What an alternate or a multiple wait names, in order: the number of a worker of the function, or a
/// future that is an operand.
pub type Awaited = Row<Option<u32>>;

/// What is done with operands, the last one first; a result takes their place. All that it names is resolved:
/// slots, module variables, units, atoms and workers are numbers, and worker 0 is the default worker. Which
/// operands it takes and what it gives is said by `OpTyped` in `specs/Typing.antt`.
#[derive(Drop)]
pub enum Operation {
    /// Gives a constant.
    Const(Constant),
    /// Gives what is in a slot ("Variable reference expression").
    Load(u32),
    /// Puts a value into a slot ("Assignment statement").
    Store(u32),
    /// Drops a value.
    Pop,
    /// Gives what is in a module variable. Panics before its initialiser has stored into it.
    LoadModule(u32),
    /// Puts a value into a module variable.
    StoreModule(u32),
    /// Spends a tick.
    Tick,
    /// `a + b` of ints ("Additive expression"). Panics where the sum is no int, and so do the others.
    Add,
    /// `a - b` ("Additive expression")
    Subtract,
    /// `a * b` ("Multiplicative expression")
    Multiply,
    /// `a / b` ("Multiplicative expression"). Panics also where b is 0.
    Divide,
    /// `a % b`, with the sign of a ("Multiplicative expression"). Panics where b is 0.
    Remainder,
    /// `-a` ("Unary expression")
    Negate,
    /// `a + b` of strings ("Additive expression")
    Concat,
    /// `a < b` of ints or of strings, which are compared by code points ("Relational expression")
    Less,
    /// `a <= b`
    LessEqual,
    /// `!a` ("Unary expression")
    Not,
    /// `a == b`, deep equality ("Equality expression")
    Equal,
    /// `a === b`, identity ("Equality expression")
    Same,
    /// Makes a list of so many items, with this inherent atom ("List constructor").
    MakeList {
        atom: u32,
        immutable: bool,
        count: u32,
    },
    /// Makes a mapping of so many pairs of a key and a value, with this inherent atom ("Mapping constructor").
    MakeMapping {
        atom: u32,
        immutable: bool,
        count: u32,
    },
    /// Makes an error of a message, a cause or nil, and so many pairs of a name and a detail ("Error
    /// constructor").
    MakeError {
        count: u32,
    },
    /// Makes a function of a unit and so many captured values ("Anonymous function expression").
    MakeFunction {
        unit: u32,
        count: u32,
    },
    /// `a[i]` of a list ("Member access expression"). Panics where i is out of range.
    GetItem,
    /// `a[k]` of a mapping, nil where it has no such key ("Member access expression")
    GetKey,
    /// `a[i]` of a string ("Member access expression"). Panics where i is out of range.
    GetChar,
    /// `a.f` ("Field access expression")
    GetField(Text),
    /// `a?.f`, nil where a is nil or has no such field ("Optional field access expression")
    GetOptional(Text),
    /// `a[i] = v` of a list ("Assignment statement"). Panics where the inherent type doesn't allow it.
    SetItem,
    /// `a[k] = v` and `a.f = v` of a mapping ("Assignment statement")
    SetKey,
    /// `v is T` ("Type test expression")
    Test(SemType),
    /// `<T>v` ("Type cast expression"). Panics where the value doesn't belong to the type.
    Cast(SemType),
    /// Calls a unit with so many arguments, one for each parameter ("Function call expression").
    Call {
        unit: u32,
        count: u32,
    },
    /// Calls a function value, which stands below so many arguments. Those beyond the parameters go into a list.
    CallValue {
        count: u32,
    },
    /// Calls an operation of the library with so many arguments, the receiver included. A list that it makes has
    /// this atom; `None` where it makes none ("Method call expression").
    Library {
        call: LibraryCall,
        atom: Option<u32>,
        count: u32,
    },
    /// Ends the unit with a value ("Return statement").
    Return,
    /// Panics with an error ("Panic statement").
    Panic,
    /// Starts a strand that calls a unit with so many arguments, and gives its future ("Start action").
    Start {
        unit: u32,
        count: u32,
    },
    /// Starts a strand that calls a function value, which stands below so many arguments.
    StartValue {
        count: u32,
    },
    /// Starts the named workers of the unit ("Named workers").
    Workers,
    /// `v -> W` ("Async send action")
    Send(u32),
    /// The first half of `v ->> W`: the message is sent ("Sync send action").
    Post(u32),
    /// The second half of `v ->> W`: waits until the message was received.
    Done(u32),
    /// `<- W` ("Single receive action")
    Receive(u32),
    /// `flush W` ("Flush action")
    Flush(u32),
    /// `wait W` of a worker ("Single wait action")
    WaitWorker(u32),
    /// `wait f` of a future ("Single wait action")
    WaitFuture,
    /// `wait f | g` ("Alternate wait action"). The futures that it names are operands, in order.
    WaitAny(Awaited),
    /// `wait {a: f, b: g}`, which makes a mapping with this atom, whose fields are in the order of the names
    /// ("Multiple wait action").
    WaitAll {
        atom: u32,
        awaited: Awaited,
    },
}
