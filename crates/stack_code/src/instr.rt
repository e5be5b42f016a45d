//! Instructions.

use operations::Awaited;

/// An instruction. Operands are taken from the stack, the last one first, and a result is pushed. What an instruction
/// does besides going to a place is an operation, which `command_of` in `specs/Commands.antt` names. A place is the number
/// of an instruction of the code.
#[derive(Drop)]
pub enum Instr {
    /// Pushes the constant with this number.
    Const(u32),
    /// Drops an operand.
    Pop,
    /// Pushes what is in the slot. Panics where it wasn't stored.
    Load(u32),
    /// Stores an operand into the slot.
    Store(u32),
    /// Pushes what is in the module variable. Panics before its turn.
    LoadModule(u32),
    /// Stores an operand into the module variable.
    StoreModule(u32),
    /// Spends a tick.
    Tick,
    /// Goes on at the place.
    Jump(u32),
    /// Goes on at the place where the operand, a boolean, is false.
    JumpIfNot(u32),
    /// Adds two ints.
    Add,
    /// Subtracts an int.
    Sub,
    /// Multiplies two ints.
    Mul,
    /// Divides by an int.
    Div,
    /// The remainder of a division by an int.
    Rem,
    /// Negates an int.
    Neg,
    /// Joins two strings.
    Concat,
    /// Whether an int or string is before another one.
    Less,
    /// Whether an int or string is before another one or equal to it.
    LessEqual,
    /// Negates a boolean.
    Not,
    /// Deep equality.
    Equal,
    /// Identity.
    Same,
    /// Makes a list with this inherent atom of so many items.
    MakeList {
        atom: u32,
        count: u32,
        immutable: bool,
    },
    /// Makes a mapping with this inherent atom of so many pairs of a key and a value.
    MakeMap {
        atom: u32,
        count: u32,
        immutable: bool,
    },
    /// Makes an error of a message, a cause or nil, and so many pairs of a key and a value.
    MakeError {
        count: u32,
    },
    /// Makes a function value of the unit and so many captured values.
    MakeFunction {
        unit: u32,
        count: u32,
    },
    /// Reads an item of a list.
    GetItem,
    /// Reads a member of a mapping, nil where there is none.
    GetKey,
    /// Reads a character of a string.
    GetChar,
    /// Reads the field whose name is the constant with this number.
    GetField(u32),
    /// Reads the field whose name is the constant with this number, nil where it or the mapping isn't there.
    GetOptional(u32),
    /// Stores an item into a list.
    SetItem,
    /// Stores a member into a mapping.
    SetKey,
    /// Whether the operand belongs to the tested type with this number.
    Test(u32),
    /// The operand. Panics where it doesn't belong to the tested type with this number.
    Cast(u32),
    /// Calls the unit, with an operand for each of its parameters.
    Call(u32),
    /// Calls a function value, which stands below so many arguments.
    CallValue(u32),
    /// Calls the operation of the library with the number `op`, with so many arguments. `atom` is that of a list that it
    /// makes, and 0 where it makes none.
    Native {
        op: u16,
        atom: u32,
        count: u32,
    },
    /// Ends the unit with an operand as its result.
    Return,
    /// Begins a trap: a panic up to its `Untrap` goes on at the place, with the error pushed.
    Trap(u32),
    /// Ends the innermost trap.
    Untrap,
    /// Panics with an operand, an error.
    Panic,
    /// Starts a strand that calls the unit, with an operand for each of its parameters, and pushes its future.
    StartCall(u32),
    /// Starts a strand that calls a function value, which stands below so many arguments, and pushes its future.
    StartValue(u32),
    /// Starts the named workers of the unit.
    Workers,
    /// Sends a copy of an operand to the worker, and pushes nil.
    Send(u32),
    /// Sends a copy of an operand to the worker, as the first half of a synchronous send.
    Post(u32),
    /// Waits until the worker has received what was posted to it, and pushes nil.
    Done(u32),
    /// Pushes the next message from the worker.
    Receive(u32),
    /// Waits until the worker has received what was sent to it, and pushes nil.
    Flush(u32),
    /// Waits for the worker's end, and pushes its result.
    WaitWorker(u32),
    /// Waits for the end of a future, an operand, and pushes its result.
    WaitFuture,
    /// Waits for one of these, and pushes its result.
    WaitAny(Awaited),
    /// Waits for all of these, and pushes a mapping with this atom of their results.
    WaitAll {
        atom: u32,
        awaited: Awaited,
    },
}
