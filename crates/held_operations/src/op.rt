//! Operations, with references to what a tree holds.

use bal_base::Text;
use operations::{Awaited, Constant, LibraryCall};
use typed_tree::SharedTy;

/// The type that a test asks for, or to which a variable is narrowed.
#[derive(Clone, Copy)]
pub enum TestedType<'a> {
    /// A type of the tree.
    Tree(&'a SharedTy),
    /// Nil alone.
    Nil,
    /// All errors.
    Error,
    /// The constant alone.
    Single(&'a Constant),
}

/// An operation. Slots and counts that a construct reckons are 64 bits wide, so that none is too large.
#[derive(Clone, Copy)]
pub enum Op<'a> {
    Const(&'a Constant),
    Nil,
    Truth(bool),
    Int(i64),
    Load(u64),
    Store(u64),
    Pop,
    LoadModule(u32),
    StoreModule(u32),
    Tick,
    Add,
    Subtract,
    Multiply,
    Divide,
    Remainder,
    Negate,
    Concat,
    Less,
    LessEqual,
    Not,
    Equal,
    Same,
    MakeList {
        atom: u32,
        immutable: bool,
        count: u64,
    },
    MakeMapping {
        atom: u32,
        immutable: bool,
        count: u64,
    },
    MakeError {
        count: u64,
    },
    MakeFunction {
        unit: u32,
        count: u64,
    },
    GetItem,
    GetKey,
    GetChar,
    GetField(&'a Text),
    GetOptional(&'a Text),
    SetItem,
    SetKey,
    Test(TestedType<'a>),
    Cast(&'a SharedTy),
    Call {
        unit: u32,
        count: u64,
    },
    CallValue {
        count: u64,
    },
    Library {
        call: LibraryCall,
        atom: Option<u32>,
        count: u64,
    },
    Return,
    Panic,
    Start {
        unit: u32,
        count: u64,
    },
    StartValue {
        count: u64,
    },
    Workers,
    Send(u32),
    Post(u32),
    Done(u32),
    Receive(u32),
    Flush(u32),
    WaitWorker(u32),
    WaitFuture,
    WaitAny(&'a Awaited),
    WaitAll {
        atom: u32,
        awaited: &'a Awaited,
    },
}
