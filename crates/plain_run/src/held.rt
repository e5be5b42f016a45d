//! What a run holds.

use crate::entries::Entries;
use crate::functions::Functions;
use crate::strand_list::Strands;
use crate::structures::Structures;
use bal_base::Text;
use value_model::Value;

/// The members of a list or of a mapping.
#[derive(Drop)]
pub enum Members {
    /// The items of a list.
    Items(Vec<Value>),
    /// The entries of a mapping, in the order in which their keys came.
    Entries(Entries),
}

/// A list or a mapping.
#[derive(Drop)]
pub struct Structure {
    /// Its inherent atom, which the detail of an error doesn't have.
    pub atom: Option<u32>,
    pub mutable: bool,
    pub members: Members,
    /// The most items or keys that it has had so far.
    pub greatest: u64,
}

/// An error.
#[derive(Drop)]
pub struct ErrorObject {
    pub message: Text,
    /// The error that caused it.
    pub cause: Option<u32>,
    /// The mapping that is its detail.
    pub detail: u32,
}

/// A function value.
#[derive(Drop)]
pub struct FunctionObject {
    pub unit: u32,
    pub captured: Vec<Value>,
}

/// Structures, errors and function values, each of the three by their own numbers.
#[derive(Drop)]
pub struct Heap {
    pub structures: Structures,
    pub errors: Vec<ErrorObject>,
    pub functions: Functions,
}

/// What operations on values see and change.
#[derive(Drop)]
pub struct World {
    pub heap: Heap,
    /// The bytes that are still to be read.
    pub input: Vec<u8>,
    /// The bytes that were written.
    pub output: Vec<u8>,
}

/// A worker of an activation.
#[derive(Clone, Copy)]
pub struct Role {
    pub activation: u64,
    pub worker: u64,
}

/// How a strand or a worker ended.
#[derive(Drop)]
pub enum End {
    Returned(Value),
    Panicked(Value),
}

/// What a blocked strand needs.
#[derive(Drop)]
pub enum Need {
    /// A message from a worker to a worker, or the end of the first.
    Message {
        activation: u64,
        from: u64,
        to: u64,
    },
    /// That so many messages were received from a worker by a worker, or the end of the second.
    Received {
        activation: u64,
        from: u64,
        to: u64,
        count: u64,
    },
    /// That all these strands have ended.
    AllEnded(Vec<u64>),
    /// That an alternate wait on these strands can be done.
    AnyGiven(Vec<u64>),
}

/// How a strand stands.
#[derive(Drop)]
pub enum Status {
    /// It runs, or is ready to run.
    Active,
    Blocked(Need),
    /// It has ended so, after so many others.
    Ended(u64, End),
}

/// A strand.
#[derive(Drop)]
pub struct Strand {
    /// The unit that it was made for.
    pub unit: u32,
    /// The named worker that it was made for.
    pub role: Option<Role>,
    pub status: Status,
    /// Its result was taken by a wait.
    pub taken: bool,
}

/// What was sent from a worker to a worker.
#[derive(Drop)]
pub struct Channel {
    pub sent: u64,
    pub received: u64,
    pub queue: Vec<Value>,
}

/// A call of a function with named workers.
#[derive(Drop)]
pub struct Activation {
    /// The function's unit.
    pub unit: u32,
    pub strands: Vec<u64>,
    pub ends: Vec<Option<End>>,
    /// By the sender and then by the receiver.
    pub channels: Vec<Vec<Channel>>,
}

/// A unit that is still to be run, with its arguments.
#[derive(Drop)]
pub struct ToRun {
    pub unit: u32,
    pub args: Vec<Value>,
}

/// What all frames of a run share.
#[derive(Drop)]
pub struct Common {
    pub world: World,
    pub strands: Strands,
    pub activations: Vec<Activation>,
    /// The module variables; one that was not initialised yet has no value.
    pub variables: Vec<Option<Value>>,
    /// The strands that can be picked, in the order in which they became ready.
    pub ready: Vec<u64>,
    pub running: u64,
    /// The units that strand 0 still has to run.
    pub to_run: Vec<ToRun>,
    pub ticks: u64,
    pub picks: u64,
}

/// What an operation knows of the frame that asks.
#[derive(Clone, Copy)]
pub struct Caller {
    pub unit: u32,
    pub role: Option<Role>,
    pub depth: u64,
}
