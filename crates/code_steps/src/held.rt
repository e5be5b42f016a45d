//! How a run stands.

use code_frames::{Frame, Held};
use plain_run::{Common, Role};

/// A call that isn't over: of which unit, and which worker of which activation it is, if it is one.
#[derive(Drop)]
pub struct Call {
    pub unit: u32,
    pub role: Option<Role>,
    pub frame: Frame,
}

/// How a run stands.
#[derive(Drop)]
pub struct State {
    pub common: Common,
    /// The calls of the running strand, the last one last.
    pub calls: Vec<Call>,
    /// Those of the strands that don't run, by number.
    pub others: Vec<Vec<Call>>,
    /// The room of calls that are over, for others to begin in.
    pub spare: Vec<Held>,
}

/// A call, taken off those of the running strand with this number, that asked for an operation on the last values that wait in it, so
/// many of them.
#[derive(Drop)]
pub struct Asking {
    pub call: Call,
    pub count: usize,
    pub running: u64,
}
