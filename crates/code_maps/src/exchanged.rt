//! Numbers of messages.
#![tactic(auto, using(crate::proofs::Counting::counting))]

ghost use Rattle.std.specs.Prelude.{◌≡◌, IfOk, None, OnOk, Some, option_map, replicate};
ghost use Rattle.stack_code.specs.Flow.{no_messages, one_more, received_one, sent_one, tally_behind};
ghost use Rattle.held_operations.specs.Operation.{operation_of};
ghost use Rattle.lower_expr.specs.Drafts.{step_of};
ghost use Rattle.lower_stmt.specs.Bodies.{body_of};
ghost use Rattle.map_model.specs.Whole.{begins_with, tally_after};
ghost use Rattle.code_maps.specs.Counted.{tally_in};

use bal_base::Memory;
use held_operations::Op;
use lower_expr::Step;
use lower_stmt::Body;
use std::alloc::Global;

/// How many messages were sent to each worker and received from each so far, where that is counted.
#[derive(Drop)]
pub struct Exchanged {
    pub counted: bool,
    pub sent: Vec<u32>,
    pub received: Vec<u32>,
}

/// So many zeros.
fn zeros(alloc: Global, count: usize) -> Result<Vec<u32>, Memory>
    ensures { IfOk result (λ ns. ns.items ≡ replicate count 0) }
{
    let mut numbers = Vec::new(alloc);
    for _ in 0..count {
        numbers.push(0)?;
    }
    Ok(numbers)
}

/// Nothing is counted.
pub fn uncounted(alloc: Global) -> Exchanged
    ensures { tally_in result ≡ None }
{
    Exchanged {
        counted: false,
        sent: Vec::new(alloc),
        received: Vec::new(alloc),
    }
}

/// There were no messages yet, in a function of so many workers.
fn none_yet(alloc: Global, workers: usize) -> Result<Exchanged, Memory>
    ensures { IfOk result (λ x. tally_in x ≡ Some (no_messages workers)) }
{
    let sent = zeros(alloc, workers)?;
    let received = zeros(alloc, workers)?;
    Ok(Exchanged {
        counted: true,
        sent,
        received,
    })
}

/// What is counted where a unit begins.
pub fn begins(alloc: Global, workers: usize, body: Body<'_>) -> Result<Exchanged, Memory>
    ensures { IfOk result (λ x. tally_in x ≡ begins_with workers (body_of body.entry)) }
{
    match body {
        Body::Worker(_) => none_yet(alloc, workers),
        Body::Function(_) | Body::Anonymous(_) => Ok(uncounted(alloc)),
        Body::Initialiser(_) => Ok(uncounted(alloc)),
    }
}

/// The number of this worker is one more, where it has a number.
fn count(numbers: &mut Vec<u32>, worker: u32) -> Result<(), Memory>
    ensures { OnOk result (numbers.new.items ≡ one_more numbers.old.items worker) }
{
    let w = worker as usize;
    if w >= numbers.len() {
        return Ok(());
    }
    let so_far = numbers[w];
    if so_far == u32::MAX {
        return Err(Memory);
    }
    numbers[w] = so_far + 1;
    Ok(())
}

impl Exchanged {
    /// A message to the worker.
    fn send(&mut self, worker: u32) -> Result<(), Memory>
        ensures { OnOk result (tally_in self.new ≡ option_map (sent_one worker) (tally_in self.old)) }
    {
        if !self.counted {
            return Ok(());
        }
        count(&mut self.sent, worker)?;
        Ok(())
    }

    /// A message from the worker.
    fn receive(&mut self, worker: u32) -> Result<(), Memory>
        ensures { OnOk result (tally_in self.new ≡ option_map (received_one worker) (tally_in self.old)) }
    {
        if !self.counted {
            return Ok(());
        }
        count(&mut self.received, worker)?;
        Ok(())
    }

    /// The named workers are started.
    fn start(&mut self, alloc: Global, workers: usize) -> Result<(), Memory>
        ensures { OnOk result (tally_in self.new ≡ Some (no_messages workers)) }
    {
        *self = none_yet(alloc, workers)?;
        Ok(())
    }

    /// Behind an operation, in a function of so many workers.
    fn done(&mut self, alloc: Global, workers: usize, op: Op<'_>) -> Result<(), Memory>
        ensures { OnOk result (tally_in self.new ≡ tally_behind workers (operation_of op.entry) (tally_in self.old)) }
    {
        match op {
            Op::Workers => self.start(alloc, workers),
            Op::Send(w) | Op::Post(w) => self.send(w),
            Op::Receive(w) => self.receive(w),
            Op::Const(_) | Op::Nil | Op::Truth(_) | Op::Int(_) | Op::Load(_) | Op::Store(_) => Ok(
                (),
            ),
            Op::Pop | Op::LoadModule(_) | Op::StoreModule(_) | Op::Tick | Op::Add => Ok(()),
            Op::Subtract | Op::Multiply | Op::Divide | Op::Remainder | Op::Negate => Ok(()),
            Op::Concat | Op::Less | Op::LessEqual | Op::Not | Op::Equal | Op::Same => Ok(()),
            Op::MakeList { .. } | Op::MakeMapping { .. } | Op::MakeError { .. } => Ok(()),
            Op::MakeFunction { .. } | Op::GetItem | Op::GetKey | Op::GetChar => Ok(()),
            Op::GetField(_) | Op::GetOptional(_) | Op::SetItem | Op::SetKey => Ok(()),
            Op::Test(_) | Op::Cast(_) | Op::Call { .. } | Op::CallValue { .. } => Ok(()),
            Op::Library { .. } | Op::Return | Op::Panic | Op::Start { .. } => Ok(()),
            Op::StartValue { .. } | Op::Done(_) | Op::Flush(_) | Op::WaitWorker(_) => Ok(()),
            Op::WaitFuture | Op::WaitAny(_) | Op::WaitAll { .. } => Ok(()),
        }
    }

    /// Behind a command.
    pub fn after(&mut self, alloc: Global, workers: usize, step: Step<'_>) -> Result<(), Memory>
        ensures { OnOk result (tally_in self.new ≡ tally_after workers (step_of step.entry) (tally_in self.old)) }
    {
        match step {
            Step::Do(op) => self.done(alloc, workers, op),
            Step::Cast(_) | Step::GoTo(_) | Step::GoToIfNot(_) => Ok(()),
            Step::OpenTrap(_) | Step::CloseTrap => Ok(()),
        }
    }
}
