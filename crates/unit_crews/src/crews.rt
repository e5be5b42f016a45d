//! How many workers the functions of named workers have.

ghost use Rattle.std.specs.Prelude.{◌≡◌, IfOk, OnOk, replicate, None};
ghost use Rattle.tree_promises.specs.Placed.{named_workers};
ghost use Rattle.unit_crews.specs.Crews.{crew_count};
ghost use Rattle.unit_crews.specs.Noted.{HasCrews, NotesOne, NotesWorkers, NotesFunctions};

use bal_base::Memory;
use std::alloc::Global;
use typed_tree::{TypedBody, TypedFunction, TypedPackage, TypedWorker};

/// How many workers its function has, for each unit that is a named worker.
#[derive(Drop)]
pub struct Crews {
    pub counts: Vec<Option<usize>>,
}

/// None is known of so many.
fn room(alloc: Global, count: u32) -> Result<Crews, Memory>
    ensures { IfOk result (λ c. c.counts.items ≡ replicate count None) }
{
    let mut counts = Vec::new(alloc);
    for _ in 0..count {
        counts.push(None)?;
    }
    Ok(Crews { counts })
}

/// The named workers of a body.
fn workers_in(body: &TypedBody) -> &[TypedWorker]
    ensures { result.now ≡ named_workers body.now }
{
    match body {
        TypedBody::Block { workers, .. } => workers,
        TypedBody::Expr { .. } => &[],
    }
}

/// How many workers the function with this body has, the default one among them. It answers want of memory where the number is no number
/// of the machine.
pub fn count_of(body: &TypedBody) -> Result<usize, Memory>
    ensures { IfOk result (λ n. n ≡ crew_count body.now) }
{
    let named = workers_in(body).len();
    if named == usize::MAX {
        return Err(Memory);
    }
    Ok(named + 1)
}

impl Crews {
    /// Notes how many there are at a number. It answers want of memory where there is no such number, or something was noted there.
    fn note(&mut self, number: u32, count: usize) -> Result<(), Memory>
        ensures { OnOk result (NotesOne number count self.old.counts.items self.new.counts.items) }
    {
        let n = number as usize;
        if n >= self.counts.len() {
            return Err(Memory);
        }
        match self.counts[n] {
            None => {
                self.counts[n] = Some(count);
                Ok(())
            }
            Some(_) => Err(Memory),
        }
    }

    /// Notes these workers, whose function has so many.
    fn note_workers(&mut self, workers: &[TypedWorker], count: usize) -> Result<(), Memory>
        ensures { OnOk result (NotesWorkers count workers.now self.old.counts.items self.new.counts.items) }
    {
        for w in workers {
            self.note(w.unit.number, count)?;
        }
        Ok(())
    }

    /// Notes the workers of these functions.
    fn note_functions(&mut self, functions: &[TypedFunction]) -> Result<(), Memory>
        ensures { OnOk result (NotesFunctions functions.now self.old.counts.items self.new.counts.items) }
    {
        for f in functions {
            let count = count_of(&f.body)?;
            self.note_workers(workers_in(&f.body), count)?;
        }
        Ok(())
    }
}

/// How many workers the function of each named worker has, by the numbers of units, in time that grows with these and with the package's
/// functions. It answers want of memory also where a worker has not the number of a unit, or has that of another worker.
pub fn find_crews(alloc: Global, package: &TypedPackage) -> Result<Crews, Memory>
    ensures { IfOk result (λ c. HasCrews «package».now c.counts.items) }
{
    let mut made = room(alloc, package.units)?;
    made.note_functions(&package.functions)?;
    Ok(made)
}
