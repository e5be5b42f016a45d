//! Operations that are no instructions, as those of the library.
ghost use Rattle.std.specs.Prelude.{IfOk};
ghost use Rattle.bal_base.specs.Stops.{IfFault};
ghost use Rattle.bal_io.specs.Faults.{Rises};
ghost use Rattle.value_model.specs.Meaning.{IsTaken, IsServed, BelongsToResult, ComesTo, IsWorldOf, Keeps, HasCause, WritesFront, answered, value_in};
ghost use Rattle.value_model.specs.Table.{own_types};
ghost use Rattle.value_model.specs.World.{PassesCells};

use crate::tests::Tests;
use crate::value::Value;
use bal_base::Stop;
use bal_io::{Sink, Source};
use std::alloc::Global;

/// What an operation answers.
#[derive(Drop)]
pub enum Native {
    /// It gives this value.
    Value(Value),
    /// It panics with this error.
    Panic(Value),
}

/// Why an operation could not be done.
#[derive(Clone, Copy)]
pub enum NativeFault {
    /// The input failed.
    Input,
    /// The output failed.
    Output,
    /// The heap would have too many cells.
    Cells,
}

/// Operations over a heap, an input and an output. They have one meaning: a table of operations with their types,
/// `takes`, and a relation `answers` between the arguments and what there was before a call, and its answer and what
/// there is then. `heap` is what the store keeps.
pub trait Natives<S, I: Source, O: Sink> {
    ghost use Rattle.value_model.specs.Heap.{Heap};
    ghost use Rattle.value_model.specs.Meaning.{Takes, Answers};

    /// The heap that a store keeps.
    ghost heap: { S → Heap };

    /// The table of the operations.
    ghost takes: { Takes };

    /// What the operations come to.
    ghost answers: { Answers };

    /// Calls the operation with the number `op`. It needs arguments of types that the operation takes, and where it
    /// makes a list the list's atom, else 0; and a table of tests that serves the store and the arguments. The answer is
    /// one that the operation comes to. `Input` and `Output` come only where that object's count of faults rose, and
    /// `Cells` only where the operation comes to that. After a fault a first part of what it writes was written.
    fn call(
        &self,
        alloc: Global,
        tests: &Tests,
        store: &mut S,
        input: &mut I,
        out: &mut O,
        op: u16,
        atom: u32,
        args: &[Value],
    ) -> Result<Native, Stop<NativeFault>>
        requires taken { IsTaken takes tests.now (heap store.old) op atom args.now }
        requires served { IsServed tests.now (heap store.old) atom args.now }
        ensures answer { IfOk result (λ answer. ComesTo answers (own_types tests.now) op atom args.now
            (IsWorldOf (heap store.old) (I.rest input.old) (O.written out.old))
            (IsWorldOf (heap store.new) (I.rest input.new) (O.written out.new)) (answered answer)) }
        ensures belongs { IfOk result (BelongsToResult takes tests.now (heap store.old) op atom args.now (heap store.new)) }
        ensures keeps { IfOk result (λ answer. Keeps tests.now (heap store.old) (heap store.new) args.now (value_in answer)) }
        ensures cause { IfFault result (HasCause (Rises (I.faults input.old) (I.faults input.new))
            (Rises (O.faults out.old) (O.faults out.new))
            (ComesTo answers (own_types tests.now) op atom args.now
            (IsWorldOf (heap store.old) (I.rest input.old) (O.written out.old)) (λ _. Unit {0}) (λ _. PassesCells))) }
        ensures front { IfFault result (λ _. WritesFront answers (own_types tests.now) op atom args.now (heap store.old) (I.rest input.old) (O.written out.old) (O.written out.new)) };
}
