//! The choice of a ready strand.
#![tactic(auto, using(crate::proofs::Calling::calling, crate::proofs::Calling::picking))]

ghost use Rattle.std.specs.Prelude.{◌≡◌, ◌+◌, ◌<◌, ◌^◌, [], get_or, length, slice_set};
ghost use Rattle.machine_model.specs.Runs.{taken_up};
ghost use Rattle.plain_run.specs.Held.{common_of};
ghost use Rattle.code_steps.specs.Picks.{IsPicked};
ghost use Rattle.code_steps.specs.States.{calls_of, others_of, state_of};

use crate::held::State;
use crate::stalls::number_at;
use plain_run::Common;
use std::alloc::Global;
use std::mem;

/// What is answered for a pick.
#[derive(Clone, Copy)]
pub enum Picked {
    /// The strand runs.
    Runs,
    /// The ready list has no such place.
    NoPlace,
    /// No number counts the picks any more.
    TooMany,
}

/// The strand with this number, which stands at this place of the ready list, is picked.
fn take_up(common: &mut Common, place: u64, n: u64)
    requires there { place < length common.old.ready.items }
    requires room { common.old.picks + 1 < 2 ^ 64 }
    ensures { common_of common.new ≡ taken_up (common_of common.old) place n }
{
    common.ready.remove(place as usize);
    common.running = n;
    common.picks += 1;
}

/// The calls of the strand with this number are those that run.
fn take_calls(alloc: Global, n: u64, state: &mut State)
    ensures common { common_of state.new.common ≡ common_of state.old.common }
    ensures calls { calls_of state.new.calls.items ≡ get_or (others_of state.old) n [] }
    ensures others { others_of state.new ≡ slice_set (others_of state.old) n [] }
{
    match state.others.get_mut(n as usize) {
        None => state.calls = Vec::new(alloc),
        Some(place) => state.calls = mem::replace(place, Vec::new(alloc)),
    }
}

/// The strand at this place of the ready list runs.
pub fn pick(alloc: Global, place: u64, state: &mut State) -> Picked
    ensures { IsPicked place (state_of state.old) result (state_of state.new) }
{
    if state.common.picks == u64::MAX {
        return Picked::TooMany;
    }
    match number_at(state.common.ready.as_slice(), place) {
        None => Picked::NoPlace,
        Some(n) => {
            take_up(&mut state.common, place, n);
            take_calls(alloc, n, state);
            Picked::Runs
        }
    }
}
