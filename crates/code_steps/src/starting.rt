//! How a run begins.
#![tactic(auto, using(crate::proofs::Beginning::beginning))]

ghost use Rattle.std.specs.Prelude.{◌≡◌, [], IfOk, List, None, Some, map, option_map, replicate, true, ℕ};
ghost use Rattle.bal_base.specs.declared.text.Text.{Text as TextOf};
ghost use Rattle.value_model.specs.declared.value.Value.TheVariants.{Str};
ghost use Rattle.value_model.specs.Heap.{Items};
ghost use Rattle.op_model.specs.Rows.{new_structure as new_structure_of};
ghost use Rattle.machine_model.specs.Machine as machine;
ghost use Rattle.machine_model.specs.Runs as runs;
ghost use Rattle.plain_run.specs.Held.{common_of, structure_of, world_of};
ghost use Rattle.code_steps.specs.Begins.{TakesFirst, alone, first_state, to_run_of, with_units};
ghost use Rattle.code_frames.specs.Programs.{launch_of, machine_of};
ghost use Rattle.code_steps.specs.States.{call_of, state_of};

use crate::begins::begin;
use crate::carrying::add_strand;
use crate::held::{Call, State};
use bal_base::{Memory, Text};
use code_frames::{Launch, Program};
use plain_run::{
    Common, Functions, Heap, Members, Status, Strand, Strands, Structure, Structures, ToRun, World,
    new_structure,
};
use std::alloc::Global;
use value_model::Value;

/// These strings as values.
fn words_as_values(alloc: Global, words: &[Text]) -> Result<Vec<Value>, Memory>
    ensures { IfOk result (λ vs. vs.items ≡ map Str words.now) }
{
    let mut values = Vec::new(alloc);
    for word in words {
        values.push(Value::Str(word.share()))?;
    }
    Ok(values)
}

/// The list of main's arguments.
fn list_of_words(alloc: Global, atom: u32, words: &[Text]) -> Result<Structure, Memory>
    ensures { IfOk result (λ s. structure_of s ≡ new_structure_of (Some atom) true (Items (map Str words.now))) }
{
    let values = words_as_values(alloc, words)?;
    Ok(new_structure(Some(atom), true, Members::Items(values)))
}

/// A world with these structures.
fn world_with(alloc: Global, structures: Vec<Structure>, input: &[u8]) -> Result<World, Memory>
    ensures { IfOk result (λ w. world_of w ≡ record { heap = record { structures = map structure_of structures.items; errors = []; functions = [] }; input = input.now; output = [] }) }
{
    let mut held = Structures::new(alloc);
    let mut structures = structures;
    held.append(&mut structures)?;
    let heap = Heap {
        structures: held,
        errors: Vec::new(alloc),
        functions: Functions::new(alloc),
    };
    Ok(World {
        heap,
        input: Vec::from_slice(alloc, input)?,
        output: Vec::new(alloc),
    })
}

/// The world before the first step: the list of main's arguments is made, where it takes some.
fn first_world(
    alloc: Global,
    atom: Option<u32>,
    words: &[Text],
    input: &[u8],
) -> Result<World, Memory>
    ensures { IfOk result (λ w. world_of w ≡ runs.first_world atom words.now input.now) }
{
    match atom {
        None => world_with(alloc, Vec::new(alloc), input),
        Some(atom) => {
            let list = list_of_words(alloc, atom, words)?;
            world_with(alloc, vec![in alloc; list]?, input)
        }
    }
}

/// The unit of main, with its arguments.
fn main_unit(alloc: Global, launch: Launch) -> Result<ToRun, Memory>
    ensures { IfOk result (λ u. to_run_of u ≡ (launch.main, runs.main_arguments launch.words)) }
{
    match launch.words {
        None => Ok(ToRun {
            unit: launch.main,
            args: Vec::new(alloc),
        }),
        Some(_) => Ok(ToRun {
            unit: launch.main,
            args: vec![in alloc; Value::Struct(0)]?,
        }),
    }
}

/// The units of the initialisers.
fn first_units(alloc: Global, initialisers: &[u32]) -> Result<Vec<ToRun>, Memory>
    ensures { IfOk result (λ us. map to_run_of us.items ≡ map alone initialisers.now) }
{
    let mut units = Vec::new(alloc);
    for unit in initialisers {
        units.push(ToRun {
            unit: *unit,
            args: Vec::new(alloc),
        })?;
    }
    Ok(units)
}

/// The units that strand 0 runs: the initialisers and then main.
fn units_to_run<'a>(alloc: Global, program: &Program<'a>) -> Result<Vec<ToRun>, Memory>
    ensures { IfOk result (λ us. map to_run_of us.items ≡ runs.units_to_run (machine_of program.now)) }
{
    let mut units = first_units(alloc, program.facts.initialisers.as_slice())?;
    units.push(main_unit(alloc, program.launch)?)?;
    Ok(units)
}

/// The first of the units.
fn take_first(units: &mut Vec<ToRun>) -> Option<ToRun>
    ensures { TakesFirst result (map to_run_of units.old.items) (map to_run_of units.new.items) }
{
    if units.is_empty() {
        None
    } else {
        Some(units.remove(0))
    }
}

/// Variables without values.
fn no_values(alloc: Global, count: u64) -> Result<Vec<Option<Value>>, Memory>
    ensures { IfOk result (λ v. v.items ≡ replicate count None) }
{
    let mut variables = Vec::new(alloc);
    for _ in 0..count {
        variables.push(None)?;
    }
    Ok(variables)
}

/// What is shared before the first step, where these units are still to be run.
fn first_common(
    alloc: Global,
    launch: Launch,
    world: World,
    ticks: u64,
    to_run: Vec<ToRun>,
) -> Result<Common, Memory>
    ensures { IfOk result (λ c. (words : List TextOf) (input : List ℕ) → world_of world ≡ runs.first_world launch.words words input → common_of c ≡ with_units (runs.first_common (launch_of launch) words input ticks) (map to_run_of to_run.items)) }
{
    let mut strands = Strands::new(alloc);
    strands.push(Strand {
        unit: launch.main,
        role: None,
        status: Status::Active,
        taken: false,
    })?;
    Ok(Common {
        world,
        strands,
        activations: Vec::new(alloc),
        variables: no_values(alloc, launch.variables)?,
        ready: vec![in alloc; 0]?,
        running: 0,
        to_run,
        ticks,
        picks: 0,
    })
}

/// Strand 0 has this call, and does not run.
fn state_with(alloc: Global, common: Common, call: Call) -> Result<State, Memory>
    ensures { IfOk result (λ s. state_of s ≡ first_state (common_of common) (call_of call)) }
{
    let mut others = Vec::new(alloc);
    add_strand(alloc, call, &mut others)?;
    Ok(State {
        common,
        calls: Vec::new(alloc),
        others,
        spare: Vec::new(alloc),
    })
}

/// Strand 0 begins with this unit, where it is there.
fn begins_with<'a>(
    alloc: Global,
    program: &Program<'a>,
    first: ToRun,
    common: Common,
) -> Result<Option<State>, Memory>
    ensures { IfOk result (λ s. option_map state_of s ≡ option_map (first_state (common_of common)) (machine.begun (machine_of program.now) first.unit first.args.items None)) }
{
    match begin(alloc, program, first.unit, first.args.as_slice(), None)? {
        None => Ok(None),
        Some(call) => Ok(Some(state_with(alloc, common, call)?)),
    }
}

/// The state before the first pick, where the unit that strand 0 begins with is there.
pub fn start<'a>(
    alloc: Global,
    program: &Program<'a>,
    words: &[Text],
    input: &[u8],
    ticks: u64,
) -> Result<Option<State>, Memory>
    ensures { IfOk result (λ s. option_map state_of s ≡ runs.start (machine_of program.now) words.now input.now ticks) }
{
    let mut units = units_to_run(alloc, program)?;
    match take_first(&mut units) {
        None => Ok(None),
        Some(first) => {
            let world = first_world(alloc, program.launch.words, words, input)?;
            let common = first_common(alloc, program.launch, world, ticks, units)?;
            begins_with(alloc, program, first, common)
        }
    }
}
