//! The lines of a package.
#![tactic(auto, using(crate::proofs::Adding::in_a_row))]

ghost use Rattle.std.specs.Prelude.{◌≡◌, IfOk, OnOk, chars, flat_map, zip};
ghost use Rattle.pair_texts.specs.PairText.{event_text, function_text, pair_text, pairs_text};
ghost use Rattle.pair_texts.specs.inner.Spots.{Stands};
ghost use Rattle.text_forms.specs.Forms.{Adds, written};

use crate::names::{add_worker, function_name, workers_of};
use crate::places::{Spot, add_place, reached, start};
use bal_base::{Event, Memory};
use bal_tree::Module;
use std::alloc::Global;
use text_forms::{add_text, add_word};
use typed_tree::{Pair, Plan, TypedFunction, TypedPackage, TypedWorker};

/// The text of the pairs of a package, whose functions have these plans: for each pair a line
/// `FUNCTION SENDER LINE:COLUMN -> RECEIVER LINE:COLUMN`, function by function and in the order of each plan, which is text order, by the
/// place of the send. A function outside the default module has its module and `:` in front of its name, and the default worker is
/// `function`. The modules are those of the package; an event stands in the file that has the number of its place. Wants memory alone.
pub fn pairs_text(
    alloc: Global,
    package: &TypedPackage,
    plans: &[Plan],
    modules: &[Module],
) -> Result<String, Memory>
    ensures { IfOk result (λ text. written text ≡ pairs_text «package».now plans.now modules.now) }
{
    let mut out = String::new(alloc);
    add_functions(
        alloc,
        &mut out,
        package.functions.as_slice(),
        plans,
        modules,
    )?;
    Ok(out)
}

/// Adds the lines of functions with these plans.
fn add_functions(
    alloc: Global,
    out: &mut String,
    functions: &[TypedFunction],
    plans: &[Plan],
    modules: &[Module],
) -> Result<(), Memory>
    ensures { OnOk result (Adds (written out.old) (flat_map (function_text modules.now) (zip functions.now plans.now)) (written out.new)) }
{
    let count = functions.len().min(plans.len());
    let mut spot = start(0);
    for i in 0..count {
        spot = reached(modules, spot, functions[i].at);
        add_function(alloc, out, &functions[i], &plans[i], modules, spot)?;
    }
    Ok(())
}

/// Adds the lines of a function. Places are counted on from the spot.
fn add_function(
    alloc: Global,
    out: &mut String,
    f: &TypedFunction,
    plan: &Plan,
    modules: &[Module],
    spot: Spot,
) -> Result<(), Memory>
    requires { Stands modules.now spot }
    ensures { OnOk result (Adds (written out.old) (function_text modules.now (f.now, plan.now)) (written out.new)) }
{
    let name = function_name(alloc, f, modules)?;
    for pair in plan.pairs.as_slice() {
        add_pair(
            out,
            name.as_str(),
            workers_of(&f.body),
            *pair,
            modules,
            spot,
        )?;
    }
    Ok(())
}

/// Adds the line of a pair of the function with this name and these workers.
fn add_pair(
    out: &mut String,
    name: &str,
    workers: &[TypedWorker],
    pair: Pair,
    modules: &[Module],
    spot: Spot,
) -> Result<(), Memory>
    requires { Stands modules.now spot }
    ensures { OnOk result (Adds (written out.old) (pair_text modules.now (chars name.now) workers.now pair) (written out.new)) }
{
    add_text(out, name)?;
    add_word(out, " ")?;
    add_event(out, workers, pair.send, modules, spot)?;
    add_word(out, " -> ")?;
    add_event(out, workers, pair.receive, modules, spot)?;
    add_word(out, "\n")
}

/// Adds an event: its worker, and where it stands.
fn add_event(
    out: &mut String,
    workers: &[TypedWorker],
    event: Event,
    modules: &[Module],
    spot: Spot,
) -> Result<(), Memory>
    requires { Stands modules.now spot }
    ensures { OnOk result (Adds (written out.old) (event_text modules.now workers.now event) (written out.new)) }
{
    add_worker(out, workers, event.worker)?;
    add_word(out, " ")?;
    add_place(out, event.at, modules, spot)
}
