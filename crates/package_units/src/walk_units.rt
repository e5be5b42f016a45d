//! The units of functions and packages.
#![tactic(auto, using(crate::proofs::Noting::noting))]

ghost use Rattle.std.specs.Prelude.{◌≡◌, IfOk, Some, map, option_map};
ghost use Rattle.typed_tree.specs.Listed.{◌&◌, joined, run};
ghost use Rattle.typed_tree.specs.Units.{OfFunction, OfInitialiser, OfWorker, body_units, function_units, initial_units, initialiser_units, worker_units};
ghost use Rattle.lower_model.specs.Assembled.{HasUnits};
ghost use Rattle.package_units.specs.Held.{tree_of};
ghost use Rattle.package_units.specs.Noted.{AreAll, noted, noted_of, unmet};

use crate::held::HeldUnit;
use crate::noted::Noted;
use crate::walk_exprs::expr;
use crate::walk_stmts::stmts;
use bal_base::Memory;
use lower_stmt::Body;
use std::alloc::Global;
use typed_tree::{Initial, Initialiser, TypedBody, TypedFunction, TypedPackage, TypedWorker};

/// A worker as a unit.
fn held_worker<'a>(w: &'a TypedWorker) -> HeldUnit<'a>
    ensures { tree_of result ≡ record { unit = w.now.unit; body = OfWorker w.now.stmts.items w.now.ends } }
{
    HeldUnit {
        unit: &w.unit,
        body: Body::Worker(w),
        captured: w.captured.as_slice().len(),
    }
}

/// A function as a unit.
fn held_function<'a>(f: &'a TypedFunction) -> HeldUnit<'a>
    ensures { tree_of result ≡ record { unit = f.now.unit; body = OfFunction f.now.body } }
{
    HeldUnit {
        unit: &f.unit,
        body: Body::Function(&f.body),
        captured: 0,
    }
}

/// An initialiser as a unit.
fn held_initialiser<'a>(i: &'a Initialiser) -> HeldUnit<'a>
    ensures { tree_of result ≡ record { unit = i.now.unit; body = OfInitialiser i.now.values.items } }
{
    HeldUnit {
        unit: &i.unit,
        body: Body::Initialiser(&i.values),
        captured: 0,
    }
}

fn worker<'a>(n: &mut Noted<'a>, w: &'a TypedWorker)
    ensures { noted_of n.new ≡ run noted (worker_units w.now) (noted_of n.old) }
{
    n.note(held_worker(w));
    stmts(n, &w.stmts);
}

fn workers<'a>(n: &mut Noted<'a>, ws: &'a [TypedWorker])
    ensures { noted_of n.new ≡ run noted (joined (map worker_units ws.now)) (noted_of n.old) }
{
    for w in ws {
        worker(n, w);
    }
}

fn body<'a>(n: &mut Noted<'a>, b: &'a TypedBody)
    ensures { noted_of n.new ≡ run noted (body_units b.now) (noted_of n.old) }
{
    match b {
        TypedBody::Block {
            initial,
            workers: named,
            rest,
            ..
        } => {
            stmts(n, initial);
            workers(n, named);
            stmts(n, rest);
        }
        TypedBody::Expr { value } => expr(n, value),
    }
}

fn function<'a>(n: &mut Noted<'a>, f: &'a TypedFunction)
    ensures { noted_of n.new ≡ run noted (function_units f.now) (noted_of n.old) }
{
    n.note(held_function(f));
    body(n, &f.body);
}

fn functions<'a>(n: &mut Noted<'a>, fs: &'a [TypedFunction])
    ensures { noted_of n.new ≡ run noted (joined (map function_units fs.now)) (noted_of n.old) }
{
    for f in fs {
        function(n, f);
    }
}

fn initial<'a>(n: &mut Noted<'a>, i: &'a Initial)
    ensures { noted_of n.new ≡ run noted (initial_units i.now) (noted_of n.old) }
{
    expr(n, &i.value);
}

fn initials<'a>(n: &mut Noted<'a>, is: &'a [Initial])
    ensures { noted_of n.new ≡ run noted (joined (map initial_units is.now)) (noted_of n.old) }
{
    for i in is {
        initial(n, i);
    }
}

fn initialiser<'a>(n: &mut Noted<'a>, i: &'a Initialiser)
    ensures { noted_of n.new ≡ run noted (initialiser_units i.now) (noted_of n.old) }
{
    n.note(held_initialiser(i));
    initials(n, &i.values);
}

fn initialisers<'a>(n: &mut Noted<'a>, is: &'a [Initialiser])
    ensures { noted_of n.new ≡ run noted (joined (map initialiser_units is.now)) (noted_of n.old) }
{
    for i in is {
        initialiser(n, i);
    }
}

/// Notes all units of a package.
fn all<'a>(n: &mut Noted<'a>, package: &'a TypedPackage)
    ensures { noted_of n.new ≡ run noted (joined (map function_units «package».now.functions.items) & joined (map initialiser_units «package».now.initialisers.items)) (noted_of n.old) }
{
    functions(n, &package.functions);
    initialisers(n, &package.initialisers);
}

/// Room for so many units, of which none was met yet.
fn room<'a>(alloc: Global, count: u32) -> Result<Noted<'a>, Memory>
    ensures { IfOk result (λ n. noted_of n ≡ unmet count) }
{
    let mut units = Vec::new(alloc);
    for _ in 0..count {
        units.push(None)?;
    }
    Ok(Noted { units, fits: true })
}

/// The units, where one was met for each number.
fn gathered<'a>(alloc: Global, met: &[Option<HeldUnit<'a>>]) -> Result<Vec<HeldUnit<'a>>, Memory>
    ensures { IfOk result (λ us. map (option_map tree_of) met.now ≡ map Some (map tree_of us.items)) }
{
    let mut units = Vec::new(alloc);
    for unit in met {
        match unit {
            Some(u) => units.push(*u)?,
            None => return Err(Memory),
        }
    }
    Ok(units)
}

/// The units of a package, in the order of their numbers: its functions with their workers, its anonymous functions, and its
/// initialisers, in time that grows with the nodes of the tree. It answers want of
/// memory also where the units don't have the numbers from 0 on, as many as the package counts, each once; checked packages have
/// them so.
pub fn units<'a>(alloc: Global, package: &'a TypedPackage) -> Result<Vec<HeldUnit<'a>>, Memory>
    ensures units { IfOk result (λ us. HasUnits «package».now (map tree_of us.items)) }
    ensures all { IfOk result (λ us. AreAll «package».now (map tree_of us.items)) }
{
    let mut met = room(alloc, package.units)?;
    all(&mut met, package);
    if !met.fits {
        return Err(Memory);
    }
    gathered(alloc, &met.units)
}
