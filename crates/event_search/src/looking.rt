//! Searches in the trees of a function's workers.
#![tactic(auto, using(crate::proofs::Walks::walking))]

ghost use Rattle.std.specs.Prelude.{◌≡◌, ◌≤◌, ◌∷◌, [], ◌-◌, None as Absent, Some as There, if◌then◌else◌, length, map, nat_le, option_map, slice_get};
ghost use Rattle.typed_tree.specs.Exprs.{place_of};
ghost use Rattle.typed_tree.specs.Listed.{nothing};
ghost use Rattle.worker_pairing.specs.Events.{before as before_of};
ghost use Rattle.worker_pairing.specs.Faults.{kinds_of};
ghost use Rattle.worker_pairing.specs.Marks.{expr_marks, member_of, members_of, named_member, nil_type, stmts_marks};
ghost use Rattle.event_search.specs.Search.{most as most_of, IsSearched, is_in, occurrence, occurrence_held, occurrences_of};
ghost use Rattle.event_search.specs.inner.Walking.{notes, sought, start};

use crate::exprs::expr;
use crate::search::{Found, Happening, Search, Which};
use crate::stmts::stmts;
use bal_base::Place;
use typed_tree::{TypedBody, TypedExpr, TypedFunction, TypedStmt, TypedWorker};
use worker_members::SaidKind;

/// A search that begins.
fn started<'a>(counted: Which, tallied: Which, left: usize) -> Search<'a>
    ensures { sought result ≡ start counted tallied left 0 }
{
    Search {
        counted,
        tallied,
        left,
        tally: 0,
        found: None,
    }
}

/// A search among the events of a worker with these statements, first the initial ones.
fn in_statements<'a>(
    search: Search<'a>,
    initial: &'a [TypedStmt],
    rest: &'a [TypedStmt],
    end: Place,
) -> Search<'a>
    ensures { sought result ≡ notes (map occurrence (member_of nil_type (stmts_marks initial.now) (stmts_marks rest.now) end).sayings) (sought search.entry) }
{
    let mut search = search;
    stmts(&mut search, initial, true);
    stmts(&mut search, rest, false);
    search.say(SaidKind::End, end, false);
    search
}

/// A search among the events of a worker whose body is an expression.
fn in_expression<'a>(search: Search<'a>, value: &'a TypedExpr) -> Search<'a>
    ensures { sought result ≡ notes (map occurrence (member_of nil_type nothing (expr_marks value.now) (place_of value.now)).sayings) (sought search.entry) }
{
    let mut search = search;
    expr(&mut search, value, false);
    search.say(SaidKind::End, value.place(), false);
    search
}

/// A search among the events of a named worker, by its number among these.
fn in_named<'a>(search: Search<'a>, workers: &'a [TypedWorker], number: usize) -> Search<'a>
    ensures { sought result ≡ notes (occurrences_of (map named_member workers.now) number) (sought search.entry) }
{
    match workers.get(number) {
        Some(worker) => in_statements(search, &[], &worker.stmts, worker.close),
        None => search,
    }
}

/// A search among the events of a worker of a function whose body stands between braces.
fn in_block<'a>(
    search: Search<'a>,
    worker: usize,
    initial: &'a [TypedStmt],
    workers: &'a [TypedWorker],
    rest: &'a [TypedStmt],
    close: Place,
) -> Search<'a>
    ensures { sought result ≡ notes (occurrences_of (member_of nil_type (stmts_marks initial.now) (stmts_marks rest.now) close ∷ map named_member workers.now) worker) (sought search.entry) }
{
    match worker.checked_sub(1) {
        Some(number) => in_named(search, workers, number),
        None => in_statements(search, initial, rest, close),
    }
}

/// A search among the events of the one worker of a function whose body is an expression.
fn in_value<'a>(search: Search<'a>, worker: usize, value: &'a TypedExpr) -> Search<'a>
    ensures { sought result ≡ notes (occurrences_of (member_of nil_type nothing (expr_marks value.now) (place_of value.now) ∷ []) worker) (sought search.entry) }
{
    match worker {
        0 => in_expression(search, value),
        _ => search,
    }
}

/// A search among the events of a worker of the function.
fn searched<'a>(f: &'a TypedFunction, worker: usize, search: Search<'a>) -> Search<'a>
    ensures { sought result ≡ notes (occurrences_of (members_of f.now) worker) (sought search.entry) }
{
    match &f.body {
        TypedBody::Block {
            initial,
            workers,
            rest,
            close,
            ..
        } => in_block(search, worker, initial, workers, rest, *close),
        TypedBody::Expr { value } => in_value(search, worker, value),
    }
}

/// How many workers a function has, the default one among them. Takes no memory.
pub fn worker_count(f: &TypedFunction) -> usize
    ensures { result ≡ length (members_of f.now) }
{
    match &f.body {
        TypedBody::Block { workers, .. } => workers.len() + 1,
        TypedBody::Expr { .. } => 1,
    }
}

/// The event of a worker with this number, if there is one. Takes time that grows with the nodes of the worker, and no memory.
pub fn event_at<'a>(f: &'a TypedFunction, worker: usize, number: usize) -> Option<Happening<'a>>
    ensures { option_map occurrence_held result ≡ slice_get (occurrences_of (members_of f.now) worker) number }
{
    let search = searched(f, worker, started(Which::Any, Which::Any, number));
    search.found
}

/// How many of the events that are meant stand before the one with this number. Takes time that grows with the nodes of the worker, and
/// no memory.
pub fn before(f: &TypedFunction, worker: usize, which: Which, number: usize) -> usize
    ensures { result ≡ before_of (is_in which) (kinds_of (members_of f.now) worker) number }
{
    let search = searched(f, worker, started(Which::Any, which, number));
    search.tally
}

/// How many events a worker has, if these are no more than so many. Takes time that grows with the nodes of the worker, and no memory.
pub fn count_within(f: &TypedFunction, worker: usize, most: usize) -> Option<usize>
    ensures { result ≡ (if nat_le (length (kinds_of (members_of f.now) worker)) most then There (length (kinds_of (members_of f.now) worker)) else Absent) }
{
    let search = searched(f, worker, started(Which::Any, Which::Any, most));
    match search.found {
        Some(_) => None,
        None => Some(search.tally),
    }
}

/// The k-th of the events of a worker that are meant, from 0, or none where there are no more than k. Takes time that grows with the nodes
/// of the worker, and no memory.
pub fn nth<'a>(f: &'a TypedFunction, worker: usize, which: Which, k: usize) -> Option<Found<'a>>
    requires { length (kinds_of (members_of f.now) worker) ≤ most_of }
    ensures { IsSearched (members_of f.now) worker which k result }
{
    let search = searched(f, worker, started(which, Which::Any, k));
    match search.found {
        Some(event) => Some(Found {
            number: search.tally,
            event,
        }),
        None => None,
    }
}
