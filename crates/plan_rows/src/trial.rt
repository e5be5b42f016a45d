//! What the product says of a file.

use crate::changes::{change_named, changed, rank_of};
use crate::shown::{add_pairs, event_named};
use bal_base::{Fault, Memory, Name, Numbers, Row, Stop, Text};
use bal_lexer::lex;
use bal_tree::{FileTree, Files, Module, Modules, Package, SourceFile};
use compile_front::{Accepted, Answered, accept};
use package_plans::PackagePlans;
use parse_stmt::parse_file;
use plan_checks::check_plan;
use std::alloc::Global;
use subtype_decider::Decider;
use typed_tree::{Plan, TypedFunction, TypedPackage};
use worker_plans::check_plan as check_gathered;

/// What stands before the body in the file.
pub const BEFORE: &str = "import ballerina/io;\nfunction tried(boolean q) {";

/// What stands behind the body.
pub const BEHIND: &str =
    "}\nfunction g() returns error? { }\nfunction fails() returns error? { return error(\"fails\"); }\nfunction one() returns int { return 1; }\nfunction f() returns int|error { return 1; }\nfuture<int|error>? me = ();\npublic function main() { }\n";

/// As many events as a plan may have that is tested without memory too, which takes time that grows with their square.
const FEW_EVENTS: usize = 512;

/// The longest texts that are read, in bytes.
const MOST_BYTES: usize = 4_294_967_295;

/// What came of a file that isn't refused.
#[derive(Drop)]
pub struct Outcome {
    /// The pairs of its functions, written out.
    pub pairs: String,
    /// Whether each plan is taken for one.
    pub is_checked: bool,
    /// Whether one is taken for one of which that can't be.
    pub is_lax: bool,
    /// Whether the ranks of the first function rise as they are to.
    pub rises: bool,
}

/// The plans of the file with this body, or its first fault. The ranks of the first function are compared at the events that are named.
pub fn tried(alloc: Global, body: &str, order: &str) -> Result<Outcome, Stop<Fault>> {
    let Accepted {
        names: _,
        package,
        plans,
    } = accepted(alloc, body)?;
    planned(alloc, &package, plans, order)
}

/// Whether the plan of the first function of the file with this body is one with a change in it, or nothing where there is no such
/// change.
pub fn holds_changed(alloc: Global, body: &str, change: &str) -> Result<Option<bool>, Stop<Fault>> {
    let Accepted {
        names: _,
        package,
        plans,
    } = accepted(alloc, body)?;
    let PackagePlans { functions } = plans;
    for made in functions {
        if let Some(f) = package.functions.as_slice().first() {
            return Ok(holds_with(alloc, f, &made, change)?);
        }
    }
    Ok(None)
}

/// Whether the plan with the change is one. Both tests of plans say so, or both not.
fn holds_with(
    alloc: Global,
    f: &TypedFunction,
    made: &Plan,
    change: &str,
) -> Result<Option<bool>, Memory> {
    match change_named(change) {
        Some(change) => {
            let plan = changed(alloc, f, made, change)?;
            let holds = check_plan(f, &plan);
            let same = check_gathered(alloc, f, &plan)? == holds;
            Ok(if same { Some(holds) } else { None })
        }
        None => Ok(None),
    }
}

/// The file with this body, if it has no fault.
fn accepted(alloc: Global, body: &str) -> Result<Accepted, Stop<Fault>> {
    let text = format!(in alloc; "{BEFORE}{body}{BEHIND}")?;
    if text.len() > MOST_BYTES {
        return Err(Stop::Memory);
    }
    let tokens = lex(alloc, 0, text.as_str())?;
    let tree = parse_file(alloc, 0, &tokens)?;
    let package = package_with(alloc, text.as_str(), tree)?;
    let Answered { types, answer } = accept(alloc, Decider::new(alloc), &package);
    let _decider = types;
    answer
}

/// The package whose one file this is.
fn package_with(alloc: Global, text: &str, tree: FileTree) -> Result<Package, Memory> {
    let name = Name::new(alloc, "main")?;
    let text = Text::new(alloc, text)?;
    let file = SourceFile {
        name: name.share(),
        text,
        tree,
    };
    let module = Module {
        name: name.share(),
        imports: Numbers::of(Vec::new(alloc)),
        files: Files::of(vec![in alloc; file]?),
    };
    Ok(Package {
        name,
        org: None,
        modules: Modules::of(vec![in alloc; module]?),
        main: 0,
    })
}

/// The plans of all functions.
fn planned(
    alloc: Global,
    package: &TypedPackage,
    plans: PackagePlans,
    order: &str,
) -> Result<Outcome, Stop<Fault>> {
    let PackagePlans { functions } = plans;
    let mut tried = Outcome {
        pairs: String::new(alloc),
        is_checked: true,
        is_lax: false,
        rises: true,
    };
    let mut is_first = true;
    let mut left = package.functions.as_slice();
    for made in functions {
        if let Some((f, rest)) = left.split_first() {
            add_plan(alloc, f, made, named_in(order, is_first), &mut tried)?;
            left = rest;
        }
        is_first = false;
    }
    Ok(tried)
}

/// The events that are named are those of the first function.
fn named_in(order: &str, is_first: bool) -> &str {
    if is_first { order } else { "" }
}

/// Compares the plan of a function more.
fn add_plan(
    alloc: Global,
    f: &TypedFunction,
    made: Plan,
    order: &str,
    tried: &mut Outcome,
) -> Result<(), Memory> {
    add_pairs(&mut tried.pairs, made.pairs.as_slice())?;
    if !is_taken(alloc, f, &made)? {
        tried.is_checked = false;
    }
    if !rises(f, &made, order) {
        tried.rises = false;
    }
    if is_lax(alloc, f, made)? {
        tried.is_lax = true;
    }
    Ok(())
}

/// Whether the plan is taken for one, by the test without memory too, where it has few events.
fn is_taken(alloc: Global, f: &TypedFunction, made: &Plan) -> Result<bool, Memory> {
    if made.ranks.as_slice().len() <= FEW_EVENTS && !check_plan(f, made) {
        return Ok(false);
    }
    Ok(check_gathered(alloc, f, made)?)
}

/// Whether the ranks rise along the events that are named.
fn rises(f: &TypedFunction, made: &Plan, order: &str) -> bool {
    let mut last = None;
    for name in order.split_ascii_whitespace() {
        let rank = named_rank(f, made, name);
        if rank.is_none() || last >= rank {
            return false;
        }
        last = rank;
    }
    true
}

/// The rank of the event that is named.
fn named_rank(f: &TypedFunction, made: &Plan, name: &str) -> Option<u32> {
    rank_of(f, made.ranks.as_slice(), event_named(name)?)
}

/// Whether a plan without pairs, or with one rank for all events, is taken for one though the plan has some, or several events.
fn is_lax(alloc: Global, f: &TypedFunction, made: Plan) -> Result<bool, Memory> {
    let Plan { pairs, ranks } = made;
    let is_paired = !pairs.as_slice().is_empty();
    let is_unpaired = Plan {
        pairs: Row::of(Vec::new(alloc)),
        ranks,
    };
    if is_paired && check_gathered(alloc, f, &is_unpaired)? {
        return Ok(true);
    }
    let count = is_unpaired.ranks.as_slice().len();
    let is_flat = Plan {
        pairs,
        ranks: Row::of(vec![in alloc; 0; count]?),
    };
    Ok(is_paired && check_gathered(alloc, f, &is_flat)?)
}
