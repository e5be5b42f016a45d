//! What the checkers hold before the first need.
#![tactic(auto)]

ghost use Rattle.std.specs.Prelude.{◌≡◌, IfOk, List, None};
ghost use Rattle.type_model.specs.declared.atoms.AtomDef.{AtomDef as Atom};
ghost use Rattle.check_work.specs.Views.{done_of, going, site_of};
ghost use Rattle.package_checks.specs.Checked.{at_first};
ghost use Rattle.stmt_checker.specs.First.{first_done, first_site};

use crate::counting::functions_of;
use bal_base::Memory;
use bal_tree::Package;
use check_work::{Done, Site, Work};
use descriptors::Scope;
use std::alloc::Global;
use typed_tree::SeenEvents;

/// Where bodies stand before any is entered.
fn no_site(alloc: Global) -> Site
    ensures { site_of result ≡ first_site }
{
    Site {
        scope: Scope {
            module: 0,
            file: None,
        },
        workers: Vec::new(alloc),
        results: Vec::new(alloc),
        events: SeenEvents::of(Vec::new(alloc)),
    }
}

/// Nothing is done; units that are no functions are numbered behind these.
fn nothing_done(alloc: Global, functions: u32) -> Done
    ensures { done_of result ≡ first_done functions }
{
    Done {
        next_unit: functions,
        functions: Vec::new(alloc),
        workers: Vec::new(alloc),
        variables: Vec::new(alloc),
        initialisers: Vec::new(alloc),
    }
}

/// Work on a package of which nothing is checked.
pub(crate) fn first_work<'a>(alloc: Global, package: &Package) -> Result<Work<'a>, Memory>
    ensures { IfOk result (λ w. (env : List Atom) → going env w ≡ (at_first env «package».now, None)) }
{
    let functions = functions_of(package)?;
    Ok(Work {
        site: no_site(alloc),
        found: Vec::new(alloc),
        ways: None,
        wants: Vec::new(alloc),
        sorts: Vec::new(alloc),
        accesses: Vec::new(alloc),
        constructors: Vec::new(alloc),
        calls: Vec::new(alloc),
        choices: Vec::new(alloc),
        matches: Vec::new(alloc),
        blocks: Vec::new(alloc),
        around: Vec::new(alloc),
        unit: None,
        initials: None,
        done: nothing_done(alloc, functions),
        stop: None,
    })
}
