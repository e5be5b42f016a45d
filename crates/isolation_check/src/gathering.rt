//! The parts of all bodies of a package.
#![tactic(auto)]

ghost use Rattle.std.specs.Prelude.{◌≡◌, ◌++◌, ◌∷◌, [], IfOk, OnOk, false, map};
ghost use Rattle.std.specs.List.{flat_map};
ghost use Rattle.isolation_check.specs.Isolated.{function_promises, initialiser_promises, own_parts, parts_inside, promised_call, promises as promises_of};
ghost use Rattle.isolation_check.specs.Parts.{function_parts, initialiser_parts};
ghost use Rattle.isolation_check.specs.inner.Views.{parts_of};

use crate::bodies::{body, initialiser};
use crate::parts::{Deed, Found, HeldPart};
use bal_base::Memory;
use std::alloc::Global;
use typed_tree::{Initialiser, TypedFunction, TypedPackage};

/// What stands in the bodies of a package.
#[derive(Drop)]
pub(crate) struct Gathered<'a> {
    /// The own parts of the body of each function, by number.
    pub bodies: Vec<Vec<HeldPart<'a>>>,
    /// What stands under a promise by itself.
    pub promises: Vec<HeldPart<'a>>,
}

/// No part yet.
fn none<'a>(alloc: Global) -> Found<'a>
    ensures own { parts_of result.own.items ≡ [] }
    ensures inside { parts_of result.inside.items ≡ [] }
{
    Found {
        own: Vec::new(alloc),
        inside: Vec::new(alloc),
        full: false,
    }
}

/// What was found, if there was memory for all of it.
fn whole(found: Found<'_>) -> Result<Found<'_>, Memory>
    ensures found { IfOk result (λ f. f ≡ found.entry) }
    ensures room { IfOk result (λ f. found.entry.full ≡ false) }
{
    if found.full {
        return Err(Memory);
    }
    Ok(found)
}

/// The parts in a function.
fn in_function<'a>(alloc: Global, f: &'a TypedFunction) -> Result<Found<'a>, Memory>
    ensures own { IfOk result (λ found. parts_of found.own.items ≡ own_parts (function_parts f.now)) }
    ensures inside { IfOk result (λ found. parts_of found.inside.items ≡ parts_inside (function_parts f.now)) }
{
    let mut found = none(alloc);
    body(&mut found, &f.body);
    whole(found)
}

/// The parts in the initial values of a module.
fn in_initialiser<'a>(alloc: Global, i: &'a Initialiser) -> Result<Found<'a>, Memory>
    ensures inside { IfOk result (λ found. parts_of found.inside.items ≡ parts_inside (initialiser_parts i.now)) }
{
    let mut found = none(alloc);
    initialiser(&mut found, i);
    whole(found)
}

/// More parts behind those that are there.
fn add<'a>(parts: &mut Vec<HeldPart<'a>>, more: &[HeldPart<'a>]) -> Result<(), Memory>
    ensures { OnOk result (parts_of parts.new.items ≡ parts_of parts.old.items ++ parts_of more.now) }
{
    for part in more {
        parts.push(*part)?;
    }
    Ok(())
}

/// A function that is declared isolated, as a call of it.
fn add_promised(parts: &mut Vec<HeldPart<'_>>, f: &TypedFunction) -> Result<(), Memory>
    ensures { OnOk result (parts_of parts.new.items ≡ parts_of parts.old.items ++ promised_call f.now.isolated f.now) }
{
    if f.isolated {
        parts.push(HeldPart {
            deed: Deed::Calls(f.unit.number),
            at: f.at,
        })?;
    }
    Ok(())
}

impl<'a> Gathered<'a> {
    /// One function more.
    fn function(&mut self, alloc: Global, f: &'a TypedFunction) -> Result<(), Memory>
        ensures bodies { OnOk result (map (λ v. parts_of v.items) self.new.bodies.items ≡ map (λ v. parts_of v.items) self.old.bodies.items ++ own_parts (function_parts f.now) ∷ []) }
        ensures promises { OnOk result (parts_of self.new.promises.items ≡ parts_of self.old.promises.items ++ function_promises f.now) }
    {
        let found = in_function(alloc, f)?;
        add_promised(&mut self.promises, f)?;
        add(&mut self.promises, &found.inside)?;
        self.bodies.push(found.own)?;
        Ok(())
    }

    /// The initial values of one module more.
    fn initialiser(&mut self, alloc: Global, i: &'a Initialiser) -> Result<(), Memory>
        ensures bodies { OnOk result (self.new.bodies ≡ self.old.bodies) }
        ensures promises { OnOk result (parts_of self.new.promises.items ≡ parts_of self.old.promises.items ++ initialiser_promises i.now) }
    {
        let found = in_initialiser(alloc, i)?;
        add(&mut self.promises, &found.inside)
    }

    fn functions(&mut self, alloc: Global, fs: &'a [TypedFunction]) -> Result<(), Memory>
        ensures bodies { OnOk result (map (λ v. parts_of v.items) self.new.bodies.items ≡ map (λ v. parts_of v.items) self.old.bodies.items ++ map (λ f. own_parts (function_parts f)) fs.now) }
        ensures promises { OnOk result (parts_of self.new.promises.items ≡ parts_of self.old.promises.items ++ flat_map function_promises fs.now) }
    {
        for f in fs {
            self.function(alloc, f)?;
        }
        Ok(())
    }

    fn initialisers(&mut self, alloc: Global, is: &'a [Initialiser]) -> Result<(), Memory>
        ensures bodies { OnOk result (self.new.bodies ≡ self.old.bodies) }
        ensures promises { OnOk result (parts_of self.new.promises.items ≡ parts_of self.old.promises.items ++ flat_map initialiser_promises is.now) }
    {
        for i in is {
            self.initialiser(alloc, i)?;
        }
        Ok(())
    }
}

/// The parts of all bodies, and what stands under a promise by itself. It costs by the nodes of the tree.
pub(crate) fn gather<'a>(alloc: Global, package: &'a TypedPackage) -> Result<Gathered<'a>, Memory>
    ensures bodies { IfOk result (λ g. map (λ v. parts_of v.items) g.bodies.items ≡ map (λ f. own_parts (function_parts f)) «package».now.functions.items) }
    ensures promises { IfOk result (λ g. parts_of g.promises.items ≡ promises_of «package».now) }
{
    let mut all = Gathered {
        bodies: Vec::new(alloc),
        promises: Vec::new(alloc),
    };
    all.functions(alloc, &package.functions)?;
    all.initialisers(alloc, &package.initialisers)?;
    Ok(all)
}
