//! The walk: calls are followed in depth first, and no function is entered twice.
#![tactic(auto)]

ghost use Rattle.std.specs.Prelude.{◌≡◌, ◌<◌, ◌≤◌, ◌+◌, ◌++◌, ◌∷◌, [], ◌*◌, ℕ, All, IfOk, OnOk, Some as Given, length, map, option_map, set, true};
ghost use Rattle.bal_base.specs.Stops.{IfFault};
ghost use Rattle.bal_base.specs.declared.fault.FaultCode.TheVariants.{NotIsolated};
ghost use Rattle.bal_base.specs.declared.fault.Kept.TheVariants.{Names as ShowsNames};
ghost use Rattle.checks.specs.Questions.{IsFault};
ghost use Rattle.isolation_check.specs.Typed.{PartBelow};
ghost use Rattle.isolation_check.specs.inner.Opened.{AreBelow, AreBodies, Ends, GoesOn, OpensBody, left, open_of};
ghost use Rattle.isolation_check.specs.inner.Views.{does_of, parts_of};
ghost use Rattle.isolation_check.specs.Isolated.{own_parts};
ghost use Rattle.isolation_check.specs.Parts.{function_parts};
ghost use Rattle.isolation_check.specs.Walk.{leads as leads_to, path};

use crate::judging::keeps;
use crate::parts::{Deed, HeldPart};
use bal_base::{Fault, FaultCode, Kept, Memory, Name, NameList, Place, Stop};
use descriptors::OwnTypes;
use std::alloc::Global;
use type_model::Types;
use typed_tree::TypedPackage;

/// A body that is open: the name of its function, if it is one's, its parts, and how many of them are done.
#[derive(Clone, Copy)]
pub(crate) struct OpenBody<'p, 'a> {
    pub name: Option<&'a Name>,
    pub parts: &'p [HeldPart<'a>],
    pub done: usize,
}

/// What is known of the package: the own parts of the body of each function.
#[derive(Clone, Copy)]
pub(crate) struct Bodies<'p, 'a> {
    pub own: &'p OwnTypes,
    pub package: &'a TypedPackage,
    pub parts: &'p [Vec<HeldPart<'a>>],
}

/// A walk: the bodies that are open, the innermost one last, and which functions were entered.
#[derive(Drop)]
pub(crate) struct Walk<'p, 'a> {
    pub stack: Vec<OpenBody<'p, 'a>>,
    pub entered: Vec<bool>,
}

/// The names of open functions.
fn names(alloc: Global, stack: &[OpenBody<'_, '_>]) -> Result<NameList, Memory>
    ensures { IfOk result (λ ns. ns ≡ path (map open_of stack.now)) }
{
    let mut names = Vec::new(alloc);
    for body in stack {
        if let Some(name) = body.name {
            names.push(name.share())?;
        }
    }
    Ok(NameList::of(names))
}

/// The fault: a promise is broken at the place, where calls of the open functions lead.
fn broken(alloc: Global, stack: &[OpenBody<'_, '_>], at: Place) -> Result<(), Stop<Fault>>
    ensures refused { OnOk result ⊥ }
    ensures fault { IfFault result (IsFault NotIsolated (Given at) (ShowsNames (path (map open_of stack.now)))) }
{
    match names(alloc, stack) {
        Ok(names) => Err(Stop::Fault(Fault {
            code: FaultCode::NotIsolated,
            at: Some(at),
            kept: Kept::Names(names),
        })),
        Err(Memory) => Err(Stop::Memory),
    }
}

impl<'p, 'a> Walk<'p, 'a> {
    /// The function to which a part leads, if it wasn't entered yet.
    fn leads(&self, deed: Deed<'_>) -> Option<u32>
        ensures { result ≡ leads_to self.now.entered.items (does_of deed.entry) }
    {
        match deed {
            Deed::Calls(unit) => match self.entered.get(unit as usize) {
                Some(false) => Some(unit),
                Some(true) => None,
                None => None,
            },
            Deed::Reads(_) | Deed::Stores | Deed::CallsValue(_) | Deed::Captures(_) => None,
        }
    }

    /// Opens the body of a function that wasn't entered yet, above the one that calls it.
    fn enter(
        &mut self,
        bodies: Bodies<'p, 'a>,
        from: OpenBody<'p, 'a>,
        unit: u32,
    ) -> Result<(), Memory>
        requires inside { unit < length self.old.entered.items }
        requires parts { map (λ v. parts_of v.items) bodies.parts.now ≡ map (λ f. own_parts (function_parts f)) bodies.«package».now.functions.items }
        ensures entered { OnOk result (self.new.entered.items ≡ set self.old.entered.items unit true) }
        ensures stack { OnOk result (OpensBody bodies.entry unit (map open_of (self.old.stack.items ++ from.entry ∷ [])) self.new.stack.items) }
        ensures below { OnOk result ((n : ℕ) → AreBelow n self.old.stack.items → All (PartBelow n) (parts_of from.entry.parts.now) → All (λ v. All (PartBelow n) (parts_of v.items)) bodies.entry.parts.now → AreBelow n self.new.stack.items) }
    {
        let Some(f) = bodies.package.functions.get(unit as usize) else {
            return Err(Memory);
        };
        let Some(parts) = bodies.parts.get(unit as usize) else {
            return Err(Memory);
        };
        self.entered[unit as usize] = true;
        self.stack.push(from)?;
        self.stack.push(OpenBody {
            name: Some(&f.name),
            parts: parts.as_slice(),
            done: 0,
        })?;
        Ok(())
    }

    /// Goes on with a body that was the innermost one, to the next function that it enters, or to its end.
    fn go_on<T: Types>(
        &mut self,
        alloc: Global,
        types: &mut T,
        bodies: Bodies<'p, 'a>,
        body: OpenBody<'p, 'a>,
    ) -> Result<(), Stop<Fault>>
        requires bodies { AreBodies (length (T.atoms types.old)) bodies }
        requires isolated { bodies.own.now.isolated < length (T.atoms types.old) }
        requires below { All (PartBelow (length (T.atoms types.old))) (parts_of body.parts.now) }
        requires stack { AreBelow (length (T.atoms types.old)) self.old.stack.items }
        ensures atoms { T.atoms types.new ≡ T.atoms types.old }
        ensures goes_on { GoesOn T.passes bodies.entry (T.atoms types.old) (map open_of (self.old.stack.items ++ body.entry ∷ [])) self.old.entered.items self.new result }
        ensures stack { OnOk result (AreBelow (length (T.atoms types.old)) self.new.stack.items) }
    {
        for i in body.done..body.parts.len() {
            let part = body.parts[i];
            if !keeps(alloc, types, bodies.own, bodies.package, part)? {
                self.stack.push(body)?;
                return broken(alloc, &self.stack, part.at);
            }
            if let Some(unit) = self.leads(part.deed) {
                let from = OpenBody {
                    name: body.name,
                    parts: body.parts,
                    done: i + 1,
                };
                self.enter(bodies, from, unit)?;
                return Ok(());
            }
        }
        Ok(())
    }

    /// Walks until no body is open.
    pub(crate) fn run<T: Types>(
        &mut self,
        alloc: Global,
        types: &mut T,
        bodies: Bodies<'p, 'a>,
    ) -> Result<(), Stop<Fault>>
        requires bodies { AreBodies (length (T.atoms types.old)) bodies }
        requires isolated { bodies.own.now.isolated < length (T.atoms types.old) }
        requires stack { AreBelow (length (T.atoms types.old)) self.old.stack.items }
        requires steps { left self.old.entered.items (length self.old.stack.items) ≤ 2 * length self.old.entered.items + 1 }
        ensures atoms { T.atoms types.new ≡ T.atoms types.old }
        ensures ends { Ends T.passes bodies.entry (T.atoms types.old) (map open_of self.old.stack.items) self.old.entered.items result }
    {
        for _ in 0..2 * self.entered.len() + 1 {
            let Some(body) = self.stack.pop() else {
                return Ok(());
            };
            self.go_on(alloc, types, bodies, body)?;
        }
        Ok(())
    }
}
