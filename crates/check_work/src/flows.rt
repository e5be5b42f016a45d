//! What is known of variables: copied where a way is left to be entered again, and changed at the place at hand.
//!
//! A copy costs by the variables that are seen. A change costs a look through them.
#![tactic(auto, using(check_words::proofs::Same::sharing))]

ghost use Rattle.std.specs.Prelude.{◌≡◌, ◌++◌, ◌∷◌, [], IfOk, OnOk};
ghost use Rattle.std.specs.List.{AllZip};
ghost use Rattle.std.specs.Option.{option_copied};
ghost use Rattle.flow_narrowing.specs.Flows.{AreSame};
ghost use Rattle.check_words.specs.Sharing.{SameFlow, SameShared, SameVariable};
ghost use Rattle.check_words.specs.State.{find_variable as variable_in, outside, stopped, with_type, with_variable};
ghost use Rattle.check_work.specs.Views.{flow_of};

use crate::work::Here;
use bal_base::{Memory, Name};
use flow_narrowing::{Flow, Variable, VariableList};
use std::alloc::Global;
use std::mem;
use typed_tree::SharedTy;

/// Another handle of the type.
pub fn shared(t: &SharedTy) -> Result<SharedTy, Memory>
    ensures { IfOk result (SameShared t.now) }
{
    Ok(t.clone()?)
}

/// Another handle of the type, if there is one.
pub fn shared_if(t: &Option<SharedTy>) -> Result<Option<SharedTy>, Memory>
    ensures { IfOk result (AreSame t.now) }
{
    match t {
        Some(t) => Ok(Some(shared(t)?)),
        None => Ok(None),
    }
}

/// The same variable with the same type.
fn copy_variable(v: &Variable) -> Result<Variable, Memory>
    ensures { IfOk result (SameVariable v.now) }
{
    let narrowed = shared_if(&v.narrowed)?;
    let declared = shared(&v.declared)?;
    Ok(Variable {
        name: v.name.share(),
        slot: v.slot,
        declared,
        narrowed,
        fixed: v.fixed,
        assigned: v.assigned,
        captured: v.captured,
    })
}

fn copy_variables(alloc: Global, variables: &[Variable]) -> Result<Vec<Variable>, Memory>
    ensures { IfOk result (λ vs. AllZip SameVariable variables.now vs.items) }
{
    let mut copies = Vec::new(alloc);
    for v in variables {
        copies.push(copy_variable(v)?)?;
    }
    Ok(copies)
}

/// The same flow once more.
pub fn copy_flow(alloc: Global, flow: &Flow) -> Result<Flow, Memory>
    ensures { IfOk result (SameFlow flow.now) }
{
    let variables = copy_variables(alloc, flow.variables.as_slice())?;
    Ok(Flow {
        variables: VariableList::of(variables),
        reached: flow.reached,
    })
}

impl Here {
    /// What is known here.
    pub fn flow(&self, alloc: Global) -> Result<Flow, Memory>
        ensures { IfOk result (SameFlow (flow_of self.now)) }
    {
        let variables = copy_variables(alloc, self.variables.as_slice())?;
        Ok(Flow {
            variables: VariableList::of(variables),
            reached: self.reached,
        })
    }

    /// A way with this flow is entered. Gives what was known before, which isn't copied.
    pub fn enter(&mut self, alloc: Global, flow: &Flow) -> Result<Flow, Memory>
        ensures before { IfOk result (λ f. f ≡ flow_of self.old) }
        ensures entered { OnOk result (SameFlow flow.now (flow_of self.new)) }
    {
        let variables = copy_variables(alloc, flow.variables.as_slice())?;
        let before = mem::replace(&mut self.variables, variables);
        let reached = mem::replace(&mut self.reached, flow.reached);
        Ok(Flow {
            variables: VariableList::of(before),
            reached,
        })
    }

    /// One more variable is declared.
    pub fn declare(&mut self, v: Variable) -> Result<(), Memory>
        ensures { OnOk result (flow_of self.new ≡ with_variable v (flow_of self.old)) }
    {
        self.variables.push(v)?;
        Ok(())
    }

    /// A block ends that began where so many variables were seen: those that were declared in it go.
    pub fn end_block(&mut self, scope: usize)
        ensures { flow_of self.new ≡ outside scope (flow_of self.old) }
    {
        self.variables.truncate(scope);
    }

    /// No way goes on from here.
    pub fn stop(&mut self)
        ensures { flow_of self.new ≡ stopped (flow_of self.old) }
    {
        self.reached = false;
    }
}

/// The variable with the name, if it is seen.
pub fn find_variable<'a>(variables: &'a [Variable], name: &Name) -> Option<&'a Variable>
    ensures { option_copied result ≡ variable_in variables.now name.now }
{
    variables.iter().find(|v| v.name == *name)
}
