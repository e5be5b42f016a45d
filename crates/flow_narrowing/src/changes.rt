//! Changes of what is known of variables: logged, taken back where a way is left, and made again where it is entered anew.
ghost use Rattle.std.specs.Prelude.{◌≡◌, ◌≤◌, ◌++◌, ◌∷◌, [], IfOk, OnOk, drop, length, take, true};
ghost use Rattle.flow_narrowing.specs.Changes.{BlocksEnd, Logs, LogsBegin, LogsGoOn, MakesAgain, WaysLeaveNoTrace, narrowed_at, put, undone};

use crate::flow::Variable;
use bal_base::Memory;
use std::alloc::Global;
use std::mem;
use typed_tree::SharedTy;

/// The narrowed type that a variable had before it was changed, by its index among the variables that are seen.
#[derive(Drop)]
pub struct Change {
    pub index: usize,
    pub was: Option<SharedTy>,
}

/// Where a way begins: how much is logged and how many variables are seen there, and whether it is reached.
#[derive(Clone, Copy)]
pub struct Mark {
    pub log: usize,
    pub variables: usize,
    pub reached: bool,
}

/// Where a way has come to: the changes that lead there from where it began, the last one first.
#[derive(Drop)]
pub struct End {
    pub changes: Vec<Change>,
    pub reached: bool,
}

/// The variables that are seen at a place of a body that is walked, in the order of their declarations, and what takes
/// back what became of them since each open way began. A way costs by what changes in it, however many variables there
/// are.
#[derive(Drop)]
pub struct Flows {
    pub variables: Vec<Variable>,
    pub reached: bool,
    pub log: Vec<Change>,
}

impl Flows {
    /// No variables, at a place that is reached.
    pub fn new(alloc: Global) -> Flows
        ensures variables { result.variables.items ≡ [] }
        ensures reached { result.reached ≡ true }
        ensures log { result.log.items ≡ [] }
    {
        Flows {
            variables: Vec::new(alloc),
            reached: true,
            log: Vec::new(alloc),
        }
    }

    /// One more variable is declared.
    pub fn declare(&mut self, v: Variable) -> Result<(), Memory>
        ensures variables { OnOk result (self.new.variables.items ≡ self.old.variables.items ++ v ∷ []) }
        ensures reached { self.new.reached ≡ self.old.reached }
        ensures log { self.new.log.items ≡ self.old.log.items }
        ensures logged { OnOk result (Logs self.old.log.items self.old.variables.items self.new.log.items self.new.variables.items) }
    {
        self.variables.push(v)?;
        Ok(())
    }

    /// Ends a block that began where so many variables were seen: those that were declared in it go.
    pub fn end_block(&mut self, scope: usize)
        ensures variables { self.new.variables.items ≡ take scope self.old.variables.items }
        ensures reached { self.new.reached ≡ self.old.reached }
        ensures log { self.new.log.items ≡ self.old.log.items }
    {
        self.variables.truncate(scope);
    }

    /// Gives the variable at the index this narrowed type, or its declared one. Nothing is changed where there is none.
    pub fn narrow(&mut self, index: usize, to: Option<SharedTy>) -> Result<(), Memory>
        ensures variables { OnOk result (self.new.variables.items ≡ put self.old.variables.items index to) }
        ensures reached { OnOk result (self.new.reached ≡ self.old.reached) }
        ensures log { OnOk result (self.new.log.items ≡ self.old.log.items ++ record { index = index; was = narrowed_at self.old.variables.items index } ∷ []) }
        ensures logged { OnOk result (Logs self.old.log.items self.old.variables.items self.new.log.items self.new.variables.items) }
    {
        let back = take_back(&mut self.variables, Change { index, was: to });
        self.log.push(back)?;
        Ok(())
    }

    /// Where a way begins here.
    pub fn mark(&self) -> Mark
        ensures log { result.log ≡ length self.now.log.items }
        ensures variables { result.variables ≡ length self.now.variables.items }
        ensures reached { result.reached ≡ self.now.reached }
    {
        Mark {
            log: self.log.len(),
            variables: self.variables.len(),
            reached: self.reached,
        }
    }

    /// Leaves a way that began at the mark: variables that were declared in it go, what became of the others in it is
    /// taken back, and is given as the way's end.
    pub fn leave(&mut self, alloc: Global, mark: Mark) -> Result<End, Memory>
        requires { mark.log ≤ length self.old.log.items }
        ensures log { OnOk result (self.new.log.items ≡ take mark.log self.old.log.items) }
        ensures variables { OnOk result (self.new.variables.items ≡ take mark.variables (undone (drop mark.log self.old.log.items) self.old.variables.items)) }
        ensures reached { OnOk result (self.new.reached ≡ mark.reached) }
        ensures again { IfOk result (λ e. undone e.changes.items self.new.variables.items ≡ take mark.variables self.old.variables.items) }
        ensures came { IfOk result (λ e. e.reached ≡ self.old.reached) }
    {
        let mut changes = Vec::new(alloc);
        take_all_back(&mut self.variables, &mut self.log, mark.log, &mut changes)?;
        self.variables.truncate(mark.variables);
        let reached = mem::replace(&mut self.reached, mark.reached);
        Ok(End { changes, reached })
    }

    /// Goes on from the end of a way that began here.
    pub fn resume(&mut self, end: End) -> Result<(), Memory>
        ensures variables { OnOk result (self.new.variables.items ≡ undone end.changes.items self.old.variables.items) }
        ensures reached { OnOk result (self.new.reached ≡ end.reached) }
        ensures logged { OnOk result (Logs self.old.log.items self.old.variables.items self.new.log.items self.new.variables.items) }
    {
        let mut changes = end.changes;
        take_all_back(&mut self.variables, &mut changes, 0, &mut self.log)?;
        self.reached = end.reached;
        Ok(())
    }
}

/// Takes the change back, and gives the one that makes it again.
fn take_back(variables: &mut Vec<Variable>, change: Change) -> Change
    ensures variables { variables.new.items ≡ put variables.old.items change.index change.was }
    ensures again { result ≡ record { index = change.index; was = narrowed_at variables.old.items change.index } }
{
    let index = change.index;
    match variables.get_mut(index) {
        Some(v) => {
            let was = mem::replace(&mut v.narrowed, change.was);
            Change { index, was }
        }
        None => Change { index, was: None },
    }
}

/// Takes back the changes of a log, the last one first, until it has `mark` entries; those that make them again go to
/// another log.
fn take_all_back(
    variables: &mut Vec<Variable>,
    log: &mut Vec<Change>,
    mark: usize,
    back: &mut Vec<Change>,
) -> Result<(), Memory>
    requires { mark ≤ length log.old.items }
    ensures left { OnOk result (log.new.items ≡ take mark log.old.items) }
    ensures before { OnOk result (variables.new.items ≡ undone (drop mark log.old.items) variables.old.items) }
    ensures again { OnOk result (MakesAgain back.old.items variables.old.items back.new.items variables.new.items) }
{
    for _done in mark..log.len() {
        match log.pop() {
            Some(change) => back.push(take_back(variables, change))?,
            None => return Ok(()),
        }
    }
    Ok(())
}

/// What ways log begins with nothing, goes on from call to call and where blocks end, and a way that is left leaves no
/// trace, whatever was declared in it. The call does nothing: its clauses are laws.
pub fn ways_leave_no_trace()
    ensures begin { LogsBegin }
    ensures go_on { LogsGoOn }
    ensures blocks { BlocksEnd }
    ensures no_trace { WaysLeaveNoTrace }
{}
