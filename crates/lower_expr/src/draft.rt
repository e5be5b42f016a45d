//! Code that is being made: commands that name labels where code names places.
#![tactic(auto, using(crate::proofs::Drafting::drafting))]

ghost use Rattle.std.specs.Prelude.{◌≡◌, ◌∷◌, IfOk, OnOk, map};
ghost use Rattle.operations.specs.declared.operation.Operation.TheVariants.{Cast};
ghost use Rattle.held_operations.specs.Operation.{operation_of, type_of};
ghost use Rattle.stack_code.specs.Commands.{CloseTrap as CloseTrapOf, GoTo as GoToOf, GoToIfNot as GoToIfNotOf, OpenTrap as OpenTrapOf};
ghost use Rattle.lower_model.specs.Making.{add as add_to, all_do, bind as bind_in, does, fresh as fresh_in, next_label, spoilt as spoilt_in};
ghost use Rattle.lower_expr.specs.Drafts.{making_of, step_of};

use bal_base::Memory;
use held_operations::{Op, TestedType};

/// A command. A place is a label.
#[derive(Clone, Copy)]
pub enum Step<'a> {
    Do(Op<'a>),
    /// The cast to a type that needs not be one of the tree.
    Cast(TestedType<'a>),
    GoTo(usize),
    /// Where the operand is false.
    GoToIfNot(usize),
    /// A trap that lands there.
    OpenTrap(usize),
    CloseTrap,
}

/// Code that is being made. All calls take constant time, but for the room of a longer vector.
#[derive(Drop)]
pub struct Draft<'a> {
    pub steps: Vec<Step<'a>>,
    /// The place of each label, where it is known.
    pub labels: Vec<Option<usize>>,
    /// No statement leaves a loop where there is none.
    pub sound: bool,
}

/// The labels of ways that part: of the other way, and of where both go on. The labels of a trap: of its landing, and of what is
/// behind it.
#[derive(Clone, Copy)]
pub struct Ways {
    pub other: usize,
    pub end: usize,
}

impl<'a> Draft<'a> {
    /// One more command.
    pub fn add(&mut self, step: Step<'a>) -> Result<(), Memory>
        ensures { OnOk result (making_of self.new ≡ add_to (step_of step.entry) (making_of self.old)) }
    {
        self.steps.push(step)?;
        Ok(())
    }

    /// A new label.
    pub fn fresh(&mut self) -> Result<usize, Memory>
        ensures made { OnOk result (making_of self.new ≡ fresh_in (making_of self.old)) }
        ensures label { IfOk result (λ l. l ≡ next_label (making_of self.old)) }
    {
        let label = self.labels.len();
        self.labels.push(None)?;
        Ok(label)
    }

    /// The label is the place behind the last command.
    pub fn bind(&mut self, label: usize)
        ensures { making_of self.new ≡ bind_in label (making_of self.old) }
    {
        let here = self.steps.len();
        if label < self.labels.len() {
            self.labels[label] = Some(here);
        }
    }

    /// A statement leaves a loop where there is none.
    pub fn spoil(&mut self)
        ensures { making_of self.new ≡ spoilt_in (making_of self.old) }
    {
        self.sound = false;
    }

    /// One operation.
    pub fn does(&mut self, op: Op<'a>) -> Result<(), Memory>
        ensures { OnOk result (making_of self.new ≡ does (operation_of op.entry) (making_of self.old)) }
    {
        self.add(Step::Do(op))
    }

    /// A cast.
    pub fn casts(&mut self, ty: TestedType<'a>) -> Result<(), Memory>
        ensures { OnOk result (making_of self.new ≡ does (Cast (type_of ty.entry)) (making_of self.old)) }
    {
        self.add(Step::Cast(ty))
    }

    /// These operations, which are few.
    pub fn dos(&mut self, ops: &[Op<'a>]) -> Result<(), Memory>
        ensures { OnOk result (making_of self.new ≡ all_do (map operation_of ops.now) (making_of self.old)) }
    {
        match ops {
            [] => Ok(()),
            [op, rest @ ..] => {
                self.does(*op)?;
                self.dos(rest)
            }
        }
    }

    /// A jump.
    pub fn go_to(&mut self, label: usize) -> Result<(), Memory>
        ensures { OnOk result (making_of self.new ≡ add_to (GoToOf label) (making_of self.old)) }
    {
        self.add(Step::GoTo(label))
    }

    /// A jump where the operand is false.
    pub fn go_to_if_not(&mut self, label: usize) -> Result<(), Memory>
        ensures { OnOk result (making_of self.new ≡ add_to (GoToIfNotOf label) (making_of self.old)) }
    {
        self.add(Step::GoToIfNot(label))
    }

    /// Two labels, of which the second is the next one.
    pub fn two_labels(&mut self) -> Result<Ways, Memory>
        ensures made { OnOk result (making_of self.new ≡ fresh_in (fresh_in (making_of self.old))) }
        ensures other { IfOk result (λ w. w.other ≡ next_label (making_of self.old)) }
        ensures end { IfOk result (λ w. w.end ≡ next_label (fresh_in (making_of self.old))) }
    {
        let other = self.fresh()?;
        let end = self.fresh()?;
        Ok(Ways { other, end })
    }

    /// Ways part by the last operand: what is added next is done where it is true.
    pub fn part(&mut self) -> Result<Ways, Memory>
        ensures made { OnOk result (making_of self.new ≡ add_to (GoToIfNotOf (next_label (making_of self.old))) (fresh_in (fresh_in (making_of self.old)))) }
        ensures other { IfOk result (λ w. w.other ≡ next_label (making_of self.old)) }
        ensures end { IfOk result (λ w. w.end ≡ next_label (fresh_in (making_of self.old))) }
    {
        let ways = self.two_labels()?;
        self.go_to_if_not(ways.other)?;
        Ok(ways)
    }

    /// What is added next is done where the operand is false.
    pub fn otherwise(&mut self, ways: Ways) -> Result<(), Memory>
        ensures { OnOk result (making_of self.new ≡ bind_in ways.other (add_to (GoToOf ways.end) (making_of self.old))) }
    {
        self.go_to(ways.end)?;
        self.bind(ways.other);
        Ok(())
    }

    /// Both ways go on here.
    pub fn join(&mut self, ways: Ways)
        ensures { making_of self.new ≡ bind_in ways.end (making_of self.old) }
    {
        self.bind(ways.end);
    }

    /// A trap is opened.
    pub fn open_trap(&mut self) -> Result<Ways, Memory>
        ensures made { OnOk result (making_of self.new ≡ add_to (OpenTrapOf (next_label (making_of self.old))) (fresh_in (fresh_in (making_of self.old)))) }
        ensures landing { IfOk result (λ w. w.other ≡ next_label (making_of self.old)) }
        ensures end { IfOk result (λ w. w.end ≡ next_label (fresh_in (making_of self.old))) }
    {
        let ways = self.two_labels()?;
        self.add(Step::OpenTrap(ways.other))?;
        Ok(ways)
    }

    /// A trap is closed, and lands at a place of its own; from there and from behind its end it goes on alike.
    pub fn close_trap(&mut self, ways: Ways) -> Result<(), Memory>
        ensures { OnOk result (making_of self.new ≡ bind_in ways.end (add_to (GoToOf ways.end) (bind_in ways.other (add_to (GoToOf ways.end) (add_to CloseTrapOf (making_of self.old)))))) }
    {
        self.add(Step::CloseTrap)?;
        self.go_to(ways.end)?;
        self.bind(ways.other);
        self.go_to(ways.end)?;
        self.bind(ways.end);
        Ok(())
    }
}
