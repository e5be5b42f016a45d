//! What an instruction does to numbers of messages.
ghost use Rattle.std.specs.Option.{option_copied};
ghost use Rattle.std.specs.Prelude.{◌≡◌, Option as Perhaps, Some};
ghost use Rattle.operations.specs.declared.operation.Operation.{Operation as Done};
ghost use Rattle.operations.specs.Talk.{talk_of};
ghost use Rattle.stack_code.specs.declared.code.Code.{Code as AnyCode};
ghost use Rattle.stack_code.specs.Commands.{Do, command_in, command_of};
ghost use Rattle.stack_code.specs.Flow.{tally_landing};
ghost use Rattle.stack_code.specs.Places.{Tally};
ghost use Rattle.place_numbers.specs.inner.Changing.{change_by, change_so, changed, thrown};

use stack_code::Instr;

/// What becomes of the numbers of messages.
#[derive(Clone, Copy)]
pub(crate) enum Change {
    /// One more was sent to the first worker, and one more received from the second, if there is one.
    More(Option<u32>, Option<u32>),
    /// They begin, with none.
    Begun,
}

/// What the instruction does to them.
fn change_of(instr: &Instr) -> Change
    ensures { result ≡ change_so instr.now }
{
    match instr {
        Instr::Send(w) => Change::More(Some(*w), None),
        Instr::Post(w) => Change::More(Some(*w), None),
        Instr::Receive(w) => Change::More(None, Some(*w)),
        Instr::Workers => Change::Begun,
        _ => Change::More(None, None),
    }
}

/// What becomes of the numbers behind the operation of an instruction.
pub(crate) fn change_behind(instr: &Instr) -> Change
    ensures { (code : AnyCode) (o : Done) → command_of code instr.now ≡ Some (Do o) → result ≡ change_by (talk_of o) }
{
    change_of(instr)
}

/// What a panic carries with it.
fn carried(change: Change) -> Change
    ensures { result ≡ thrown change }
{
    match change {
        Change::More(sent, received) => Change::More(sent, received),
        Change::Begun => Change::More(None, None),
    }
}

/// What becomes of the numbers where a panic of the instruction lands; they stay where there is none.
pub(crate) fn change_landing(instr: Option<&Instr>) -> Change
    ensures { (code : AnyCode) (tally : Perhaps Tally) → tally_landing (command_in code (option_copied instr.entry)) tally ≡ changed 0 result tally }
{
    match instr {
        Some(instr) => carried(change_of(instr)),
        None => Change::More(None, None),
    }
}
