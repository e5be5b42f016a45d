//! In the reach of which traps the places of a unit are.
ghost use Rattle.std.specs.Prelude.{◌≡◌, ◌≤◌, ◌-◌, ℕ, IfOk, List, Some, length, slice_get};
ghost use Rattle.stack_code.specs.declared.code.Code.{Code};
ghost use Rattle.code_numbers.specs.inner.Behind.{TellsBehind, outer, trap_step};
ghost use Rattle.code_numbers.specs.Traps.{AreTrapRows, IsChain};

use bal_base::Memory;
use stack_code::Instr;
use std::alloc::Global;

/// The innermost trap outside the one that is open. Nothing where none is open.
fn outside(rows: &[Option<u32>], first: u32, innermost: Option<u32>) -> Option<Option<u32>>
    requires { (ts : List ℕ) × IsChain first rows.now innermost ts }
    ensures { (ts : List ℕ) → IsChain first rows.now innermost ts → TellsBehind first rows.now (outer ts) result }
{
    match innermost {
        Some(trap) => rows.get((trap - first) as usize).copied(),
        None => None,
    }
}

/// The innermost trap behind the instruction, where `innermost` is the one at its place. Nothing where it closes a trap and none is
/// open.
fn behind(
    rows: &[Option<u32>],
    first: u32,
    innermost: Option<u32>,
    place: u32,
    instr: &Instr,
) -> Option<Option<u32>>
    requires chain { (ts : List ℕ) × IsChain first rows.now innermost ts }
    requires from { first ≤ place }
    requires own { slice_get rows.now (place - first) ≡ Some innermost }
    ensures { (ts : List ℕ) → IsChain first rows.now innermost ts → TellsBehind first rows.now (trap_step place instr.now ts) result }
{
    match instr {
        Instr::Trap(_) => Some(Some(place)),
        Instr::Untrap => outside(rows, first, innermost),
        _ => Some(innermost),
    }
}

/// For each place from the first one up to the end, and for the end, the innermost trap in whose reach it is, if there is one:
/// the others are those in whose reach that trap's own place is. The rows end where more traps are closed than were opened.
pub fn trap_rows(
    alloc: Global,
    instrs: &[Instr],
    first: u32,
    end: u32,
) -> Result<Vec<Option<u32>>, Memory>
    requires from { first ≤ end }
    requires inside { end ≤ length instrs.now }
    ensures { IfOk result (λ rows. (code : Code) → code.instrs ≡ instrs.now → AreTrapRows code first (end - first) rows.items) }
{
    let mut rows = Vec::new(alloc);
    let mut innermost: Option<u32> = None;
    for place in first..end {
        rows.push(innermost)?;
        match behind(
            rows.as_slice(),
            first,
            innermost,
            place,
            &instrs[place as usize],
        ) {
            Some(next) => innermost = next,
            None => return Ok(rows),
        }
    }
    rows.push(innermost)?;
    Ok(rows)
}
