//! What the operation of an instruction needs by its row.
ghost use Rattle.std.specs.Option.{option_copied};
ghost use Rattle.stack_code.specs.Commands.{command_of};
ghost use Rattle.needs_of_rows.specs.Finding.{Finds};
ghost use Rattle.needs_of_places.specs.Lending.{AreLentFor};
ghost use Rattle.needs_of_places.specs.Sites.{row_at};

use crate::library::{NativeCall, native};
use crate::made::made;
use crate::site::{Lent, Site, Taken};
use crate::waits::{waits_all, waits_any};
use needs_of_rows::Found;
use stack_code::Instr;

/// Finds what the operation of an instruction needs by its row; a test fails where it names what isn't there, or does no operation.
pub fn row<'c>(
    found: &mut Found<'c>,
    site: Site<'c>,
    taken: Taken<'c>,
    lent: Lent<'c>,
    instr: &'c Instr,
)
    requires { AreLentFor site.code.now instr.now taken.operands.now lent }
    ensures { Finds (row_at site.entry taken.entry.operands.now (option_copied taken.entry.given) (command_of site.entry.code.now instr.now)) found.old found.new }
{
    match instr {
        Instr::Native { op, atom, count } => native(
            found,
            site,
            taken,
            lent,
            NativeCall {
                number: *op,
                atom: *atom,
                count: *count,
            },
        ),
        Instr::WaitAny(names) => waits_any(found, site, taken, lent, names.as_slice()),
        Instr::WaitAll { atom, awaited } => {
            waits_all(found, site, taken, lent, *atom, awaited.as_slice());
        }
        _ => made(found, site, taken, lent, instr),
    }
}
