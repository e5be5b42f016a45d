//! What a definition reaches by the names in descriptors.
ghost use Rattle.std.specs.Prelude.{◌≡◌, ◌<◌, ◌++◌, IfOk, OnOk, length, map};
ghost use Rattle.name_resolution.specs.Reached.{AreReached, is_reached as is_reached_by, used_by, uses as uses_by_number, uses_of as uses_of_outline};
ghost use Rattle.name_resolution.specs.Tables.{IsTableOf};

use crate::faults::Resolver;
use crate::mentions::Mention;
use crate::outlines::Outline;
use crate::table::NameTable;
use bal_base::Memory;
use graphs::{distance, distances};
use std::alloc::Global;

/// How many steps lead from one definition to each, where any do: each step to one that stands under a name in a descriptor.
pub(crate) fn reached(
    alloc: Global,
    outlines: &[Outline],
    table: &NameTable,
    from: usize,
) -> Result<Vec<Option<usize>>, Memory>
    requires table { IsTableOf outlines.now table.now.numbers }
    requires placed { from < length outlines.now }
    ensures { IfOk result (λ away. AreReached outlines.now from (is_reached_by away.items)) }
{
    let uses = uses(alloc, outlines, table)?;
    distances(alloc, &uses, from)
}

/// Whether any lead to the definition with this number.
pub(crate) fn is_reached(away: &[Option<usize>], number: usize) -> bool
    ensures { result ≡ is_reached_by away.now number }
{
    distance(away, number).is_some()
}

/// By number the definitions that stand under the names in the descriptors of each.
fn uses(alloc: Global, outlines: &[Outline], table: &NameTable) -> Result<Vec<Vec<usize>>, Memory>
    requires { IsTableOf outlines.now table.now.numbers }
    ensures { IfOk result (λ made. map (λ v. v.items) made.items ≡ uses_by_number outlines.now) }
{
    let resolver = Resolver { outlines, table };
    let mut all = Vec::new(alloc);
    for d in outlines {
        all.push(resolver.uses_of(alloc, d)?)?;
    }
    Ok(all)
}

impl Resolver<'_> {
    fn uses_of(&self, alloc: Global, d: &Outline) -> Result<Vec<usize>, Memory>
        requires { IsTableOf self.now.outlines.now self.now.table.now.numbers }
        ensures { IfOk result (λ made. made.items ≡ uses_of_outline self.now.outlines.now d.now) }
    {
        let mut uses = Vec::new(alloc);
        for mention in d.mentions.as_slice() {
            self.used(&mut uses, d.module, mention)?;
        }
        Ok(uses)
    }

    fn used(&self, uses: &mut Vec<usize>, from: usize, mention: &Mention) -> Result<(), Memory>
        requires { IsTableOf self.now.outlines.now self.now.table.now.numbers }
        ensures { OnOk result (uses.new.items ≡ uses.old.items ++ used_by self.now.outlines.now from mention.now) }
    {
        match mention {
            Mention::Use { home, name, .. } => match self.resolve(from, *home, name) {
                Ok(number) => Ok(uses.push(number)?),
                Err(_) => Ok(()),
            },
            Mention::Again { .. } | Mention::Own { .. } => Ok(()),
        }
    }
}
