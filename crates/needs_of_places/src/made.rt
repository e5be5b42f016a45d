//! Operations that make lists, mappings, errors, functions and futures, those of fields, and waits for one.
ghost use Rattle.std.specs.Option.{option_copied};
ghost use Rattle.std.specs.Prelude.{◌≡◌, List, Some, drop, length};
ghost use Rattle.type_model.specs.declared.atoms.AtomDef.{AtomDef as Definition};
ghost use Rattle.operations.specs.declared.operation.Operation.TheVariants as operation;
ghost use Rattle.operations.specs.Rows.{Surroundings};
ghost use Rattle.stack_code.specs.Commands.{Do, of_name};
ghost use Rattle.code_needs.specs.Combining.{◌&◌, as_many as count_needs, each, need, of_some};
ghost use Rattle.code_needs.specs.declared.kind.Kind.TheVariants.{ImmutableData, NilsOrErrors, Strings};
ghost use Rattle.code_needs.specs.Needs.{HasErrorsOf as HasErrors};
ghost use Rattle.code_needs.specs.RowNeeds.{below_each as below_needs, has_all as all_needs, within as within_needs};
ghost use Rattle.pair_questions.specs.Pairs.{pairs_of};
ghost use Rattle.needs_of_rows.specs.Finding.{Finds};
ghost use Rattle.needs_of_rows.specs.PairsTaken.{TakesPairs};
ghost use Rattle.needs_of_places.specs.inner.Grouped.{made_command};
ghost use Rattle.needs_of_places.specs.Lending.{AreLentFor, IsFieldKey};
ghost use Rattle.needs_of_places.specs.Sites.{row_at, row_of};

use crate::named::{atom_at, constant_at, named, unit_at, worker_result};
use crate::site::{Lent, Site, Taken};
use needs_of_rows::{
    Found, Making, gets_field, gets_optional, makes_error, makes_function, makes_list,
    makes_mapping, reads, starts, waits_one,
};
use operations::Constant;
use pair_questions::Pair;
use stack_code::{Instr, Unit};
use type_model::{Keys, SemType};

// ---- fields

/// A field of this name. `keys` is the field alone.
fn field_row<'c>(found: &mut Found<'c>, taken: Taken<'c>, name: &'c Constant, keys: &'c Keys)
    requires { IsFieldKey (Some name.now) keys.now }
    ensures { (env : List Definition) (place : Surroundings) → Finds (row_of env place taken.entry.operands.now (option_copied taken.entry.given) (of_name operation.GetField (Some name.now))) found.old found.new }
{
    match name {
        Constant::Str(text) => gets_field(found, taken.operands, text, keys, taken.given),
        _ => found.refuse(),
    }
}

/// The same, where the constant is there.
fn field_at<'c>(found: &mut Found<'c>, taken: Taken<'c>, name: Option<&'c Constant>, keys: &'c Keys)
    requires { IsFieldKey (option_copied name) keys.now }
    ensures { (env : List Definition) (place : Surroundings) → Finds (row_of env place taken.entry.operands.now (option_copied taken.entry.given) (of_name operation.GetField (option_copied name.entry))) found.old found.new }
{
    match name {
        Some(name) => field_row(found, taken, name, keys),
        None => found.refuse(),
    }
}

/// A field of this name that may be missing. `keys` is the field alone.
fn optional_row<'c>(found: &mut Found<'c>, taken: Taken<'c>, name: &'c Constant, keys: &'c Keys)
    requires { IsFieldKey (Some name.now) keys.now }
    ensures { (env : List Definition) (place : Surroundings) → Finds (row_of env place taken.entry.operands.now (option_copied taken.entry.given) (of_name operation.GetOptional (Some name.now))) found.old found.new }
{
    match name {
        Constant::Str(_) => gets_optional(found, taken.operands, keys, taken.given),
        _ => found.refuse(),
    }
}

/// The same, where the constant is there.
fn optional_at<'c>(
    found: &mut Found<'c>,
    taken: Taken<'c>,
    name: Option<&'c Constant>,
    keys: &'c Keys,
)
    requires { IsFieldKey (option_copied name) keys.now }
    ensures { (env : List Definition) (place : Surroundings) → Finds (row_of env place taken.entry.operands.now (option_copied taken.entry.given) (of_name operation.GetOptional (option_copied name.entry))) found.old found.new }
{
    match name {
        Some(name) => optional_row(found, taken, name, keys),
        None => found.refuse(),
    }
}

// ---- futures

/// A strand that calls the unit, with an operand for each of its parameters, where there is one.
fn start_row<'c>(
    found: &mut Found<'c>,
    taken: Taken<'c>,
    unit: Option<&'c Unit>,
    future: &'c SemType,
)
    ensures { Finds (of_some (option_copied unit.entry) (λ u. count_needs taken.entry.operands.now (length u.params) & below_needs taken.entry.operands.now u.params & all_needs (option_copied taken.entry.given) future.now)) found.old found.new }
{
    match unit {
        Some(u) => starts(
            found,
            taken.operands,
            u.params.as_slice().len(),
            Some(u),
            future,
            taken.given,
        ),
        None => found.refuse(),
    }
}

// ---- structures

/// What is made.
fn made_of(atom: u32, count: u32, immutable: bool) -> Making
    ensures atom { result.atom ≡ atom }
    ensures count { result.count ≡ count }
    ensures immutable { result.immutable ≡ immutable }
{
    Making {
        atom,
        immutable,
        count,
    }
}

/// A list of the operands.
fn list_row<'c>(found: &mut Found<'c>, site: Site<'c>, taken: Taken<'c>, making: Making)
    ensures { Finds (row_at site.entry taken.entry.operands.now (option_copied taken.entry.given) (Some (Do (operation.MakeList making.atom making.immutable making.count)))) found.old found.new }
{
    makes_list(
        found,
        atom_at(site.code, making.atom),
        taken.operands,
        making,
        taken.given,
    );
}

/// A mapping of the pairs, where there are as many.
fn mapping_row<'c>(
    found: &mut Found<'c>,
    site: Site<'c>,
    taken: Taken<'c>,
    pairs: Option<&'c [Pair<'c>]>,
    making: Making,
)
    requires { TakesPairs making.count taken.operands.now (option_copied pairs) }
    ensures { Finds (row_at site.entry taken.entry.operands.now (option_copied taken.entry.given) (Some (Do (operation.MakeMapping making.atom making.immutable making.count)))) found.old found.new }
{
    match pairs {
        Some(pairs) => makes_mapping(
            found,
            atom_at(site.code, making.atom),
            pairs,
            making,
            taken.given,
        ),
        None => found.refuse(),
    }
}

/// Details of an error in pairs, where there are as many.
fn error_of<'c>(
    found: &mut Found<'c>,
    message: &'c SemType,
    cause: &'c SemType,
    pairs: Option<&'c [Pair<'c>]>,
    given: Option<&'c SemType>,
)
    ensures { Finds (of_some (option_copied pairs.entry) (λ ps. within_needs message.now Strings & within_needs cause.now NilsOrErrors & each (λ p. within_needs p.0 Strings & within_needs p.1 ImmutableData) (pairs_of ps) & of_some (option_copied given.entry) (λ r. need (HasErrors r (pairs_of ps))))) found.old found.new }
{
    match pairs {
        Some(pairs) => makes_error(found, message, cause, pairs, given),
        None => found.refuse(),
    }
}

/// An error of a message, a cause and the pairs, where there are as many.
fn error_row<'c>(found: &mut Found<'c>, taken: Taken<'c>, pairs: Option<&'c [Pair<'c>]>, count: u32)
    requires { TakesPairs count (drop 2 taken.operands.now) (option_copied pairs) }
    ensures { (env : List Definition) (place : Surroundings) → Finds (row_of env place taken.entry.operands.now (option_copied taken.entry.given) (Some (Do (operation.MakeError count)))) found.old found.new }
{
    match taken.operands {
        [message, cause, ..] => error_of(found, message, cause, pairs, taken.given),
        _ => found.refuse(),
    }
}

// ---- all

/// What an operation needs that makes a value, reads a field or waits for one, or one of those before.
pub(crate) fn made<'c>(
    found: &mut Found<'c>,
    site: Site<'c>,
    taken: Taken<'c>,
    lent: Lent<'c>,
    instr: &'c Instr,
)
    requires { AreLentFor site.code.now instr.now taken.operands.now lent }
    ensures { Finds (row_at site.entry taken.entry.operands.now (option_copied taken.entry.given) (made_command site.entry.code.now instr.now)) found.old found.new }
{
    match instr {
        Instr::MakeList {
            atom,
            count,
            immutable,
        } => list_row(found, site, taken, made_of(*atom, *count, *immutable)),
        Instr::MakeMap {
            atom,
            count,
            immutable,
        } => mapping_row(
            found,
            site,
            taken,
            lent.pairs,
            made_of(*atom, *count, *immutable),
        ),
        Instr::MakeError { count } => error_row(found, taken, lent.pairs, *count),
        Instr::MakeFunction { unit, count } => makes_function(
            found,
            taken.operands,
            *count as usize,
            unit_at(site.code, *unit),
            lent.own,
            taken.given,
        ),
        Instr::GetField(number) => field_at(
            found,
            taken,
            constant_at(site.code, *number),
            lent.field,
        ),
        Instr::GetOptional(number) => optional_at(
            found,
            taken,
            constant_at(site.code, *number),
            lent.field,
        ),
        Instr::StartCall(number) => start_row(found, taken, unit_at(site.code, *number), lent.own),
        Instr::WaitWorker(w) => reads(
            found,
            taken.operands,
            worker_result(site, lent.never, *w),
            taken.given,
        ),
        Instr::WaitFuture => waits_one(found, taken.operands, lent.results, taken.given),
        _ => named(found, site, taken, instr),
    }
}
