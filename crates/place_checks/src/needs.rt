//! Whether the needs of a place are met.
ghost use Rattle.std.specs.Prelude.{◌≡◌, ◌≤◌, ◌-◌, ℕ, Some as There, All, IfOk, IfSome, slice_get};
ghost use Rattle.bal_base.specs.Stops.{IfFault};
ghost use Rattle.type_model.specs.Calls.{KeepsTypes};
ghost use Rattle.stack_code.specs.declared.code.Code.{Code as AnyCode};
ghost use Rattle.stack_code.specs.declared.code.Unit.{Unit as AnyUnit};
ghost use Rattle.stack_code.specs.Places.{Station};
ghost use Rattle.code_numbers.specs.Traps.{AreTrapRows};
ghost use Rattle.code_needs.specs.PlaceNeeds.{place_needs as needs_here};
ghost use Rattle.code_verifier.specs.KindSets.{AreKnown};
ghost use Rattle.needs_of_rows.specs.Finding.{needs_in};
ghost use Rattle.needs_of_places.specs.Sites.{station_of};
ghost use Rattle.needs_of_commands.specs.Askable.{HasDefined, MakesCallable, MayBeAsked};
ghost use Rattle.needs_of_commands.specs.Loans.{AreLentAt, IsAlways};
ghost use Rattle.place_checks.specs.inner.Answered.{standing_of};
ghost use Rattle.place_checks.specs.Stopping.{QuestionStops};
ghost use Rattle.place_checks.specs.Telling.{AsksOf, NeedsTell};

use atom_questions::{QuestionLimit, answers_are_kept};
use bal_base::{Memory, Shape, Stop};
use code_verifier::KnownTypes;
use need_questions::first_need_unmet;
use needs_of_commands::{
    Always, lend, loan_at, place_needs, place_needs_may_be_asked, questions_may_be_asked,
};
use needs_of_places::{Lent, Site};
use needs_of_rows::{Found, nothing_found};
use std::alloc::Global;
use type_model::Types;

/// What is found of a place.
#[derive(Drop)]
pub enum Standing {
    /// All that was asked of it is so.
    Stands,
    /// A test of numbers fails, or a need isn't met, as the shape shows.
    Falls(Option<Shape>),
}

/// What serves all places that are asked about.
#[derive(Clone, Copy)]
pub struct Serving<'c> {
    /// The types of `anydata` and of what may be sent.
    pub known: &'c KnownTypes,
    /// What the questions of all places name that stands in no code.
    pub always: &'c Always,
}

/// The questions of a place, and whether a test of numbers failed.
pub fn found_at<'c>(
    alloc: Global,
    site: Site<'c>,
    place: u32,
    rows: &[Option<u32>],
    lent: Lent<'c>,
) -> Result<Found<'c>, Memory>
    requires rows { AreTrapRows site.code.now site.unit.now.first (site.unit.now.end - site.unit.now.first) rows.now }
    requires from { site.unit.now.first ≤ place }
    requires to { place ≤ site.unit.now.end }
    requires lent { AreLentAt site.code.now place lent }
    ensures { IfOk result (λ found. needs_in found ≡ needs_here site.entry.code.now site.entry.unit.now (station_of site.entry) place) }
{
    let mut found = nothing_found(alloc);
    place_needs(&mut found, site, place, rows, lent);
    match found.full {
        true => Err(Memory),
        false => Ok(found),
    }
}

/// An answer to questions as one of a place.
fn as_standing(
    answer: Result<Option<Shape>, Stop<QuestionLimit>>,
) -> Result<Standing, Stop<QuestionLimit>>
    ensures { result ≡ standing_of answer }
{
    match answer {
        Ok(Some(shape)) => Ok(Standing::Falls(Some(shape))),
        Ok(None) => Ok(Standing::Stands),
        Err(stop) => Err(stop),
    }
}

/// Whether the needs that were found of a place are met, or a shape that shows that one isn't; or nothing where a test of numbers
/// failed. `Atoms` or `Types` where the first undecided question stops so.
pub fn needs_stand<T: Types>(
    alloc: Global,
    types: &mut T,
    known: &KnownTypes,
    found: &Found<'_>,
) -> Result<Standing, Stop<QuestionLimit>>
    requires known { AreKnown (T.atoms types.old) known.now }
    requires may { IfSome (needs_in found.now) (λ all. All (MayBeAsked (T.atoms types.old)) all) }
    ensures kept { KeepsTypes (T.atoms types.old) (T.atoms types.new) }
    ensures told { (code : AnyCode) (unit : AnyUnit) (station : Station) (place : ℕ) → AsksOf code unit station place (needs_in found.now) (T.atoms types.old) → IfOk result (NeedsTell code unit station place) }
    ensures limit { (code : AnyCode) (unit : AnyUnit) (station : Station) (place : ℕ) → AsksOf code unit station place (needs_in found.now) (T.atoms types.old) → IfFault result (QuestionStops T.passes code unit station known.now place) }
{
    questions_may_be_asked();
    answers_are_kept();
    if found.refused {
        return Ok(Standing::Falls(None));
    }
    let answer = first_need_unmet(alloc, types, known, found.questions.as_slice());
    as_standing(answer)
}

/// Whether the needs of a place of the unit are met, found and asked one after another: all are, or a shape shows that one isn't, or a
/// test of numbers of what it needs fails. `Atoms` or `Types` where the first undecided question stops so. It asks a few questions
/// for each operand of the place, and for each trap in whose reach it is.
pub fn place_needs_stand<T: Types>(
    alloc: Global,
    types: &mut T,
    serving: Serving<'_>,
    site: Site<'_>,
    place: u32,
    rows: &[Option<u32>],
) -> Result<Standing, Stop<QuestionLimit>>
    requires known { AreKnown (T.atoms types.old) serving.known.now }
    requires always { IsAlways serving.always.now }
    requires keeps { KeepsTypes site.code.now.atoms (T.atoms types.old) }
    requires defined { HasDefined site.code.now }
    requires unit { (n : ℕ) × (slice_get site.code.now.units n ≡ There site.unit.now) }
    requires callable { MakesCallable site.code.now place }
    requires rows { AreTrapRows site.code.now site.unit.now.first (site.unit.now.end - site.unit.now.first) rows.now }
    requires from { site.unit.now.first ≤ place }
    requires to { place ≤ site.unit.now.end }
    ensures kept { KeepsTypes (T.atoms types.old) (T.atoms types.new) }
    ensures told { IfOk result (NeedsTell site.entry.code.now site.entry.unit.now (station_of site.entry) place) }
    ensures limit { IfFault result (QuestionStops T.passes site.entry.code.now site.entry.unit.now (station_of site.entry) serving.entry.known.now place) }
{
    place_needs_may_be_asked();
    let loan = loan_at(alloc, site.code, place)?;
    let lent = lend(serving.always, &loan);
    let found = found_at(alloc, site, place, rows, lent)?;
    needs_stand(alloc, types, serving.known, &found)
}
