//! Questions that are found one behind another.
#![tactic(auto, using(crate::proofs::Finding::finding))]

ghost use Rattle.std.specs.Option.{option_copied};
ghost use Rattle.std.specs.Prelude.{◌≡◌, ◌==◌, ◌++◌, ◌∷◌, [], None, Some, false, length};
ghost use Rattle.code_needs.specs.Combining.{◌&◌, absent as absent_needs, as_many as count_needs, need, none as none_needs, of_some};
ghost use Rattle.code_needs.specs.Needs.{Applies, Below as IsBelow, Gives as GivesIn, GivesFuture as GivesFutureIn, Has as HasKind, HasBoth as HasAllOf, HasConstant as HasThis, HasErrorsOf as HasErrors, HasMade as HasAllMade, PartIn as IsPartIn};
ghost use Rattle.code_needs.specs.RowNeeds.{has as has_needs, has_all as all_needs, within as within_needs};
ghost use Rattle.need_questions.specs.NeedsAsked.{needs_of};
ghost use Rattle.pair_questions.specs.Pairs.{pairs_of};
ghost use Rattle.needs_of_rows.specs.Finding.{Finds};

use code_needs::Kind;
use code_verifier::{OfKinds, OfParts, OfTypes, Question};
use need_questions::NeedQuestion;
use operations::Constant;
use pair_questions::Pair;
use std::alloc::Global;
use type_model::{Keys, SemType};

/// The questions that were found so far, in order, of needs whose tests of numbers passed.
#[derive(Drop)]
pub struct Found<'c> {
    /// The questions.
    pub questions: Vec<NeedQuestion<'c>>,
    /// Whether a test of numbers failed.
    pub refused: bool,
    /// Whether there was no memory for one of them.
    pub full: bool,
}

/// A question more, or it is noted that there was no memory for it.
fn put<'c>(questions: &mut Vec<NeedQuestion<'c>>, question: NeedQuestion<'c>, full: &mut bool)
    ensures { full.new ≡ false → (full.old ≡ false) × (questions.new.items ≡ questions.old.items ++ question.entry ∷ []) }
{
    if questions.push(question).is_err() {
        *full = true;
    }
}

/// Whether there are so many operands.
fn are_so_many(operands: &[SemType], count: usize) -> bool
    ensures { result ≡ (length operands.now == count) }
{
    operands.len() == count
}

impl<'c> Found<'c> {
    /// A question more.
    pub fn ask(&mut self, question: NeedQuestion<'c>)
        ensures { Finds (Some (needs_of question.entry)) self.old self.new }
    {
        put(&mut self.questions, question, &mut self.full);
    }

    /// A test of numbers failed.
    pub fn refuse(&mut self)
        ensures { Finds None self.old self.new }
    {
        self.refused = true;
    }

    /// All shapes of the type are to be of the kind.
    pub fn within(&mut self, t: &'c SemType, kind: Kind)
        ensures { Finds (within_needs t.now kind) self.old self.new }
    {
        self.ask(NeedQuestion::Plain(Question::Kinds(OfKinds::Within(t, kind))));
    }

    /// Both types are.
    pub fn both_within(&mut self, a: &'c SemType, first: Kind, b: &'c SemType, second: Kind)
        ensures { Finds (within_needs a.now first & within_needs b.now second) self.old self.new }
    {
        self.within(a, first);
        self.within(b, second);
    }

    /// The first type is to be below the second.
    pub fn below(&mut self, s: &'c SemType, t: &'c SemType)
        ensures { Finds (need (IsBelow s.now t.now)) self.old self.new }
    {
        self.ask(NeedQuestion::Plain(Question::Types(OfTypes::Below(s, t))));
    }

    /// The types are to have the same shapes.
    pub fn same(&mut self, s: &'c SemType, t: &'c SemType)
        ensures { Finds (need (IsBelow s.now t.now) & need (IsBelow t.now s.now)) self.old self.new }
    {
        self.below(s, t);
        self.below(t, s);
    }

    /// The type is to have all shapes of the kind.
    pub fn has_kind(&mut self, t: &'c SemType, kind: Kind)
        ensures { Finds (need (HasKind t.now kind)) self.old self.new }
    {
        self.ask(NeedQuestion::Plain(Question::Kinds(OfKinds::Has(t, kind))));
    }

    /// There are to be no operands.
    pub fn none(&mut self, operands: &[SemType])
        ensures { Finds (none_needs operands.now) self.old self.new }
    {
        match operands.first() {
            None => {}
            Some(_) => self.refuse(),
        }
    }

    /// There are to be so many operands.
    pub fn as_many(&mut self, operands: &[SemType], count: usize)
        ensures { Finds (count_needs operands.now count) self.old self.new }
    {
        match are_so_many(operands, count) {
            true => {}
            false => self.refuse(),
        }
    }

    // ---- results

    /// There is to be no result.
    pub fn absent(&mut self, given: Option<&'c SemType>)
        ensures { Finds (absent_needs (option_copied given.entry)) self.old self.new }
    {
        match given {
            Some(_) => self.refuse(),
            None => {}
        }
    }

    /// There is to be a result, which has all shapes of the kind.
    pub fn has(&mut self, given: Option<&'c SemType>, kind: Kind)
        ensures { Finds (has_needs (option_copied given.entry) kind) self.old self.new }
    {
        match given {
            Some(r) => self.has_kind(r, kind),
            None => self.refuse(),
        }
    }

    /// There is to be a result, which has all shapes of the type.
    pub fn has_all(&mut self, given: Option<&'c SemType>, t: &'c SemType)
        ensures { Finds (all_needs (option_copied given.entry) t.now) self.old self.new }
    {
        match given {
            Some(r) => self.below(t, r),
            None => self.refuse(),
        }
    }

    /// The constant.
    pub fn has_constant(&mut self, given: Option<&'c SemType>, c: &'c Constant)
        ensures { Finds (of_some (option_copied given.entry) (λ r. need (HasThis r c.now))) self.old self.new }
    {
        match given {
            Some(r) => self.ask(NeedQuestion::Plain(Question::Types(OfTypes::HasConstant(r, c)))),
            None => self.refuse(),
        }
    }

    /// What is in both types.
    pub fn has_both(&mut self, given: Option<&'c SemType>, s: &'c SemType, t: &'c SemType)
        ensures { Finds (of_some (option_copied given.entry) (λ r. need (HasAllOf r s.now t.now))) self.old self.new }
    {
        match given {
            Some(r) => self.ask(NeedQuestion::Plain(Question::Types(OfTypes::HasBoth(r, s, t)))),
            None => self.refuse(),
        }
    }

    /// Structures of the atom.
    pub fn has_made(&mut self, given: Option<&'c SemType>, atom: u32, immutable: bool)
        ensures { Finds (of_some (option_copied given.entry) (λ r. need (HasAllMade r atom immutable))) self.old self.new }
    {
        match given {
            Some(r) => {
                self.ask(NeedQuestion::Plain(Question::Types(OfTypes::HasMade(
                    r, atom, immutable,
                ))));
            }
            None => self.refuse(),
        }
    }

    /// Errors with details of the pairs.
    pub fn has_errors(&mut self, given: Option<&'c SemType>, pairs: &'c [Pair<'c>])
        ensures { Finds (of_some (option_copied given.entry) (λ r. need (HasErrors r (pairs_of pairs.now)))) self.old self.new }
    {
        match given {
            Some(r) => self.ask(NeedQuestion::HasErrorsOf(r, pairs)),
            None => self.refuse(),
        }
    }

    /// What stands at such a key.
    pub fn has_part(&mut self, given: Option<&'c SemType>, whole: &'c SemType, keys: &'c Keys)
        ensures { Finds (of_some (option_copied given.entry) (λ r. need (IsPartIn whole.now keys.now r))) self.old self.new }
    {
        match given {
            Some(r) => {
                self.ask(NeedQuestion::Plain(Question::Parts(OfParts::PartIn(whole, keys, r))));
            }
            None => self.refuse(),
        }
    }

    // ---- calls of values

    /// Functions of the type never fail at such arguments, and the result has what they give.
    pub fn gives(&mut self, given: Option<&'c SemType>, f: &'c SemType, args: &'c [SemType])
        ensures { Finds (need (Applies f.now args.now) & of_some (option_copied given.entry) (λ r. need (GivesIn f.now args.now r))) self.old self.new }
    {
        match given {
            Some(r) => self.ask(NeedQuestion::Gives(f, args, r)),
            None => self.refuse(),
        }
    }

    /// Or futures of what they give.
    pub fn gives_future(&mut self, given: Option<&'c SemType>, f: &'c SemType, args: &'c [SemType])
        ensures { Finds (need (Applies f.now args.now) & of_some (option_copied given.entry) (λ r. need (GivesFutureIn f.now args.now r))) self.old self.new }
    {
        match given {
            Some(r) => self.ask(NeedQuestion::GivesFuture(f, args, r)),
            None => self.refuse(),
        }
    }
}

/// Nothing yet.
pub fn nothing_found<'c>(alloc: Global) -> Found<'c>
    ensures questions { result.questions.items ≡ [] }
    ensures refused { result.refused ≡ false }
    ensures full { result.full ≡ false }
{
    Found {
        questions: Vec::new(alloc),
        refused: false,
        full: false,
    }
}
