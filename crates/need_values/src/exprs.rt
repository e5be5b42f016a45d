//! What expressions and actions need, as values.
#![tactic(auto)]

use crate::actions::ActionNeed;
use crate::by_need::ByNeed;
use crate::calls::CallNeed;
use crate::meets::Meets;
use crate::members::MemberNeed;
use crate::operators::OperatorNeed;
use crate::structures::StructureNeed;
use crate::units::UnitNeed;
use crate::values::ValueNeed;
use bal_base::{FaultCode, Place, Text};
use bal_tree::{Expr, Literal, Member, Peer, QualifiedName, TypeTree, WaitMember, Word};
use expr_needs::{Expected, Kind, MeetsExprs};
use typed_tree::Operator;

impl<W: Meets> MeetsExprs for ByNeed<W> {
    ghost State = { W.State };

    ghost meaning = { W.meaning };

    ghost going = { λ b. W.going b.meets };

    ghost stands = { λ b. W.stands b.meets };

    // ---- any construct

    fn fails(&mut self, code: FaultCode, at: Place) {
        self.meets.values(ValueNeed::Fails(code, at))
    }

    fn is_of(&mut self, kind: Kind, at: Place) {
        self.meets.operators(OperatorNeed::IsOf(kind, at))
    }

    fn is_wanted(&mut self, at: Place) {
        self.meets.values(ValueNeed::IsWanted(at))
    }

    fn describes(&mut self, tree: &TypeTree) {
        self.meets.values(ValueNeed::Describes(tree))
    }

    fn wants_error_too(&mut self) {
        self.meets.values(ValueNeed::WantsErrorToo)
    }

    fn drops_want(&mut self) {
        self.meets.values(ValueNeed::DropsWant)
    }

    // ---- names, literals and operators

    fn gives_literal(&mut self, literal: &Literal) {
        self.meets.values(ValueNeed::GivesLiteral(literal))
    }

    fn gives_named(&mut self, name: &QualifiedName) {
        self.meets.values(ValueNeed::GivesNamed(name))
    }

    fn forms(&mut self, op: Operator, count: usize, kind: Kind, at: Place) {
        self.meets
            .operators(OperatorNeed::Forms(op, count, kind, at))
    }

    fn decides(&mut self, at: Place) {
        self.meets.values(ValueNeed::Decides(at))
    }

    fn is_sort(&mut self, at: Place) {
        self.meets.operators(OperatorNeed::IsSort(at))
    }

    fn adds(&mut self, at: Place) {
        self.meets.operators(OperatorNeed::Adds(at))
    }

    fn compares(&mut self, op: Operator, at: Place) {
        self.meets.operators(OperatorNeed::Compares(op, at))
    }

    fn splits(&mut self, holds: bool) {
        self.meets.values(ValueNeed::Splits(holds))
    }

    fn switches(&mut self) {
        self.meets.values(ValueNeed::Switches)
    }

    fn turns(&mut self, at: Place) {
        self.meets.values(ValueNeed::Turns(at))
    }

    fn conjoins(&mut self, at: Place) {
        self.meets.values(ValueNeed::Conjoins(at))
    }

    fn disjoins(&mut self, at: Place) {
        self.meets.values(ValueNeed::Disjoins(at))
    }

    fn chooses(&mut self, at: Place) {
        self.meets.values(ValueNeed::Chooses(at))
    }

    fn fills_nil(&mut self, at: Place) {
        self.meets.values(ValueNeed::FillsNil(at))
    }

    fn tests(&mut self, operand: &Expr, at: Place) {
        self.meets.values(ValueNeed::Tests(operand, at))
    }

    fn casts(&mut self, at: Place) {
        self.meets.operators(OperatorNeed::Casts(at))
    }

    fn checks(&mut self, at: Place) {
        self.meets.operators(OperatorNeed::Checks(at))
    }

    fn checks_panicking(&mut self, at: Place) {
        self.meets.operators(OperatorNeed::ChecksPanicking(at))
    }

    fn traps(&mut self, at: Place) {
        self.meets.operators(OperatorNeed::Traps(at))
    }

    fn encloses(&mut self, at: Place) {
        self.meets.values(ValueNeed::Encloses(at))
    }

    // ---- members

    fn is_accessed(&mut self, texts: bool, at: Place) {
        self.meets.members(MemberNeed::IsAccessed(texts, at))
    }

    fn is_index(&mut self, at: Place) {
        self.meets.members(MemberNeed::IsIndex(at))
    }

    fn reads_element(&mut self, at: Place) {
        self.meets.members(MemberNeed::ReadsElement(at))
    }

    fn reads_field(&mut self, field: &Word, at: Place) {
        self.meets.members(MemberNeed::ReadsField(field, at))
    }

    fn reads_optional(&mut self, field: &Word, at: Place) {
        self.meets.members(MemberNeed::ReadsOptional(field, at))
    }

    // ---- constructors

    fn chooses_list(&mut self, expected: Expected, items: &[Expr], at: Place) {
        self.meets
            .structures(StructureNeed::ChoosesList(expected, items, at))
    }

    fn chooses_mapping(&mut self, expected: Expected, members: &[Member], at: Place) {
        self.meets
            .structures(StructureNeed::ChoosesMapping(expected, members, at))
    }

    fn begins_keys(&mut self) {
        self.meets.structures(StructureNeed::BeginsKeys)
    }

    fn gives_key(&mut self, key: &Text, at: Place) {
        self.meets.structures(StructureNeed::GivesKey(key, at))
    }

    fn takes_key(&mut self, key: &Text, at: Place) {
        self.meets.structures(StructureNeed::TakesKey(key, at))
    }

    fn computes_key(&mut self) {
        self.meets.structures(StructureNeed::ComputesKey)
    }

    fn expects_item(&mut self) {
        self.meets.structures(StructureNeed::ExpectsItem)
    }

    fn expects_member(&mut self) {
        self.meets.structures(StructureNeed::ExpectsMember)
    }

    fn is_item(&mut self, at: Place) {
        self.meets.structures(StructureNeed::IsItem(at))
    }

    fn is_member(&mut self, at: Place) {
        self.meets.structures(StructureNeed::IsMember(at))
    }

    fn is_detail(&mut self, at: Place) {
        self.meets.structures(StructureNeed::IsDetail(at))
    }

    fn lacks_cause(&mut self, at: Place) {
        self.meets.structures(StructureNeed::LacksCause(at))
    }

    fn makes_list(&mut self, count: usize, at: Place) {
        self.meets.structures(StructureNeed::MakesList(count, at))
    }

    fn makes_mapping(&mut self, count: usize, at: Place) {
        self.meets
            .structures(StructureNeed::MakesMapping(count, at))
    }

    fn makes_error(&mut self, count: usize, at: Place) {
        self.meets.structures(StructureNeed::MakesError(count, at))
    }

    // ---- calls

    fn calls_named(&mut self, started: bool, name: &QualifiedName, count: usize, at: Place) {
        self.meets
            .calls(CallNeed::CallsNamed(started, name, count, at))
    }

    fn calls_value(&mut self) {
        self.meets.calls(CallNeed::CallsValue)
    }

    fn calls_method(&mut self, method: &Word, count: usize, at: Place) {
        self.meets.calls(CallNeed::CallsMethod(method, count, at))
    }

    fn expects_argument(&mut self, at: Place) {
        self.meets.calls(CallNeed::ExpectsArgument(at))
    }

    fn is_argument(&mut self, at: Place) {
        self.meets.calls(CallNeed::IsArgument(at))
    }

    fn makes_call(&mut self, at: Place) {
        self.meets.calls(CallNeed::MakesCall(at))
    }

    fn starts(&mut self, here: Place, at: Place) {
        self.meets.calls(CallNeed::Starts(here, at))
    }

    fn begins_anonymous(&mut self) {
        self.meets.units(UnitNeed::BeginsAnonymous)
    }

    fn has_parameter(&mut self, name: &Word) {
        self.meets.units(UnitNeed::HasParameter(name))
    }

    fn has_rest(&mut self, name: &Word) {
        self.meets.units(UnitNeed::HasRest(name))
    }

    fn begins_value(&mut self, value: &Expr) {
        self.meets.units(UnitNeed::BeginsValue(value))
    }

    fn makes_anonymous(&mut self, isolated: bool, at: Place) {
        self.meets.units(UnitNeed::MakesAnonymous(isolated, at))
    }

    // ---- actions

    fn awaits(&mut self, name: &QualifiedName) {
        self.meets.actions(ActionNeed::Awaits(name))
    }

    fn waits_for_any(&mut self, names: &[QualifiedName], at: Place) {
        self.meets.actions(ActionNeed::WaitsForAny(names, at))
    }

    fn waits_for_all(&mut self, members: &[WaitMember], at: Place) {
        self.meets.actions(ActionNeed::WaitsForAll(members, at))
    }

    fn receives(&mut self, expected: Expected, peer: &Peer, at: Place) {
        self.meets.actions(ActionNeed::Receives(expected, peer, at))
    }

    fn sends(&mut self, peer: &Peer, at: Place) {
        self.meets.actions(ActionNeed::Sends(peer, at))
    }

    fn sends_and_waits(&mut self, peer: &Peer, at: Place) {
        self.meets.actions(ActionNeed::SendsAndWaits(peer, at))
    }

    fn flushes(&mut self, peer: &Peer, at: Place) {
        self.meets.actions(ActionNeed::Flushes(peer, at))
    }
}
