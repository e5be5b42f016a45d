//! What statements, bodies and packages need beside, as values.
#![tactic(auto)]

use crate::by_need::ByNeed;
use crate::calls::CallNeed;
use crate::loops::LoopNeed;
use crate::meets::Meets;
use crate::members::MemberNeed;
use crate::statements::StmtNeed;
use crate::units::UnitNeed;
use crate::values::ValueNeed;
use bal_base::Place;
use bal_tree::{
    AssignOp, Block, Body, ConstDef, Expr, FunctionDef, Pattern, QualifiedName, RangeOp,
    VariableDef, Word, Worker,
};
use stmt_needs::{Around, MeetsStmts};
use typed_tree::PerformForm;

impl<W: Meets> MeetsStmts for ByNeed<W> {
    // ---- what is wanted

    fn widens(&mut self, at: Place) {
        self.meets.values(ValueNeed::Widens(at))
    }

    fn wants_result(&mut self) {
        self.meets.values(ValueNeed::WantsResult)
    }

    // ---- declarations and assignments

    fn is_new(&mut self, name: &Word) {
        self.meets.statements(StmtNeed::IsNew(name))
    }

    fn declares(&mut self, name: &Word, is_final: bool, around: Around<'_>, at: Place) {
        self.meets
            .statements(StmtNeed::Declares(name, is_final, around, at))
    }

    fn is_assignable(&mut self, name: &QualifiedName) {
        self.meets.statements(StmtNeed::IsAssignable(name))
    }

    fn assigns(&mut self, name: &QualifiedName, at: Place) {
        self.meets.statements(StmtNeed::Assigns(name, at))
    }

    fn has_field(&mut self, field: &Word) {
        self.meets.members(MemberNeed::HasField(field))
    }

    fn expects_stored(&mut self, at: Place) {
        self.meets.members(MemberNeed::ExpectsStored(at))
    }

    fn stores(&mut self, at: Place) {
        self.meets.members(MemberNeed::Stores(at))
    }

    fn reads_name(&mut self, name: &QualifiedName) {
        self.meets.statements(StmtNeed::ReadsName(name))
    }

    fn reads_stored(&mut self, at: Place) {
        self.meets.members(MemberNeed::ReadsStored(at))
    }

    fn reads_stored_field(&mut self, field: &Word, at: Place) {
        self.meets.members(MemberNeed::ReadsStoredField(field, at))
    }

    fn is_operand(&mut self, op: AssignOp, at: Place) {
        self.meets.members(MemberNeed::IsOperand(op, at))
    }

    fn updates_name(&mut self, name: &QualifiedName, op: AssignOp, at: Place) {
        self.meets.statements(StmtNeed::UpdatesName(name, op, at))
    }

    fn updates_element(&mut self, op: AssignOp, at: Place) {
        self.meets.members(MemberNeed::UpdatesElement(op, at))
    }

    fn updates_field(&mut self, field: &Word, op: AssignOp, at: Place) {
        self.meets.members(MemberNeed::UpdatesField(field, op, at))
    }

    // ---- other statements

    fn is_ignorable(&mut self, at: Place) {
        self.meets.calls(CallNeed::IsIgnorable(at))
    }

    fn performs(&mut self, form: PerformForm, count: usize, at: Place) {
        self.meets.calls(CallNeed::Performs(form, count, at))
    }

    fn stops(&mut self) {
        self.meets.statements(StmtNeed::Stops)
    }

    fn returns(&mut self, at: Place) {
        self.meets.statements(StmtNeed::Returns(at))
    }

    fn returns_nil(&mut self, at: Place) {
        self.meets.statements(StmtNeed::ReturnsNil(at))
    }

    fn breaks(&mut self, at: Place) {
        self.meets.statements(StmtNeed::Breaks(at))
    }

    fn continues(&mut self, at: Place) {
        self.meets.statements(StmtNeed::Continues(at))
    }

    // ---- blocks, branches and loops

    fn begins_block(&mut self) {
        self.meets.statements(StmtNeed::BeginsBlock)
    }

    fn ends_block(&mut self) {
        self.meets.statements(StmtNeed::EndsBlock)
    }

    fn makes_block(&mut self, at: Place) {
        self.meets.statements(StmtNeed::MakesBlock(at))
    }

    fn makes_if(&mut self, at: Place) {
        self.meets.statements(StmtNeed::MakesIf(at))
    }

    fn heads(&mut self, body: &Block) {
        self.meets.statements(StmtNeed::Heads(body))
    }

    fn opens_loop(&mut self) {
        self.meets.statements(StmtNeed::OpensLoop)
    }

    fn makes_while(&mut self, leaves: bool, at: Place) {
        self.meets.statements(StmtNeed::MakesWhile(leaves, at))
    }

    fn is_item_of_loop(&mut self, at: Place) {
        self.meets.loops(LoopNeed::IsItemOfLoop(at))
    }

    fn widens_item(&mut self, at: Place) {
        self.meets.loops(LoopNeed::WidensItem(at))
    }

    fn is_counter(&mut self, at: Place) {
        self.meets.loops(LoopNeed::IsCounter(at))
    }

    fn wants_counter(&mut self) {
        self.meets.loops(LoopNeed::WantsCounter)
    }

    fn has_item(&mut self, name: &Word, body: &Block) {
        self.meets.loops(LoopNeed::HasItem(name, body))
    }

    fn makes_foreach(&mut self, at: Place) {
        self.meets.loops(LoopNeed::MakesForeach(at))
    }

    fn makes_range(&mut self, op: RangeOp, at: Place) {
        self.meets.loops(LoopNeed::MakesRange(op, at))
    }

    fn begins_match(&mut self, value: &Expr) {
        self.meets.loops(LoopNeed::BeginsMatch(value))
    }

    fn has_pattern(&mut self, pattern: &Pattern) {
        self.meets.loops(LoopNeed::HasPattern(pattern))
    }

    fn begins_clause(&mut self, any: bool) {
        self.meets.loops(LoopNeed::BeginsClause(any))
    }

    fn ends_clause(&mut self, at: Place) {
        self.meets.loops(LoopNeed::EndsClause(at))
    }

    fn makes_match(&mut self, any: bool, at: Place) {
        self.meets.loops(LoopNeed::MakesMatch(any, at))
    }

    // ---- units

    fn enters_file(&mut self, number: usize, file: usize) {
        self.meets.units(UnitNeed::EntersFile(number, file))
    }

    fn begins_function(&mut self, d: &FunctionDef) {
        self.meets.units(UnitNeed::BeginsFunction(d))
    }

    fn names_parameter(&mut self, name: &Word, body: &Body) {
        self.meets.units(UnitNeed::NamesParameter(name, body))
    }

    fn ends_function(&mut self, d: &FunctionDef, close: Place) {
        self.meets.units(UnitNeed::EndsFunction(d, close))
    }

    fn ends_value_function(&mut self, d: &FunctionDef) {
        self.meets.units(UnitNeed::EndsValueFunction(d))
    }

    fn begins_worker(&mut self, worker: &Worker, number: usize) {
        self.meets.units(UnitNeed::BeginsWorker(worker, number))
    }

    fn ends_worker(&mut self, worker: &Worker) {
        self.meets.units(UnitNeed::EndsWorker(worker))
    }

    fn begins_initial(&mut self, d: &VariableDef, kept: bool) {
        self.meets.units(UnitNeed::BeginsInitial(d, kept))
    }

    fn ends_initial(&mut self, d: &VariableDef, kept: bool) {
        self.meets.units(UnitNeed::EndsInitial(d, kept))
    }

    fn ends_module(&mut self, number: usize) {
        self.meets.units(UnitNeed::EndsModule(number))
    }

    fn is_constant(&mut self, d: &ConstDef) {
        self.meets.units(UnitNeed::IsConstant(d))
    }
}
