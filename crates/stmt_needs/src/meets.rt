//! Whoever meets what statements, bodies and packages need.
ghost use Rattle.bal_tree.specs.declared.stmt.Block.{out-Block};
ghost use Rattle.needs.specs.Needs.{Runs};
ghost use Rattle.tree_places.specs.Assigned.{assigned_in_block};
ghost use Rattle.tree_places.specs.UsedInStmts.{used_in_block};
ghost use Rattle.typed_tree.specs.Listed.{members, one};
ghost use Rattle.expr_needs.specs.ExprTable.{read_expr};
ghost use Rattle.expr_needs.specs.Needs.{Assigns, BeginsBlock, BeginsClause, BeginsFunction, BeginsInitial, BeginsMatch, BeginsWorker, Breaks, Continues, Declares, EndsBlock, EndsClause, EndsFunction, EndsInitial, EndsModule, EndsValueFunction, EndsWorker, EntersFile, ExpectsStored, HasField, HasItem, HasPattern, Heads, IsAssignable, IsConstant, IsCounter, IsIgnorable, IsItemOfLoop, IsNew, IsOperand, MakesBlock, MakesForeach, MakesIf, MakesMatch, MakesRange, MakesWhile, NamesParameter, OpensLoop, Performs, ReadsName, ReadsStored, ReadsStoredField, Returns, ReturnsNil, Stops, Stores, UpdatesElement, UpdatesField, UpdatesName, WantsCounter, WantsResult, Widens, WidensItem};
ghost use Rattle.stmt_needs.specs.PackageTable.{assigned_in_body, within};
ghost use Rattle.stmt_needs.specs.StmtTable.{is_among};

use crate::around::Around;
use bal_base::Place;
use bal_tree::{
    AssignOp, Block, Body, ConstDef, Expr, FunctionDef, Pattern, QualifiedName, RangeOp,
    VariableDef, Word, Worker,
};
use expr_needs::MeetsExprs;
use typed_tree::PerformForm;

/// Whoever meets what expressions need, and what statements, bodies and packages do beside it: a call for each need.
pub trait MeetsStmts: MeetsExprs {
    // ---- what is wanted

    /// The type of the last part, widened, is wanted.
    fn widens(&mut self, at: Place)
        requires { Self.stands self.old }
        ensures stands { Self.stands self.new }
        ensures met { Runs Self.meaning (one (Widens at)) (Self.going self.old) (Self.going self.new) };

    /// The result of the unit is wanted.
    fn wants_result(&mut self)
        requires { Self.stands self.old }
        ensures stands { Self.stands self.new }
        ensures met { Runs Self.meaning (one WantsResult) (Self.going self.old) (Self.going self.new) };

    // ---- declarations and assignments

    /// No variable or worker that is seen has the name.
    fn is_new(&mut self, name: &Word)
        requires { Self.stands self.old }
        ensures stands { Self.stands self.new }
        ensures met { Runs Self.meaning (one (IsNew name.now)) (Self.going self.old) (Self.going self.new) };

    /// A variable of this name has the wanted type and the value of the last part.
    fn declares(&mut self, name: &Word, is_final: bool, around: Around<'_>, at: Place)
        requires { Self.stands self.old }
        ensures stands { Self.stands self.new }
        ensures met { Runs Self.meaning (one (Declares name.now.name is_final (is_among name.now.name (within around.entry).behind) at)) (Self.going self.old) (Self.going self.new) };

    /// The name may be assigned, and its declared type is wanted.
    fn is_assignable(&mut self, name: &QualifiedName)
        requires { Self.stands self.old }
        ensures stands { Self.stands self.new }
        ensures met { Runs Self.meaning (one (IsAssignable name.now)) (Self.going self.old) (Self.going self.new) };

    /// The last part is assigned to it.
    fn assigns(&mut self, name: &QualifiedName, at: Place)
        requires { Self.stands self.old }
        ensures stands { Self.stands self.new }
        ensures met { Runs Self.meaning (one (Assigns name.now at)) (Self.going self.old) (Self.going self.new) };

    /// The field is the key with which a member of a mapping is taken.
    fn has_field(&mut self, field: &Word)
        requires { Self.stands self.old }
        ensures stands { Self.stands self.new }
        ensures met { Runs Self.meaning (one (HasField field.now)) (Self.going self.old) (Self.going self.new) };

    /// A member is stored: its type is wanted.
    fn expects_stored(&mut self, at: Place)
        requires { Self.stands self.old }
        ensures stands { Self.stands self.new }
        ensures met { Runs Self.meaning (one (ExpectsStored at)) (Self.going self.old) (Self.going self.new) };

    /// The last part is stored.
    fn stores(&mut self, at: Place)
        requires { Self.stands self.old }
        ensures stands { Self.stands self.new }
        ensures met { Runs Self.meaning (one (Stores at)) (Self.going self.old) (Self.going self.new) };

    /// What the name stands for is read before it is assigned; its type is wanted.
    fn reads_name(&mut self, name: &QualifiedName)
        requires { Self.stands self.old }
        ensures stands { Self.stands self.new }
        ensures met { Runs Self.meaning (one (ReadsName name.now)) (Self.going self.old) (Self.going self.new) };

    /// The same of a member.
    fn reads_stored(&mut self, at: Place)
        requires { Self.stands self.old }
        ensures stands { Self.stands self.new }
        ensures met { Runs Self.meaning (one (ReadsStored at)) (Self.going self.old) (Self.going self.new) };

    /// The same of a member by its field.
    fn reads_stored_field(&mut self, field: &Word, at: Place)
        requires { Self.stands self.old }
        ensures stands { Self.stands self.new }
        ensures met { Runs Self.meaning (one (ReadsStoredField field.now at)) (Self.going self.old) (Self.going self.new) };

    /// What was read is the left operand of the assignment.
    fn is_operand(&mut self, op: AssignOp, at: Place)
        requires { Self.stands self.old }
        ensures stands { Self.stands self.new }
        ensures met { Runs Self.meaning (one (IsOperand op at)) (Self.going self.old) (Self.going self.new) };

    /// The last part is the right operand, and the name is assigned.
    fn updates_name(&mut self, name: &QualifiedName, op: AssignOp, at: Place)
        requires { Self.stands self.old }
        ensures stands { Self.stands self.new }
        ensures met { Runs Self.meaning (one (UpdatesName name.now op at)) (Self.going self.old) (Self.going self.new) };

    /// The same of a member.
    fn updates_element(&mut self, op: AssignOp, at: Place)
        requires { Self.stands self.old }
        ensures stands { Self.stands self.new }
        ensures met { Runs Self.meaning (one (UpdatesElement op at)) (Self.going self.old) (Self.going self.new) };

    /// The same of a member by its field.
    fn updates_field(&mut self, field: &Word, op: AssignOp, at: Place)
        requires { Self.stands self.old }
        ensures stands { Self.stands self.new }
        ensures met { Runs Self.meaning (one (UpdatesField field.now op at)) (Self.going self.old) (Self.going self.new) };

    // ---- other statements

    /// The last part is nil.
    fn is_ignorable(&mut self, at: Place)
        requires { Self.stands self.old }
        ensures stands { Self.stands self.new }
        ensures met { Runs Self.meaning (one (IsIgnorable at)) (Self.going self.old) (Self.going self.new) };

    /// So many parts are the operands of a statement of this form.
    fn performs(&mut self, form: PerformForm, count: usize, at: Place)
        requires { Self.stands self.old }
        ensures stands { Self.stands self.new }
        ensures met { Runs Self.meaning (one (Performs form count at)) (Self.going self.old) (Self.going self.new) };

    /// No way goes on from here.
    fn stops(&mut self)
        requires { Self.stands self.old }
        ensures stands { Self.stands self.new }
        ensures met { Runs Self.meaning (one Stops) (Self.going self.old) (Self.going self.new) };

    /// The last part is what the unit gives.
    fn returns(&mut self, at: Place)
        requires { Self.stands self.old }
        ensures stands { Self.stands self.new }
        ensures met { Runs Self.meaning (one (Returns at)) (Self.going self.old) (Self.going self.new) };

    /// The unit gives nil.
    fn returns_nil(&mut self, at: Place)
        requires { Self.stands self.old }
        ensures stands { Self.stands self.new }
        ensures met { Runs Self.meaning (one (ReturnsNil at)) (Self.going self.old) (Self.going self.new) };

    /// The loop ends.
    fn breaks(&mut self, at: Place)
        requires { Self.stands self.old }
        ensures stands { Self.stands self.new }
        ensures met { Runs Self.meaning (one (Breaks at)) (Self.going self.old) (Self.going self.new) };

    /// The next turn of the loop begins.
    fn continues(&mut self, at: Place)
        requires { Self.stands self.old }
        ensures stands { Self.stands self.new }
        ensures met { Runs Self.meaning (one (Continues at)) (Self.going self.old) (Self.going self.new) };

    // ---- blocks, branches and loops

    /// A block begins.
    fn begins_block(&mut self)
        requires { Self.stands self.old }
        ensures stands { Self.stands self.new }
        ensures met { Runs Self.meaning (one BeginsBlock) (Self.going self.old) (Self.going self.new) };

    /// Its variables are seen no more.
    fn ends_block(&mut self)
        requires { Self.stands self.old }
        ensures stands { Self.stands self.new }
        ensures met { Runs Self.meaning (one EndsBlock) (Self.going self.old) (Self.going self.new) };

    /// The last block is a statement.
    fn makes_block(&mut self, at: Place)
        requires { Self.stands self.old }
        ensures stands { Self.stands self.new }
        ensures met { Runs Self.meaning (one (MakesBlock at)) (Self.going self.old) (Self.going self.new) };

    /// The last two blocks are the ways of a branch.
    fn makes_if(&mut self, at: Place)
        requires { Self.stands self.old }
        ensures stands { Self.stands self.new }
        ensures met { Runs Self.meaning (one (MakesIf at)) (Self.going self.old) (Self.going self.new) };

    /// A loop with this body begins.
    fn heads(&mut self, body: &Block)
        requires { Self.stands self.old }
        ensures stands { Self.stands self.new }
        ensures met { Runs Self.meaning (one (Heads (members (assigned_in_block body.now)))) (Self.going self.old) (Self.going self.new) };

    /// What is known at the head of the loop is remembered.
    fn opens_loop(&mut self)
        requires { Self.stands self.old }
        ensures stands { Self.stands self.new }
        ensures met { Runs Self.meaning (one OpensLoop) (Self.going self.old) (Self.going self.new) };

    /// The last block is the body of a loop with the last part as its condition, and whether something goes on behind it.
    fn makes_while(&mut self, leaves: bool, at: Place)
        requires { Self.stands self.old }
        ensures stands { Self.stands self.new }
        ensures met { Runs Self.meaning (one (MakesWhile leaves at)) (Self.going self.old) (Self.going self.new) };

    /// A member of the last part is below what is wanted.
    fn is_item_of_loop(&mut self, at: Place)
        requires { Self.stands self.old }
        ensures stands { Self.stands self.new }
        ensures met { Runs Self.meaning (one (IsItemOfLoop at)) (Self.going self.old) (Self.going self.new) };

    /// The type of such a member, widened, is wanted.
    fn widens_item(&mut self, at: Place)
        requires { Self.stands self.old }
        ensures stands { Self.stands self.new }
        ensures met { Runs Self.meaning (one (WidensItem at)) (Self.going self.old) (Self.going self.new) };

    /// An int is below what is wanted.
    fn is_counter(&mut self, at: Place)
        requires { Self.stands self.old }
        ensures stands { Self.stands self.new }
        ensures met { Runs Self.meaning (one (IsCounter at)) (Self.going self.old) (Self.going self.new) };

    /// An int is wanted.
    fn wants_counter(&mut self)
        requires { Self.stands self.old }
        ensures stands { Self.stands self.new }
        ensures met { Runs Self.meaning (one WantsCounter) (Self.going self.old) (Self.going self.new) };

    /// The loop with this body has a variable of the wanted type.
    fn has_item(&mut self, name: &Word, body: &Block)
        requires { Self.stands self.old }
        ensures stands { Self.stands self.new }
        ensures met { Runs Self.meaning (one (HasItem name.now.name (is_among name.now.name (members (assigned_in_block body.now))))) (Self.going self.old) (Self.going self.new) };

    /// The last block is the body of a loop over the last part.
    fn makes_foreach(&mut self, at: Place)
        requires { Self.stands self.old }
        ensures stands { Self.stands self.new }
        ensures met { Runs Self.meaning (one (MakesForeach at)) (Self.going self.old) (Self.going self.new) };

    /// The same over the ints between the last two parts.
    fn makes_range(&mut self, op: RangeOp, at: Place)
        requires { Self.stands self.old }
        ensures stands { Self.stands self.new }
        ensures met { Runs Self.meaning (one (MakesRange op at)) (Self.going self.old) (Self.going self.new) };

    /// A match on the last part, which is this expression, begins.
    fn begins_match(&mut self, value: &Expr)
        requires { Self.stands self.old }
        ensures stands { Self.stands self.new }
        ensures met { Runs Self.meaning (one (BeginsMatch (read_expr value.now).name (read_expr value.now).at)) (Self.going self.old) (Self.going self.new) };

    /// The next clause has the pattern.
    fn has_pattern(&mut self, pattern: &Pattern)
        requires { Self.stands self.old }
        ensures stands { Self.stands self.new }
        ensures met { Runs Self.meaning (one (HasPattern pattern.now)) (Self.going self.old) (Self.going self.new) };

    /// The clause begins, and whether it takes all that is left.
    fn begins_clause(&mut self, any: bool)
        requires { Self.stands self.old }
        ensures stands { Self.stands self.new }
        ensures met { Runs Self.meaning (one (BeginsClause any)) (Self.going self.old) (Self.going self.new) };

    /// It ends.
    fn ends_clause(&mut self, at: Place)
        requires { Self.stands self.old }
        ensures stands { Self.stands self.new }
        ensures met { Runs Self.meaning (one (EndsClause at)) (Self.going self.old) (Self.going self.new) };

    /// The match ends, and whether a clause took all.
    fn makes_match(&mut self, any: bool, at: Place)
        requires { Self.stands self.old }
        ensures stands { Self.stands self.new }
        ensures met { Runs Self.meaning (one (MakesMatch any at)) (Self.going self.old) (Self.going self.new) };

    // ---- units

    /// What follows stands in this file of this module.
    fn enters_file(&mut self, number: usize, file: usize)
        requires { Self.stands self.old }
        ensures stands { Self.stands self.new }
        ensures met { Runs Self.meaning (one (EntersFile number file)) (Self.going self.old) (Self.going self.new) };

    /// A function begins.
    fn begins_function(&mut self, d: &FunctionDef)
        requires { Self.stands self.old }
        ensures stands { Self.stands self.new }
        ensures met { Runs Self.meaning (one (BeginsFunction d.now)) (Self.going self.old) (Self.going self.new) };

    /// The next parameter of the function with this body has the name.
    fn names_parameter(&mut self, name: &Word, body: &Body)
        requires { Self.stands self.old }
        ensures stands { Self.stands self.new }
        ensures met { Runs Self.meaning (one (NamesParameter name.now (is_among name.now.name (assigned_in_body body.now)))) (Self.going self.old) (Self.going self.new) };

    /// It ends at this brace.
    fn ends_function(&mut self, d: &FunctionDef, close: Place)
        requires { Self.stands self.old }
        ensures stands { Self.stands self.new }
        ensures met { Runs Self.meaning (one (EndsFunction d.now close)) (Self.going self.old) (Self.going self.new) };

    /// It gives the last part.
    fn ends_value_function(&mut self, d: &FunctionDef)
        requires { Self.stands self.old }
        ensures stands { Self.stands self.new }
        ensures met { Runs Self.meaning (one (EndsValueFunction d.now)) (Self.going self.old) (Self.going self.new) };

    /// A worker with this number begins.
    fn begins_worker(&mut self, worker: &Worker, number: usize)
        requires { Self.stands self.old }
        ensures stands { Self.stands self.new }
        ensures met { Runs Self.meaning (one (BeginsWorker worker.now number (members (used_in_block worker.now.body)))) (Self.going self.old) (Self.going self.new) };

    /// It ends.
    fn ends_worker(&mut self, worker: &Worker)
        requires { Self.stands self.old }
        ensures stands { Self.stands self.new }
        ensures met { Runs Self.meaning (one (EndsWorker worker.now (out-Block worker.now.body).close)) (Self.going self.old) (Self.going self.new) };

    /// The initial value of a variable of the module begins, and whether the module is initialised.
    fn begins_initial(&mut self, d: &VariableDef, kept: bool)
        requires { Self.stands self.old }
        ensures stands { Self.stands self.new }
        ensures met { Runs Self.meaning (one (BeginsInitial d.now kept)) (Self.going self.old) (Self.going self.new) };

    /// The last part is that value.
    fn ends_initial(&mut self, d: &VariableDef, kept: bool)
        requires { Self.stands self.old }
        ensures stands { Self.stands self.new }
        ensures met { Runs Self.meaning (one (EndsInitial d.now kept)) (Self.going self.old) (Self.going self.new) };

    /// The module ends.
    fn ends_module(&mut self, number: usize)
        requires { Self.stands self.old }
        ensures stands { Self.stands self.new }
        ensures met { Runs Self.meaning (one (EndsModule number)) (Self.going self.old) (Self.going self.new) };

    /// The value of the constant is of its type.
    fn is_constant(&mut self, d: &ConstDef)
        requires { Self.stands self.old }
        ensures stands { Self.stands self.new }
        ensures met { Runs Self.meaning (one (IsConstant d.now)) (Self.going self.old) (Self.going self.new) };
}
