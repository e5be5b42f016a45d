//! Whoever meets what expressions and actions need.
ghost use Rattle.std.specs.Prelude.{map};
ghost use Rattle.needs.specs.Needs.{Runs};
ghost use Rattle.typed_tree.specs.Listed.{members, one};
ghost use Rattle.expr_needs.specs.ExprTable.{read_expr, read_member, seen_of};
ghost use Rattle.expr_needs.specs.Needs.{Adds, Awaits, BeginsAnonymous, BeginsKeys, BeginsValue, CallsMethod, CallsNamed, CallsValue, Casts, Checks, ChecksPanicking, Chooses, ChoosesList, ChoosesMapping, Compares, ComputesKey, Conjoins, Decides, Describes, Disjoins, DropsWant, Encloses, ExpectsArgument, ExpectsItem, ExpectsMember, Fails, FillsNil, Flushes, Forms, GivesKey, GivesLiteral, GivesNamed, HasParameter, HasRest, IsAccessed, IsArgument, IsDetail, IsIndex, IsItem, IsMember, IsOf, IsSort, IsWanted, LacksCause, MakesAnonymous, MakesCall, MakesError, MakesList, MakesMapping, ReadsElement, ReadsField, ReadsOptional, Receives, Sends, SendsAndWaits, Splits, Starts, Switches, TakesKey, Tests, Traps, Turns, WaitsForAll, WaitsForAny, WantsErrorToo};

use crate::expected::Expected;
use crate::kind::Kind;
use bal_base::{FaultCode, Place, Text};
use bal_tree::{Expr, Literal, Member, Peer, QualifiedName, TypeTree, WaitMember, Word};
use typed_tree::Operator;

/// Whoever meets needs, one behind another: a call for each need. What it means that a need is met is free here, so a walk over any of
/// these says in which order the needs of a tree are met, and nothing else. What was refused, or stopped for want of memory, stays so:
/// needs behind it are met by doing nothing.
pub trait MeetsExprs {
    ghost use Rattle.needs.specs.Needs.{Going};
    ghost use Rattle.checks.specs.Checks.{Check};
    ghost use Rattle.expr_needs.specs.Needs.{Need};

    /// What needs read and change.
    ghost State: { Type 0 };

    /// What it means that a need is met.
    ghost meaning: { Need → Check State (Unit {0}) };

    /// The state, and why the work stopped there, if it did.
    ghost going: { Self → Going State };

    /// What holds between any two needs.
    ghost stands: { Self → Type 0 };

    // ---- any construct

    /// It is refused.
    fn fails(&mut self, code: FaultCode, at: Place)
        requires { stands self.old }
        ensures stands { stands self.new }
        ensures met { Runs meaning (one (Fails code at)) (going self.old) (going self.new) };

    /// The last part is of the kind.
    fn is_of(&mut self, kind: Kind, at: Place)
        requires { stands self.old }
        ensures stands { stands self.new }
        ensures met { Runs meaning (one (IsOf kind at)) (going self.old) (going self.new) };

    /// The last part is below the type that is wanted last, if there is one.
    fn is_wanted(&mut self, at: Place)
        requires { stands self.old }
        ensures stands { stands self.new }
        ensures met { Runs meaning (one (IsWanted at)) (going self.old) (going self.new) };

    /// The type of the descriptor is wanted.
    fn describes(&mut self, tree: &TypeTree)
        requires { stands self.old }
        ensures stands { stands self.new }
        ensures met { Runs meaning (one (Describes tree.now)) (going self.old) (going self.new) };

    /// What is wanted last, or an error, is wanted beside it.
    fn wants_error_too(&mut self)
        requires { stands self.old }
        ensures stands { stands self.new }
        ensures met { Runs meaning (one WantsErrorToo) (going self.old) (going self.new) };

    /// What is wanted last is wanted no more.
    fn drops_want(&mut self)
        requires { stands self.old }
        ensures stands { stands self.new }
        ensures met { Runs meaning (one DropsWant) (going self.old) (going self.new) };

    // ---- names, literals and operators

    /// A literal.
    fn gives_literal(&mut self, literal: &Literal)
        requires { stands self.old }
        ensures stands { stands self.new }
        ensures met { Runs meaning (one (GivesLiteral literal.now)) (going self.old) (going self.new) };

    /// What the name stands for.
    fn gives_named(&mut self, name: &QualifiedName)
        requires { stands self.old }
        ensures stands { stands self.new }
        ensures met { Runs meaning (one (GivesNamed name.now)) (going self.old) (going self.new) };

    /// So many parts are the operands of the operator, which gives the kind.
    fn forms(&mut self, op: Operator, count: usize, kind: Kind, at: Place)
        requires { stands self.old }
        ensures stands { stands self.new }
        ensures met { Runs meaning (one (Forms op count kind at)) (going self.old) (going self.new) };

    /// The operator works on ints, where the last part is below int, and else on strings.
    fn decides(&mut self, at: Place)
        requires { stands self.old }
        ensures stands { stands self.new }
        ensures met { Runs meaning (one (Decides at)) (going self.old) (going self.new) };

    /// The last part is what the operator works on.
    fn is_sort(&mut self, at: Place)
        requires { stands self.old }
        ensures stands { stands self.new }
        ensures met { Runs meaning (one (IsSort at)) (going self.old) (going self.new) };

    /// The last two parts are the operands of `+`.
    fn adds(&mut self, at: Place)
        requires { stands self.old }
        ensures stands { stands self.new }
        ensures met { Runs meaning (one (Adds at)) (going self.old) (going self.new) };

    /// The last two parts are the operands of `<` or its kin.
    fn compares(&mut self, op: Operator, at: Place)
        requires { stands self.old }
        ensures stands { stands self.new }
        ensures met { Runs meaning (one (Compares op at)) (going self.old) (going self.new) };

    /// The last part is a condition, one way of which is entered: where it holds, or where it doesn't.
    fn splits(&mut self, holds: bool)
        requires { stands self.old }
        ensures stands { stands self.new }
        ensures met { Runs meaning (one (Splits holds)) (going self.old) (going self.new) };

    /// The other way is entered.
    fn switches(&mut self)
        requires { stands self.old }
        ensures stands { stands self.new }
        ensures met { Runs meaning (one Switches) (going self.old) (going self.new) };

    /// The last part is the operand of `!`.
    fn turns(&mut self, at: Place)
        requires { stands self.old }
        ensures stands { stands self.new }
        ensures met { Runs meaning (one (Turns at)) (going self.old) (going self.new) };

    /// The last two parts are the operands of `&&`.
    fn conjoins(&mut self, at: Place)
        requires { stands self.old }
        ensures stands { stands self.new }
        ensures met { Runs meaning (one (Conjoins at)) (going self.old) (going self.new) };

    /// The last two parts are the operands of `||`.
    fn disjoins(&mut self, at: Place)
        requires { stands self.old }
        ensures stands { stands self.new }
        ensures met { Runs meaning (one (Disjoins at)) (going self.old) (going self.new) };

    /// The last three parts are a conditional expression.
    fn chooses(&mut self, at: Place)
        requires { stands self.old }
        ensures stands { stands self.new }
        ensures met { Runs meaning (one (Chooses at)) (going self.old) (going self.new) };

    /// The last two parts are the operands of `?:`.
    fn fills_nil(&mut self, at: Place)
        requires { stands self.old }
        ensures stands { stands self.new }
        ensures met { Runs meaning (one (FillsNil at)) (going self.old) (going self.new) };

    /// Whether the last part, which is this expression, is of the wanted type.
    fn tests(&mut self, operand: &Expr, at: Place)
        requires { stands self.old }
        ensures stands { stands self.new }
        ensures met { Runs meaning (one (Tests (read_expr operand.now).name at)) (going self.old) (going self.new) };

    /// The last part is cast to the wanted type.
    fn casts(&mut self, at: Place)
        requires { stands self.old }
        ensures stands { stands self.new }
        ensures met { Runs meaning (one (Casts at)) (going self.old) (going self.new) };

    /// The last part is the operand of `check`.
    fn checks(&mut self, at: Place)
        requires { stands self.old }
        ensures stands { stands self.new }
        ensures met { Runs meaning (one (Checks at)) (going self.old) (going self.new) };

    /// The last part is the operand of `checkpanic`.
    fn checks_panicking(&mut self, at: Place)
        requires { stands self.old }
        ensures stands { stands self.new }
        ensures met { Runs meaning (one (ChecksPanicking at)) (going self.old) (going self.new) };

    /// The last part is the operand of `trap`.
    fn traps(&mut self, at: Place)
        requires { stands self.old }
        ensures stands { stands self.new }
        ensures met { Runs meaning (one (Traps at)) (going self.old) (going self.new) };

    /// The last part stands in parentheses.
    fn encloses(&mut self, at: Place)
        requires { stands self.old }
        ensures stands { stands self.new }
        ensures met { Runs meaning (one (Encloses at)) (going self.old) (going self.new) };

    // ---- members

    /// A member of the last part is taken, of a string only where so marked.
    fn is_accessed(&mut self, texts: bool, at: Place)
        requires { stands self.old }
        ensures stands { stands self.new }
        ensures met { Runs meaning (one (IsAccessed texts at)) (going self.old) (going self.new) };

    /// The last part is its index or key.
    fn is_index(&mut self, at: Place)
        requires { stands self.old }
        ensures stands { stands self.new }
        ensures met { Runs meaning (one (IsIndex at)) (going self.old) (going self.new) };

    /// The member is read.
    fn reads_element(&mut self, at: Place)
        requires { stands self.old }
        ensures stands { stands self.new }
        ensures met { Runs meaning (one (ReadsElement at)) (going self.old) (going self.new) };

    /// The field of the last part is read.
    fn reads_field(&mut self, field: &Word, at: Place)
        requires { stands self.old }
        ensures stands { stands self.new }
        ensures met { Runs meaning (one (ReadsField field.now at)) (going self.old) (going self.new) };

    /// The field of the last part is read, if it is there.
    fn reads_optional(&mut self, field: &Word, at: Place)
        requires { stands self.old }
        ensures stands { stands self.new }
        ensures met { Runs meaning (one (ReadsOptional field.now at)) (going self.old) (going self.new) };

    // ---- constructors

    /// What is constructed of these items is chosen.
    fn chooses_list(&mut self, expected: Expected, items: &[Expr], at: Place)
        requires { stands self.old }
        ensures stands { stands self.new }
        ensures met { Runs meaning (one (ChoosesList expected (map (λ i. i.literal) (map read_expr items.now)) at)) (going self.old) (going self.new) };

    /// What is constructed of these members is chosen.
    fn chooses_mapping(&mut self, expected: Expected, members: &[Member], at: Place)
        requires { stands self.old }
        ensures stands { stands self.new }
        ensures met { Runs meaning (one (ChoosesMapping expected (map seen_of (map read_member members.now)) at)) (going self.old) (going self.new) };

    /// The details of an error, or what a wait names, begin.
    fn begins_keys(&mut self)
        requires { stands self.old }
        ensures stands { stands self.new }
        ensures met { Runs meaning (one BeginsKeys) (going self.old) (going self.new) };

    /// A key more, which is a part.
    fn gives_key(&mut self, key: &Text, at: Place)
        requires { stands self.old }
        ensures stands { stands self.new }
        ensures met { Runs meaning (one (GivesKey key.now at)) (going self.old) (going self.new) };

    /// A key more, which is no part.
    fn takes_key(&mut self, key: &Text, at: Place)
        requires { stands self.old }
        ensures stands { stands self.new }
        ensures met { Runs meaning (one (TakesKey key.now at)) (going self.old) (going self.new) };

    /// The last part is a computed key.
    fn computes_key(&mut self)
        requires { stands self.old }
        ensures stands { stands self.new }
        ensures met { Runs meaning (one ComputesKey) (going self.old) (going self.new) };

    /// The type of the next member of a list is wanted.
    fn expects_item(&mut self)
        requires { stands self.old }
        ensures stands { stands self.new }
        ensures met { Runs meaning (one ExpectsItem) (going self.old) (going self.new) };

    /// The type of the member at the last key of a mapping is wanted.
    fn expects_member(&mut self)
        requires { stands self.old }
        ensures stands { stands self.new }
        ensures met { Runs meaning (one ExpectsMember) (going self.old) (going self.new) };

    /// The last part is an item.
    fn is_item(&mut self, at: Place)
        requires { stands self.old }
        ensures stands { stands self.new }
        ensures met { Runs meaning (one (IsItem at)) (going self.old) (going self.new) };

    /// The last part is a member.
    fn is_member(&mut self, at: Place)
        requires { stands self.old }
        ensures stands { stands self.new }
        ensures met { Runs meaning (one (IsMember at)) (going self.old) (going self.new) };

    /// The last part is a detail.
    fn is_detail(&mut self, at: Place)
        requires { stands self.old }
        ensures stands { stands self.new }
        ensures met { Runs meaning (one (IsDetail at)) (going self.old) (going self.new) };

    /// There is no cause.
    fn lacks_cause(&mut self, at: Place)
        requires { stands self.old }
        ensures stands { stands self.new }
        ensures met { Runs meaning (one (LacksCause at)) (going self.old) (going self.new) };

    /// So many items make a list.
    fn makes_list(&mut self, count: usize, at: Place)
        requires { stands self.old }
        ensures stands { stands self.new }
        ensures met { Runs meaning (one (MakesList count at)) (going self.old) (going self.new) };

    /// So many members make a mapping.
    fn makes_mapping(&mut self, count: usize, at: Place)
        requires { stands self.old }
        ensures stands { stands self.new }
        ensures met { Runs meaning (one (MakesMapping count at)) (going self.old) (going self.new) };

    /// A message, a cause and so many details make an error.
    fn makes_error(&mut self, count: usize, at: Place)
        requires { stands self.old }
        ensures stands { stands self.new }
        ensures met { Runs meaning (one (MakesError count at)) (going self.old) (going self.new) };

    // ---- calls

    /// What the name stands for is called, or where so marked started, with so many arguments.
    fn calls_named(&mut self, started: bool, name: &QualifiedName, count: usize, at: Place)
        requires { stands self.old }
        ensures stands { stands self.new }
        ensures met { Runs meaning (one (CallsNamed started name.now count at)) (going self.old) (going self.new) };

    /// The last part is called.
    fn calls_value(&mut self)
        requires { stands self.old }
        ensures stands { stands self.new }
        ensures met { Runs meaning (one CallsValue) (going self.old) (going self.new) };

    /// A method of the last part is called with so many arguments.
    fn calls_method(&mut self, method: &Word, count: usize, at: Place)
        requires { stands self.old }
        ensures stands { stands self.new }
        ensures met { Runs meaning (one (CallsMethod method.now count at)) (going self.old) (going self.new) };

    /// The type of the next argument is wanted.
    fn expects_argument(&mut self, at: Place)
        requires { stands self.old }
        ensures stands { stands self.new }
        ensures met { Runs meaning (one (ExpectsArgument at)) (going self.old) (going self.new) };

    /// The last part is the next argument.
    fn is_argument(&mut self, at: Place)
        requires { stands self.old }
        ensures stands { stands self.new }
        ensures met { Runs meaning (one (IsArgument at)) (going self.old) (going self.new) };

    /// The call is made.
    fn makes_call(&mut self, at: Place)
        requires { stands self.old }
        ensures stands { stands self.new }
        ensures met { Runs meaning (one (MakesCall at)) (going self.old) (going self.new) };

    /// The call at the first place is started.
    fn starts(&mut self, here: Place, at: Place)
        requires { stands self.old }
        ensures stands { stands self.new }
        ensures met { Runs meaning (one (Starts here at)) (going self.old) (going self.new) };

    /// An anonymous function begins.
    fn begins_anonymous(&mut self)
        requires { stands self.old }
        ensures stands { stands self.new }
        ensures met { Runs meaning (one BeginsAnonymous) (going self.old) (going self.new) };

    /// It has a parameter of the wanted type.
    fn has_parameter(&mut self, name: &Word)
        requires { stands self.old }
        ensures stands { stands self.new }
        ensures met { Runs meaning (one (HasParameter name.now)) (going self.old) (going self.new) };

    /// It takes the rest in lists of the wanted type.
    fn has_rest(&mut self, name: &Word)
        requires { stands self.old }
        ensures stands { stands self.new }
        ensures met { Runs meaning (one (HasRest name.now)) (going self.old) (going self.new) };

    /// Its value, which is this expression, has to be of the wanted type.
    fn begins_value(&mut self, value: &Expr)
        requires { stands self.old }
        ensures stands { stands self.new }
        ensures met { Runs meaning (one (BeginsValue (members (read_expr value.now).used))) (going self.old) (going self.new) };

    /// The last part is its value.
    fn makes_anonymous(&mut self, isolated: bool, at: Place)
        requires { stands self.old }
        ensures stands { stands self.new }
        ensures met { Runs meaning (one (MakesAnonymous isolated at)) (going self.old) (going self.new) };

    // ---- actions

    /// The name stands in a wait.
    fn awaits(&mut self, name: &QualifiedName)
        requires { stands self.old }
        ensures stands { stands self.new }
        ensures met { Runs meaning (one (Awaits name.now)) (going self.old) (going self.new) };

    /// One of the names is waited for.
    fn waits_for_any(&mut self, names: &[QualifiedName], at: Place)
        requires { stands self.old }
        ensures stands { stands self.new }
        ensures met { Runs meaning (one (WaitsForAny names.now at)) (going self.old) (going self.new) };

    /// All of the names are waited for.
    fn waits_for_all(&mut self, members: &[WaitMember], at: Place)
        requires { stands self.old }
        ensures stands { stands self.new }
        ensures met { Runs meaning (one (WaitsForAll (map (λ m. m.name) members.now) at)) (going self.old) (going self.new) };

    /// A message of the peer is received.
    fn receives(&mut self, expected: Expected, peer: &Peer, at: Place)
        requires { stands self.old }
        ensures stands { stands self.new }
        ensures met { Runs meaning (one (Receives expected peer.now at)) (going self.old) (going self.new) };

    /// The last part is sent to the peer.
    fn sends(&mut self, peer: &Peer, at: Place)
        requires { stands self.old }
        ensures stands { stands self.new }
        ensures met { Runs meaning (one (Sends peer.now at)) (going self.old) (going self.new) };

    /// The same, and its receive is waited for.
    fn sends_and_waits(&mut self, peer: &Peer, at: Place)
        requires { stands self.old }
        ensures stands { stands self.new }
        ensures met { Runs meaning (one (SendsAndWaits peer.now at)) (going self.old) (going self.new) };

    /// The receives of what was sent to the peer are waited for.
    fn flushes(&mut self, peer: &Peer, at: Place)
        requires { stands self.old }
        ensures stands { stands self.new }
        ensures met { Runs meaning (one (Flushes peer.now at)) (going self.old) (going self.new) };
}
