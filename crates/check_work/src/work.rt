//! What the checkers have at hand, as they hold it.

use bal_base::{Fault, Name, Place, Stop, Text};
use check_words::Access;
use descriptors::{Names, Scope, Signature};
use flow_narrowing::{Flow, Variable};
use operations::LibraryCall;
use std::alloc::Global;
use type_model::Ty;
use typed_tree::{
    Captured, Initial, Initialiser, ModuleVariable, SeenEvents, SharedTy, TypedClause, TypedExpr,
    TypedFunction, TypedPattern, TypedStmt, TypedWorker,
};

/// Where bodies stand.
#[derive(Drop)]
pub struct Site {
    /// The module and the file.
    pub scope: Scope,
    /// The names of the function's workers.
    pub workers: Vec<Name>,
    /// What each of its workers gives, the default worker first, or the fault of the descriptor that says so.
    pub results: Vec<Result<SharedTy, Fault>>,
    /// The events of the function.
    pub events: SeenEvents,
}

/// What is known where a condition holds, and where it doesn't.
#[derive(Drop)]
pub struct Ways {
    pub yes: Flow,
    pub no: Flow,
}

/// What is known at the place that is checked: the variables that are seen, in the order of their declarations, and
/// whether the place is reached. A change of one of them costs nothing for the others.
#[derive(Drop)]
pub struct Here {
    pub variables: Vec<Variable>,
    pub reached: bool,
}

/// A choice or a loop that is open.
#[derive(Drop)]
pub struct Choice {
    /// What was known before it.
    pub before: Flow,
    /// The way that isn't entered yet.
    pub other: Flow,
    /// Where the first way has come to.
    pub first: Flow,
}

/// A match that is open.
#[derive(Drop)]
pub struct Match {
    /// The place of its value, and the variable that it is on.
    pub at: Place,
    pub on: Option<Name>,
    /// What was known before it.
    pub before: Flow,
    /// The type that is left for the clauses to come.
    pub left: SharedTy,
    /// The patterns of the clause at hand, the clauses that are done, and where they have come to.
    pub patterns: Vec<TypedPattern>,
    pub clauses: Vec<TypedClause>,
    pub ends: Vec<Flow>,
}

/// A constructor that is open.
#[derive(Drop)]
pub struct Constructor {
    /// The atom that it chose, and whether its value is immutable.
    pub choice: Option<u32>,
    pub immutable: bool,
    /// Its keys so far, none for a computed one. A list has no keys.
    pub keys: Vec<Option<Text>>,
    /// The types of its members so far.
    pub types: Vec<Ty>,
}

/// What is called.
#[derive(Drop)]
pub enum Callee<'a> {
    /// A function by its name.
    Function(&'a Signature),
    /// The part before the arguments.
    Value,
    /// A call of the library, and the type of the receiver of a method, which is the part before the arguments.
    Library(LibraryCall, Option<SharedTy>),
}

/// A call that is open, and how many arguments were found.
#[derive(Drop)]
pub struct Call<'a> {
    pub callee: Callee<'a>,
    pub args: usize,
}

/// A block that is open: its statements so far, and how many variables are seen where it begins.
#[derive(Drop)]
pub struct Block {
    pub stmts: Vec<TypedStmt>,
    pub scope: usize,
}

/// A unit of evaluation that isn't done.
#[derive(Drop)]
pub struct Unit {
    pub number: u32,
    /// Which worker of its function it is, the default one being 0.
    pub worker: u32,
    /// The declared types of its slots, and how many of them are parameters.
    pub slots: Vec<SharedTy>,
    pub params: u32,
    /// The atom of the lists of its rest parameter, and the type of their members.
    pub rest: Option<u32>,
    pub rest_member: Option<SharedTy>,
    pub result: SharedTy,
    /// Its own atoms, where they are known from the start.
    pub arrow: u32,
    pub future: u32,
    pub captured: Vec<Captured>,
    /// What is known at the place in it that is checked.
    pub here: Here,
}

/// The initialiser of a module, and the initial values that are done.
#[derive(Drop)]
pub struct Initials {
    pub unit: Unit,
    pub values: Vec<Initial>,
}

/// What is done of the package.
#[derive(Drop)]
pub struct Done {
    /// The number of the next worker, anonymous function or initialiser.
    pub next_unit: u32,
    pub functions: Vec<TypedFunction>,
    /// The workers of the function at hand.
    pub workers: Vec<TypedWorker>,
    pub variables: Vec<ModuleVariable>,
    pub initialisers: Vec<Initialiser>,
}

/// The checkers at work. Of what is open the last one is the innermost one.
#[derive(Drop)]
pub struct Work<'a> {
    pub site: Site,
    /// Parts that wait for their construct.
    pub found: Vec<TypedExpr>,
    /// What the last part says of variables, if it is a condition.
    pub ways: Option<Ways>,
    /// Types that parts have to be below, or that they make; none where nothing is known.
    pub wants: Vec<Option<SharedTy>>,
    /// Whether operators that wait for their right operand work on ints.
    pub sorts: Vec<bool>,
    /// What the members that wait for their index are taken of.
    pub accesses: Vec<Access>,
    pub constructors: Vec<Constructor>,
    pub calls: Vec<Call<'a>>,
    pub choices: Vec<Choice>,
    pub matches: Vec<Match>,
    pub blocks: Vec<Block>,
    /// The units around the one at hand, and that one.
    pub around: Vec<Unit>,
    pub unit: Option<Unit>,
    /// That of the module at hand.
    pub initials: Option<Initials>,
    pub done: Done,
    /// Why the work stopped, if it did.
    pub stop: Option<Stop<Fault>>,
}

/// Whoever meets needs: the types over the atoms so far, what the names of the package stand for, and the work.
pub struct Checker<'a, T> {
    pub alloc: Global,
    pub types: T,
    pub names: &'a Names,
    pub work: Work<'a>,
}
