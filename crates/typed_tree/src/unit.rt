//! Units of evaluation: functions, workers, anonymous functions and initialisers.

use crate::event::SeenEvents;
use crate::expr::TypedExpr;
use crate::stmt::TypedStmt;
use bal_base::{Name, Place, Row};
use std::rc::Rc;
use type_model::Ty;

/// A type that several nodes have.
pub type SharedTy = Rc<Ty>;

/// What every unit has. Units are numbered: the functions first, in text order, and then workers, anonymous functions
/// and initialisers as they are met.
#[derive(Drop)]
pub struct TypedUnit {
    pub number: u32,
    /// The declared types of its slots: first the parameters, then the captured variables, then the local
    /// variables and what constructs keep, as they are met.
    pub slots: Row<SharedTy>,
    /// How many of the slots are parameters.
    pub params: u32,
    /// The list atom of its rest parameter, which is then its last one.
    pub rest: Option<u32>,
    pub result: SharedTy,
    /// Its own function atom, and the atom of the futures of its result. Both are 0 in a worker and an initialiser.
    pub arrow: u32,
    pub future: u32,
}

/// A variable that a worker or an anonymous function captures.
#[derive(Drop)]
pub struct Captured {
    /// Its slot in the unit around.
    pub slot: u32,
    /// Whether its type where it is captured is a narrower one than that of this slot.
    pub narrowed: bool,
    /// Its type where it is captured. In an anonymous function its slot is of this type. In a worker its slot is of the
    /// type of the slot around, and where the worker begins it is narrowed to this one.
    pub ty: SharedTy,
    /// The place of its first use.
    pub at: Place,
}

/// A function with a name ("Function definition").
#[derive(Drop)]
pub struct TypedFunction {
    /// The numbers of its module and its file, among those of the package.
    pub module: u32,
    pub file: u32,
    pub name: Name,
    pub public: bool,
    pub isolated: bool,
    pub unit: TypedUnit,
    pub body: TypedBody,
    /// The events of its workers by its syntax, as `skeleton` gives them.
    pub events: SeenEvents,
    /// The place of its first token.
    pub at: Place,
}

/// The body of a function.
#[derive(Drop)]
pub enum TypedBody {
    /// The initial statements, the named workers, and the rest of the default worker's; whether the end is reached,
    /// where nil is returned; and the place of the closing brace ("Function with default worker and named workers").
    Block {
        initial: Vec<TypedStmt>,
        workers: Vec<TypedWorker>,
        rest: Vec<TypedStmt>,
        ends: bool,
        close: Place,
    },
    /// `=> e;`
    Expr {
        value: Box<TypedExpr>,
    },
}

/// A named worker ("Named workers").
#[derive(Drop)]
pub struct TypedWorker {
    pub name: Name,
    pub unit: TypedUnit,
    pub captured: Row<Captured>,
    pub stmts: Vec<TypedStmt>,
    /// Whether the end of its statements is reached, where nil is returned.
    pub ends: bool,
    /// The place of the closing brace, and that of its name.
    pub close: Place,
    pub at: Place,
}
