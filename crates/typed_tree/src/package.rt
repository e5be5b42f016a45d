//! Packages.

use crate::expr::TypedExpr;
use crate::unit::{SharedTy, TypedFunction, TypedUnit};
use bal_base::{Name, Place};

/// A package whose bodies are checked.
#[derive(Drop)]
pub struct TypedPackage {
    /// The functions of all modules, in text order: each stands at the number of its unit.
    pub functions: Vec<TypedFunction>,
    /// The module variables, by number.
    pub variables: Vec<ModuleVariable>,
    /// What the modules with variables do first, in the order of the modules.
    pub initialisers: Vec<Initialiser>,
    /// The unit of `main`, and the list atom of its arguments, or 0 where it has no parameter.
    pub start: u32,
    pub words: u32,
    /// How many units there are.
    pub units: u32,
}

/// A variable of a module ("Module variable declaration").
#[derive(Drop)]
pub struct ModuleVariable {
    pub module: u32,
    pub file: u32,
    pub name: Name,
    pub ty: SharedTy,
    pub is_final: bool,
    /// The place of its name.
    pub at: Place,
}

/// What a module with variables does first: it evaluates and stores the initial values, in text order ("Module
/// initialization").
#[derive(Drop)]
pub struct Initialiser {
    pub module: u32,
    pub unit: TypedUnit,
    pub values: Vec<Initial>,
}

/// The initial value of a module variable, by its number.
#[derive(Drop)]
pub struct Initial {
    pub variable: u32,
    pub value: Box<TypedExpr>,
    pub at: Place,
}
