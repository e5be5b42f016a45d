//! Parameters of functions, with a name or without one.
use crate::name::Word;
use crate::types::TypeTree;
use bal_base::Place;

/// What stands between the parentheses of a function: the parameters, and the one that takes the rest.
#[derive(Drop)]
pub struct Params {
    pub params: Vec<Param>,
    pub rest: Option<Param>,
}

/// A parameter, as `T a`, or where it takes the rest, as `T... a`.
#[derive(Drop)]
pub struct Param {
    pub ty: Box<TypeTree>,
    pub name: Word,
    pub at: Place,
}
