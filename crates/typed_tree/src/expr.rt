//! Typed expressions and actions.
#![tactic(auto, using(crate::proofs::ExprLayers::expr_layers))]

ghost use Rattle.std.specs.Prelude.{◌≡◌};
ghost use Rattle.typed_tree.specs.Exprs.{place_of, type_of};

use crate::form::StrictForm;
use crate::unit::{Captured, SharedTy, TypedUnit};
use bal_base::{Place, Row};
use operations::Constant;

/// An expression or an action, with its type and the place of its first token.
#[cycle(expr)]
#[derive(Drop)]
pub enum TypedExpr {
    /// The operands from left to right, and then what the form says.
    Strict {
        form: StrictForm,
        operands: Vec<TypedExpr>,
        ty: SharedTy,
        at: Place,
    },
    /// A constant that stands for no expression, and is no node: the key of a member that is a word or a string, the
    /// name of a detail, or the cause that an error doesn't have.
    Implied {
        value: Constant,
        ty: SharedTy,
        at: Place,
    },
    /// A parameter, a captured variable or a local one, by its slot; `narrowed` where its type is a narrower one than
    /// that of the slot ("Variable reference expression").
    Local {
        slot: u32,
        narrowed: bool,
        ty: SharedTy,
        at: Place,
    },
    /// `a && b` ("Logical expression")
    And {
        left: Box<TypedExpr>,
        right: Box<TypedExpr>,
        ty: SharedTy,
        at: Place,
    },
    /// `a || b` ("Logical expression")
    Or {
        left: Box<TypedExpr>,
        right: Box<TypedExpr>,
        ty: SharedTy,
        at: Place,
    },
    /// `c ? a : b` ("Conditional expression")
    Conditional {
        condition: Box<TypedExpr>,
        middle: Box<TypedExpr>,
        last: Box<TypedExpr>,
        ty: SharedTy,
        at: Place,
    },
    /// `a ?: b`, which keeps the value of a in a slot of its own ("Nil conditional expression").
    Elvis {
        own: u32,
        left: Box<TypedExpr>,
        right: Box<TypedExpr>,
        ty: SharedTy,
        at: Place,
    },
    /// `check e`, or `checkpanic e` where it panics, of an expression or an action. The value of e is kept in a slot
    /// of its own ("Checking expression").
    Check {
        panics: bool,
        own: u32,
        operand: Box<TypedExpr>,
        ty: SharedTy,
        at: Place,
    },
    /// `trap e`, of an expression or an action ("Trap expression").
    Trap {
        operand: Box<TypedExpr>,
        ty: SharedTy,
        at: Place,
    },
    /// `function (T a) returns R => e` ("Anonymous function expression")
    Function {
        function: Box<AnonymousFunction>,
        value: Box<TypedExpr>,
        ty: SharedTy,
        at: Place,
    },
    /// `(e)`
    Parens {
        inner: Box<TypedExpr>,
        ty: SharedTy,
        at: Place,
    },
}

impl TypedExpr {
    /// The place of the first token. Takes no memory.
    pub fn place(&self) -> Place
        ensures { result ≡ place_of self.now }
    {
        match self {
            TypedExpr::Strict { at, .. } | TypedExpr::Implied { at, .. } => *at,
            TypedExpr::Local { at, .. } | TypedExpr::And { at, .. } => *at,
            TypedExpr::Or { at, .. } | TypedExpr::Conditional { at, .. } => *at,
            TypedExpr::Elvis { at, .. } | TypedExpr::Check { at, .. } => *at,
            TypedExpr::Trap { at, .. } | TypedExpr::Function { at, .. } => *at,
            TypedExpr::Parens { at, .. } => *at,
        }
    }

    /// The type. Takes no memory.
    pub fn ty(&self) -> &SharedTy
        ensures { result.now ≡ type_of self.now }
    {
        match self {
            TypedExpr::Strict { ty, .. } | TypedExpr::Implied { ty, .. } => ty,
            TypedExpr::Local { ty, .. } | TypedExpr::And { ty, .. } => ty,
            TypedExpr::Or { ty, .. } | TypedExpr::Conditional { ty, .. } => ty,
            TypedExpr::Elvis { ty, .. } | TypedExpr::Check { ty, .. } => ty,
            TypedExpr::Trap { ty, .. } | TypedExpr::Function { ty, .. } => ty,
            TypedExpr::Parens { ty, .. } => ty,
        }
    }
}

/// An anonymous function, but for its value.
#[derive(Drop)]
pub struct AnonymousFunction {
    pub isolated: bool,
    pub unit: TypedUnit,
    /// The atom of its lists of arguments.
    pub args: u32,
    /// The variables around it that it uses, in the order of their first uses.
    pub captured: Row<Captured>,
}
