//! Type descriptors, from the loosest to the tightest: unions of intersections of suffixed primary ones.
#![tactic(auto, using(crate::proofs::TypeLayers::type_layers))]

ghost use Rattle.std.specs.Prelude.{◌≡◌};
ghost use Rattle.bal_tree.specs.declared.types.FieldTree.{out-FieldTree};
ghost use Rattle.bal_tree.specs.declared.types.ParamType.{out-ParamType};
ghost use Rattle.bal_tree.specs.declared.types.ParamTypes.{out-ParamTypes};
ghost use Rattle.bal_tree.specs.Places.{BeginsAt};
ghost use Rattle.bal_tree.specs.TypePieces.{type_pieces, intersection_pieces, postfix_type_pieces, primary_type_pieces};

use crate::name::{Literal, QualifiedName, Word};
use bal_base::Place;

/// A type descriptor.
#[cycle(types)]
#[derive(Drop)]
pub enum TypeTree {
    /// An intersection, or what is tighter.
    Intersection(IntersectionType),
    /// `T|U`
    Union {
        left: Box<TypeTree>,
        right: Box<IntersectionType>,
        at: Place,
    },
}

impl TypeTree {
    /// The place of the type's first token.
    pub fn place(&self) -> Place
        ensures { BeginsAt (type_pieces self.now) result }
    {
        match self {
            TypeTree::Intersection(t) => t.place(),
            TypeTree::Union { at, .. } => *at,
        }
    }
}

/// A type descriptor without a union outside brackets.
#[cycle(types)]
#[derive(Drop)]
pub enum IntersectionType {
    /// A suffixed type, or a primary one.
    Postfix(PostfixType),
    /// `T&U`
    Both {
        left: Box<IntersectionType>,
        right: Box<PostfixType>,
        at: Place,
    },
}

impl IntersectionType {
    /// The place of the type's first token.
    pub fn place(&self) -> Place
        ensures { BeginsAt (intersection_pieces self.now) result }
    {
        match self {
            IntersectionType::Postfix(t) => t.place(),
            IntersectionType::Both { at, .. } => *at,
        }
    }
}

/// A primary type descriptor with its suffixes.
#[cycle(types)]
#[derive(Drop)]
pub enum PostfixType {
    /// Without a suffix.
    Primary(PrimaryType),
    /// `T?`
    Optional {
        of: Box<PostfixType>,
        at: Place,
    },
    /// `T[]`
    Array {
        member: Box<PostfixType>,
        at: Place,
    },
    /// `T[3]`
    FixedArray {
        member: Box<PostfixType>,
        length: i64,
        at: Place,
    },
}

impl PostfixType {
    /// The place of the type's first token.
    pub fn place(&self) -> Place
        ensures { BeginsAt (postfix_type_pieces self.now) result }
    {
        match self {
            PostfixType::Primary(t) => t.place(),
            PostfixType::Optional { at, .. } | PostfixType::Array { at, .. } => *at,
            PostfixType::FixedArray { at, .. } => *at,
        }
    }
}

/// A type descriptor that is one word, or that begins or stands between brackets.
#[cycle(types)]
#[derive(Drop)]
pub enum PrimaryType {
    /// A keyword, as `int`.
    Builtin {
        builtin: BuiltinType,
        at: Place,
    },
    /// A literal, as `1` or `()`.
    Literal(Literal),
    /// An int behind a minus sign, as `-1`.
    Negative {
        int: i64,
        at: Place,
    },
    /// `(T)`
    Parens {
        inner: Box<TypeTree>,
        at: Place,
    },
    /// The name of a type, as `T` or `m:T`.
    Name(QualifiedName),
    /// `map<T>`
    Map {
        member: Box<TypeTree>,
        at: Place,
    },
    /// `future<T>`
    Future {
        result: Box<TypeTree>,
        at: Place,
    },
    /// `error`, or `error<T>`.
    Error {
        detail: Option<Box<TypeTree>>,
        at: Place,
    },
    /// `[T, U]`, with a rest `[T, U, V...]`, or with a rest alone `[V...]`.
    Tuple {
        members: Vec<TypeTree>,
        rest: Option<Box<TypeTree>>,
        at: Place,
    },
    /// `record {| T a; U b?; V...; |}`, where the rest may be absent.
    ClosedRecord {
        fields: Vec<FieldTree>,
        rest: Option<Box<TypeTree>>,
        at: Place,
    },
    /// `record { T a; U b?; }`
    OpenRecord {
        fields: Vec<FieldTree>,
        at: Place,
    },
    /// `function`, or `isolated function`.
    AnyFunction {
        isolated: bool,
        at: Place,
    },
    /// `function (T a, U, V...) returns R`, where `isolated` may stand before it and `returns R` may be absent.
    Function {
        isolated: bool,
        params: ParamTypes,
        result: Option<Box<TypeTree>>,
        at: Place,
    },
}

impl PrimaryType {
    /// The place of the type's first token.
    pub fn place(&self) -> Place
        ensures { BeginsAt (primary_type_pieces self.now) result }
    {
        match self {
            PrimaryType::Literal(l) => l.place(),
            PrimaryType::Name(n) => n.at,
            PrimaryType::Builtin { at, .. } | PrimaryType::Negative { at, .. } => *at,
            PrimaryType::Parens { at, .. } | PrimaryType::Tuple { at, .. } => *at,
            PrimaryType::Map { at, .. } | PrimaryType::Future { at, .. } => *at,
            PrimaryType::Error { at, .. } | PrimaryType::AnyFunction { at, .. } => *at,
            PrimaryType::ClosedRecord { at, .. } | PrimaryType::OpenRecord { at, .. } => *at,
            PrimaryType::Function { at, .. } => *at,
        }
    }
}

/// A type that is a keyword.
#[derive(Clone, Copy)]
pub enum BuiltinType {
    /// `int`
    Int,
    /// `string`
    String,
    /// `boolean`
    Boolean,
    /// `byte`
    Byte,
    /// `any`
    Any,
    /// `anydata`
    AnyData,
    /// `never`
    Never,
    /// `readonly`
    ReadOnly,
}

/// A field of a record type, as `T a;` or `T a?;`.
#[cycle(types)]
#[derive(Drop)]
pub struct FieldTree {
    pub ty: Box<TypeTree>,
    pub name: Word,
    pub optional: bool,
    pub at: Place,
}

impl FieldTree {
    /// The field with these parts.
    pub fn new(ty: Box<TypeTree>, name: Word, optional: bool, at: Place) -> FieldTree
        ensures ty { (out-FieldTree result).ty ≡ ty }
        ensures name { (out-FieldTree result).name ≡ name }
        ensures optional { (out-FieldTree result).optional ≡ optional }
        ensures at { (out-FieldTree result).at ≡ at }
    {
        FieldTree {
            ty,
            name,
            optional,
            at,
        }
    }
}

/// What stands between the parentheses of a function type: the parameters, and the type of the rest.
#[cycle(types)]
#[derive(Drop)]
pub struct ParamTypes {
    pub params: Vec<ParamType>,
    pub rest: Option<Box<TypeTree>>,
}

impl ParamTypes {
    /// These parameters, and the type of the rest if there is one.
    pub fn new(params: Vec<ParamType>, rest: Option<Box<TypeTree>>) -> ParamTypes
        ensures params { (out-ParamTypes result).params ≡ params }
        ensures rest { (out-ParamTypes result).rest ≡ rest }
    {
        ParamTypes { params, rest }
    }
}

/// A parameter of a function type, as `T` or `T a`.
#[cycle(types)]
#[derive(Drop)]
pub struct ParamType {
    pub ty: Box<TypeTree>,
    pub name: Option<Word>,
    pub at: Place,
}

impl ParamType {
    /// The parameter with this type, and with this name if there is one.
    pub fn new(ty: Box<TypeTree>, name: Option<Word>, at: Place) -> ParamType
        ensures ty { (out-ParamType result).ty ≡ ty }
        ensures name { (out-ParamType result).name ≡ name }
        ensures at { (out-ParamType result).at ≡ at }
    {
        ParamType { ty, name, at }
    }
}
