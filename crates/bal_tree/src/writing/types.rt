//! Type descriptors and parameters.
#![tactic(auto, using(crate::proofs::Adding::adding, crate::proofs::TypeLayers::type_layers))]

ghost use Rattle.std.specs.Prelude.{◌≡◌, map};
ghost use Rattle.bal_base.specs.declared.token.Keyword.TheVariants.{Record as RecordKey};
ghost use Rattle.bal_base.specs.declared.token.Sign.TheVariants.{Comma, OpenParen, CloseParen, OpenBracket, CloseBracket, OpenBrace, CloseBrace, OpenBraceBar, CloseBraceBar, Semicolon};
ghost use Rattle.bal_tree.specs.Pieces.{◌&◌, key as key_piece, sign as sign_piece, sign_if as sign_if_piece, if_there, if_boxed, joined, separated};
ghost use Rattle.bal_tree.specs.Writing.{Writes};
ghost use Rattle.bal_tree.specs.NamePieces.{word_pieces};
ghost use Rattle.bal_tree.specs.TypePieces.{type_pieces, intersection_pieces, postfix_type_pieces, primary_type_pieces, field_pieces, param_type_pieces, param_types_pieces, builtin_key as builtin_word, in_angles as angled, returning, as_rest, function_word, with_last_boxed, param_pieces, rest_param_pieces, params_pieces};

use super::names::{int, literal, name, negative, word};
use super::output::Output;
use super::signs::{key, key_if, sign, sign_if};
use crate::name::Word;
use crate::params::{Param, Params};
use crate::types::{
    BuiltinType, FieldTree, IntersectionType, ParamType, ParamTypes, PostfixType, PrimaryType,
    TypeTree,
};
use bal_base::{Keyword, Sign};

#[cycle(types)]
pub fn type_tree(out: &mut Output, t: &TypeTree)
    ensures { Writes out.old (type_pieces t.now) out.new }
{
    match t {
        TypeTree::Intersection(t) => intersection(out, t),
        TypeTree::Union { left, right, .. } => {
            type_tree(out, left);
            sign(out, Sign::Bar);
            intersection(out, right);
        }
    }
}

#[cycle(types)]
fn intersection(out: &mut Output, t: &IntersectionType)
    ensures { Writes out.old (intersection_pieces t.now) out.new }
{
    match t {
        IntersectionType::Postfix(t) => postfix(out, t),
        IntersectionType::Both { left, right, .. } => {
            intersection(out, left);
            sign(out, Sign::Ampersand);
            postfix(out, right);
        }
    }
}

#[cycle(types)]
fn postfix(out: &mut Output, t: &PostfixType)
    ensures { Writes out.old (postfix_type_pieces t.now) out.new }
{
    match t {
        PostfixType::Primary(t) => primary(out, t),
        PostfixType::Optional { of, .. } => {
            postfix(out, of);
            sign(out, Sign::Question);
        }
        PostfixType::Array { member, .. } => {
            postfix(out, member);
            sign(out, Sign::OpenBracket);
            sign(out, Sign::CloseBracket);
        }
        PostfixType::FixedArray { member, length, .. } => {
            postfix(out, member);
            sign(out, Sign::OpenBracket);
            int(out, *length);
            sign(out, Sign::CloseBracket);
        }
    }
}

#[cycle(types)]
fn primary(out: &mut Output, t: &PrimaryType)
    ensures { Writes out.old (primary_type_pieces t.now) out.new }
{
    match t {
        PrimaryType::Builtin { builtin, .. } => key(out, builtin_key(*builtin)),
        PrimaryType::Literal(l) => literal(out, l),
        PrimaryType::Negative { int, .. } => negative(out, *int),
        PrimaryType::Parens { inner, .. } => parens(out, inner),
        PrimaryType::Name(n) => name(out, n),
        PrimaryType::Map { member, .. } => {
            key(out, Keyword::Map);
            in_angles(out, member);
        }
        PrimaryType::Future { result, .. } => {
            key(out, Keyword::Future);
            in_angles(out, result);
        }
        PrimaryType::Error { detail, .. } => {
            key(out, Keyword::Error);
            angles_if_there(out, detail);
        }
        PrimaryType::Tuple { members, rest, .. } => {
            sign(out, Sign::OpenBracket);
            type_list(out, members);
            rest_type(out, !members.is_empty(), rest);
            sign(out, Sign::CloseBracket);
        }
        PrimaryType::ClosedRecord { fields, rest, .. } => {
            key(out, Keyword::Record);
            sign(out, Sign::OpenBraceBar);
            field_list(out, fields);
            rest_field(out, rest);
            sign(out, Sign::CloseBraceBar);
        }
        PrimaryType::OpenRecord { fields, .. } => open_record(out, fields),
        PrimaryType::AnyFunction { isolated, .. } => any_function(out, *isolated),
        PrimaryType::Function {
            isolated,
            params,
            result,
            ..
        } => {
            any_function(out, *isolated);
            param_types(out, params);
            result_if_there(out, result);
        }
    }
}

fn builtin_key(builtin: BuiltinType) -> Keyword
    ensures { result ≡ builtin_word builtin }
{
    match builtin {
        BuiltinType::Int => Keyword::Int,
        BuiltinType::String => Keyword::String,
        BuiltinType::Boolean => Keyword::Boolean,
        BuiltinType::Byte => Keyword::Byte,
        BuiltinType::Any => Keyword::Any,
        BuiltinType::AnyData => Keyword::AnyData,
        BuiltinType::Never => Keyword::Never,
        BuiltinType::ReadOnly => Keyword::ReadOnly,
    }
}

#[cycle(types)]
fn parens(out: &mut Output, inner: &TypeTree)
    ensures { Writes out.old (sign_piece OpenParen & type_pieces inner.now & sign_piece CloseParen) out.new }
{
    sign(out, Sign::OpenParen);
    type_tree(out, inner);
    sign(out, Sign::CloseParen);
}

/// `<T>`
#[cycle(types)]
pub fn in_angles(out: &mut Output, t: &TypeTree)
    ensures { Writes out.old (angled (type_pieces t.now)) out.new }
{
    sign(out, Sign::Less);
    type_tree(out, t);
    sign(out, Sign::Greater);
}

/// `<T>`, where there is a type.
#[cycle(types)]
fn angles_if_there(out: &mut Output, t: &Option<Box<TypeTree>>)
    ensures { Writes out.old (if_boxed (λ t. angled (type_pieces t)) t.now) out.new }
{
    if let Some(t) = t {
        in_angles(out, t);
    }
}

/// `T, U`
#[cycle(types)]
fn type_list(out: &mut Output, types: &[TypeTree])
    ensures { Writes out.old (separated Comma (map type_pieces types.now)) out.new }
{
    for (i, t) in types.iter().enumerate() {
        sign_if(out, i > 0, Sign::Comma);
        type_tree(out, t);
    }
}

/// `T...`, where there is a type, and a comma before it where one is asked for.
#[cycle(types)]
fn rest_type(out: &mut Output, comma: bool, rest: &Option<Box<TypeTree>>)
    ensures { Writes out.old (if_boxed (λ t. sign_if_piece comma Comma & as_rest (type_pieces t)) rest.now) out.new }
{
    if let Some(t) = rest {
        sign_if(out, comma, Sign::Comma);
        type_tree(out, t);
        sign(out, Sign::Ellipsis);
    }
}

/// `record { T a; U b?; }`
#[cycle(types)]
fn open_record(out: &mut Output, fields: &[FieldTree])
    ensures { Writes out.old (key_piece RecordKey & sign_piece OpenBrace & joined (map field_pieces fields.now) & sign_piece CloseBrace) out.new }
{
    key(out, Keyword::Record);
    sign(out, Sign::OpenBrace);
    field_list(out, fields);
    sign(out, Sign::CloseBrace);
}

#[cycle(types)]
fn field_list(out: &mut Output, fields: &[FieldTree])
    ensures { Writes out.old (joined (map field_pieces fields.now)) out.new }
{
    for f in fields {
        field(out, f);
    }
}

#[cycle(types)]
fn field(out: &mut Output, f: &FieldTree)
    ensures { Writes out.old (field_pieces f.now) out.new }
{
    type_tree(out, &f.ty);
    word(out, &f.name);
    sign_if(out, f.optional, Sign::Question);
    sign(out, Sign::Semicolon);
}

/// `T...;`, where there is a type.
#[cycle(types)]
fn rest_field(out: &mut Output, rest: &Option<Box<TypeTree>>)
    ensures { Writes out.old (if_boxed (λ t. as_rest (type_pieces t) & sign_piece Semicolon) rest.now) out.new }
{
    if let Some(t) = rest {
        type_tree(out, t);
        sign(out, Sign::Ellipsis);
        sign(out, Sign::Semicolon);
    }
}

/// `function`, behind `isolated` where it is there.
pub fn any_function(out: &mut Output, isolated: bool)
    ensures { Writes out.old (function_word isolated) out.new }
{
    key_if(out, isolated, Keyword::Isolated);
    key(out, Keyword::Function);
}

#[cycle(types)]
fn param_types(out: &mut Output, p: &ParamTypes)
    ensures { Writes out.old (param_types_pieces p.now) out.new }
{
    let params = &p.params;
    sign(out, Sign::OpenParen);
    param_type_list(out, params);
    rest_type(out, !params.is_empty(), &p.rest);
    sign(out, Sign::CloseParen);
}

#[cycle(types)]
fn param_type_list(out: &mut Output, params: &[ParamType])
    ensures { Writes out.old (separated Comma (map param_type_pieces params.now)) out.new }
{
    for (i, p) in params.iter().enumerate() {
        sign_if(out, i > 0, Sign::Comma);
        param_type(out, p);
    }
}

#[cycle(types)]
fn param_type(out: &mut Output, p: &ParamType)
    ensures { Writes out.old (param_type_pieces p.now) out.new }
{
    type_tree(out, &p.ty);
    word_if_there(out, &p.name);
}

fn word_if_there(out: &mut Output, w: &Option<Word>)
    ensures { Writes out.old (if_there word_pieces w.now) out.new }
{
    if let Some(w) = w {
        word(out, w);
    }
}

/// `returns T`, where there is a type.
#[cycle(types)]
pub fn result_if_there(out: &mut Output, t: &Option<Box<TypeTree>>)
    ensures { Writes out.old (if_boxed (λ t. returning (type_pieces t)) t.now) out.new }
{
    if let Some(t) = t {
        returns(out, t);
    }
}

/// `returns T`
#[cycle(types)]
pub fn returns(out: &mut Output, t: &TypeTree)
    ensures { Writes out.old (returning (type_pieces t.now)) out.new }
{
    key(out, Keyword::Returns);
    type_tree(out, t);
}

pub fn params(out: &mut Output, p: &Params)
    ensures { Writes out.old (params_pieces p.now) out.new }
{
    let params = &p.params;
    sign(out, Sign::OpenParen);
    param_list(out, params);
    last_param(out, !params.is_empty(), &p.rest);
    sign(out, Sign::CloseParen);
}

fn param_list(out: &mut Output, params: &[Param])
    ensures { Writes out.old (separated Comma (map param_pieces params.now)) out.new }
{
    for (i, p) in params.iter().enumerate() {
        sign_if(out, i > 0, Sign::Comma);
        param(out, p);
    }
}

fn param(out: &mut Output, p: &Param)
    ensures { Writes out.old (param_pieces p.now) out.new }
{
    type_tree(out, &p.ty);
    word(out, &p.name);
}

/// The parameter that takes the rest, if there is one, and a comma before it where one is asked for.
fn last_param(out: &mut Output, comma: bool, rest: &Option<Param>)
    ensures { Writes out.old (if_there (λ p. sign_if_piece comma Comma & rest_param_pieces p) rest.now) out.new }
{
    if let Some(p) = rest {
        sign_if(out, comma, Sign::Comma);
        rest_param(out, p);
    }
}

fn rest_param(out: &mut Output, p: &Param)
    ensures { Writes out.old (rest_param_pieces p.now) out.new }
{
    type_tree(out, &p.ty);
    sign(out, Sign::Ellipsis);
    word(out, &p.name);
}
