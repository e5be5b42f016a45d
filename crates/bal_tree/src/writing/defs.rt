//! Files, imports and definitions.
#![tactic(auto, using(crate::proofs::Adding::adding))]

ghost use Rattle.std.specs.Prelude.{map};
ghost use Rattle.bal_base.specs.declared.token.Sign.TheVariants.{Dot};
ghost use Rattle.bal_tree.specs.Pieces.{if_there, if_boxed, joined, behind};
ghost use Rattle.bal_tree.specs.Writing.{Writes};
ghost use Rattle.bal_tree.specs.NamePieces.{word_pieces};
ghost use Rattle.bal_tree.specs.TypePieces.{type_pieces};
ghost use Rattle.bal_tree.specs.DefPieces.{word_behind as word_behind_pieces, word_after as word_after_pieces, import_pieces, worker_pieces, body_pieces, type_def_pieces, const_def_pieces, variable_def_pieces, function_def_pieces, def_pieces, file_pieces};

use super::exprs::expr;
use super::names::{const_value, word};
use super::output::Output;
use super::signs::{key, key_if, sign};
use super::stmts::{block, stmts};
use super::types::{params, result_if_there, type_tree};
use crate::def::{
    Body, ConstDef, Def, FileTree, FunctionDef, Import, TypeDef, VariableDef, Worker,
};
use crate::name::Word;
use crate::types::TypeTree;
use bal_base::{Keyword, Sign};

pub fn file(out: &mut Output, f: &FileTree)
    ensures { Writes out.old (file_pieces f.now) out.new }
{
    imports(out, &f.imports);
    defs(out, &f.defs);
}

fn imports(out: &mut Output, imports: &[Import])
    ensures { Writes out.old (joined (map import_pieces imports.now)) out.new }
{
    for i in imports {
        import(out, i);
    }
}

fn import(out: &mut Output, i: &Import)
    ensures { Writes out.old (import_pieces i.now) out.new }
{
    key(out, Keyword::Import);
    word(out, &i.first);
    word_behind(out, Sign::Slash, &i.second);
    dotted(out, &i.more);
    word_after(out, Keyword::As, &i.prefix);
    sign(out, Sign::Semicolon);
}

/// The sign and the word, where there is a word.
fn word_behind(out: &mut Output, s: Sign, w: &Option<Word>)
    ensures { Writes out.old (if_there (word_behind_pieces s) w.now) out.new }
{
    if let Some(w) = w {
        sign(out, s);
        word(out, w);
    }
}

/// The keyword and the word, where there is a word.
fn word_after(out: &mut Output, k: Keyword, w: &Option<Word>)
    ensures { Writes out.old (if_there (word_after_pieces k) w.now) out.new }
{
    if let Some(w) = w {
        key(out, k);
        word(out, w);
    }
}

/// The words, each behind a dot.
fn dotted(out: &mut Output, words: &[Word])
    ensures { Writes out.old (behind Dot (map word_pieces words.now)) out.new }
{
    for w in words {
        next_word(out, w);
    }
}

fn next_word(out: &mut Output, w: &Word)
    ensures { Writes out.old (word_behind_pieces Dot w.now) out.new }
{
    sign(out, Sign::Dot);
    word(out, w);
}

fn defs(out: &mut Output, defs: &[Def])
    ensures { Writes out.old (joined (map def_pieces defs.now)) out.new }
{
    for d in defs {
        def(out, d);
    }
}

fn def(out: &mut Output, d: &Def)
    ensures { Writes out.old (def_pieces d.now) out.new }
{
    match d {
        Def::Type(d) => type_def(out, d),
        Def::Const(d) => const_def(out, d),
        Def::Variable(d) => variable_def(out, d),
        Def::Function(d) => function_def(out, d),
    }
}

fn type_def(out: &mut Output, d: &TypeDef)
    ensures { Writes out.old (type_def_pieces d.now) out.new }
{
    key_if(out, d.public, Keyword::Public);
    key(out, Keyword::Type);
    word(out, &d.name);
    type_tree(out, &d.ty);
    sign(out, Sign::Semicolon);
}

fn const_def(out: &mut Output, d: &ConstDef)
    ensures { Writes out.old (const_def_pieces d.now) out.new }
{
    key_if(out, d.public, Keyword::Public);
    key(out, Keyword::Const);
    type_if_there(out, &d.ty);
    word(out, &d.name);
    sign(out, Sign::Equal);
    const_value(out, &d.value);
    sign(out, Sign::Semicolon);
}

fn type_if_there(out: &mut Output, t: &Option<Box<TypeTree>>)
    ensures { Writes out.old (if_boxed type_pieces t.now) out.new }
{
    if let Some(t) = t {
        type_tree(out, t);
    }
}

fn variable_def(out: &mut Output, d: &VariableDef)
    ensures { Writes out.old (variable_def_pieces d.now) out.new }
{
    key_if(out, d.public, Keyword::Public);
    key_if(out, d.is_final, Keyword::Final);
    type_tree(out, &d.ty);
    word(out, &d.name);
    sign(out, Sign::Equal);
    expr(out, &d.value);
    sign(out, Sign::Semicolon);
}

fn function_def(out: &mut Output, d: &FunctionDef)
    ensures { Writes out.old (function_def_pieces d.now) out.new }
{
    key_if(out, d.public, Keyword::Public);
    key_if(out, d.isolated, Keyword::Isolated);
    key(out, Keyword::Function);
    word(out, &d.name);
    params(out, &d.params);
    result_if_there(out, &d.result);
    body(out, &d.body);
}

fn body(out: &mut Output, b: &Body)
    ensures { Writes out.old (body_pieces b.now) out.new }
{
    match b {
        Body::Block {
            stmts: initial,
            workers: named,
            rest,
            ..
        } => {
            sign(out, Sign::OpenBrace);
            stmts(out, initial);
            workers(out, named);
            stmts(out, rest);
            sign(out, Sign::CloseBrace);
        }
        Body::Expr { value, .. } => {
            sign(out, Sign::FatArrow);
            expr(out, value);
            sign(out, Sign::Semicolon);
        }
    }
}

fn workers(out: &mut Output, workers: &[Worker])
    ensures { Writes out.old (joined (map worker_pieces workers.now)) out.new }
{
    for w in workers {
        worker(out, w);
    }
}

fn worker(out: &mut Output, w: &Worker)
    ensures { Writes out.old (worker_pieces w.now) out.new }
{
    key(out, Keyword::Worker);
    word(out, &w.name);
    result_if_there(out, &w.result);
    block(out, &w.body);
}
