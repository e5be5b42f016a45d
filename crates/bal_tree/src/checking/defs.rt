//! Files and definitions.
ghost use Rattle.std.specs.Prelude.{◌≡◌, ◌&&◌, ◌||◌, not};
ghost use Rattle.std.specs.List.{list_all};
ghost use Rattle.bal_tree.specs.ActionRules.{has_members};
ghost use Rattle.bal_tree.specs.StmtRules.{stmt_is_formed};
ghost use Rattle.bal_tree.specs.DefRules.{type_is_formed_if, worker_is_formed, body_is_formed, function_is_formed, def_is_formed, file_is_formed};

use super::exprs::expr;
use super::stmts::{block, stmts};
use super::types::{params, type_tree};
use crate::def::{Body, Def, FileTree, FunctionDef, Worker};
use crate::stmt::Stmt;
use crate::types::TypeTree;

pub fn file(f: &FileTree) -> bool
    ensures { result ≡ file_is_formed f.now }
{
    defs(&f.defs)
}

fn defs(defs: &[Def]) -> bool
    ensures { result ≡ list_all def_is_formed defs.now }
{
    for d in defs {
        if !def(d) {
            return false;
        }
    }
    true
}

fn def(d: &Def) -> bool
    ensures { result ≡ def_is_formed d.now }
{
    match d {
        Def::Type(d) => type_tree(&d.ty, false),
        Def::Const(d) => type_if_there(&d.ty),
        Def::Variable(d) => type_tree(&d.ty, false) && expr(&d.value, false),
        Def::Function(d) => function(d),
    }
}

/// Where there is a type, whether it is well formed.
fn type_if_there(t: &Option<Box<TypeTree>>) -> bool
    ensures { result ≡ type_is_formed_if t.now }
{
    match t {
        Some(t) => type_tree(t, false),
        None => true,
    }
}

fn function(d: &FunctionDef) -> bool
    ensures { result ≡ function_is_formed d.now }
{
    params(&d.params) && type_if_there(&d.result) && body(&d.body)
}

fn body(b: &Body) -> bool
    ensures { result ≡ body_is_formed b.now }
{
    match b {
        Body::Block {
            stmts: initial,
            workers: named,
            rest,
            ..
        } => { block_body(initial, named, rest) }
        Body::Expr { value, .. } => expr(value, false),
    }
}

/// Whether the parts of a body are well formed. Without named workers all statements are initial ones.
fn block_body(initial: &[Stmt], named: &[Worker], rest: &[Stmt]) -> bool
    ensures { result ≡ (list_all stmt_is_formed initial.now && list_all worker_is_formed named.now && list_all stmt_is_formed rest.now && (has_members named.now || not (has_members rest.now))) }
{
    stmts(initial) && workers(named) && stmts(rest) && (!named.is_empty() || rest.is_empty())
}

fn workers(workers: &[Worker]) -> bool
    ensures { result ≡ list_all worker_is_formed workers.now }
{
    for w in workers {
        if !worker(w) {
            return false;
        }
    }
    true
}

fn worker(w: &Worker) -> bool
    ensures { result ≡ worker_is_formed w.now }
{
    type_if_there(&w.result) && block(&w.body)
}
