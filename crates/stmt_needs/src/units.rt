//! What bodies, workers, definitions and packages need is met, in the order of the text.
#![tactic(auto, using(needs::proofs::Running::running))]

ghost use Rattle.std.specs.Prelude.{◌≡◌, false, nat_le};
ghost use Rattle.needs.specs.Needs.{Runs, in_turn};
ghost use Rattle.typed_tree.specs.Listed.{if_there, one, ◌&◌};
ghost use Rattle.expr_needs.specs.ExprTable.{as_wanted, read_expr};
ghost use Rattle.expr_needs.specs.Needs.{BeginsBlock, EndsFunction, EndsValueFunction, WantsResult};
ghost use Rattle.stmt_needs.specs.PackageTable.{assigned_in_body, body_needs, def_needs, file_needs, function_needs, in_initial, module_needs, module_needs_if, numbered, package_needs, parameter_needs, parameters_needs, read_stmts, variable_needs, worker_needs};
ghost use Rattle.stmt_needs.specs.StmtTable.{in_block, stmts_needs};

use crate::around::around_block;
use crate::blocks::{block, stmts};
use crate::meets::MeetsStmts;
use bal_base::Place;
use bal_tree::{
    Body, Def, Expr, FunctionDef, Module, Package, Param, Params, SourceFile, Stmt, VariableDef,
    Worker,
};
use expr_needs::wanted;

/// What the package needs is met: its modules in order, their files, and their definitions.
pub fn package<M: MeetsStmts>(work: &mut M, p: &Package)
    requires { M.stands work.old }
    ensures stands { M.stands work.new }
    ensures met { Runs M.meaning (package_needs p.now) (M.going work.old) (M.going work.new) }
{
    modules(work, p.modules.as_slice(), p.main as usize)
}

fn modules<M: MeetsStmts>(work: &mut M, ms: &[Module], main: usize)
    requires { M.stands work.old }
    ensures stands { M.stands work.new }
    ensures met { Runs M.meaning (numbered (module_needs main) 0 ms.now) (M.going work.old) (M.going work.new) }
{
    for m in 0..ms.len() {
        module(work, &ms[m], m, is_kept(m, main));
    }
}

/// Whether a module with this number is initialised.
fn is_kept(number: usize, main: usize) -> bool
    ensures { result ≡ nat_le number main }
{
    number <= main
}

/// The same of a module with this number, which is initialised or isn't.
fn module<M: MeetsStmts>(work: &mut M, m: &Module, number: usize, kept: bool)
    requires { M.stands work.old }
    ensures stands { M.stands work.new }
    ensures met { Runs M.meaning (module_needs_if kept number m.now) (M.going work.old) (M.going work.new) }
{
    files(work, m.files.as_slice(), number, kept);
    work.ends_module(number)
}

fn files<M: MeetsStmts>(work: &mut M, fs: &[SourceFile], number: usize, kept: bool)
    requires { M.stands work.old }
    ensures stands { M.stands work.new }
    ensures met { Runs M.meaning (numbered (file_needs kept number) 0 fs.now) (M.going work.old) (M.going work.new) }
{
    for f in 0..fs.len() {
        file(work, &fs[f], number, f, kept);
    }
}

/// The same of a file, by the number of its module and its own.
fn file<M: MeetsStmts>(work: &mut M, f: &SourceFile, number: usize, own: usize, kept: bool)
    requires { M.stands work.old }
    ensures stands { M.stands work.new }
    ensures met { Runs M.meaning (file_needs kept number own f.now) (M.going work.old) (M.going work.new) }
{
    work.enters_file(number, own);
    defs(work, &f.tree.defs, kept)
}

fn defs<M: MeetsStmts>(work: &mut M, ds: &[Def], kept: bool)
    requires { M.stands work.old }
    ensures stands { M.stands work.new }
    ensures met { Runs M.meaning (in_turn (def_needs kept) ds.now) (M.going work.old) (M.going work.new) }
{
    for d in ds {
        def(work, d, kept);
    }
}

/// The same of a definition, in a module that is initialised or isn't.
pub fn def<M: MeetsStmts>(work: &mut M, d: &Def, kept: bool)
    requires { M.stands work.old }
    ensures stands { M.stands work.new }
    ensures met { Runs M.meaning (def_needs kept d.now) (M.going work.old) (M.going work.new) }
{
    match d {
        Def::Type(_) => {}
        Def::Const(d) => work.is_constant(d),
        Def::Variable(d) => variable(work, d, kept),
        Def::Function(d) => function(work, d),
    }
}

/// `T x = e;` of a module.
fn variable<M: MeetsStmts>(work: &mut M, d: &VariableDef, kept: bool)
    requires { M.stands work.old }
    ensures stands { M.stands work.new }
    ensures met { Runs M.meaning (variable_needs kept d.now) (M.going work.old) (M.going work.new) }
{
    work.begins_initial(d, kept);
    wanted(work, &d.value);
    work.ends_initial(d, kept)
}

/// A function.
fn function<M: MeetsStmts>(work: &mut M, d: &FunctionDef)
    requires { M.stands work.old }
    ensures stands { M.stands work.new }
    ensures met { Runs M.meaning (function_needs d.now) (M.going work.old) (M.going work.new) }
{
    work.begins_function(d);
    parameters(work, &d.params, &d.body);
    body(work, d)
}

fn parameters<M: MeetsStmts>(work: &mut M, ps: &Params, body: &Body)
    requires { M.stands work.old }
    ensures stands { M.stands work.new }
    ensures met { Runs M.meaning (parameters_needs (assigned_in_body body.now) ps.now) (M.going work.old) (M.going work.new) }
{
    first_parameters(work, &ps.params, body);
    rest_parameter(work, &ps.rest, body)
}

fn first_parameters<M: MeetsStmts>(work: &mut M, ps: &[Param], body: &Body)
    requires { M.stands work.old }
    ensures stands { M.stands work.new }
    ensures met { Runs M.meaning (in_turn (parameter_needs (assigned_in_body body.now)) ps.now) (M.going work.old) (M.going work.new) }
{
    for p in ps {
        work.names_parameter(&p.name, body);
    }
}

fn rest_parameter<M: MeetsStmts>(work: &mut M, p: &Option<Param>, body: &Body)
    requires { M.stands work.old }
    ensures stands { M.stands work.new }
    ensures met { Runs M.meaning (if_there (parameter_needs (assigned_in_body body.now)) p.now) (M.going work.old) (M.going work.new) }
{
    match p {
        None => {}
        Some(p) => work.names_parameter(&p.name, body),
    }
}

/// The body of a function: statements and workers, or a value.
fn body<M: MeetsStmts>(work: &mut M, d: &FunctionDef)
    requires { M.stands work.old }
    ensures stands { M.stands work.new }
    ensures met { Runs M.meaning (body_needs d.now d.now.body) (M.going work.old) (M.going work.new) }
{
    match &d.body {
        Body::Block {
            stmts: initial,
            workers: ws,
            rest,
            close,
            ..
        } => {
            initial_part(work, initial, ws, rest);
            workers(work, ws);
            rest_part(work, rest, d, *close)
        }
        Body::Expr { value, .. } => value_body(work, value, d),
    }
}

fn value_body<M: MeetsStmts>(work: &mut M, value: &Expr, d: &FunctionDef)
    requires { M.stands work.old }
    ensures stands { M.stands work.new }
    ensures met { Runs M.meaning (one WantsResult & as_wanted (read_expr value.now) & one (EndsValueFunction d.now)) (M.going work.old) (M.going work.new) }
{
    work.wants_result();
    wanted(work, value);
    work.ends_value_function(d)
}

fn initial_part<M: MeetsStmts>(work: &mut M, initial: &[Stmt], ws: &[Worker], rest: &[Stmt])
    requires { M.stands work.old }
    ensures stands { M.stands work.new }
    ensures met { Runs M.meaning (one BeginsBlock & stmts_needs (in_initial ws.now rest.now) (read_stmts initial.now)) (M.going work.old) (M.going work.new) }
{
    work.begins_block();
    stmts(work, initial, false, ws, rest)
}

/// The statements behind the workers, up to the function's brace.
fn rest_part<M: MeetsStmts>(work: &mut M, rest: &[Stmt], d: &FunctionDef, close: Place)
    requires { M.stands work.old }
    ensures stands { M.stands work.new }
    ensures met { Runs M.meaning (one BeginsBlock & stmts_needs (in_block false) (read_stmts rest.now) & one (EndsFunction d.now close)) (M.going work.old) (M.going work.new) }
{
    work.begins_block();
    stmts(work, rest, false, &[], &[]);
    work.ends_function(d, close)
}

fn workers<M: MeetsStmts>(work: &mut M, ws: &[Worker])
    requires { M.stands work.old }
    ensures stands { M.stands work.new }
    ensures met { Runs M.meaning (numbered worker_needs 1 ws.now) (M.going work.old) (M.going work.new) }
{
    for w in 0..ws.len() {
        worker(work, &ws[w], w + 1);
    }
}

/// `worker A { .. }`, by its number.
fn worker<M: MeetsStmts>(work: &mut M, w: &Worker, number: usize)
    requires { M.stands work.old }
    ensures stands { M.stands work.new }
    ensures met { Runs M.meaning (worker_needs number w.now) (M.going work.old) (M.going work.new) }
{
    work.begins_worker(w, number);
    block(work, &w.body, around_block(false));
    work.ends_worker(w)
}
