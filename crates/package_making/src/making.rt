//! Modules, put together.
ghost use Rattle.std.specs.Prelude.{◌≡◌, ◌<◌, ◌≤◌, [], IfOk, IfSome, filter, get_or, length, map, nat_eq, not, position};
ghost use Rattle.package_making.specs.Making.{followers, module_of, modules_from, numbered, rank};
ghost use Rattle.package_making.specs.inner.Ranked.{ranked};

use bal_base::{Memory, Name, Numbers};
use bal_tree::{Files, Module, Modules, SourceFile};
use std::alloc::Global;

/// A file, and the place of its module in the order.
#[derive(Drop)]
struct Placed {
    rank: u32,
    file: SourceFile,
}

/// The files of a module, and the other ones.
#[derive(Drop)]
struct Parts {
    files: Vec<SourceFile>,
    others: Vec<Placed>,
}

/// The modules in this order of their numbers. By number `names` has the name of each and `next` the numbers of those that it imports;
/// `numbers` has the number of the module of each file of `read`. Its cost grows with the number of modules times that of files, and with
/// that of imports times that of modules.
pub fn modules(
    alloc: Global,
    names: &[Name],
    next: &[Vec<usize>],
    order: &[usize],
    numbers: &[usize],
    read: Vec<SourceFile>,
) -> Result<Modules, Memory>
    requires { length order.now ≤ 4294967295 }
    ensures { IfOk result (λ made. made ≡ modules_from names.now (map (λ v. v.items) next.now) order.now (numbered numbers.now 0 read.items) 0 order.now) }
{
    let mut rest = with_ranks(alloc, order, numbers, read)?;
    let mut made = Vec::new(alloc);
    for place in 0..order.len() {
        let Parts { files, others } = apart(alloc, rest, place as u32)?;
        rest = others;
        let module = module(alloc, names, next, order, order[place], files)?;
        made.push(module)?;
    }
    Ok(Modules::of(made))
}

/// The files, each with the place of its module in the order.
fn with_ranks(
    alloc: Global,
    order: &[usize],
    numbers: &[usize],
    read: Vec<SourceFile>,
) -> Result<Vec<Placed>, Memory>
    requires { length order.now ≤ 4294967295 }
    ensures { IfOk result (λ files. files.items ≡ ranked order.now (numbered numbers.now 0 read.items)) }
{
    let mut placed = Vec::new(alloc);
    for file in read {
        let before = placed.as_slice();
        let rank = rank(order, number_at(numbers, before.len()));
        placed.push(Placed { rank, file })?;
    }
    Ok(placed)
}

fn number_at(numbers: &[usize], place: usize) -> usize
    ensures { result ≡ get_or numbers.now place 0 }
{
    match numbers.get(place) {
        Some(number) => *number,
        None => 0,
    }
}

/// The place of a number in the order.
fn rank(order: &[usize], number: usize) -> u32
    requires { length order.now ≤ 4294967295 }
    ensures { result ≡ rank order.now number }
{
    match place_in(order, number) {
        Some(place) => place as u32,
        None => 0,
    }
}

/// Where a number stands in the order, if it does.
fn place_in(order: &[usize], number: usize) -> Option<usize>
    ensures place { result ≡ position (λ known. nat_eq known number) order.now }
    ensures small { IfSome result (λ place. place < length order.now) }
{
    order.iter().position(|known| *known == number)
}

/// The files of the module at a place, and the other ones.
fn apart(alloc: Global, files: Vec<Placed>, place: u32) -> Result<Parts, Memory>
    ensures files { IfOk result (λ parts. parts.files.items ≡ map (λ f. f.file) (filter (λ f. nat_eq f.rank place) files.items)) }
    ensures others { IfOk result (λ parts. parts.others.items ≡ filter (λ f. not (nat_eq f.rank place)) files.items) }
{
    let mut here = Vec::new(alloc);
    let mut others = Vec::new(alloc);
    for file in files {
        if file.rank == place {
            here.push(file.file)?;
        } else {
            others.push(file)?;
        }
    }
    Ok(Parts {
        files: here,
        others,
    })
}

/// The module with this number and these files.
fn module(
    alloc: Global,
    names: &[Name],
    next: &[Vec<usize>],
    order: &[usize],
    number: usize,
    files: Vec<SourceFile>,
) -> Result<Module, Memory>
    requires { length order.now ≤ 4294967295 }
    ensures { IfOk result (λ m. m ≡ module_of names.now (map (λ v. v.items) next.now) order.now number files.items) }
{
    let name = name_at(alloc, names, number)?;
    let imports = ranks(alloc, order, followers(next, number))?;
    Ok(Module {
        name,
        imports,
        files: Files::of(files),
    })
}

fn name_at(alloc: Global, names: &[Name], number: usize) -> Result<Name, Memory>
    ensures { IfOk result (λ name. name ≡ get_or names.now number []) }
{
    match names.get(number) {
        Some(name) => Ok(name.share()),
        None => Name::new(alloc, ""),
    }
}

/// The places of these numbers in the order.
fn ranks(alloc: Global, order: &[usize], numbers: &[usize]) -> Result<Numbers, Memory>
    requires { length order.now ≤ 4294967295 }
    ensures { IfOk result (λ ranks. ranks ≡ map (rank order.now) numbers.now) }
{
    let mut ranks = Vec::new(alloc);
    for number in numbers {
        ranks.push(rank(order, *number))?;
    }
    Ok(Numbers::of(ranks))
}

/// The numbers that follow this one; none where there is no such number.
fn followers(next: &[Vec<usize>], number: usize) -> &[usize]
    ensures { result.now ≡ followers (map (λ v. v.items) next.now) number }
{
    match next.get(number) {
        Some(list) => list,
        None => &[],
    }
}
