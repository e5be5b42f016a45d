//! Tests of what an environment asks of the atoms that are added: whether types name only atoms that are
//! there, and whether the fields of a mapping atom have different names.
ghost use Rattle.std.specs.Prelude.{◌≡◌, ◌≢◌, ◌↔◌, IsTrue, All, AllPairs, IfSome};
ghost use Rattle.std.specs.List.{list_any};
ghost use Rattle.type_model.specs.Places.{HasDistinctFields, is_same_text};
ghost use Rattle.type_model.specs.Defined.{NamesBelow, ChoicesBelow, TyBelow, DefBelow};

use crate::atoms::{AtomDef, FieldDef};
use crate::basic::{Choice, SemType, Ty};
use bal_base::Text;

impl SemType {
    /// Whether every atom that the type names is one of the first `atoms`.
    pub fn names_below(&self, atoms: usize) -> bool
        ensures { IsTrue result ↔ NamesBelow atoms self.now }
    {
        match self {
            SemType::Basic(_) => true,
            SemType::Atom(n) => (*n as usize) < atoms,
            SemType::Or(s, t) => s.names_below(atoms) && t.names_below(atoms),
            SemType::And(s, t) => s.names_below(atoms) && t.names_below(atoms),
            SemType::Not(t) => t.names_below(atoms),
        }
    }
}

impl Ty {
    /// Whether every atom that the type or a choice names is one of the first `atoms`.
    pub fn names_below(&self, atoms: usize) -> bool
        ensures { IsTrue result ↔ TyBelow atoms self.now }
    {
        self.sem.names_below(atoms)
            && choices_below(self.lists.as_slice(), atoms)
            && choices_below(self.maps.as_slice(), atoms)
    }
}

impl AtomDef {
    /// Whether every atom that the definition names is one of the first `atoms`.
    pub fn names_below(&self, atoms: usize) -> bool
        ensures { IsTrue result ↔ DefBelow atoms self.now }
    {
        match self {
            AtomDef::List { fixed, rest } => {
                types_below(fixed.as_slice(), atoms) && rest_below(rest, atoms)
            }
            AtomDef::Mapping { fields, rest } => {
                fields_below(fields.as_slice(), atoms) && rest_below(rest, atoms)
            }
            AtomDef::Arrow { args, result, .. } => {
                args.names_below(atoms) && result.names_below(atoms)
            }
            AtomDef::Error { detail } => detail.names_below(atoms),
            AtomDef::Future { result } => result.names_below(atoms),
        }
    }

    /// Whether every atom that a group of definitions names is one of the first `atoms`.
    pub fn are_below(defs: &[AtomDef], atoms: usize) -> bool
        ensures { IsTrue result ↔ All (DefBelow atoms) defs.now }
    {
        defs.iter().all(|d| d.names_below(atoms))
    }

    /// Whether in each mapping atom of a group no two fields have the same name.
    pub fn have_distinct_fields(defs: &[AtomDef]) -> bool
        ensures { IsTrue result ↔ All HasDistinctFields defs.now }
    {
        defs.iter().all(|d| d.has_distinct_fields())
    }

    /// Whether no two fields of a mapping atom have the same name.
    pub fn has_distinct_fields(&self) -> bool
        ensures { IsTrue result ↔ HasDistinctFields self.now }
    {
        match self {
            AtomDef::Mapping { fields, .. } => are_distinct(fields.as_slice()),
            AtomDef::List { .. } | AtomDef::Arrow { .. } => true,
            AtomDef::Error { .. } | AtomDef::Future { .. } => true,
        }
    }
}

fn choices_below(choices: &[Choice], atoms: usize) -> bool
    ensures { IsTrue result ↔ ChoicesBelow atoms choices.now }
{
    choices.iter().all(|c| (c.atom as usize) < atoms)
}

fn types_below(types: &[Ty], atoms: usize) -> bool
    ensures { IsTrue result ↔ All (TyBelow atoms) types.now }
{
    types.iter().all(|t| t.names_below(atoms))
}

fn fields_below(fields: &[FieldDef], atoms: usize) -> bool
    ensures { IsTrue result ↔ All (λ f. TyBelow atoms f.ty) fields.now }
{
    fields.iter().all(|f| f.ty.names_below(atoms))
}

fn rest_below(rest: &Option<Ty>, atoms: usize) -> bool
    ensures { IsTrue result ↔ IfSome rest.now (TyBelow atoms) }
{
    match rest {
        Some(t) => t.names_below(atoms),
        None => true,
    }
}

fn is_named(fields: &[FieldDef], name: &Text) -> bool
    ensures { result ≡ list_any (λ f. is_same_text f.name name.now) fields.now }
{
    fields.iter().any(|f| f.name == *name)
}

fn are_distinct(fields: &[FieldDef]) -> bool
    ensures { IsTrue result ↔ AllPairs (λ f g. f.name ≢ g.name) fields.now }
{
    for (i, f) in fields.iter().enumerate() {
        if is_named(&fields[..i], &f.name) {
            return false;
        }
    }
    true
}
