//! What type descriptors mention of names.
#![tactic(auto, using(bal_tree::proofs::TypeLayers::type_layers))]

ghost use Rattle.std.specs.Prelude.{◌≡◌, ◌++◌, ◌∷◌, [], OnOk, map, true};
ghost use Rattle.indexmap.specs.IndexSet.{contains, Updates};
ghost use Rattle.type_model.specs.Places.{is_same_text};
ghost use Rattle.descriptors.specs.Descriptors.{descriptor_of, descriptor_if, of_intersection, of_param, of_params, of_postfix, of_primary, of_field, in_a_row, fields_in_a_row};
ghost use Rattle.name_resolution.specs.Mentions.{home_of, use_of, mentioned, mentioned_if, all_mentioned, fields_mentioned, again_if, sources};

use bal_base::{Memory, Name, Place};
use bal_tree::{
    FieldTree, IntersectionType, ParamType, ParamTypes, PostfixType, Prefix, PrimaryType,
    QualifiedName, TypeTree, Word,
};
use descriptors::FileNames;
use indexmap::IndexSet;
use std::alloc::Global;

/// What is said of a name.
#[derive(Drop)]
pub(crate) enum Mention {
    /// The name of a type, which is sought in this module, or in none where its prefix stands for none. `inside`: it stands
    /// inside a list, a mapping, an error, a function or a future.
    Use {
        home: Option<usize>,
        name: Name,
        at: Place,
        inside: bool,
    },
    /// The name of a field that a field before it in its record has.
    Again {
        at: Place,
    },
    /// The name that a definition gives to what it defines.
    Own {
        at: Place,
    },
}

/// What reads descriptors, as they stand in a module and in one of its files.
#[derive(Drop)]
pub(crate) struct Reader<'a> {
    pub(crate) alloc: Global,
    pub(crate) module: usize,
    pub(crate) file: &'a FileNames,
}

/// Notes a field's name, and says where an earlier one has it.
fn again(out: &mut Vec<Mention>, earlier: &mut IndexSet<Name>, name: &Word) -> Result<(), Memory>
    ensures mentions { OnOk result (out.new.items ≡ again_if (contains is_same_text earlier.old name.now.name) name.now out.old.items) }
    ensures earlier { OnOk result (Updates is_same_text earlier.old earlier.new name.now.name true) }
{
    if !earlier.insert(name.name.share())? {
        out.push(Mention::Again { at: name.at })?;
    }
    Ok(())
}

impl Reader<'_> {
    /// The module in which a name with this prefix is sought, as it is read in a module and a file.
    fn home(&self, prefix: &Option<Prefix>) -> Option<usize>
        ensures { result ≡ home_of self.now.«module» (sources self.now.file.now) prefix.now }
    {
        match prefix {
            Some(Prefix::Word(prefix)) => Some(self.file.source(&prefix.name)?.module()? as usize),
            Some(Prefix::Int { .. }) => None,
            None => Some(self.module),
        }
    }

    fn name(&self, out: &mut Vec<Mention>, inside: bool, name: &QualifiedName) -> Result<(), Memory>
        ensures { OnOk result (out.new.items ≡ out.old.items ++ use_of self.now.«module» (sources self.now.file.now) inside name.now ∷ []) }
    {
        out.push(Mention::Use {
            home: self.home(&name.prefix),
            name: name.word.name.share(),
            at: name.at,
            inside,
        })?;
        Ok(())
    }

    /// A descriptor, as it is read in a module and a file.
    #[cycle(types)]
    pub(crate) fn type_tree(
        &self,
        out: &mut Vec<Mention>,
        inside: bool,
        t: &TypeTree,
    ) -> Result<(), Memory>
        ensures { OnOk result (out.new.items ≡ mentioned self.now.«module» (sources self.now.file.now) inside (descriptor_of t.now) out.old.items) }
    {
        match t {
            TypeTree::Intersection(t) => self.intersection(out, inside, t),
            TypeTree::Union { left, right, .. } => {
                self.type_tree(out, inside, left)?;
                self.intersection(out, inside, right)
            }
        }
    }

    #[cycle(types)]
    fn intersection(
        &self,
        out: &mut Vec<Mention>,
        inside: bool,
        t: &IntersectionType,
    ) -> Result<(), Memory>
        ensures { OnOk result (out.new.items ≡ mentioned self.now.«module» (sources self.now.file.now) inside (of_intersection t.now) out.old.items) }
    {
        match t {
            IntersectionType::Postfix(t) => self.postfix(out, inside, t),
            IntersectionType::Both { left, right, .. } => {
                self.intersection(out, inside, left)?;
                self.postfix(out, inside, right)
            }
        }
    }

    #[cycle(types)]
    fn postfix(&self, out: &mut Vec<Mention>, inside: bool, t: &PostfixType) -> Result<(), Memory>
        ensures { OnOk result (out.new.items ≡ mentioned self.now.«module» (sources self.now.file.now) inside (of_postfix t.now) out.old.items) }
    {
        match t {
            PostfixType::Primary(t) => self.primary(out, inside, t),
            PostfixType::Optional { of, .. } => self.postfix(out, inside, of),
            PostfixType::Array { member, .. } => self.postfix(out, true, member),
            PostfixType::FixedArray { member, .. } => self.postfix(out, true, member),
        }
    }

    #[cycle(types)]
    fn primary(&self, out: &mut Vec<Mention>, inside: bool, t: &PrimaryType) -> Result<(), Memory>
        ensures { OnOk result (out.new.items ≡ mentioned self.now.«module» (sources self.now.file.now) inside (of_primary t.now) out.old.items) }
    {
        match t {
            PrimaryType::Builtin { .. } | PrimaryType::Literal(_) => Ok(()),
            PrimaryType::Negative { .. } | PrimaryType::AnyFunction { .. } => Ok(()),
            PrimaryType::Parens { inner, .. } => self.type_tree(out, inside, inner),
            PrimaryType::Name(n) => self.name(out, inside, n),
            PrimaryType::Map { member, .. } => self.type_tree(out, true, member),
            PrimaryType::Future { result, .. } => self.type_tree(out, true, result),
            PrimaryType::Error { detail: None, .. } => Ok(()),
            PrimaryType::Error {
                detail: Some(detail),
                ..
            } => self.type_tree(out, true, detail),
            PrimaryType::Tuple { members, rest, .. } => {
                self.type_list(out, members)?;
                self.type_if(out, true, rest)
            }
            PrimaryType::ClosedRecord { fields, rest, .. } => {
                self.field_list(out, fields)?;
                self.type_if(out, true, rest)
            }
            PrimaryType::OpenRecord { fields, .. } => self.field_list(out, fields),
            PrimaryType::Function { params, result, .. } => {
                self.param_types(out, params)?;
                self.type_if(out, true, result)
            }
        }
    }

    /// What stands between the parentheses of a function type.
    #[cycle(types)]
    fn param_types(&self, out: &mut Vec<Mention>, params: &ParamTypes) -> Result<(), Memory>
        ensures { OnOk result (out.new.items ≡ mentioned_if self.now.«module» (sources self.now.file.now) true (of_params params.now).rest (all_mentioned self.now.«module» (sources self.now.file.now) true (of_params params.now).params out.old.items)) }
    {
        self.param_list(out, &params.params)?;
        self.type_if(out, true, &params.rest)
    }

    #[cycle(types)]
    fn param(&self, out: &mut Vec<Mention>, param: &ParamType) -> Result<(), Memory>
        ensures { OnOk result (out.new.items ≡ mentioned self.now.«module» (sources self.now.file.now) true (of_param param.now) out.old.items) }
    {
        self.type_tree(out, true, &param.ty)
    }

    /// What may be absent.
    #[cycle(types)]
    pub(crate) fn type_if(
        &self,
        out: &mut Vec<Mention>,
        inside: bool,
        t: &Option<Box<TypeTree>>,
    ) -> Result<(), Memory>
        ensures { OnOk result (out.new.items ≡ mentioned_if self.now.«module» (sources self.now.file.now) inside (descriptor_if t.now) out.old.items) }
    {
        match t {
            None => Ok(()),
            Some(t) => self.type_tree(out, inside, t),
        }
    }

    #[cycle(types)]
    fn type_list(&self, out: &mut Vec<Mention>, types: &[TypeTree]) -> Result<(), Memory>
        ensures { OnOk result (out.new.items ≡ all_mentioned self.now.«module» (sources self.now.file.now) true (in_a_row (map descriptor_of types.now)) out.old.items) }
    {
        for t in types {
            self.type_tree(out, true, t)?;
        }
        Ok(())
    }

    #[cycle(types)]
    fn param_list(&self, out: &mut Vec<Mention>, params: &[ParamType]) -> Result<(), Memory>
        ensures { OnOk result (out.new.items ≡ all_mentioned self.now.«module» (sources self.now.file.now) true (in_a_row (map of_param params.now)) out.old.items) }
    {
        for p in params {
            self.param(out, p)?;
        }
        Ok(())
    }

    /// The fields of a record.
    #[cycle(types)]
    fn field_list(&self, out: &mut Vec<Mention>, fields: &[FieldTree]) -> Result<(), Memory>
        ensures { OnOk result (out.new.items ≡ fields_mentioned self.now.«module» (sources self.now.file.now) [] (fields_in_a_row (map of_field fields.now)) out.old.items) }
    {
        let mut earlier = IndexSet::new(self.alloc);
        for f in fields {
            self.field(out, &mut earlier, f)?;
        }
        Ok(())
    }

    /// A field, behind those with the earlier names.
    #[cycle(types)]
    fn field(
        &self,
        out: &mut Vec<Mention>,
        earlier: &mut IndexSet<Name>,
        f: &FieldTree,
    ) -> Result<(), Memory>
        ensures mentions { OnOk result (out.new.items ≡ again_if (contains is_same_text earlier.old (of_field f.now).name.name) (of_field f.now).name (mentioned self.now.«module» (sources self.now.file.now) true (of_field f.now).ty out.old.items)) }
        ensures earlier { OnOk result (Updates is_same_text earlier.old earlier.new (of_field f.now).name.name true) }
    {
        self.type_tree(out, true, &f.ty)?;
        again(out, earlier, &f.name)
    }
}
