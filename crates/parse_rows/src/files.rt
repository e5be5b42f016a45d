//! Files that have one definition.

use bal_base::{Memory, Name, Place};
use bal_tree::{
    BuiltinType, Def, Expr, FileTree, IntersectionType, PostfixType, PrimaryType, TypeDef,
    TypeTree, VariableDef, Word,
};
use std::alloc::Global;

/// `type T ty;`
pub fn file_of_type(alloc: Global, ty: TypeTree) -> Result<FileTree, Memory> {
    let at = ty.place();
    let name = word(alloc, "T", at)?;
    let ty = Box::new(alloc, ty)?;
    let def = TypeDef {
        public: false,
        name,
        ty,
        at,
    };
    file_of(alloc, Def::Type(def))
}

/// `any v = value;`
pub fn file_of_expr(alloc: Global, value: Expr) -> Result<FileTree, Memory> {
    let at = value.place();
    let name = word(alloc, "v", at)?;
    let value = Box::new(alloc, value)?;
    let ty = Box::new(alloc, any(at))?;
    let def = VariableDef {
        public: false,
        is_final: false,
        ty,
        name,
        value,
        at,
    };
    file_of(alloc, Def::Variable(def))
}

fn file_of(alloc: Global, def: Def) -> Result<FileTree, Memory> {
    let at = def.place();
    let mut defs = Vec::new(alloc);
    defs.push(def)?;
    Ok(FileTree {
        imports: Vec::new(alloc),
        defs,
        at,
    })
}

fn word(alloc: Global, name: &str, at: Place) -> Result<Word, Memory> {
    let name = Name::new(alloc, name)?;
    Ok(Word { name, at })
}

/// `any`
fn any(at: Place) -> TypeTree {
    let builtin = BuiltinType::Any;
    let any = PrimaryType::Builtin { builtin, at };
    TypeTree::Intersection(IntersectionType::Postfix(PostfixType::Primary(any)))
}
