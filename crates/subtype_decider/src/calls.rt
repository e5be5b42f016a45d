//! Paths of each kind are settled by the call for that kind.

use crate::settles::Settles;
use crate::table::Table;
use bal_base::Stop;
use empty_arrow::{err_shape, fun_shape, fut_shape};
use empty_product::{list_shape, map_shape};
use std::alloc::Global;
use type_diagrams::{Diagrams, Kind, Path, Turn};
use type_model::{TypeEnv, TypeLimit};

/// The calls that settle paths, one for each kind.
#[derive(Drop)]
pub struct Calls;

impl Settles for Calls {
    fn settle(
        &self,
        alloc: Global,
        env: &TypeEnv,
        diagrams: &mut Diagrams,
        kind: Kind,
        path: &Path,
        table: &Table,
    ) -> Result<Turn, Stop<TypeLimit>> {
        match kind {
            Kind::List => Ok(list_shape(alloc, env, diagrams, path, table)?),
            Kind::Mapping => Ok(map_shape(alloc, env, diagrams, path, table)?),
            Kind::Error => Ok(err_shape(alloc, env, diagrams, path, table)?),
            Kind::Function => fun_shape(alloc, env, diagrams, path, table),
            Kind::Future => Ok(fut_shape(alloc, env, diagrams, path, table)?),
        }
    }
}
