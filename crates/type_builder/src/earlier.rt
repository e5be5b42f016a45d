//! How many functions and variables come before a definition.
ghost use Rattle.std.specs.Prelude.{◌≡◌, ◌+◌, ◌≤◌, IfOk};
ghost use Rattle.bal_base.specs.declared.limits.TheConstants.{MOST_ATOMS as most};
ghost use Rattle.name_resolution.specs.Definitions.{functions_in as functions_in_def, variables_in as variables_in_def};
ghost use Rattle.type_builder.specs.Meanings.{earlier_with};

use bal_base::Memory;
use bal_tree::Def;

/// How many functions and how many variables of modules come before a definition, in text order.
#[derive(Clone, Copy)]
pub(crate) struct Earlier {
    pub(crate) functions: u32,
    pub(crate) variables: u32,
}

impl Earlier {
    /// The same behind the definition. More variables than a number may tell are want of memory.
    pub(crate) fn with(self, def: &Def) -> Result<Earlier, Memory>
        requires { self.functions + functions_in_def def.now ≤ most }
        ensures { IfOk result (λ c. c ≡ earlier_with self def.now) }
    {
        let more = variables_in(def);
        if self.variables > u32::MAX - more {
            return Err(Memory);
        }
        Ok(Earlier {
            functions: self.functions + functions_in(def),
            variables: self.variables + more,
        })
    }
}

/// How many functions it defines.
fn functions_in(def: &Def) -> u32
    ensures { result ≡ functions_in_def def.now }
{
    match def {
        Def::Type(_) | Def::Const(_) | Def::Variable(_) => 0,
        Def::Function(_) => 1,
    }
}

/// How many variables it defines.
fn variables_in(def: &Def) -> u32
    ensures { result ≡ variables_in_def def.now }
{
    match def {
        Def::Type(_) | Def::Const(_) | Def::Function(_) => 0,
        Def::Variable(_) => 1,
    }
}
