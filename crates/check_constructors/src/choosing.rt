//! Which constructor choice is meant.
ghost use Rattle.std.specs.Prelude.{◌<◌, ℕ, IfOk, map};
ghost use Rattle.type_model.specs.Defined.{ChoicesBelow};
ghost use Rattle.expr_needs.specs.ExprTable.{read_expr, read_member, seen_of};
ghost use Rattle.check_words.specs.Constructors.{ListFits, MappingFits, first_fit};
ghost use Rattle.check_kinds.specs.Over.{ComesOver};
ghost use Rattle.check_constructors.specs.Fitting.{IsNoChoice};

use crate::fitting::{list_fits, mapping_fits};
use bal_base::{Fault, FaultCode, Kept, Place, Stop};
use bal_tree::{Expr, Member};
use type_model::{Choice, Types};

fn no_choice(at: Place) -> Stop<Fault>
    ensures { IsNoChoice at result }
{
    Stop::Fault(Fault {
        code: FaultCode::NoChoice,
        at: Some(at),
        kept: Kept::Nothing,
    })
}

/// The first of these choices of which a list constructor with these items may make a list: it is long enough and not too long, and
/// each item that is a literal is in the type of its place. `NoChoice` at the place where there is none.
pub fn first_list_choice<T: Types>(
    types: &T,
    choices: &[Choice],
    items: &[Expr],
    at: Place,
) -> Result<Choice, Stop<Fault>>
    ensures below { (n : ℕ) → ChoicesBelow n choices.now → IfOk result (λ c. c.atom < n) }
    ensures comes { ComesOver (first_fit (ListFits (map (λ i. i.literal) (map read_expr items.now))) choices.now at) (T.atoms types.now) result (T.atoms types.now) }
{
    let defs = types.env().defs();
    for choice in choices {
        if list_fits(defs, *choice, items) {
            return Ok(*choice);
        }
    }
    Err(no_choice(at))
}

/// The first of these choices of which a mapping constructor with these members may make a mapping: each key is allowed, each required
/// field is there, and each member that is a literal is in the type of its key. `NoChoice` at the place where there is none.
pub fn first_mapping_choice<T: Types>(
    types: &T,
    choices: &[Choice],
    members: &[Member],
    at: Place,
) -> Result<Choice, Stop<Fault>>
    ensures below { (n : ℕ) → ChoicesBelow n choices.now → IfOk result (λ c. c.atom < n) }
    ensures comes { ComesOver (first_fit (MappingFits (map seen_of (map read_member members.now))) choices.now at) (T.atoms types.now) result (T.atoms types.now) }
{
    let defs = types.env().defs();
    for choice in choices {
        if mapping_fits(defs, *choice, members) {
            return Ok(*choice);
        }
    }
    Err(no_choice(at))
}
