//! What is known of one variable, by its name. It costs a look through the variables.
#![tactic(auto)]

ghost use Rattle.std.specs.Prelude.{◌≡◌, ◌<◌, IfSome, length, position};
ghost use Rattle.type_model.specs.Places.{is_same_text};
ghost use Rattle.check_words.specs.State.{narrowed_by_name, with_type};
ghost use Rattle.check_work.specs.Views.{flow_of};

use crate::work::Here;
use bal_base::Name;
use flow_narrowing::Variable;
use typed_tree::SharedTy;

/// Where the name stands first.
fn place_of(variables: &[Variable], name: &Name) -> Option<usize>
    ensures place { result ≡ position (λ v. is_same_text v.name name.now) variables.now }
    ensures bound { IfSome result (λ i. i < length variables.now) }
{
    variables.iter().position(|v| v.name == *name)
}

/// The variable with the name has this type where it stands; none: its declared one. Nothing changes where it isn't seen.
#[tactic(auto, using(check_words::proofs::Retyping::retyping))]
pub fn narrow_by_name(variables: &mut Vec<Variable>, name: &Name, t: Option<SharedTy>)
    ensures { variables.new.items ≡ narrowed_by_name variables.old.items name.now t }
{
    match place_of(variables.as_slice(), name) {
        Some(i) => variables[i].narrowed = t,
        None => {}
    }
}

impl Here {
    /// The variable with the name has this type here; none: its declared one.
    pub fn retype(&mut self, name: &Name, t: Option<SharedTy>)
        ensures { flow_of self.new ≡ with_type name.now t (flow_of self.old) }
    {
        narrow_by_name(&mut self.variables, name, t);
    }
}
