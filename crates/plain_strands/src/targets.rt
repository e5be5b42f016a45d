//! The strands that a wait names.
#![tactic(auto, using(crate::proofs::Naming::naming))]

ghost use Rattle.std.specs.Prelude.{◌≡◌, ◌++◌, IfOk, OnOk, map, option_map};
ghost use Rattle.op_model.specs.Waits as model;
ghost use Rattle.plain_run.specs.Held.{common_of, role_of};
ghost use Rattle.plain_strands.specs.Choices.{if_all, worker_named};
ghost use Rattle.plain_strands.specs.Targets.{target_of};

use crate::waits::{Target, future_target, worker_target};
use bal_base::Memory;
use plain_run::{Common, Role};
use value_model::Value;

/// The strand of a worker of the frame's activation, where it is one.
fn worker_of(common: &Common, role: Option<Role>, worker: u32) -> Option<Target>
    ensures { option_map target_of result ≡ worker_named (common_of common.now) (option_map role_of role) worker }
{
    match role {
        None => None,
        Some(role) => worker_target(common, role, worker as u64),
    }
}

/// The strands that the names stand for, behind the others: workers, or the next of the futures; whether all are there.
pub(crate) fn targets(
    common: &Common,
    role: Option<Role>,
    names: &[Option<u32>],
    values: &[Value],
    found: &mut Vec<Target>,
) -> Result<bool, Memory>
    ensures { IfOk result (λ all. option_map (λ more. map target_of found.old.items ++ more) (model.targets (common_of common.now) (option_map role_of role) names.now values.now) ≡ if_all all (map target_of found.new.items)) }
{
    match names {
        [] => Ok(values.is_empty()),
        [Some(worker), rest @ ..] => match worker_of(common, role, *worker) {
            None => Ok(false),
            Some(t) => {
                found.push(t)?;
                targets(common, role, rest, values, found)
            }
        },
        [None, rest @ ..] => match values {
            [Value::Future { strand, .. }, left @ ..] => {
                let t = future_target(*strand);
                found.push(t)?;
                targets(common, role, rest, left, found)
            }
            _ => Ok(false),
        },
    }
}

/// The numbers of the strands, behind the others.
pub(crate) fn push_strands(targets: &[Target], strands: &mut Vec<u64>) -> Result<(), Memory>
    ensures { OnOk result (strands.new.items ≡ strands.old.items ++ model.strands_in (map target_of targets.now)) }
{
    match targets {
        [] => Ok(()),
        [t, rest @ ..] => {
            strands.push(t.strand)?;
            push_strands(rest, strands)
        }
    }
}
