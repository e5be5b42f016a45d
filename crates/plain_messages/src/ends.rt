//! What the end of a strand or of a worker gives.
#![tactic(auto)]

ghost use Rattle.std.specs.Prelude.{◌≡◌, option_copied, option_map};
ghost use Rattle.op_model.specs.Waits.{ends_with};
ghost use Rattle.plain_run.specs.declared.held.Common.{Common as CommonOf};
ghost use Rattle.plain_run.specs.Effects.{EffectStays, effect_of};
ghost use Rattle.plain_run.specs.Held.{common_of, end_of};

use plain_run::{Effect, End};

/// Its result, or its panic.
pub fn ended(end: &End) -> Effect
    ensures row { (c : CommonOf) → effect_of result c ≡ ends_with (common_of c) (end_of end.now) }
    ensures stays { (old new : CommonOf) → EffectStays old new result }
{
    match end {
        End::Returned(v) => Effect::Gives(Some(v.share())),
        End::Panicked(e) => Effect::Fails(e.share()),
    }
}

fn again(end: &End) -> End
    ensures { end_of result ≡ end_of end.now }
{
    match end {
        End::Returned(v) => End::Returned(v.share()),
        End::Panicked(e) => End::Panicked(e.share()),
    }
}

/// The same end.
pub fn share_end(end: Option<&End>) -> Option<End>
    ensures { option_map end_of result ≡ option_map end_of (option_copied end.entry) }
{
    match end {
        None => None,
        Some(end) => Some(again(end)),
    }
}
