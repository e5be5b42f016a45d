//! That two runs of one check agree. These calls do nothing: their clauses are laws.
ghost use Rattle.checks.specs.Agreement.{ChainsAgree, BelowAgrees, IsBelowAgrees, HasSomeAgrees, MemberAgrees, AppliedAgrees, AddsAgree};

use type_model::Types;

/// Two checks, what stands behind each, and which of their answers correspond.
pub trait Chains {
    ghost use Rattle.checks.specs.Checks.{Check};
    ghost use Rattle.checks.specs.Agreement.{Corresponds};

    /// What a check reads and writes.
    ghost State: { Type 0 };

    /// What the first check of each chain gives.
    ghost Left: { Type 0 };

    ghost Right: { Type 0 };

    /// What each chain gives.
    ghost LeftEnd: { Type 0 };

    ghost RightEnd: { Type 0 };

    ghost left: { Check State Left };

    ghost right: { Check State Right };

    ghost behind_left: { Left → Check State LeftEnd };

    ghost behind_right: { Right → Check State RightEnd };

    ghost correspond: { Corresponds State Left Right };

    ghost correspond_ends: { Corresponds State LeftEnd RightEnd };
}

/// Checks one behind another are alike where their parts are.
pub fn chains_agree<C: Chains>()
    ensures { ChainsAgree C.correspond C.correspond_ends C.left C.right C.behind_left C.behind_right }
{}

/// Questions about types with the same shapes get one answer, however their limits are counted; groups of one length get one number.
pub fn questions_agree<T: Types>()
    ensures below { BelowAgrees T.passes }
    ensures is_below { IsBelowAgrees T.passes }
    ensures has_some { HasSomeAgrees T.passes }
    ensures member { MemberAgrees T.passes }
    ensures applied { AppliedAgrees T.passes }
    ensures adds { AddsAgree }
{}
