//! The needs of one place of code in its unit, found as questions, without asking them.
//!
//! - [`operand_count`], [`gives`], [`ends`]: how many operands an instruction takes, whether it gives a result, and whether the
//!   frame ends there.
//! - [`Always`], [`always_lent`]: what the questions of all places name that stands in no code; [`Loan`], [`loan_at`]: what those of one
//!   place do; [`lend`]: both, lent.
//! - [`command`]: what the instruction at a place needs: its operation by its typing row, the next place, and where it may go on.
//! - [`instr_at`], [`map_at`], [`stack_at`]: what stands at a place; [`row_at`], [`outside`]: the traps in whose reach it is, by rows.
//! - [`traps`]: what they need of its types.
//! - [`place_needs`]: both.
//! - [`traps_stand_before`], [`questions_may_be_asked`], [`place_needs_may_be_asked`]: laws of traps and of questions.
//!
//! The needs of a place are said in `code_needs`, and what it means that they are found in `needs_of_rows`. `specs/Loans.antt` says
//! what is lent to the questions of a place, `specs/Askable.antt` which needs may be asked about, `specs/Laws.antt` the laws.
#![tactic(auto)]

mod branches;
mod chains;
mod commands;
mod counts;
mod does;
mod laws;
mod loans;
mod stacks;

pub use chains::{outside, row_at, traps};
pub use commands::{command, place_needs};
pub use counts::{ends, gives, operand_count};
pub use laws::{place_needs_may_be_asked, questions_may_be_asked, traps_stand_before};
pub use loans::{Always, Loan, always_lent, lend, loan_at};
pub use stacks::{instr_at, map_at, stack_at};
