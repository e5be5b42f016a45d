//! What operations come to, as plain programs: what a run holds is held in vectors, and each operation is a function whose
//! contract is its row of the table of operations. Code runs by them, but for what `fast_code` does at once.
//!
//! - [`Common`] and its parts: what a run holds. `specs/Held.antt` says what it stands for. [`Structures`] and [`Functions`] count
//!   their cells as they come and change, so that the heap's room is known at once; [`Strands`] knows which of them are blocked and
//!   how many have ended; [`Entries`] find a key by an index.
//! - [`ProgramFacts`] and its parts: what is known of the program; `specs/ProgramFacts.antt`.
//! - [`Performed`] and [`Effect`]: what is answered for an operation; `specs/Effects.antt`, `IsPerformed`.
//! - [`perform_ints`], [`perform_negate`] and [`perform_not`]: ints and booleans.
//! - [`perform_compare`] and [`perform_same`]: comparisons; [`perform_concat`]: strings.
//! - [`perform_load`], [`perform_load_module`], [`perform_store_module`] and [`perform_tick`]: slots, module variables and ticks.
//! - [`perform_make_list`] and [`perform_make_function`]: constructors.
//! - [`perform_call`], [`perform_return`] and [`perform_panic`]: calls, and the ends of frames.
//!
//! - [`strand_end`], [`worker_end`], [`has_ended`], [`is_success`], [`has_success`], [`channel`] and [`is_met`]: who has ended,
//!   what was sent, and whose needs are met.
//! - [`settle`], [`block`], [`end_strand`] and [`end_worker`]: who becomes ready, and how strands and workers stand.
//!
//! - [`Came`], [`lifted`], [`make_error`], [`panics`], [`gives_structure`] and their kin: what bodies of further operations are put
//!   together of; [`has_room_for`], [`left_beside`] and [`MOST_CELLS`]: the heap's room.
#![tactic(auto)]

mod constructors;
mod effect;
mod entries;
mod facts;
mod frames;
mod functions;
mod held;
mod ints;
mod making;
mod needs;
mod strand_list;
mod strands;
mod strings;
mod structures;
mod values;
mod variables;
mod world;

pub use constructors::{perform_make_function, perform_make_list};
pub use effect::{Effect, Ints, Performed, Spawned, lifted, perform_ints};
pub use entries::Entries;
pub use facts::{ProgramFacts, UnitFacts, WorkerFacts};
pub use frames::{
    perform_call, perform_load, perform_panic, perform_return, perform_tick, share_all,
};
pub use functions::Functions;
pub use held::{
    Activation, Caller, Channel, Common, End, ErrorObject, FunctionObject, Heap, Members, Need,
    Role, Status, Strand, Structure, ToRun, World,
};
pub use making::{MOST_ITEMS, gives_function, gives_structure, new_structure, size_of};
pub use needs::{channel, has_ended, has_success, is_met, is_success, strand_end, worker_end};
pub use strand_list::Strands;
pub use strands::{block, end_strand, end_worker, settle};
pub use strings::{MOST_CODE_POINTS, gives_text, perform_concat};
pub use structures::Structures;
pub use values::{
    Comparison, is_same, perform_compare, perform_negate, perform_not, perform_same, told,
};
pub use variables::{perform_load_module, perform_store_module};
pub use world::{Came, MOST_CELLS, has_room_for, left_beside, make_error, panics};
