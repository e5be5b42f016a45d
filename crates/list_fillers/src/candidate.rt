//! What is known of a type before it is known which lists can be filled.

use value_model::Filler;

/// What is known of the filler of a type before it is known which lists can be filled.
#[derive(Drop)]
pub enum Candidate {
    /// This fills it: a simple value, or a new empty mapping.
    Settled(Filler),
    /// A new list of the atom with this number fills it, where each of the list's fixed places has a filler.
    OfList(u32),
    /// Nothing fills it.
    Without,
}
