//! The literals of a path.

/// The wanted atoms of a path, those of its unwanted ones that are in play, and whether its shapes are marked.
#[derive(Drop)]
pub(crate) struct Literals<'a> {
    pub(crate) wanted: &'a [u32],
    pub(crate) unwanted: &'a [u32],
    pub(crate) marked: bool,
}
