//! Needs as values.

/// Whoever meets needs that are handed about as values, as a `MeetsExprs` and a `MeetsStmts`: each call of these is one with the need as a
/// value. So a walk goes over a type with few calls, whatever it goes over.
pub struct ByNeed<W> {
    pub meets: W,
}
