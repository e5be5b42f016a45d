//! What can be said of the parts of a path's shapes.

/// What is said of the parts that stand at some keys of a path's shapes, against a table of questions.
#[derive(Clone, Copy)]
pub enum Projection {
    /// The question whose shapes are exactly these parts, where no question that the table holds to be empty
    /// has a shape.
    Parts(u32),
    /// A member question of the path that the table doesn't know.
    Ask(u32),
}
