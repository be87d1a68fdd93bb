//! What the words of a unit have.

/// What a word of a unit has. Columns and lines are counted from the unit's first ones.
#[derive(Clone, Copy)]
pub enum UnitContent {
    /// Samples: component, line, and which word of the line it is.
    Samples(u8, u32, u32),
    /// The vectors of the place in a column and a row.
    Vectors(u32, u32),
    /// What else is known of that place.
    Modes(u32, u32),
    /// Sample adaptive offset: word 0 or 1.
    Offsets(u32),
    /// The contexts behind a row's second unit: a word below 20.
    Contexts(u32),
    /// What a row's last unit carries on: a word below 24.
    Carried(u32),
}
