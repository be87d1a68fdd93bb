//! What the words of a flight belong to.

use hv_base::Line;

/// A word of a unit of work: of a coding tree unit, or of a row behind all loop filters.
#[derive(Clone, Copy)]
pub struct UnitWord {
    /// The line of the unit.
    pub line: Line,
    /// The unit's place in its line: the column of a coding tree unit, else 0.
    pub unit: u32,
    /// Which of the unit's words it is, counted from 0.
    pub index: u32,
}

/// What a word of a flight belongs to.
#[derive(Clone, Copy)]
pub enum WordOwner {
    /// It counts the units of a line that are done.
    Count(Line),
    /// It counts the jobs that are drawn.
    Ticket,
    /// It has the least fault.
    Fault,
    /// It is never used: it keeps the words that many threads write apart.
    Spare,
    /// A unit of work writes it, once.
    Unit(UnitWord),
}
