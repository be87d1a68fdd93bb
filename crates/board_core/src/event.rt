//! The events of a flight, each one atomic action of one worker.

use hv_base::{Line, UnitNumber};

/// One atomic action of one worker.
#[derive(Clone, Copy, Debug, PartialEq, Eq)]
pub enum Event {
    /// The next job is drawn: the line of the next ticket.
    Draw,
    /// The coding tree unit at this place of a B line is parsed.
    Read(Line, u32),
    /// The coding tree unit at this place of a B line is built and counted.
    Build(Line, u32),
    /// A line of another phase than B is filtered as a whole and counted.
    Filter(Line),
    /// This unit is found to break a rule.
    Fault(UnitNumber),
}
