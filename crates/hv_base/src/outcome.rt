//! How a run ends, and the exit status that tells it.

ghost use Rattle.std.specs.Prelude.{◌≡◌};
ghost use Rattle.hv_base.specs.Text.{status_of};

use crate::fault::Fault;
use crate::limit::Limit;

/// How decoding ended.
#[derive(Clone, Copy, Debug, PartialEq, Eq)]
pub enum Outcome {
    /// All pictures were written.
    Ok,
    /// The stream breaks a rule: the first one.
    Fault(Fault),
    /// The stream meets a limit before it breaks a rule.
    Limit(Limit),
    /// There was no memory left.
    Memory,
    /// The source failed.
    ReadFault,
    /// The sink failed.
    WriteFault,
}

impl Outcome {
    /// The exit status that tells this outcome.
    pub fn status(self) -> Status
        ensures { result.0 ≡ status_of self }
    {
        match self {
            Outcome::Ok => Status(0),
            Outcome::Fault(_) => Status(2),
            Outcome::Limit(_) => Status(3),
            Outcome::Memory => Status(4),
            Outcome::ReadFault => Status(5),
            Outcome::WriteFault => Status(6),
        }
    }
}

/// The exit status of the program: 0 all written, 1 a faulty command line, 2 a broken rule, 3 a limit, 4 no memory,
/// 5 a read fault, 6 a write fault.
#[derive(Clone, Copy, Debug, PartialEq, Eq)]
pub struct Status(pub u8);
