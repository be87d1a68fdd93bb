//! The line that tells an outcome.

ghost use Rattle.hv_base.specs.Text.{outcome_line};
ghost use Rattle.decoder.specs.Headline.{change_of};
ghost use Rattle.command_line.specs.Telling.{Tells};

use crate::line_text::{fault_line, limit_line};
use hv_base::Outcome;
use hv_io::{Sink, write_all};

/// Tells an outcome by its line.
pub(crate) fn tell<E: Sink>(outcome: Outcome, err: &mut E)
    ensures { Tells (change_of E.contents E.faults err.old err.new) (outcome_line outcome) }
{
    match outcome {
        Outcome::Ok => {}
        Outcome::Fault(fault) => tell_line(err, fault_line(fault).as_str()),
        Outcome::Limit(limit) => tell_line(err, limit_line(limit).as_str()),
        Outcome::Memory => tell_line(err, "memory\n"),
        Outcome::ReadFault => tell_line(err, "read fault\n"),
        Outcome::WriteFault => tell_line(err, "write fault\n"),
    }
}

/// Writes a line. A failed write changes nothing else.
pub(crate) fn tell_line<E: Sink>(err: &mut E, line: &str)
    ensures { Tells (change_of E.contents E.faults err.old err.new) line.now }
{
    let _ = write_all(err, line.as_bytes());
}
