//! How decoding ended, as text.

use hv_base::Outcome;
use std::alloc::{AllocError, Global};

/// The line that tells how decoding ended, without its end; `-` where all went well.
pub(crate) fn outcome_text(alloc: Global, outcome: Outcome) -> Result<String, AllocError> {
    match outcome {
        Outcome::Ok => String::from_str(alloc, "-"),
        Outcome::Fault(fault) => format!(in alloc; "{fault}"),
        Outcome::Limit(limit) => format!(in alloc; "{limit}"),
        Outcome::Memory => String::from_str(alloc, "memory"),
        Outcome::ReadFault => String::from_str(alloc, "read fault"),
        Outcome::WriteFault => String::from_str(alloc, "write fault"),
    }
}
