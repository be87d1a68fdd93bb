//! Why a header, a parameter set or a picture isn't accepted.

ghost use Rattle.std.specs.Prelude.{◌≡◌};
ghost use Rattle.hv_base.specs.declared.refusal.Refusal.TheVariants.{Memory};

use crate::fault::{Fault, FaultKind};
use crate::limit::{Limit, LimitKind};
use std::alloc::{AllocError, AllocFailed};

/// Why a part of a stream isn't accepted: the first rule that it breaks, or the first limit that it meets, or there was
/// no memory left.
#[derive(Clone, Copy, Debug, PartialEq, Eq)]
pub enum Refusal {
    /// There was no memory left.
    Memory,
    /// A rule is broken.
    Fault(FaultKind),
    /// A limit is met.
    Limit(LimitKind),
}

impl From<AllocError> for Refusal {
    ghost from_gives = { λ _ e. e ≡ Memory };

    fn from(_e: AllocError) -> Refusal {
        Refusal::Memory
    }
}

impl<T: Drop> From<AllocFailed<T>> for Refusal {
    ghost from_gives = { λ _ e. e ≡ Memory };

    fn from(_e: AllocFailed<T>) -> Refusal {
        Refusal::Memory
    }
}

/// A broken rule or a limit that was met, and where.
#[derive(Clone, Copy, Debug, PartialEq, Eq)]
pub enum Stop {
    /// A rule is broken.
    Fault(Fault),
    /// A limit is met.
    Limit(Limit),
}
