//! What a part of a stream breaks or meets, before its place is known.

ghost use Rattle.std.specs.Prelude.{◌≡◌};
ghost use Rattle.hv_base.specs.Stops.{stopped_at};

use crate::fault::{Fault, FaultKind};
use crate::limit::{Limit, LimitKind};
use crate::refusal::Stop;

/// The first rule that a part of a stream breaks, or the first limit that it meets, without its place.
#[derive(Clone, Copy, Debug, PartialEq, Eq)]
pub enum Breach {
    /// A rule is broken.
    Fault(FaultKind),
    /// A limit is met.
    Limit(LimitKind),
}

impl Breach {
    /// The same with its place: its NAL unit, and of a broken rule its coding tree unit, where it stands in one.
    pub fn at(self, nal: u32, ctu: Option<u32>) -> Stop
        ensures { result ≡ stopped_at nal ctu self }
    {
        match self {
            Breach::Fault(kind) => Stop::Fault(Fault { kind, nal, ctu }),
            Breach::Limit(kind) => Stop::Limit(Limit { kind, nal }),
        }
    }
}
