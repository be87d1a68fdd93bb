//! That a framer gave up a stream.

ghost use Rattle.std.specs.Prelude.{◌≡◌, Some, [], ◌∷◌};

use crate::answer::Next;
use hv_base::{Fault, Limit};

/// Why a framer gives no more units.
#[derive(Clone, Copy, Debug)]
pub enum Refused {
    /// A rule is broken.
    Fault(Fault),
    /// A limit is met.
    Limit(Limit),
}
