//! What reads give: bytes from the front of those left, or a counted fault.

ghost use Rattle.std.specs.Prelude.{◌≡◌, ℕ, ◌<◌, ◌≤◌, List, Option, IfOk, OnErr, OnOk, length, take};
ghost use Rattle.hv_io.specs.Streams.{Rose, Takes, IsSpent};

use crate::failed::Failed;

/// Where bytes come from.
pub trait Source {
    /// The bytes that are left, where the source tells them.
    ghost left: { Self → Option (List ℕ) };

    /// How many reads failed. It never falls, and stays once it is 2^64 - 1.
    ghost faults: { Self → ℕ };

    /// Takes bytes from the front of those left into the front of `buf`, and answers how many: 0 for a buffer that
    /// isn't empty only where no byte is left.
    ///
    /// `Failed` exactly where the source counted a fault; no byte was taken then.
    fn read(&mut self, buf: &mut [u8]) -> Result<usize, Failed>
        ensures count { IfOk result (λ n. n ≤ length buf.old) }
        ensures taken { IfOk result (λ n. Takes (left self.old) (left self.new) (take n buf.new)) }
        ensures end { IfOk result (λ n. n ≡ 0 → 0 < length buf.old → IsSpent (left self.new)) }
        ensures quiet { OnOk result (faults self.new ≡ faults self.old) }
        ensures counted { OnErr result (Rose (faults self.old) (faults self.new)) }
        ensures same { OnErr result (left self.new ≡ left self.old) }
        ensures grows { faults self.old ≤ faults self.new };
}
