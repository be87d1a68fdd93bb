//! What writes give: bytes at the end of those so far, or a counted fault.

ghost use Rattle.std.specs.Prelude.{◌≡◌, ℕ, ◌<◌, ◌≤◌, List, Option, IfOk, OnErr, OnOk, length, take};
ghost use Rattle.hv_io.specs.Streams.{Rose, Gains};

use crate::failed::Failed;

/// Where bytes go to.
pub trait Sink {
    /// The bytes so far, where the sink tells them.
    ghost contents: { Self → Option (List ℕ) };

    /// How many writes failed. It never falls, and stays once it is 2^64 - 1.
    ghost faults: { Self → ℕ };

    /// Appends bytes of the front of `piece`, and answers how many: at least one of a piece that isn't empty.
    ///
    /// `Failed` exactly where the sink counted a fault; no byte was gained then.
    fn write(&mut self, piece: &[u8]) -> Result<usize, Failed>
        ensures count { IfOk result (λ n. n ≤ length piece.now) }
        ensures gained { IfOk result (λ n.
            Gains (contents self.old) (contents self.new) (take n piece.now)) }
        ensures progress { IfOk result (λ n. 0 < length piece.now → 0 < n) }
        ensures quiet { OnOk result (faults self.new ≡ faults self.old) }
        ensures counted { OnErr result (Rose (faults self.old) (faults self.new)) }
        ensures same { OnErr result (contents self.new ≡ contents self.old) }
        ensures grows { faults self.old ≤ faults self.new };
}
