//! A sink into memory that is taken as it is needed.

ghost use Rattle.std.specs.Prelude.{◌≡◌, ◌<◌, ◌≤◌, [], Some, IfOk, OnErr, OnOk, length, take};
ghost use Rattle.hv_io.specs.Streams.{Gains, Rose};

use hv_io::{Failed, Sink};
use std::alloc::Global;

/// A sink into memory that grows. A write to it fails for want of memory alone.
#[derive(Drop)]
pub(crate) struct GrowingSink {
    bytes: Vec<u8>,
    faults: u64,
}

impl GrowingSink {
    /// A sink without a byte.
    pub(crate) fn new(alloc: Global) -> GrowingSink
        ensures { result.bytes.items ≡ [] }
    {
        GrowingSink {
            bytes: Vec::new(alloc),
            faults: 0,
        }
    }

    /// Its bytes.
    pub(crate) fn into_bytes(self) -> Vec<u8>
        ensures { result.items ≡ self.bytes.items }
    {
        self.bytes
    }
}

impl Sink for GrowingSink {
    ghost contents = { λ s. Some s.bytes.items };

    ghost faults = { λ s. s.faults };

    /// It takes the whole piece.
    fn write(&mut self, piece: &[u8]) -> Result<usize, Failed>
        ensures count { IfOk result (λ n. n ≤ length piece.now) }
        ensures gained { IfOk result (λ n.
            Gains (Some self.old.bytes.items) (Some self.new.bytes.items) (take n piece.now)) }
        ensures progress { IfOk result (λ n. 0 < length piece.now → 0 < n) }
        ensures quiet { OnOk result (self.new.faults ≡ self.old.faults) }
        ensures counted { OnErr result (Rose self.old.faults self.new.faults) }
        ensures same { OnErr result (Some self.new.bytes.items ≡ Some self.old.bytes.items) }
        ensures grows { self.old.faults ≤ self.new.faults }
    {
        if self.bytes.extend_from_slice(piece).is_err() {
            self.faults = self.faults.saturating_add(1);
            return Err(Failed);
        }
        Ok(piece.len())
    }
}
