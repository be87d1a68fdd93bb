//! A source over a slice, whose reads don't fail.

ghost use Rattle.std.specs.Prelude.{◌≡◌, ℕ, ◌<◌, ◌≤◌, Some, IfOk, OnErr, OnOk, length, take};
ghost use Rattle.hv_io.specs.Streams.{IsSpent, Rose, Takes};

use hv_io::{Failed, Source};

/// A source of the bytes of a slice. No read of it fails.
#[derive(Drop)]
pub(crate) struct SliceSource<'a> {
    left: &'a [u8],
}

impl<'a> SliceSource<'a> {
    /// A source of these bytes.
    pub(crate) fn new(bytes: &'a [u8]) -> Self
        ensures { result.left.now ≡ bytes.now }
    {
        SliceSource { left: bytes }
    }
}

impl<'a> Source for SliceSource<'a> {
    ghost left = { λ s. Some s.left.now };

    ghost faults = { λ _. 0 };

    /// It gives as many bytes as there is room for.
    fn read(&mut self, buf: &mut [u8]) -> Result<usize, Failed>
        ensures count { IfOk result (λ n. n ≤ length buf.old) }
        ensures taken { IfOk result (λ n.
            Takes (Some self.old.left.now) (Some self.new.left.now) (take n buf.new)) }
        ensures end { IfOk result (λ n. n ≡ 0 → 0 < length buf.old → IsSpent (Some self.new.left.now)) }
        ensures quiet { OnOk result (◌≡◌ {A = ℕ} 0 0) }
        ensures counted { OnErr result (Rose 0 0) }
        ensures same { OnErr result (Some self.new.left.now ≡ Some self.old.left.now) }
        ensures grows { 0 ≤ 0 }
    {
        let all = self.left;
        let n = buf.len().min(all.len());
        buf[..n].copy_from_slice(&all[..n]);
        self.left = &all[n..];
        Ok(n)
    }
}
