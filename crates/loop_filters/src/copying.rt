//! Samples that are copied.

ghost use Rattle.std.specs.Prelude.{◌≡◌, ◌≤◌, ◌+◌, ◌-◌, ◌&&◌, ℕ, cond, length, nat_le, nat_lt, slice_index_or};

/// Copies `count` samples to place `to` of others.
pub fn copy_part(samples: &[u16], from: usize, count: usize, out: &mut [u16], to: usize)
    requires from { from + count ≤ length samples.now }
    requires to { to + count ≤ length out.old }
    ensures { (k : ℕ) → slice_index_or out.new k 0
        ≡ cond (nat_le to k && nat_lt k (to + count)) (slice_index_or samples.now (from + (k - to)) 0)
        (slice_index_or out.old k 0) }
{
    out[to..to + count].copy_from_slice(&samples[from..from + count]);
}
