//! Lines of a block, one after the other.

ghost use Rattle.std.specs.Prelude.{◌≡◌, ◌≤◌, ◌<◌, ◌+◌, ◌*◌, ◌^◌, ℕ, length, cond, nat_le, nat_lt, ◌&&◌};
ghost use Rattle.spec_intra_prediction.specs.Neighbours.{at};

/// How many columns a block has.
#[inline(always)]
pub fn columns(log2: u32) -> usize
    requires low { 2 ≤ log2 }
    requires high { log2 ≤ 5 }
    ensures value { result ≡ 2 ^ log2 }
    ensures least { 4 ≤ result }
    ensures greatest { result ≤ 32 }
{
    1 << log2
}

/// So many times one sample, from a place on.
#[inline(always)]
pub fn lay(out: &mut [u16], first: usize, count: usize, value: u16)
    requires { first + count ≤ length out.old }
    ensures { (q : ℕ) → at out.new q ≡ cond (nat_le first q && nat_lt q (first + count)) value (at out.old q) }
{
    for k in 0..count {
        out[first + k] = value;
    }
}

/// The greatest of some samples, 0 where there are none.
#[inline(always)]
pub fn greatest(samples: &[u16]) -> u16
    ensures bound { (k : ℕ) → k < length samples.now → at samples.now k ≤ result }
    ensures least { (bound : ℕ) → ((k : ℕ) → k < length samples.now → at samples.now k ≤ bound) → result ≤ bound }
{
    let mut greatest = 0;
    for k in 0..samples.len() {
        greatest = samples[k].max(greatest);
    }
    greatest
}
