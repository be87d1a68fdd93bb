//! Samples where there is no picture.

ghost use Rattle.std.specs.Prelude.{◌≡◌, ◌<◌, ℕ, length};
ghost use Rattle.std.specs.List.{All};
ghost use Rattle.inter_pred.specs.Passes.{at, IsByte};

/// A line of zeros.
pub(crate) fn clear(line: &mut [u16])
    ensures count { length line.new ≡ length line.old }
    ensures value { (k : ℕ) → k < length line.old → at line.new k ≡ 0 }
{
    for k in 0..line.len() {
        line[k] = 0;
    }
}

/// A window of zeros.
pub(crate) fn clear_window(out: &mut [u16; 5112])
    ensures value { (k : ℕ) → k < 5112 → at out.new k ≡ 0 }
    ensures bytes { All IsByte out.new }
{
    *out = [0; 5112];
}
