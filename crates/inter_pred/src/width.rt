//! Widths of blocks.

ghost use Rattle.std.specs.Prelude.{◌≤◌};

/// A width in whole eights of columns, so that none is left over by itself, but for that of the widest window.
pub fn in_eights(width: usize) -> usize
    requires { width ≤ 71 }
    ensures wide { width ≤ result }
    ensures inside { result ≤ 71 }
    ensures block { width ≤ 64 → result ≤ 64 }
{
    ((width + 7) / 8 * 8).min(71)
}
