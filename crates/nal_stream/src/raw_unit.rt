//! Where a unit ends in the bytes of a stream (B.2).

ghost use Rattle.std.specs.Prelude.{◌≡◌, ℕ, ◌-◌, ◌<◌, ◌≤◌, false, length, take, drop};
ghost use Rattle.spec_nal_units.specs.Units.{ends_unit, unit_end, trimmed};

/// How many bytes stand before the first 00 00 00 or 00 00 01, which stands at none of the first `from` places.
pub fn end_of_unit(bytes: &[u8], from: usize) -> Option<usize>
    requires inside { from ≤ length bytes.now - 2 }
    requires searched { (j : ℕ) → j < from → ends_unit (drop j bytes.now) ≡ false }
    ensures { result ≡ unit_end bytes.now }
{
    let mut at = from;
    while bytes.len() - at > 2 {
        if bytes[at + 2] > 1 {
            at += 3;
        } else if bytes[at] == 0 && bytes[at + 1] == 0 {
            return Some(at);
        } else {
            at += 1;
        }
    }
    None
}

/// The bytes without the zero bytes at their end.
pub fn without_zeros(bytes: &[u8]) -> &[u8]
    ensures { result.now ≡ trimmed bytes.now }
{
    let mut len = bytes.len();
    while len > 0 {
        if bytes[len - 1] != 0 {
            return &bytes[..len];
        }
        len -= 1;
    }
    &bytes[..0]
}
