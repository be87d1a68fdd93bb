//! MD5 digests, as picture hashes state them.

ghost use Rattle.std.specs.Prelude.{Some};
ghost use Rattle.hv_base.specs.Text.{digest_text};

use std::fmt;

/// The 16 bytes of an MD5 digest, as two numbers of eight bytes each, whose first byte is the most significant one.
/// It is told as 32 hexadecimal digits.
#[derive(Clone, Copy, Debug, PartialEq, Eq)]
pub struct Digest {
    /// The first eight bytes.
    pub first: u64,
    /// The last eight bytes.
    pub last: u64,
}

impl fmt::Display for Digest {
    ghost output = { λ d. Some (digest_text d) };

    fn fmt<W: fmt::Write>(&self, f: &mut fmt::Formatter<W>) -> fmt::Result {
        let first = self.first;
        let last = self.last;
        write!(f, "{first:016x}{last:016x}")
    }
}
