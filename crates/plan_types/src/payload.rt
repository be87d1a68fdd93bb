//! The payload of a NAL unit.

ghost use Rattle.std.specs.Prelude.{◌≡◌, ◌≤◌, ◌^◌, length};

use hv_base::Bytes;
use std::marker::Model;

/// The raw byte sequence payload of a NAL unit (7.3.1.1): the bytes behind the two of its header, without emulation
/// prevention bytes, at most 2^26.
#[derive(Debug, Drop)]
pub struct Payload {
    bytes: Bytes,
}

impl Model for Payload {
    ghost use Rattle.std.specs.Prelude.{ℕ, List, ◌≤◌, ◌^◌, length};

    ghost Value = { List ℕ };

    ghost view = { λ p. p.bytes };

    ghost invariant = { λ p. length p.bytes ≤ 2 ^ 26 };
}

impl Payload {
    /// The payload of these bytes.
    pub fn new(bytes: Bytes) -> Payload
        requires sized { length bytes ≤ 2 ^ 26 }
        ensures { result ≡ bytes }
    {
        Payload { bytes }
    }

    /// Its bytes.
    pub fn as_slice(&self) -> &[u8]
        ensures value { result.now ≡ self.now }
        ensures sized { length result.now ≤ 2 ^ 26 }
    {
        self.bytes.as_slice()
    }
}
