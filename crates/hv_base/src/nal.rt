//! A NAL unit that a byte stream holds (7.3.1).

ghost use Rattle.std.specs.Prelude.{◌+◌, ◌<◌, ◌≤◌, ◌^◌, length};

use crate::lists::{BytePlaces, Bytes};

/// A NAL unit, apart from its header's fixed bits and its emulation prevention bytes (7.3.1.1, 7.3.1.2).
#[derive(Debug, Drop)]
pub struct Nal {
    /// The number of the unit, counted from 0 over the whole stream; 4294967295 for that one and all after it.
    pub index: u32,
    /// `nal_unit_type`, below 64.
    pub nal_type: u8,
    /// `nuh_layer_id`, below 64.
    pub layer: u8,
    /// TemporalId, which is `nuh_temporal_id_plus1` less one: at most 6.
    pub temporal_id: u8,
    /// The raw byte sequence payload: the bytes behind the two of the header, without emulation prevention bytes.
    pub rbsp: Bytes,
    /// Where the emulation prevention bytes stood, in ascending order, each counted in bytes from the unit's first.
    pub removed: BytePlaces,
    ghost in_range: { (nal_type < 64) × (layer < 64) × (temporal_id < 7) },
    ghost sized: { length rbsp + length removed ≤ 2 ^ 26 },
}
