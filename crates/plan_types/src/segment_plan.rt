//! A slice segment whose header is read.

use crate::payload::Payload;
use hv_base::BytePlaces;
use slice_types::{FieldList, Lists, SliceHeader, Substream};

/// A slice segment: its header, and its NAL unit.
#[derive(Debug, Drop)]
pub struct SegmentPlan {
    /// Its header, with the fields of its slice.
    pub header: SliceHeader,
    /// The unit's payload, behind the two bytes of its header. The segment's data begin at the header's `data_place`.
    pub payload: Payload,
    /// Where emulation prevention bytes stood, each counted in bytes from the unit's first.
    pub removed: BytePlaces,
    /// The number in the picture, from 0, of the segment that begins its slice: its own where it isn't a dependent one.
    pub slice: usize,
    /// The reference picture lists of the slice that it begins (8.3.4): `None` in a dependent slice segment.
    pub lists: Option<Lists>,
    /// The substreams of its data, each as a range of the payload: one where there is no entry point.
    pub substreams: FieldList<Substream>,
}
