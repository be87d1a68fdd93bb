//! What the last unit of the row above carries on to the first one of a row.

ghost use Rattle.std.specs.Prelude.{◌≡◌, ◌+◌, ◌%◌, ◌^◌, ◌<◌, ℕ, [], All, true, false, length, slice_index_or};
ghost use Rattle.header_types.specs.SequenceParameterSets.{size_in_ctbs, width_in_ctbs};
ghost use Rattle.cabac_contexts.specs.Packing.{unpacked};
ghost use Rattle.spec_slice_data.specs.Segment.{begins_row, begins_substream};
ghost use Rattle.unit_words.specs.UnitTrees.{UnitReader};
ghost use Rattle.unit_words.specs.Above.{MayResume, ReadsOn};
ghost use Rattle.unit_words.specs.Work.{carry_behind};
ghost use Rattle.spec_known_units.specs.Known.{picture_segments, segment_having};
ghost use Rattle.row_trees.specs.Reading.{CarriesBehind, IsCarried, OfSegment};

use crate::segments::RowSegments;
use cabac_contexts::{BinReader, Contexts};
use cabac_engine::Interval;
use sample_words::Carry;
use unit_words::{SegmentData, UnitReader, resume_reader};

/// The reader before the first unit of a row, where the current segment is the unit's, behind what the last unit of the
/// row above carries on. Where no segment has the unit it is any.
pub(crate) fn carried_reader<'a>(
    segments: &RowSegments<'a>,
    address: u32,
    carry: &Carry,
) -> UnitReader<'a>
    requires some { 0 < address }
    requires first { address % width_in_ctbs segments.now.plan.sps ≡ 0 }
    requires inside { address < size_in_ctbs segments.now.plan.sps }
    requires current { segments.now.current ≡ segment_having (picture_segments segments.now.plan) address }
    requires carried { CarriesBehind segments.now.plan address carry.now }
    ensures { OfSegment segments.now.plan address (IsCarried segments.now.plan address result) }
{
    let own = segments.begins_row(address);
    match &segments.current {
        None => UnitReader::new(),
        Some(segment) => reader_in(segment, own, address, carry),
    }
}

/// The same in a segment. Where a substream begins with the unit only contexts and Qp'Y are carried to it; else the
/// engine goes on in the substream of the segment, which has no other.
fn reader_in<'a>(
    segment: &SegmentData<'a>,
    own: bool,
    address: u32,
    carry: &Carry,
) -> UnitReader<'a>
    requires own { own ≡ begins_row segment.now.picture address }
    requires contexts { All (λ value. value < 126) (unpacked carry.now.contexts) }
    requires resumed { begins_substream segment.now.picture segment.now.shape address ≡ false
        → MayResume (slice_index_or segment.now.shape.substreams 0 []) carry.now }
    ensures contexts { begins_substream segment.now.picture segment.now.shape address ≡ true
        → result.bins.contexts ≡ unpacked carry.now.contexts }
    ensures last { begins_substream segment.now.picture segment.now.shape address ≡ true
        → result.last ≡ carry.now.last }
    ensures resumed { begins_substream segment.now.picture segment.now.shape address ≡ false
        → (reader : UnitReader) → ReadsOn (slice_index_or segment.now.shape.substreams 0 []) reader
        → carry.now ≡ carry_behind reader → result ≡ reader }
{
    if address == segment.first() || own {
        reader_of_contexts(carry)
    } else {
        resume_reader(first_substream(segment), carry)
    }
}

/// The bytes of a segment's first substream.
fn first_substream<'a>(segment: &SegmentData<'a>) -> &'a [u8]
    ensures value { result.now ≡ slice_index_or segment.now.shape.substreams 0 [] }
    ensures short { length result.now < 2 ^ 60 }
{
    segment.substream_at(segment.first())
}

/// A reader with the contexts and Qp'Y that are carried on. The engine begins anew, so no bin may be asked yet.
fn reader_of_contexts<'a>(carry: &Carry) -> UnitReader<'a>
    requires { All (λ value. value < 126) (unpacked carry.now.contexts) }
    ensures contexts { result.bins.contexts ≡ unpacked carry.now.contexts }
    ensures last { result.last ≡ carry.now.last }
{
    UnitReader {
        bins: BinReader {
            interval: Interval::resume(&[], [256, 0, 0]),
            contexts: Contexts::unpack(carry.contexts),
        },
        last: carry.last,
    }
}
