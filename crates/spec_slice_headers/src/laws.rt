//! Laws of the definitions.

ghost use Rattle.hv_base.specs.declared.field_rules.TheConstants.{SLICE_HEADER_RULES};
ghost use Rattle.spec_parameter_sets.specs.SpecFormats.{field_at, read};
ghost use Rattle.spec_parameter_sets.specs.SpecFormats.{IsSpelledAs};
ghost use Rattle.spec_parameter_sets.specs.SpecFormats.{IsLocal};
ghost use Rattle.spec_slice_headers.specs.Context.{Context};
ghost use Rattle.spec_slice_headers.specs.SegmentHeader.{slice_segment_header};
ghost use Rattle.spec_slice_headers.specs.Substreams.{RangesAreInside, RangesHoldSubstreams};
ghost use Rattle.spec_slice_headers.specs.UnitCuts.{
  DataReachTheEnd,
  PlaceIsFound,
  SubstreamsAreCuts,
  SubstreamsJoin,
};

/// A slice segment header that is read, up to its byte alignment, is spelled by the fields that the bits have, and what
/// those spell is read. It depends on the bits that are read, and on none behind them.
pub fn headers_are_spelled()
    ensures spelled { (c : Context) → IsSpelledAs (field_at SLICE_HEADER_RULES) (slice_segment_header c) }
    ensures local { (c : Context) → IsLocal (read SLICE_HEADER_RULES (slice_segment_header c)) }
{}

/// The place in a NAL unit of a byte of its payload is found from where the emulation prevention bytes stood.
pub fn places_are_found()
    ensures place { PlaceIsFound }
    ensures size { DataReachTheEnd }
{}

/// The substreams of a payload are those that are cut in its NAL unit, of which the emulation prevention bytes are left
/// out after the cut.
pub fn substreams_are_cuts()
    ensures { SubstreamsAreCuts }
{}

/// However entry points cut slice segment data, the substreams joined are the whole data.
pub fn substreams_join()
    ensures { SubstreamsJoin }
{}

/// The ranges of the substreams are ranges of the payload, and their bytes are the substreams.
pub fn ranges_hold_substreams()
    ensures value { RangesHoldSubstreams }
    ensures inside { RangesAreInside }
{}
