//! Laws of the definitions.

ghost use Rattle.hv_base.specs.declared.field_rules.FieldRules.{FieldRules};
ghost use Rattle.hv_base.specs.declared.field_rules.TheConstants.{PARAMETER_SET_RULES, SLICE_HEADER_RULES};
ghost use Rattle.spec_formats.specs.Fields.{Field};
ghost use Rattle.spec_formats.specs.Format.{One};
ghost use Rattle.spec_slice_headers.specs.SpecParameterSets.{picture_parameter_set};
ghost use Rattle.spec_slice_headers.specs.SpecParameterSets.{sequence_parameter_set};
ghost use Rattle.spec_slice_headers.specs.Context.{Context};
ghost use Rattle.spec_slice_headers.specs.SegmentHeader.{slice_segment_header};
ghost use Rattle.spec_written_headers.specs.Codes.{IsReadBack};

/// What codes give to a field is read from their bits.
pub fn fields_read_back()
    ensures { (rules : FieldRules) (field : Field) → IsReadBack rules (One field) }
{}

/// What codes give to a parameter set is read from their bits, whatever stands behind them.
pub fn parameter_sets_read_back()
    ensures sequence { IsReadBack PARAMETER_SET_RULES sequence_parameter_set }
    ensures picture { IsReadBack PARAMETER_SET_RULES picture_parameter_set }
{}

/// So is what they give to a slice segment header, up to its byte alignment.
pub fn headers_read_back()
    ensures { (c : Context) → IsReadBack SLICE_HEADER_RULES (slice_segment_header c) }
{}
