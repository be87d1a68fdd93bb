//! The rules that fields of a header or of a parameter set keep.

use crate::fault::FaultKind;

/// The two rules that each field of one kind of structure keeps.
#[derive(Clone, Copy, Debug, PartialEq, Eq)]
pub struct FieldRules {
    /// The rule that a structure breaks which ends inside a field, or has a prefix of over 31 zeros.
    pub syntax: FaultKind,
    /// The rule that a field out of range breaks.
    pub range: FaultKind,
}

/// The rules of the fields of parameter sets.
pub const PARAMETER_SET_RULES: FieldRules = FieldRules {
    syntax: FaultKind::ParamSyntax,
    range: FaultKind::ParamRange,
};

/// The rules of the fields of slice segment headers.
pub const SLICE_HEADER_RULES: FieldRules = FieldRules {
    syntax: FaultKind::HeaderSyntax,
    range: FaultKind::HeaderRange,
};
