//! What a NAL unit is to the pictures of a stream.

/// What a NAL unit is to the pictures of a stream (7.4.2.2, 7.4.2.4.4).
#[derive(Clone, Copy, Debug, PartialEq, Eq)]
pub enum UnitKind {
    /// A slice segment.
    Slice,
    /// A sequence parameter set.
    SequenceSet,
    /// A picture parameter set.
    PictureSet,
    /// An end of sequence or of the bitstream, which acts as one.
    SequenceEnd,
    /// A video parameter set, an access unit delimiter or prefix supplemental enhancement information, none of which is
    /// read: the next picture begins behind it.
    Border,
    /// Suffix supplemental enhancement information, which may state hashes of the open picture's planes.
    SuffixInformation,
    /// Any other unit, which is passed over.
    Other,
}
