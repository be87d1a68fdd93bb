//! What is known of a place beside a coding tree unit.

/// What was read of a place of the picture (7.4.9.4, 7.4.9.5, 8.4.2, 8.6.1).
#[derive(Clone, Copy, Debug, PartialEq, Eq)]
pub struct Side {
    /// CtDepth.
    pub depth: u8,
    /// cu_skip_flag.
    pub skipped: bool,
    /// Whether CuPredMode is MODE_INTRA.
    pub intra: bool,
    /// IntraPredModeY; INTRA_DC where it has none, by pulse code modulation too.
    pub luma_mode: u8,
    /// Qp'Y.
    pub qp: u8,
}
