//! How the blocks of a coding unit are coded.

/// What the residuals of a coding unit's blocks depend on (7.4.9.5).
#[derive(Clone, Copy, Debug, PartialEq, Eq)]
pub struct UnitMode {
    /// cu_transquant_bypass_flag.
    pub transquant_bypass: bool,
    /// Whether CuPredMode is MODE_INTRA.
    pub intra: bool,
}
