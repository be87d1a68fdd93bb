//! How a coding unit is coded.

ghost use Rattle.std.specs.Prelude.{◌≡◌, false};
ghost use Rattle.spec_reconstruction.specs.Unit.{mode_of};

use ctu_records::CodingUnit;
use spec_reconstruction::UnitMode;

/// What is known of the coding unit that is built.
#[derive(Clone, Copy, Debug, PartialEq, Eq)]
pub(crate) struct Coding {
    /// CuPredMode, and cu_transquant_bypass_flag.
    pub(crate) mode: UnitMode,
    /// IntraPredModeC.
    pub(crate) chroma_mode: u8,
}

/// Before the first item.
pub(crate) fn before_unit() -> Coding
    ensures bypass { result.mode.transquant_bypass ≡ false }
    ensures intra { result.mode.intra ≡ false }
    ensures chroma { result.chroma_mode ≡ 0 }
{
    Coding {
        mode: UnitMode {
            transquant_bypass: false,
            intra: false,
        },
        chroma_mode: 0,
    }
}

/// How the blocks of a coding unit are coded.
pub(crate) fn mode_of(unit: CodingUnit) -> UnitMode
    ensures { result ≡ mode_of unit }
{
    UnitMode {
        transquant_bypass: unit.transquant_bypass,
        intra: unit.intra,
    }
}
