//! The limits of this decoder, which no rule of H.265 states.

ghost use Rattle.std.specs.Prelude.{◌≡◌, Some};
ghost use Rattle.hv_base.specs.Text.{limit_number, limit_name, limit_text};

use std::fmt;

/// A limit of this decoder.
#[derive(Clone, Copy, Debug, PartialEq, Eq)]
pub enum LimitKind {
    /// A picture is wider or higher than 8192 luma samples.
    Side,
    /// A picture has more than 35,651,584 luma samples.
    Area,
    /// A NAL unit has more than 2^26 bytes.
    NalSize,
    /// A picture has more than 4096 slice segments.
    Segments,
    /// A picture parameter set has tiles.
    Tiles,
}

impl LimitKind {
    /// The number by which answers tell the limit.
    pub fn number(self) -> u32
        ensures { result ≡ limit_number self }
    {
        match self {
            LimitKind::Side => 1,
            LimitKind::Area => 2,
            LimitKind::NalSize => 3,
            LimitKind::Segments => 4,
            LimitKind::Tiles => 5,
        }
    }

    /// The name by which answers tell the limit.
    pub fn name(self) -> &'static str
        ensures { result.now ≡ limit_name self }
    {
        match self {
            LimitKind::Side => "Side",
            LimitKind::Area => "Area",
            LimitKind::NalSize => "NalSize",
            LimitKind::Segments => "Segments",
            LimitKind::Tiles => "Tiles",
        }
    }
}

/// A limit that a stream met, and where.
#[derive(Clone, Copy, Debug, PartialEq, Eq)]
pub struct Limit {
    /// Which limit is met.
    pub kind: LimitKind,
    /// The number of the NAL unit, counted from 0 over the whole stream.
    pub nal: u32,
}

impl fmt::Display for Limit {
    ghost output = { λ l. Some (limit_text l) };

    fn fmt<W: fmt::Write>(&self, f: &mut fmt::Formatter<W>) -> fmt::Result {
        let number = self.kind.number();
        let name = self.kind.name();
        let nal = self.nal;
        write!(f, "limit {number} {name} nal {nal}")
    }
}
