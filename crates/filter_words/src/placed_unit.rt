//! Where the modes of a coding tree unit's places stand among its words, and the places in the picture.

ghost use Rattle.std.specs.Prelude.{◌≡◌, ◌+◌, ◌*◌, ◌<◌, ◌≤◌};
ghost use Rattle.sample_words.specs.declared.unit_content.UnitContent.TheVariants.{Modes, Offsets};
ghost use Rattle.line_words.specs.Places.{IsUnit};
ghost use Rattle.filter_words.specs.Placed.{content_index};
ghost use Rattle.filter_words.specs.Units.{across_of, column_of, down_of, row_of, unit_at};

use hv_base::{Line, Phase};
use line_words::UnitPlace;
use sample_words::{Layout, UnitContent};
use std::marker::Model;

/// A coding tree unit of a flight, with where its places stand reckoned once. Contracts see a `UnitAt`.
#[derive(Drop)]
pub(crate) struct PlacedUnit {
    at: UnitPlace,
    /// Which of its words has the modes of its first place.
    modes: usize,
    /// Which has the first of its offsets.
    offsets: usize,
    /// How many of its places the picture has across.
    across: usize,
    /// The column of its first place in the picture.
    column: usize,
    /// The row of its first place.
    row: usize,
}

impl Model for PlacedUnit {
    ghost use Rattle.line_words.specs.Places.{UnitAt};
    ghost use Rattle.filter_words.specs.Placed.{IsPlaced};

    ghost Value = { UnitAt };

    ghost view = { λ u. u.at };

    ghost invariant = { λ u. IsPlaced u.at u.modes u.offsets u.across u.column u.row };
}

impl PlacedUnit {
    /// The unit in a column of the row that a line is of.
    pub(crate) fn new(layout: &Layout, line: Line, unit: u32) -> PlacedUnit
        requires { IsUnit (unit_at layout.now line unit) }
        ensures { result ≡ unit_at layout.now line unit }
    {
        let line = Line {
            phase: Phase::B,
            picture: line.picture,
            row: line.row,
        };
        let shape = layout.unit_shape(line, u64::from(unit));
        let _few = layout.columns();
        let _low = layout.rows();
        let side = layout.ctb_size() as usize / 4;
        let across = shape.width as usize / 4;
        let modes = layout.index_of(shape, UnitContent::Modes(0, 0)) as usize;
        PlacedUnit {
            at: UnitPlace::new(layout, line, unit),
            modes,
            offsets: modes + across * (shape.height as usize / 4),
            across,
            column: side * unit as usize,
            row: side * line.row as usize,
        }
    }

    /// The unit.
    #[inline(always)]
    pub(crate) fn at(&self) -> &UnitPlace
        ensures { result.now ≡ self.now }
    {
        &self.at
    }

    /// Which of its words has the modes of its first place.
    #[inline(always)]
    pub(crate) fn modes(&self) -> usize
        ensures { result ≡ content_index self.now (Modes 0 0) }
    {
        self.modes
    }

    /// Which has the modes of the first place in one of its rows of places.
    #[inline(always)]
    pub(crate) fn row_modes(&self, y: u32) -> usize
        requires { y < down_of self.now }
        ensures { result ≡ content_index self.now (Modes 0 0) + y * across_of self.now }
    {
        self.modes + y as usize * self.across
    }

    /// Which has the first of its offsets.
    #[inline(always)]
    pub(crate) fn offsets(&self) -> usize
        ensures { result ≡ content_index self.now (Offsets 0) }
    {
        self.offsets
    }

    /// How many of its places the picture has across.
    #[inline(always)]
    pub(crate) fn across(&self) -> usize
        ensures value { result ≡ across_of self.now }
        ensures some { 1 ≤ result }
        ensures few { result ≤ 16 }
    {
        self.across
    }

    /// The column of its first place in the picture.
    #[inline(always)]
    pub(crate) fn column(&self) -> usize
        ensures value { result ≡ column_of self.now }
        ensures few { result + across_of self.now ≤ 2048 }
    {
        let _across = self.across;
        self.column
    }

    /// The row of its first place.
    #[inline(always)]
    pub(crate) fn row(&self) -> usize
        ensures value { result ≡ row_of self.now }
        ensures few { result ≤ 8192 }
        ensures high { down_of self.now ≤ 16 }
    {
        self.row
    }
}
