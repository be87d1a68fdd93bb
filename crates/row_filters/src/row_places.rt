//! What is known of a row of coding tree blocks and of those beside it.

ghost use Rattle.std.specs.Prelude.{◌≡◌, ◌<◌, ◌≤◌, ◌+◌, ◌-◌, ◌*◌, ◌/◌, ◌==◌, ◌&&◌, ℕ, IfOk, if◌then◌else◌};
ghost use Rattle.std.specs.Prelude.{false, slice_index_or};
ghost use Rattle.loop_filters.specs.Formats.{IsFormat, columns_of, rows_of};
ghost use Rattle.row_filters.specs.Around.{no_place, no_unit, place_in, unit_in};

use ctu_records::ComponentOffset;
use deblock::PlaceView;
use loop_filters::FilterView;
use place_grid::Grid;
use spec_deblocking::Place;
use spec_loop_filters::FilterFormat;
use spec_sample_adaptive_offset::OffsetUnit;
use std::alloc::{AllocError, Global};
use std::marker::Model;

/// A place of which nothing is known.
const NO_PLACE: Place = Place {
    left_strength: 0,
    top_strength: 0,
    qp_y: 0,
    kept: false,
    slice_beta_offset_div2: 0,
    slice_tc_offset_div2: 0,
};

/// A unit of which nothing is known.
const NO_UNIT: OffsetUnit = OffsetUnit {
    offset: ComponentOffset::Off,
    slice: 0,
    across: true,
};

/// The places and the coding tree units of three rows of coding tree blocks of a picture: of one that is filtered, the
/// one above it and the one below it.
#[derive(Drop)]
pub struct RowPlaces {
    format: FilterFormat,
    /// The first of the three rows.
    above: usize,
    places: Grid<Place>,
    /// Whether the samples of each place stay.
    kept: Grid<bool>,
    /// Of each row the units of luma, of Cb and of Cr.
    units: Grid<OffsetUnit>,
}

impl Model for RowPlaces {
    ghost use Rattle.row_filters.specs.Around.{Around, IsAround};

    ghost Value = { Around };

    ghost view = { λ r. record { format = r.format; above = r.above; places = r.places; units = r.units } };

    ghost invariant = { λ r. IsAround r.format r.above r.places r.kept r.units };
}

impl RowPlaces {
    /// Room for rows of the pictures of a format, the first three at first, of which nothing is known. It alone takes
    /// memory.
    #[tactic(auto, unfolding(crate::specs::Around::place_in, crate::specs::Around::unit_in))]
    pub fn new(alloc: Global, format: &FilterFormat) -> Result<RowPlaces, AllocError>
        requires { IsFormat format.now }
        ensures format { IfOk result (λ r. r.format ≡ format.now) }
        ensures above { IfOk result (λ r. r.above ≡ 0) }
        ensures places { IfOk result (λ r. (x y : ℕ) → place_in r x y ≡ no_place) }
        ensures units { IfOk result (λ r. (c column row : ℕ) → unit_in r c column row ≡ no_unit) }
    {
        let across = (format.width / 4) as u32;
        let down = 3 * (format.ctb_size / 4) as u32;
        let columns = (format.width + format.ctb_size - 1) / format.ctb_size;
        let places = Grid::new(alloc, across, down, NO_PLACE)?;
        let kept = Grid::new(alloc, across, down, false)?;
        let units = Grid::new(alloc, columns as u32, 9, NO_UNIT)?;
        Ok(RowPlaces {
            format: *format,
            above: 0,
            places,
            kept,
            units,
        })
    }

    /// Takes the format of another picture of the same columns and coding tree units, as the pictures have that are
    /// decoded together. What was known stays.
    pub fn set_format(&mut self, format: &FilterFormat)
        requires is { IsFormat format.now }
        requires width { format.now.width ≡ self.old.format.width }
        requires size { format.now.ctb_size ≡ self.old.format.ctb_size }
        ensures format { self.new.format ≡ format.now }
        ensures above { self.new.above ≡ self.old.above }
        ensures places { self.new.places ≡ self.old.places }
        ensures units { self.new.units ≡ self.old.units }
    {
        self.format = *format;
    }

    /// Takes the rows around another one. What was known of the former rows stands for theirs, until it is laid anew.
    pub fn begin(&mut self, row: usize)
        requires { row ≤ 8192 }
        ensures format { self.new.format ≡ self.old.format }
        ensures above { self.new.above ≡ row - 1 }
        ensures places { self.new.places ≡ self.old.places }
        ensures units { self.new.units ≡ self.old.units }
    {
        self.above = row.saturating_sub(1);
    }

    /// What is known of a place of one of these rows, by its column and its row of places in the picture.
    #[tactic(auto, unfolding(crate::specs::Around::place_in, crate::specs::Around::unit_in))]
    pub fn lay_place(&mut self, x: usize, y: usize, place: Place)
        requires column { x < self.old.format.width / 4 }
        requires first { self.old.format.ctb_size / 4 * self.old.above ≤ y }
        requires last { y < self.old.format.ctb_size / 4 * (self.old.above + 3) }
        ensures format { self.new.format ≡ self.old.format }
        ensures above { self.new.above ≡ self.old.above }
        ensures places { (i j : ℕ)
            → place_in self.new i j ≡ (if i == x && j == y then place else place_in self.old i j) }
        ensures units { (c i j : ℕ) → unit_in self.new c i j ≡ unit_in self.old c i j }
    {
        let line = y - self.format.ctb_size / 4 * self.above;
        self.places.put(x, line, place);
        self.kept.put(x, line, place.kept);
    }

    /// What is known of component `c` of a unit of one of these rows, by the unit's column and row.
    #[tactic(auto, unfolding(crate::specs::Around::place_in, crate::specs::Around::unit_in))]
    pub fn lay_unit(&mut self, c: usize, column: usize, row: usize, unit: OffsetUnit)
        requires component { c < 3 }
        requires column { column < columns_of self.old.format }
        requires first { self.old.above ≤ row }
        requires last { row ≤ self.old.above + 2 }
        ensures format { self.new.format ≡ self.old.format }
        ensures above { self.new.above ≡ self.old.above }
        ensures units { (d i j : ℕ) → d < 3 → self.old.above ≤ j → j ≤ self.old.above + 2
            → unit_in self.new d i j
            ≡ (if d == c && (i == column && j == row) then unit else unit_in self.old d i j) }
        ensures places { (i j : ℕ) → place_in self.new i j ≡ place_in self.old i j }
    {
        self.units.put(column, 3 * (row - self.above) + c, unit);
    }

    /// Whether the samples of each place of a row of coding tree blocks stay, line by line, as far as that is known.
    fn kept_row(&self, row: usize) -> &[bool]
        requires { row < rows_of self.now.format }
        ensures { (i j : ℕ) → i < self.now.format.width / 4 → j < self.now.format.ctb_size / 4
            → slice_index_or result.now (self.now.format.width / 4 * j + i) false
            ≡ (place_in self.now i (self.now.format.ctb_size / 4 * row + j)).kept }
    {
        if row < self.above {
            &[]
        } else {
            let side = self.format.ctb_size / 4;
            self.kept.rows(side * (row - self.above), side)
        }
    }
}

impl PlaceView for RowPlaces {
    ghost place_at = { λ r. place_in r };

    #[tactic(auto, unfolding(crate::specs::Around::place_in))]
    fn place(&self, x: usize, y: usize) -> Place {
        let first = self.format.ctb_size / 4 * self.above;
        if first <= y {
            self.places.at(x, y - first, NO_PLACE)
        } else {
            NO_PLACE
        }
    }
}

impl FilterView for RowPlaces {
    ghost shape = { λ r. r.format };

    ghost unit_at = { λ r. unit_in r };

    fn units(&self, c: usize, row: usize) -> &[OffsetUnit] {
        let slot = row.saturating_sub(self.above).min(2);
        self.units.rows(3 * slot + c, 1)
    }

    fn kept(&self, row: usize) -> &[bool] {
        let kept = self.kept_row(row);
        if kept.contains(&true) { kept } else { &[] }
    }
}
