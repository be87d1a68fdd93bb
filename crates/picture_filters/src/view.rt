//! What the loop filters ask of a picture whose units are gathered.

ghost use Rattle.std.specs.Prelude.{◌≡◌, ◌≤◌, ◌/◌};
ghost use Rattle.picture_filters.specs.Places.{HasPlaces, places_of};
ghost use Rattle.picture_filters.specs.Units.{HasUnits, units_of};
ghost use Rattle.loop_filters.specs.Formats.{columns_of, rows_of};

use crate::place_field::PlaceField;
use crate::unit_rows::unit_row;
use loop_filters::{FilterView, PlaceView};
use place_grid::Grid;
use spec_picture_filters::{FilterFormat, Place};
use spec_sample_adaptive_offset::OffsetUnit;
use std::marker::Model;

/// The places and the units of a picture of a format.
#[derive(Drop)]
pub(crate) struct PictureView<'a> {
    format: FilterFormat,
    places: &'a PlaceField,
    units: &'a Grid<OffsetUnit>,
}

impl<'a> Model for PictureView<'a> {
    ghost use Rattle.std.specs.Prelude.{◌≤◌, ◌/◌};
    ghost use Rattle.picture_filters.specs.Places.{HasPlaces};
    ghost use Rattle.picture_filters.specs.Units.{HasUnits};
    ghost use Rattle.loop_filters.specs.Formats.{columns_of, rows_of};
    ghost use Rattle.picture_filters.specs.Filtering.{Viewed};

    ghost Value = { Viewed };

    ghost view = { λ v. record { format = v.format; places = v.places.now; units = v.units.now } };

    ghost invariant = { λ v. (v.format.ctb_size ≤ 64)
        × HasPlaces v.places.now (v.format.width / 4) (v.format.height / 4)
        × HasUnits v.units.now (columns_of v.format) (rows_of v.format) };
}

impl<'a> PictureView<'a> {
    /// That of a picture of this format.
    pub(crate) fn new(
        format: FilterFormat,
        places: &'a PlaceField,
        units: &'a Grid<OffsetUnit>,
    ) -> PictureView<'a>
        requires size { format.ctb_size ≤ 64 }
        requires places { HasPlaces places.now (format.width / 4) (format.height / 4) }
        requires units { HasUnits units.now (columns_of format) (rows_of format) }
        ensures { result ≡ record { format = format; places = places.now; units = units.now } }
    {
        PictureView {
            format,
            places,
            units,
        }
    }
}

impl<'a> PlaceView for PictureView<'a> {
    ghost place_at = { λ v x y. (places_of v.places x y).place };

    fn place(&self, x: usize, y: usize) -> Place {
        self.places.at(x, y).place
    }
}

impl<'a> FilterView for PictureView<'a> {
    ghost shape = { λ v. v.format };

    ghost unit_at = { λ v. units_of v.units };

    fn units(&self, c: usize, row: usize) -> &[OffsetUnit] {
        unit_row(self.units, c, row)
    }

    fn kept(&self, row: usize) -> &[bool] {
        let kept = self.places.kept_row(row, self.format.ctb_size / 4);
        if kept.contains(&true) { kept } else { &[] }
    }
}
