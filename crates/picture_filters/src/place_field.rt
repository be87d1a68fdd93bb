//! The places of a picture.

ghost use Rattle.std.specs.Prelude.{◌≡◌, ℕ, ◌+◌, ◌-◌, ◌*◌, ◌<◌, ◌≤◌, ◌==◌, ◌&&◌, min, nat_le, nat_lt, length};
ghost use Rattle.std.specs.Prelude.{slice_index_or, IfOk, false, if◌then◌else◌};
ghost use Rattle.place_grid.specs.Cells.{HasCells, cell};
ghost use Rattle.picture_filters.specs.Places.{AreClear, HasPlaces, first_held, first_place, first_read, held_row};
ghost use Rattle.picture_filters.specs.Places.{known_place, places_of};

use crate::filter_place::{FIRST_PLACE, FilterPlace, HeldPlace, SliceOffsets};
use boundary_strengths::UnitPlace;
use place_grid::Grid;
use std::alloc::{AllocError, Global};
use std::marker::Model;

/// What is known of a picture's places, and beside it whether their samples stay.
#[derive(Drop)]
pub(crate) struct PlaceField {
    places: Grid<HeldPlace>,
    kept: Grid<bool>,
    /// Whether a flag may be set.
    flagged: bool,
}

impl Model for PlaceField {
    ghost use Rattle.picture_filters.specs.Places.{FieldPlaces, IsField, known_places};

    ghost Value = { FieldPlaces };

    ghost view = { λ f. known_places f.places };

    ghost invariant = { λ f. IsField (known_places f.places) f.kept f.flagged };
}

impl PlaceField {
    /// A field of a picture of so many places across and down: edges without strength, QpY 0, no kept samples, and no
    /// coefficient.
    pub(crate) fn new(alloc: Global, across: u32, down: u32) -> Result<PlaceField, AllocError>
        requires columns { across ≤ 2048 }
        requires rows { down ≤ 2048 }
        ensures sides { IfOk result (λ f. HasPlaces f across down) }
        ensures places { IfOk result (λ f. (x y : ℕ) → places_of f x y ≡ first_place) }
    {
        let places = Grid::new(alloc, across, down, FIRST_PLACE)?;
        let kept = Grid::new(alloc, across, down, false)?;
        Ok(PlaceField {
            places,
            kept,
            flagged: false,
        })
    }

    /// What is known of a place; nothing outside the picture.
    #[inline(always)]
    pub(crate) fn at(&self, x: usize, y: usize) -> FilterPlace
        ensures { result ≡ places_of self.now x y }
    {
        self.places.at(x, y, FIRST_PLACE).place()
    }

    /// What was read of places of a row, from one on, in a slice of these offsets.
    pub(crate) fn put_row(&mut self, x: usize, y: usize, read: &[UnitPlace], offsets: SliceOffsets)
        requires columns { length read.now ≤ self.old.across - x }
        requires few { x + length read.now ≤ 16384 }
        requires row { y < self.old.down }
        ensures sides { (across down : ℕ) → HasPlaces self.old across down → HasPlaces self.new across down }
        ensures places { (i j : ℕ) → places_of self.new i j
            ≡ (if j == y && (nat_le x i && nat_lt i (x + length read.now))
            then known_place (held_row read.now offsets (i - x))
            else places_of self.old i j) }
    {
        put_places(&mut self.places, x, y, read, offsets);
        self.flagged = put_flags(&mut self.kept, self.flagged, x, y, read);
    }

    /// Whether the samples of the places in a row of blocks of `side` places stay, line by line, as far as the picture
    /// goes.
    #[tactic(auto, unfolding(crate::specs::Places::places_of))]
    pub(crate) fn kept_row(&self, row: usize, side: usize) -> &[bool]
        requires { side ≤ 16 }
        ensures count { length result.now ≡ self.now.across * min side (self.now.down - side * row) }
        ensures flags { (x j : ℕ) → x < self.now.across → j < side
            → slice_index_or result.now (self.now.across * j + x) false
            ≡ (places_of self.now x (side * row + j)).place.kept }
    {
        let first = side.saturating_mul(row).min(self.kept.down() as usize);
        self.kept.rows(first, side)
    }
}

/// What was read of places, in their row.
fn put_places(
    places: &mut Grid<HeldPlace>,
    x: usize,
    y: usize,
    read: &[UnitPlace],
    offsets: SliceOffsets,
)
    requires columns { length read.now ≤ places.old.across - x }
    requires few { x + length read.now ≤ 16384 }
    requires row { y < places.old.down }
    ensures sides { (across down : ℕ) → HasCells places.old across down → HasCells places.new across down }
    ensures places { (i j : ℕ) → cell first_held places.new i j
        ≡ (if j == y && (nat_le x i && nat_lt i (x + length read.now))
        then held_row read.now offsets (i - x)
        else cell first_held places.old i j) }
{
    for k in 0..read.len() {
        let place = HeldPlace {
            read: read[k],
            offsets,
        };
        places.put(x + k, y, place);
    }
}

/// Their flags, where one may be set. While none is, nothing is written.
#[inline(always)]
#[tactic(auto, using(crate::proofs::Places::unflagged))]
fn put_flags(flags: &mut Grid<bool>, flagged: bool, x: usize, y: usize, read: &[UnitPlace]) -> bool
    requires columns { length read.now ≤ flags.old.across - x }
    requires few { x + length read.now ≤ 16384 }
    requires row { y < flags.old.down }
    requires clear { flagged ≡ false → AreClear flags.old }
    ensures sides { (across down : ℕ) → HasCells flags.old across down → HasCells flags.new across down }
    ensures flags { (i j : ℕ) → cell false flags.new i j
        ≡ (if j == y && (nat_le x i && nat_lt i (x + length read.now))
        then (slice_index_or read.now (i - x) first_read).kept
        else cell false flags.old i j) }
    ensures clear { result ≡ false → AreClear flags.new }
{
    if flagged || is_any_kept(read) {
        put_kept(flags, x, y, read);
        true
    } else {
        false
    }
}

/// Whether the samples of a place stay.
fn is_any_kept(read: &[UnitPlace]) -> bool
    ensures { result ≡ false → (q : ℕ) → (slice_index_or read.now q first_read).kept ≡ false }
{
    for k in 0..read.len() {
        if read[k].kept {
            return true;
        }
    }
    false
}

/// The flags of places.
fn put_kept(flags: &mut Grid<bool>, x: usize, y: usize, read: &[UnitPlace])
    requires columns { length read.now ≤ flags.old.across - x }
    requires few { x + length read.now ≤ 16384 }
    requires row { y < flags.old.down }
    ensures sides { (across down : ℕ) → HasCells flags.old across down → HasCells flags.new across down }
    ensures flags { (i j : ℕ) → cell false flags.new i j
        ≡ (if j == y && (nat_le x i && nat_lt i (x + length read.now))
        then (slice_index_or read.now (i - x) first_read).kept
        else cell false flags.old i j) }
{
    for k in 0..read.len() {
        flags.put(x + k, y, read[k].kept);
    }
}
