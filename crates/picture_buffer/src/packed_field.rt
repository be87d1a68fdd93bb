//! The motion of the places of a picture, packed.

ghost use Rattle.std.specs.Prelude.{◌≡◌, ℕ, ◌+◌, ◌<◌, ◌≤◌, ◌==◌, ◌&&◌, ◌||◌, nat_le, nat_lt};
ghost use Rattle.std.specs.Prelude.{IfOk, None, Some, if◌then◌else◌};
ghost use Rattle.picture_buffer.specs.Motion.{HasPlaces, motions_of};
ghost use Rattle.picture_buffer.specs.Packed.{no_own, target_of};
ghost use Rattle.place_grid.specs.Cells.{HasCells, cell};

use crate::own_field::OwnField;
use crate::packed::{NO_MOTION, PackedMotion, mv_of};
use crate::place_motion::PlaceMotion;
use crate::targets::{FIRST, NO_TARGET, OF_ITS_OWN, OwnTargets, Target, keep, target_of};
use place_grid::Grid;
use std::alloc::{AllocError, Global};
use std::marker::Model;

/// The motion of a picture's places: `None` where a place is predicted in intra mode.
#[derive(Drop)]
pub(crate) struct PackedField {
    places: Grid<PackedMotion>,
    own: OwnField,
    /// What the vectors of places point to, by index.
    targets: [Target; 64],
    /// How many indices are used.
    count: usize,
    /// Whether a place may have motion.
    moving: bool,
}

impl Model for PackedField {
    ghost use Rattle.picture_buffer.specs.Motion.{FieldPlaces, unpacked_places};
    ghost use Rattle.picture_buffer.specs.Packed.{AreKept, AreStill};

    ghost Value = { FieldPlaces };

    ghost view = { λ f. unpacked_places f.targets f.own f.places };

    ghost invariant = { λ f. AreKept f.places f.own f.count × AreStill f.moving f.places };
}

impl PackedField {
    /// A field of a picture of so many places across and down, without motion.
    pub(crate) fn new(alloc: Global, across: u32, down: u32) -> Result<PackedField, AllocError>
        requires columns { across ≤ 2048 }
        requires rows { down ≤ 2048 }
        ensures sides { IfOk result (λ f. HasPlaces f across down) }
        ensures places { IfOk result (λ f. (x y : ℕ) → motions_of f x y ≡ None) }
    {
        let places = Grid::new(alloc, across, down, NO_MOTION)?;
        let own = OwnField::new(alloc, across, down)?;
        Ok(PackedField {
            places,
            own,
            targets: [NO_TARGET; 64],
            count: FIRST,
            moving: false,
        })
    }

    /// No place has motion any more. It takes no memory.
    pub(crate) fn restart(&mut self)
        ensures sides { (across down : ℕ) → HasPlaces self.old across down → HasPlaces self.new across down }
        ensures places { (x y : ℕ) → motions_of self.new x y ≡ None }
    {
        if self.moving {
            self.places.fill(NO_MOTION);
            self.count = FIRST;
            self.moving = false;
        }
    }

    /// How many places a row has.
    pub(crate) fn across(&self) -> u32
        ensures { result ≡ self.now.across }
    {
        self.places.across()
    }

    /// How many rows of places there are.
    pub(crate) fn down(&self) -> u32
        ensures { result ≡ self.now.down }
    {
        self.places.down()
    }

    /// The motion of a place; `None` outside the picture.
    pub(crate) fn at(&self, x: usize, y: usize) -> Option<PlaceMotion>
        ensures { result ≡ motions_of self.now x y }
    {
        if self.moving {
            let place = self.places.at(x, y, NO_MOTION);
            place.motion(&self.targets, self.own.at(x, y))
        } else {
            None
        }
    }

    /// The motion of a place.
    pub(crate) fn put(&mut self, x: usize, y: usize, motion: Option<PlaceMotion>)
        requires column { x < self.old.across }
        requires row { y < self.old.down }
        ensures sides { (across down : ℕ) → HasPlaces self.old across down → HasPlaces self.new across down }
        ensures places { (i j : ℕ)
            → motions_of self.new i j ≡ (if i == x && j == y then motion else motions_of self.old i j) }
    {
        self.put_run(x, y, 1, motion);
    }

    /// One motion over so many places of a row.
    pub(crate) fn put_run(&mut self, x: usize, y: usize, count: usize, motion: Option<PlaceMotion>)
        requires columns { x + count ≤ self.old.across }
        requires row { y < self.old.down }
        ensures sides { (across down : ℕ) → HasPlaces self.old across down → HasPlaces self.new across down }
        ensures places { (i j : ℕ) → motions_of self.new i j
            ≡ (if j == y && (nat_le x i && nat_lt i (x + count)) then motion else motions_of self.old i j) }
    {
        match motion {
            None => self.clear_run(x, y, count),
            Some(motion) => self.put_motion(x, y, count, motion),
        }
    }

    /// No motion over so many places of a row. Where no place has any, nothing is written.
    fn clear_run(&mut self, x: usize, y: usize, count: usize)
        requires columns { x + count ≤ self.old.across }
        requires row { y < self.old.down }
        ensures sides { (across down : ℕ) → HasPlaces self.old across down → HasPlaces self.new across down }
        ensures places { (i j : ℕ) → motions_of self.new i j
            ≡ (if j == y && (nat_le x i && nat_lt i (x + count)) then None else motions_of self.old i j) }
    {
        if self.moving {
            self.places.put_run(x, y, count, NO_MOTION);
        }
    }

    /// A motion over so many places of a row.
    fn put_motion(&mut self, x: usize, y: usize, count: usize, motion: PlaceMotion)
        requires columns { x + count ≤ self.old.across }
        requires row { y < self.old.down }
        ensures sides { (across down : ℕ) → HasPlaces self.old across down → HasPlaces self.new across down }
        ensures places { (i j : ℕ) → motions_of self.new i j
            ≡ (if j == y && (nat_le x i && nat_lt i (x + count)) then Some motion else motions_of self.old i j) }
    {
        let (index_0, behind) = keep(&mut self.targets, self.count, motion.list_0);
        let (index_1, last) = keep(&mut self.targets, behind, motion.list_1);
        self.count = last;
        self.moving = true;
        let packed = PackedMotion {
            mv_0: mv_of(motion.list_0),
            mv_1: mv_of(motion.list_1),
            index_0,
            index_1,
        };
        put_own(&mut self.own, x, y, count, packed, motion);
        self.places.put_run(x, y, count, packed);
    }
}

/// What the places of a motion keep of their own, where they keep any.
fn put_own(
    own: &mut OwnField,
    x: usize,
    y: usize,
    count: usize,
    packed: PackedMotion,
    motion: PlaceMotion,
)
    requires columns { x + count ≤ own.old.across }
    requires row { y < own.old.down }
    ensures sides { HasCells own.new own.old.across own.old.down }
    ensures cells { (i j : ℕ) → cell no_own own.new i j
        ≡ (if (packed.index_0 == 2 || packed.index_1 == 2) && (j == y && (nat_le x i && nat_lt i (x + count)))
        then record { first = target_of motion.list_0; second = target_of motion.list_1 }
        else cell no_own own.old i j) }
{
    if packed.index_0 == OF_ITS_OWN || packed.index_1 == OF_ITS_OWN {
        let targets = OwnTargets {
            first: target_of(motion.list_0),
            second: target_of(motion.list_1),
        };
        own.put_run(x, y, count, targets);
    }
}
