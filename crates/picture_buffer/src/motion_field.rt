//! The motion of a picture.

ghost use Rattle.std.specs.Prelude.{◌≡◌, ℕ, ◌+◌, ◌<◌, ◌≤◌, ◌==◌, ◌&&◌, nat_le, nat_lt};
ghost use Rattle.std.specs.Prelude.{Decides, IfOk, IfSome, None, if◌then◌else◌};
ghost use Rattle.picture_buffer.specs.Held.{AreMotionsHeld, HasVector, IsMotionHeld, IsVectorHeld};
ghost use Rattle.picture_buffer.specs.Motion.{HasPlaces, motions_of};

use crate::packed_field::PackedField;
use crate::place_motion::{PlaceMotion, PlaceVector};
use std::alloc::{AllocError, Global};
use std::marker::Model;

/// The motion of a picture's places: `None` where a place is predicted in intra mode.
#[derive(Drop)]
pub struct MotionField {
    field: PackedField,
    /// Whether all motion that was laid is in range.
    held: bool,
}

impl Model for MotionField {
    ghost use Rattle.std.specs.Prelude.{IsTrue};
    ghost use Rattle.picture_buffer.specs.Held.{AreMotionsHeld};
    ghost use Rattle.picture_buffer.specs.Motion.{FieldPlaces};

    ghost Value = { FieldPlaces };

    ghost view = { λ f. f.field };

    ghost invariant = { λ f. IsTrue f.held → AreMotionsHeld f.field };
}

impl MotionField {
    /// A field of a picture of so many places across and down, without motion.
    pub fn new(alloc: Global, across: u32, down: u32) -> Result<MotionField, AllocError>
        requires columns { across ≤ 2048 }
        requires rows { down ≤ 2048 }
        ensures sides { IfOk result (λ f. HasPlaces f across down) }
        ensures places { IfOk result (λ f. (x y : ℕ) → motions_of f x y ≡ None) }
    {
        let field = PackedField::new(alloc, across, down)?;
        Ok(MotionField { field, held: true })
    }

    /// No place has motion any more. It takes no memory.
    pub fn restart(&mut self)
        ensures sides { (across down : ℕ) → HasPlaces self.old across down → HasPlaces self.new across down }
        ensures places { (x y : ℕ) → motions_of self.new x y ≡ None }
    {
        self.field.restart();
        self.held = true;
    }

    /// How many places a row has.
    pub fn across(&self) -> u32
        ensures { result ≡ self.now.across }
    {
        self.field.across()
    }

    /// How many rows of places there are.
    pub fn down(&self) -> u32
        ensures { result ≡ self.now.down }
    {
        self.field.down()
    }

    /// The motion of a place; `None` outside the picture.
    pub fn at(&self, x: usize, y: usize) -> Option<PlaceMotion>
        ensures { result ≡ motions_of self.now x y }
    {
        self.field.at(x, y)
    }

    /// The motion of a place.
    pub fn put(&mut self, x: usize, y: usize, motion: Option<PlaceMotion>)
        requires column { x < self.old.across }
        requires row { y < self.old.down }
        ensures sides { (across down : ℕ) → HasPlaces self.old across down → HasPlaces self.new across down }
        ensures places { (i j : ℕ)
            → motions_of self.new i j ≡ (if i == x && j == y then motion else motions_of self.old i j) }
    {
        self.put_run(x, y, 1, motion);
    }

    /// One motion over so many places of a row.
    pub fn put_run(&mut self, x: usize, y: usize, count: usize, motion: Option<PlaceMotion>)
        requires columns { x + count ≤ self.old.across }
        requires row { y < self.old.down }
        ensures sides { (across down : ℕ) → HasPlaces self.old across down → HasPlaces self.new across down }
        ensures places { (i j : ℕ) → motions_of self.new i j
            ≡ (if j == y && (nat_le x i && nat_lt i (x + count)) then motion else motions_of self.old i j) }
    {
        self.held = self.held && is_held(motion);
        self.field.put_run(x, y, count, motion);
    }

    /// Whether each place that has motion has a vector, and each vector a reference index below 16, as all that
    /// decoding gives (8.5.3.2). It looks at the places only where other motion was laid.
    pub fn are_motions_held(&self) -> bool
        ensures { Decides result (AreMotionsHeld self.now) }
    {
        self.held || self.are_rows_held()
    }

    /// The same of all rows of places, by looking at them.
    fn are_rows_held(&self) -> bool
        ensures { Decides result (AreMotionsHeld self.now) }
    {
        for y in 0..self.down() {
            if !self.is_row_held(y) {
                return false;
            }
        }
        true
    }

    /// The same of a row of places.
    fn is_row_held(&self, y: u32) -> bool
        ensures { Decides result ((x : ℕ) → IfSome (motions_of self.now x y) IsMotionHeld) }
    {
        for x in 0..self.across() {
            if !is_held(self.at(x as usize, y as usize)) {
                return false;
            }
        }
        true
    }
}

/// The same of a place.
fn is_held(motion: Option<PlaceMotion>) -> bool
    ensures { Decides result (IfSome motion IsMotionHeld) }
{
    match motion {
        Some(place) => {
            has_vector(place.list_0, place.list_1)
                && is_vector_held(place.list_0)
                && is_vector_held(place.list_1)
        }
        None => true,
    }
}

/// Whether one of two vectors is there.
fn has_vector(first: Option<PlaceVector>, second: Option<PlaceVector>) -> bool
    ensures { Decides result (HasVector first second) }
{
    match (first, second) {
        (None, None) => false,
        (None, Some(_)) => true,
        (Some(_), _) => true,
    }
}

/// Whether a vector names one of 16 references, if it is there.
fn is_vector_held(vector: Option<PlaceVector>) -> bool
    ensures { Decides result (IfSome vector IsVectorHeld) }
{
    match vector {
        Some(place) => place.vector.ref_idx < 16,
        None => true,
    }
}
