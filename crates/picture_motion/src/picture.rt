//! The motion of a picture while its coding tree units are derived.

ghost use Rattle.std.specs.Prelude.{◌≡◌, ℕ, ◌*◌, ◌/◌, IfOk, None};
ghost use Rattle.std.specs.List.{All};
ghost use Rattle.ctu_motion.specs.Held.{held, held_beneath};
ghost use Rattle.picture_buffer.specs.Motion.{HasPlaces, motions_of};
ghost use Rattle.picture_motion.specs.Deriving.{derived_over, known_over};
ghost use Rattle.spec_motion.specs.Units.{IsPlacedItem, unit_derived};
ghost use Rattle.spec_picture_motion.specs.PlanTypes.{address_of};
ghost use Rattle.spec_picture_motion.specs.SpecPictureTrees.{picture_shape, slice_start};
ghost use Rattle.spec_picture_motion.specs.Field.{no_motions, unit_laid};
ghost use Rattle.spec_picture_motion.specs.Slices.{slice_motion};

use crate::beneath::gather_beneath;
use crate::beside::gather_beside;
use crate::slice::slice_motion;
use crate::unit_lines::lay_unit;
use ctu_motion::{MotionView, UnitMotion, derive_motion};
use ctu_records::Records;
use picture_buffer::MotionField;
use picture_layout::{CodingTreeUnit, Layout, slice_address};
use spec_motion::Motion;
use spec_picture_motion::{PicturePlan, SegmentPlan};
use std::alloc::{AllocError, Global};
use std::marker::Model;

/// The motion of a planned picture, unit after unit.
#[derive(Drop)]
pub struct PictureMotion<'a> {
    plan: &'a PicturePlan,
    layout: Layout,
    field: MotionField,
    /// That of the last unit.
    motion: UnitMotion,
}

impl<'a> Model for PictureMotion<'a> {
    ghost use Rattle.std.specs.Prelude.{◌≡◌};
    ghost use Rattle.picture_buffer.specs.Motion.{HasPlaces};
    ghost use Rattle.picture_motion.specs.Deriving.{Deriving};
    ghost use Rattle.spec_picture_motion.specs.SpecPictureTrees.{picture_shape};

    ghost Value = { Deriving };

    ghost view = { λ m. record { plan = m.plan.now; field = m.field; last = m.motion } };

    ghost invariant = { λ m. (m.layout ≡ picture_shape m.plan.now.sps m.plan.now.pps)
        × HasPlaces m.field m.layout.across m.layout.down };
}

impl<'a> PictureMotion<'a> {
    /// A picture of which no unit is derived.
    pub fn new(alloc: Global, plan: &'a PicturePlan) -> Result<PictureMotion<'a>, AllocError>
        ensures plan { IfOk result (λ m. m.plan ≡ plan.now) }
        ensures field { IfOk result (λ m. motions_of m.field ≡ no_motions) }
    {
        let layout = Layout::new(plan);
        let field = MotionField::new(alloc, layout.across(), layout.down())?;
        Ok(PictureMotion::over(plan, field))
    }

    /// The same over a field without motion, of the picture's places. It takes no memory.
    pub fn over(plan: &'a PicturePlan, field: MotionField) -> PictureMotion<'a>
        requires sides { HasPlaces field (plan.now.sps.format.pic_width_in_luma_samples / 4)
            (plan.now.sps.format.pic_height_in_luma_samples / 4) }
        requires places { (x y : ℕ) → motions_of field x y ≡ None }
        ensures plan { result.plan ≡ plan.now }
        ensures field { motions_of result.field ≡ no_motions }
    {
        PictureMotion {
            plan,
            layout: Layout::new(plan),
            field,
            motion: UnitMotion::new(),
        }
    }

    /// The next unit, of a segment whose slice has no collocated picture.
    pub fn derive(&mut self, segment: &SegmentPlan, address: u32, records: &Records)
        ensures plan { self.new.plan ≡ self.old.plan }
        ensures last { All IsPlacedItem records.now.items
            → held self.new.last
            ≡ known_over no_motions self.old.plan segment.now address records.now.items (motions_of self.old.field) }
        ensures value { All IsPlacedItem records.now.items
            → motions_of self.new.field
            ≡ derived_over no_motions self.old.plan segment.now address records.now.items (motions_of self.old.field) }
    {
        let unit = self.unit_of(segment, address);
        gather_beside(&unit, &self.field, &mut self.motion);
        self.derive_gathered(&unit, segment, records);
    }

    /// The next unit, of a segment whose slice has this collocated picture.
    pub fn derive_over(
        &mut self,
        segment: &SegmentPlan,
        address: u32,
        records: &Records,
        collocated: &MotionField,
    )
        ensures plan { self.new.plan ≡ self.old.plan }
        ensures last { All IsPlacedItem records.now.items
            → held self.new.last
            ≡ known_over (motions_of collocated.now) self.old.plan segment.now address records.now.items
            (motions_of self.old.field) }
        ensures value { All IsPlacedItem records.now.items
            → motions_of self.new.field
            ≡ derived_over (motions_of collocated.now) self.old.plan segment.now address records.now.items
            (motions_of self.old.field) }
    {
        let unit = self.unit_of(segment, address);
        gather_beside(&unit, &self.field, &mut self.motion);
        gather_beneath(&unit, collocated, &mut self.motion);
        self.derive_gathered(&unit, segment, records);
    }

    /// A unit of a segment.
    fn unit_of(&self, segment: &SegmentPlan, address: u32) -> CodingTreeUnit
        ensures layout { result.layout ≡ picture_shape self.now.plan.sps self.now.plan.pps }
        ensures slice { result.slice ≡ address_of (slice_start self.now.plan segment.now) }
        ensures address { result.address ≡ address }
        ensures sides { HasPlaces self.now.field result.layout.across result.layout.down }
    {
        CodingTreeUnit {
            layout: self.layout,
            slice: slice_address(self.plan, segment),
            address,
        }
    }

    /// Derives a unit over what was gathered, and lays its motion.
    fn derive_gathered(&mut self, unit: &CodingTreeUnit, segment: &SegmentPlan, records: &Records)
        requires layout { unit.now.layout ≡ picture_shape self.old.plan.sps self.old.plan.pps }
        requires sides { HasPlaces self.old.field unit.now.layout.across unit.now.layout.down }
        ensures plan { self.new.plan ≡ self.old.plan }
        ensures last { All IsPlacedItem records.now.items
            → held self.new.last
            ≡ unit_derived (slice_motion self.old.plan segment.now unit.now.address) (held_beneath self.old.last)
            records.now.items (held self.old.last) }
        ensures value { motions_of self.new.field
            ≡ unit_laid unit.now.layout unit.now.address (slice_motion self.old.plan segment.now unit.now.address)
            (held self.new.last) (motions_of self.old.field) }
    {
        let slice = slice_motion(unit, self.plan, segment);
        derive_motion(records.items(), &slice, &mut self.motion);
        lay_unit(unit, &slice, &self.motion, &mut self.field);
    }

    /// What is known of a place of the last unit, by column and row counted from 1 at its first place.
    pub fn motion(&self, column: usize, row: usize) -> Option<Motion>
        ensures { result ≡ held self.now.last column row }
    {
        self.motion.motion(column, row)
    }

    /// What is known of the last unit.
    pub fn unit_motion(&self) -> &UnitMotion
        ensures { result.now ≡ self.now.last }
    {
        &self.motion
    }

    /// The motion so far.
    pub fn field(&self) -> &MotionField
        ensures { result.now ≡ self.now.field }
    {
        &self.field
    }

    /// The motion of the picture.
    pub fn into_field(self) -> MotionField
        ensures { result ≡ self.entry.field }
    {
        self.field
    }
}
