//! A row's coding tree units one after the other (7.3.8.1, 9.3.1, 9.3.2).

ghost use Rattle.std.specs.Prelude.{◌≡◌, ◌+◌, ◌*◌, ◌%◌, ◌^◌, ◌<◌, ℕ, [], None, IfOk, IfSome, OnOk};
ghost use Rattle.header_types.specs.SequenceParameterSets.{size_in_ctbs, width_in_ctbs};
ghost use Rattle.plan_types.specs.declared.picture_plan.PicturePlan.{PicturePlan};
ghost use Rattle.spec_picture_trees.specs.Shapes.{picture_shape};
ghost use Rattle.unit_words.specs.UnitTrees.{no_edge, right_of};
ghost use Rattle.unit_words.specs.UnitTrees.{MayGoOn, between_of};
ghost use Rattle.spec_known_units.specs.Known.{picture_segments, segment_having};
ghost use Rattle.flight_value_laws.specs.Reading.{read_over};
ghost use Rattle.row_trees.specs.Reading.{BeginsAlone, CarriesBehind, IsReadByKnown, IsUnder, OfSegment, Reads};
ghost use Rattle.row_trees.specs.Reading.{StandsBefore};
ghost use Rattle.row_trees.specs.Steps.{Leaves};

use crate::carried::carried_reader;
use crate::segments::RowSegments;
use cabac_contexts::Contexts;
use ctu_records::Records;
use hv_base::Breach;
use plan_types::PicturePlan;
use sample_words::Carry;
use std::alloc::{AllocError, Global};
use unit_words::{Edge, Levels, SegmentData, UnitReader};

/// Reads the coding tree units of a row from the left to the right.
#[derive(Drop)]
pub struct RowReader<'a> {
    segments: RowSegments<'a>,
    /// What stands behind the former unit.
    reader: UnitReader<'a>,
    /// What the former unit leaves to the one on its right.
    left: Edge,
    records: Records,
    levels: Levels,
}

impl<'a> RowReader<'a> {
    /// That of a picture, before its first unit.
    pub fn new(alloc: Global, plan: &'a PicturePlan) -> Result<RowReader<'a>, AllocError>
        ensures plan { IfOk result (λ r. r.segments.plan ≡ plan.now) }
        ensures stands { IfOk result (λ r. StandsBefore plan.now 0 r.reader r.left) }
    {
        Ok(RowReader {
            segments: RowSegments::new(plan),
            reader: UnitReader::new(),
            left: Edge::none(),
            records: Records::new(alloc, plan.sps.ctb_log2())?,
            levels: Levels::new(alloc)?,
        })
    }

    /// Goes over to another picture, before any of its rows. What was read stays in memory until it is read anew.
    pub fn begin_picture(&mut self, plan: &'a PicturePlan)
        ensures { self.new.segments.plan ≡ plan.now }
    {
        self.segments = RowSegments::new(plan);
    }

    /// Goes to the first unit of a row that begins by itself: the first row of the picture, and where each row has a
    /// substream of its own every one.
    pub fn begin_row(&mut self)
        ensures plan { self.new.segments.plan ≡ self.old.segments.plan }
        ensures stands { (address : ℕ) → address % width_in_ctbs self.old.segments.plan.sps ≡ 0
            → BeginsAlone self.old.segments.plan address
            → StandsBefore self.old.segments.plan address self.new.reader self.new.left }
    {
        self.reader = UnitReader::new();
        self.left = Edge::none();
    }

    /// Goes to the first unit of a row below the first one, behind what the last unit of the row above carries on.
    pub fn resume_row(&mut self, address: u32, carry: &Carry)
        requires some { 0 < address }
        requires first { address % width_in_ctbs self.old.segments.plan.sps ≡ 0 }
        requires inside { address < size_in_ctbs self.old.segments.plan.sps }
        requires carried { CarriesBehind self.old.segments.plan address carry.now }
        ensures plan { self.new.segments.plan ≡ self.old.segments.plan }
        ensures stands { StandsBefore self.old.segments.plan address self.new.reader self.new.left }
    {
        self.segments.go_to(address);
        self.reader = carried_reader(&self.segments, address, carry);
        self.left = Edge::none();
    }

    /// Reads the unit at an address, over what the unit above it leaves and the contexts behind the second unit of the
    /// row above. The error is the first rule broken; then the row ends.
    pub fn read(&mut self, address: u32, above: &Edge, stored: &Contexts) -> Result<(), Breach>
        requires inside { address < size_in_ctbs self.old.segments.plan.sps }
        requires stands { StandsBefore self.old.segments.plan address self.old.reader self.old.left }
        ensures plan { self.new.segments.plan ≡ self.old.segments.plan }
        ensures segment { self.new.segments.current ≡ segment_having (picture_segments self.old.segments.plan) address }
        ensures value { IsReadByKnown self.old.segments.plan address
            → OfSegment self.old.segments.plan address (IsUnder self.old.segments.plan address above.now stored.now)
            → Reads result self.old.segments.plan address self.new.records self.new.reader }
        ensures left { OnOk result (self.new.left
            ≡ right_of (2 ^ (picture_shape self.new.segments.plan.sps self.new.segments.plan.pps).size)
            self.new.records) }
        ensures stands { OnOk result (IsReadByKnown self.old.segments.plan address
            → OfSegment self.old.segments.plan address (IsUnder self.old.segments.plan address above.now stored.now)
            → StandsBefore self.old.segments.plan (address + 1) self.new.reader self.new.left) }
    {
        self.segments.go_to(address);
        match read_current(
            &self.segments,
            address,
            &mut self.reader,
            &self.left,
            above,
            stored,
            &mut self.records,
            &mut self.levels,
        ) {
            Err(breach) => Err(breach),
            Ok(()) => {
                self.left = Edge::right_of(&self.records, self.segments.side());
                Ok(())
            }
        }
    }

    /// What was read of the former unit.
    pub fn records(&self) -> &Records
        ensures { result.now ≡ self.now.records }
    {
        &self.records
    }

    /// What stands behind it.
    pub fn reader(&self) -> &UnitReader<'a>
        ensures { result.now ≡ self.now.reader }
    {
        &self.reader
    }

    /// The segments of the picture, of which the current one is that of the former unit.
    pub fn segments(&self) -> &RowSegments<'a>
        ensures { result.now ≡ self.now.segments }
    {
        &self.segments
    }
}

/// Reads the unit at an address of the current segment, behind what stands before it and over these edges. Where there
/// is no segment nothing is read.
fn read_current<'a>(
    segments: &RowSegments<'a>,
    address: u32,
    reader: &mut UnitReader<'a>,
    left: &Edge,
    above: &Edge,
    stored: &Contexts,
    records: &mut Records,
    levels: &mut Levels,
) -> Result<(), Breach>
    requires live { IfSome segments.now.current (λ at. MayGoOn at address reader.old) }
    requires inside { IfSome segments.now.current (λ at. address < at.shape.first + at.shape.count) }
    ensures { IfSome segments.now.current (λ at. Leaves result at records.new reader.new
        (read_over at address left.now above.now (between_of reader.old stored.now []))) }
{
    match &segments.current {
        None => Ok(()),
        Some(segment) => read_in(
            segment, address, reader, left, above, stored, records, levels,
        ),
    }
}

/// The same of a segment.
fn read_in<'a>(
    segment: &SegmentData<'a>,
    address: u32,
    reader: &mut UnitReader<'a>,
    left: &Edge,
    above: &Edge,
    stored: &Contexts,
    records: &mut Records,
    levels: &mut Levels,
) -> Result<(), Breach>
    requires live { MayGoOn segment.now address reader.old }
    requires inside { address < segment.now.shape.first + segment.now.shape.count }
    ensures { Leaves result segment.now records.new reader.new
        (read_over segment.now address left.now above.now (between_of reader.old stored.now [])) }
{
    let behind = segment.behind();
    prove!(address < behind);
    reader.before_unit(segment, address, stored)?;
    let _end = reader.read_unit(segment, address, left, above, records, levels)?;
    Ok(())
}
