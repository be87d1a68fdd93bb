//! The coding tree units of a slice segment one after the other (7.3.8.1, 9.3.1, 9.3.2).

ghost use Rattle.std.specs.Prelude.{◌≡◌, ◌+◌, ◌*◌, ◌<◌, List, [], ◌∷◌, ◌++◌, OnOk, IfOk, false};
ghost use Rattle.ctu_records.specs.Tree.{Ctu};
ghost use Rattle.spec_slice_data.specs.SpecCabac.{IsLive};
ghost use Rattle.spec_slice_data.specs.Segment.{before_unit, begins_row, is_last, read_unit, stored_behind, unit_step};
ghost use Rattle.spec_slice_data.specs.declared.syntax.End.TheVariants as end;
ghost use Rattle.plan_types.specs.declared.picture_plan.PicturePlan.{PicturePlan};
ghost use Rattle.spec_picture_trees.specs.Picture.{TreeUnit, before_picture, segment_read};
ghost use Rattle.unit_trees.specs.Units.{MayGoOn, Steps};
ghost use Rattle.picture_trees.specs.Beside.{behind};
ghost use Rattle.picture_trees.specs.Reading.{IsKept, ReadsSegment, between_of, progress_of};

use crate::beside::Beside;
use crate::trees::{ReadError, Trees};
use ctu_records::Records;
use hv_base::Breach;
use spec_slice_data::End;
use std::alloc::{AllocError, Global};
use unit_trees::{Contexts, Layout, Levels, SegmentData, UnitReader};

/// What stands between two units.
#[derive(Drop)]
pub(crate) struct Reading<'a> {
    reader: UnitReader<'a>,
    /// The contexts behind the second unit of a row.
    stored: Contexts,
    beside: Beside,
    records: Records,
    levels: Levels,
}

impl<'a> Reading<'a> {
    /// Before the first unit of a picture.
    #[tactic(auto, unfolding(spec_picture_trees::specs::Picture::before_picture))]
    pub(crate) fn new(alloc: Global, layout: &Layout) -> Result<Reading<'a>, AllocError>
        ensures before { IfOk result (λ r. between_of r [] ≡ before_picture) }
        ensures kept { IfOk result (λ r. IsKept layout.now 0 r.beside []) }
    {
        Ok(Reading {
            reader: UnitReader::new(),
            stored: Contexts::init(0, 0),
            beside: Beside::new(alloc, layout.side() as u32, layout.width())?,
            records: Records::new(alloc, u32::from(layout.size()) + 2)?,
            levels: Levels::new(alloc)?,
        })
    }

    /// Before a unit: the engine starts at each substream.
    fn before_unit(&mut self, segment: &SegmentData<'a>, address: u32) -> Result<(), Breach>
        requires live { MayGoOn segment.now address self.old.reader }
        ensures value { (units : List Ctu)
            → Steps result (between_of self.new units)
            (before_unit segment.now.picture segment.now.shape address (between_of self.old units)) }
        ensures live { OnOk result (IsLive self.new.reader.bins.interval) }
        ensures beside { self.new.beside ≡ self.old.beside }
    {
        self.reader.before_unit(segment, address, &self.stored)
    }

    /// A unit, from what stands before it in its substream.
    fn read_unit(&mut self, segment: &SegmentData<'a>, address: u32) -> Result<End, Breach>
        requires live { IsLive self.old.reader.bins.interval }
        requires inside { address < 512 * segment.now.picture.width }
        ensures value { (units : List Ctu) → IsKept segment.now.picture address self.old.beside units
            → Steps result (between_of self.new (units ++ self.new.records ∷ []))
            (read_unit segment.now.syntax segment.now.picture segment.now.shape address (between_of self.old units)) }
        ensures kept { OnOk result
            ((units : List Ctu) → IsKept segment.now.picture address self.old.beside units
            → IsKept segment.now.picture (address + 1) self.new.beside (units ++ self.new.records ∷ [])) }
        ensures live { IfOk result (λ follows. follows ≡ end.More → IsLive self.new.reader.bins.interval) }
        ensures more { IfOk result (λ follows. is_last segment.now.shape address ≡ false
            → begins_row segment.now.picture (address + 1) ≡ false → follows ≡ end.More) }
    {
        let place = segment.column(address);
        let on_left = self.beside.left();
        let on_top = self.beside.above(place);
        match self.reader.read_unit(
            segment,
            address,
            &on_left,
            &on_top,
            &mut self.records,
            &mut self.levels,
        ) {
            Err(breach) => Err(breach),
            Ok(end) => {
                self.keep(segment, address, place);
                Ok(end)
            }
        }
    }

    /// Keeps what a unit that was read leaves to those after it.
    fn keep(&mut self, segment: &SegmentData<'_>, address: u32, column: u32)
        ensures reader { self.new.reader ≡ self.old.reader }
        ensures records { self.new.records ≡ self.old.records }
        ensures stored { self.new.stored
            ≡ stored_behind segment.now.picture address self.old.reader.bins.contexts self.old.stored }
        ensures beside { self.new.beside ≡ behind self.old.beside column self.old.records }
    {
        if segment.stores(address) {
            self.stored = self.reader.bins.contexts;
        }
        self.beside.keep(column, &self.records);
    }

    /// The next unit.
    fn unit_step(&mut self, segment: &SegmentData<'a>, address: u32) -> Result<End, Breach>
        requires live { MayGoOn segment.now address self.old.reader }
        requires inside { address < 512 * segment.now.picture.width }
        ensures value { (units : List Ctu) → IsKept segment.now.picture address self.old.beside units
            → Steps result (between_of self.new (units ++ self.new.records ∷ []))
            (unit_step segment.now.syntax segment.now.picture segment.now.shape address (between_of self.old units)) }
        ensures kept { OnOk result
            ((units : List Ctu) → IsKept segment.now.picture address self.old.beside units
            → IsKept segment.now.picture (address + 1) self.new.beside (units ++ self.new.records ∷ [])) }
        ensures live { OnOk result
            (address + 1 < segment.now.shape.first + segment.now.shape.count
            → MayGoOn segment.now (address + 1) self.new.reader) }
    {
        self.before_unit(segment, address)?;
        self.read_unit(segment, address)
    }

    /// All units of a segment.
    pub(crate) fn read_segment<T: Trees>(
        &mut self,
        segment: &SegmentData<'a>,
        trees: &mut T,
    ) -> Result<(), ReadError>
        ensures { (p : PicturePlan) (units : List Ctu) (given : List TreeUnit)
            → IsKept segment.now.picture segment.now.shape.first self.old.beside units → T.tells trees.old p given
            → ReadsSegment result segment.now.picture (segment.now.shape.first + segment.now.shape.count) self.new
            (T.tells trees.new p) (segment_read segment.now (progress_of self.old units given)) }
    {
        for address in segment.first()..segment.behind() {
            if let Err(breach) = self.unit_step(segment, address) {
                return Err(ReadError::Broken {
                    breach,
                    nal: segment.nal(),
                    ctu: address,
                });
            }
            let Ok(_) = trees.unit(segment.number(), address, &self.records) else {
                return Err(ReadError::Memory);
            };
        }
        Ok(())
    }
}
