//! A coding tree unit, from what stands before it in its substream (7.3.8.1, 9.3.1, 9.3.2).

ghost use Rattle.std.specs.Prelude.{◌≡◌, ◌+◌, ◌*◌, ◌<◌, ℕ, List, [], OnOk, IfOk, false};
ghost use Rattle.ctu_records.specs.Tree.{Ctu};
ghost use Rattle.coding_quadtree.specs.SpecCabac.{IsLive};
ghost use Rattle.coding_quadtree.specs.CabacContexts.{state_of};
ghost use Rattle.spec_slice_data.specs.Segment.{before_unit, begins_row, contexts_before, is_last};
ghost use Rattle.spec_slice_data.specs.Segment.{qp_before};
ghost use Rattle.spec_slice_data.specs.declared.syntax.End.TheVariants as end;
ghost use Rattle.spec_picture_trees.specs.Picture.{before_picture};
ghost use Rattle.coding_quadtree.specs.Judged.{Follows};
ghost use Rattle.unit_trees.specs.Units.{MayGoOn, Steps, between_of, unit_over};

use crate::edges::Edge;
use crate::segment_data::SegmentData;
use crate::view::View;
use coding_quadtree::{BinReader, Contexts, Interval, Levels, read_ctu};
use ctu_records::Records;
use hv_base::{Breach, FaultKind};
use spec_slice_data::End;

/// Bits are needed past the end of the segment.
const DATA_END: Breach = Breach::Fault(FaultKind::DataEnd);

/// What stands between two units, as far as the second one is read by it.
#[derive(Drop)]
pub struct UnitReader<'a> {
    /// The interval and the contexts.
    pub bins: BinReader<'a>,
    /// Qp'Y of the last coding unit.
    pub last: u8,
}

impl<'a> UnitReader<'a> {
    /// Before the first unit of a picture, or of a row with a substream of its own: no bin may be asked.
    #[tactic(auto, unfolding(spec_picture_trees::specs::Picture::before_picture, spec_bits::specs::Bits::bits))]
    pub fn new() -> UnitReader<'a>
        ensures { between_of result before_picture.stored [] ≡ before_picture }
    {
        UnitReader {
            bins: BinReader {
                interval: Interval::resume(&[], [256, 0, 0]),
                contexts: Contexts::init(0, 0),
            },
            last: 0,
        }
    }

    /// Goes on to the unit at an address: at the start of a substream the engine starts, with the contexts of the
    /// slice, the ones that are stored, or those at hand. The contexts behind the second unit of the row above are
    /// stored, if each row has a substream of its own.
    #[tactic(auto, unfolding(spec_slice_data::specs::Segment::before_unit))]
    pub fn before_unit(
        &mut self,
        segment: &SegmentData<'a>,
        address: u32,
        stored: &Contexts,
    ) -> Result<(), Breach>
        requires live { MayGoOn segment.now address self.old }
        ensures value { (units : List Ctu)
            → Steps result (between_of self.new stored.now units)
            (before_unit segment.now.picture segment.now.shape address (between_of self.old stored.now units)) }
        ensures live { OnOk result (IsLive self.new.bins.interval) }
    {
        if !segment.begins_substream(address) {
            return Ok(());
        }
        let Some(interval) = Interval::start(segment.substream_at(address)) else {
            return Err(DATA_END);
        };
        let contexts = self.contexts_before(segment, address, stored);
        self.last = self.qp_before(segment, address);
        self.bins = BinReader { interval, contexts };
        Ok(())
    }

    /// The contexts that a unit begins with, where a substream begins.
    #[tactic(auto, unfolding(spec_slice_data::specs::Segment::contexts_before))]
    fn contexts_before(
        &self,
        segment: &SegmentData<'_>,
        address: u32,
        stored: &Contexts,
    ) -> Contexts
        ensures { (units : List Ctu) → result
            ≡ contexts_before segment.now.picture segment.now.shape address (between_of self.now stored.now units) }
    {
        if segment.begins_row(address) {
            if segment.has_stored(address) {
                *stored
            } else {
                segment.contexts()
            }
        } else if segment.begins_slice(address) {
            segment.contexts()
        } else {
            self.bins.contexts
        }
    }

    /// Qp'Y before a unit, where a substream begins.
    #[tactic(auto, unfolding(spec_slice_data::specs::Segment::qp_before))]
    fn qp_before(&self, segment: &SegmentData<'_>, address: u32) -> u8
        ensures { (stored : List ℕ) (units : List Ctu) → result
            ≡ qp_before segment.now.picture segment.now.shape address (between_of self.now stored units) }
    {
        if segment.begins_row(address) || segment.begins_slice(address) {
            segment.qp()
        } else {
            self.last
        }
    }

    /// Reads the unit at an address, with what follows it and the bits behind its end, over what the units on its left
    /// and above it leave, as far as they are in the slice. What is read of it stands in the records, which begin anew.
    /// The error is the first rule broken; then the reader and the records are of no use.
    pub fn read_unit(
        &mut self,
        segment: &SegmentData<'_>,
        address: u32,
        left: &Edge,
        above: &Edge,
        records: &mut Records,
        levels: &mut Levels,
    ) -> Result<End, Breach>
        requires live { IsLive self.old.bins.interval }
        requires inside { address < 512 * segment.now.picture.width }
        ensures value { Follows result records.new (state_of self.new.bins)
            (unit_over segment.now.syntax segment.now.picture segment.now.shape address left.now above.now self.old.last
            (state_of self.old.bins)) }
        ensures last { OnOk result (self.new.last ≡ records.new.quantization.last) }
        ensures live { IfOk result (λ follows. follows ≡ end.More → IsLive self.new.bins.interval) }
        ensures more { IfOk result (λ follows. is_last segment.now.shape address ≡ false
            → begins_row segment.now.picture (address + 1) ≡ false → follows ≡ end.More) }
    {
        let syntax = segment.syntax_at(address);
        let place = segment.place_at(address, self.last);
        let mut view = View {
            left,
            above,
            x: place.x,
            y: place.y,
            address,
            width: place.width,
        };
        match read_ctu(&mut self.bins, &syntax, &place, &mut view, records, levels) {
            Err(breach) => Err(breach),
            Ok(end) => {
                self.last = records.quantization().last;
                Ok(end)
            }
        }
    }
}
