//! What was read of a coding tree unit by place.

ghost use Rattle.std.specs.Prelude.{◌≡◌, []};
ghost use Rattle.std.specs.List.{All};
ghost use Rattle.ctu_records.specs.declared.item.Item.TheVariants.{Pcm, Prediction, Transform, Unit};
ghost use Rattle.spec_motion.specs.Derivation.{IsPlaced};
ghost use Rattle.spec_motion.specs.Units.{IsPlacedItem};
ghost use Rattle.boundary_strengths.specs.Held.{AreMarked};
ghost use Rattle.boundary_strengths.specs.Marking.{IsAdded, adds_nothing};

use crate::laying::{block_of, lay_block, mark_left, mark_top};
use ctu_records::{CodingUnit, Item, PredictionUnit, Square, TransformUnit};
use spec_motion::is_placed;

/// Edges, coded places and kept ones, in 16 rows of 16.
#[derive(Clone, Copy)]
pub(crate) struct Marks {
    /// Places at the left side of a coding unit or of a transform unit.
    pub(crate) transform_left: [bool; 256],
    /// Places at the top of one.
    pub(crate) transform_top: [bool; 256],
    /// Places at the left side of a prediction block.
    pub(crate) prediction_left: [bool; 256],
    /// Places at the top of one.
    pub(crate) prediction_top: [bool; 256],
    /// Places whose luma transform block has levels that aren't 0.
    pub(crate) coded: [bool; 256],
    /// Places whose samples stay.
    pub(crate) kept: [bool; 256],
}

/// The marks of a unit's items.
pub(crate) fn marks_of(items: &[Item], pcm_disabled: bool) -> Marks
    ensures { All IsPlacedItem items.now → AreMarked pcm_disabled items.now result }
{
    let mut marks = unmarked(pcm_disabled);
    for k in 0..items.len() {
        add_item(&mut marks, &items[k], pcm_disabled);
    }
    marks
}

/// No marks.
fn unmarked(pcm_disabled: bool) -> Marks
    ensures { AreMarked pcm_disabled [] result }
{
    Marks {
        transform_left: [false; 256],
        transform_top: [false; 256],
        prediction_left: [false; 256],
        prediction_top: [false; 256],
        coded: [false; 256],
        kept: [false; 256],
    }
}

/// An item more. Levels, which are most items, are passed over by a test of their own, since the match on all kinds is
/// a jump that is foretold badly.
#[inline(always)]
#[tactic(auto, using(crate::proofs::Steps::same_added))]
fn add_item(marks: &mut Marks, item: &Item, pcm_disabled: bool)
    ensures { IsPlacedItem item.now → IsAdded pcm_disabled item.now marks.old marks.new }
{
    if !adds_nothing(item) {
        add_other(marks, item, pcm_disabled);
    }
}

/// Whether an item marks nothing, as levels do.
#[inline(always)]
fn adds_nothing(item: &Item) -> bool
    ensures { result ≡ adds_nothing item.now }
{
    match item {
        Item::Unit(_) | Item::Prediction(_) | Item::Pcm(_) | Item::Transform(_) => false,
        _ => true,
    }
}

/// An item more that marks something. A prediction unit that doesn't lie in the greatest unit is passed over.
#[inline(never)]
#[tactic(auto, using(crate::proofs::Steps::same_added))]
fn add_other(marks: &mut Marks, item: &Item, pcm_disabled: bool)
    ensures { IsPlacedItem item.now → IsAdded pcm_disabled item.now marks.old marks.new }
{
    match item {
        Item::Unit(unit) => add_unit(marks, *unit, pcm_disabled),
        Item::Transform(unit) => add_transform(marks, *unit, pcm_disabled),
        Item::Prediction(unit) => {
            if is_placed(unit) {
                add_prediction(marks, unit, pcm_disabled);
            }
        }
        Item::Pcm(square) => add_pcm(marks, *square, pcm_disabled),
        _ => {}
    }
}

/// A coding unit.
fn add_unit(marks: &mut Marks, unit: CodingUnit, pcm_disabled: bool)
    ensures { IsAdded pcm_disabled (Unit unit) marks.old marks.new }
{
    let block = block_of(unit.square);
    mark_left(&mut marks.transform_left, block);
    mark_top(&mut marks.transform_top, block);
    lay_block(&mut marks.kept, block, unit.transquant_bypass);
}

/// A transform unit.
fn add_transform(marks: &mut Marks, unit: TransformUnit, pcm_disabled: bool)
    ensures { IsAdded pcm_disabled (Transform unit) marks.old marks.new }
{
    let block = block_of(unit.square);
    mark_left(&mut marks.transform_left, block);
    mark_top(&mut marks.transform_top, block);
    lay_block(&mut marks.coded, block, unit.cbf_luma);
}

/// A prediction unit.
fn add_prediction(marks: &mut Marks, unit: &PredictionUnit, pcm_disabled: bool)
    requires { IsPlaced unit.now }
    ensures { IsAdded pcm_disabled (Prediction unit.now) marks.old marks.new }
{
    let block = unit.block();
    mark_left(&mut marks.prediction_left, block);
    mark_top(&mut marks.prediction_top, block);
}

/// A coding unit by pulse code modulation.
fn add_pcm(marks: &mut Marks, square: Square, pcm_disabled: bool)
    ensures { IsAdded pcm_disabled (Pcm square) marks.old marks.new }
{
    if pcm_disabled {
        lay_block(&mut marks.kept, block_of(square), true);
    }
}
