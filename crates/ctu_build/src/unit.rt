//! The samples of a coding tree unit.

ghost use Rattle.ctu_records.specs.declared.item.Item.{Item};
ghost use Rattle.std.specs.Prelude.{◌≡◌, ◌≤◌, List, true, drop, length};
ghost use Rattle.spec_reconstruction.specs.declared.format.UnitFormat.{UnitFormat};
ghost use Rattle.spec_reconstruction.specs.Inter.{InterUnit};
ghost use Rattle.std.specs.List.{All};
ghost use Rattle.ctu_build.specs.Building.{building};
ghost use Rattle.ctu_build.specs.Held.{held};
ghost use Rattle.ctu_build.specs.Inter.{IsReady, inter_of};
ghost use Rattle.ctu_motion.specs.Held.{held as motion_held};
ghost use Rattle.inter_samples.specs.Inter.{AreSmall, inter_unit};
ghost use Rattle.spec_reconstruction.specs.SpecInterPrediction.{IsSliceWeighting};
ghost use Rattle.spec_reconstruction.specs.Sound.{ArePulses, AreSound, BeginsPulses, IsFormat, IsSound};
ghost use Rattle.spec_reconstruction.specs.Unit.{Building, before_unit, item_built, items_built, unit_built};

use crate::coding::{Coding, before_unit, mode_of};
use crate::items::{build_block, build_prediction, build_pulses, build_transform};
use crate::scratch::Scratch;
use crate::source::Source;
use crate::unit_samples::UnitSamples;
use ctu_records::{Item, Records};
use inter_samples::{RefWindow, UnitInter};
use spec_reconstruction::UnitFormat;

/// An item, and the items behind it.
#[derive(Clone, Copy)]
struct Next<'a> {
    item: Item,
    behind: &'a [Item],
}

/// Builds the samples of a unit from what was read of it, its motion, the pictures that it refers to and what is known
/// beside it. Items that aren't sound are passed over.
#[tactic(auto, unfolding(spec_reconstruction::specs::Unit::unit_built))]
pub fn build_ctu<V: RefWindow>(
    records: &Records,
    format: &UnitFormat,
    inter: &UnitInter<'_>,
    view: &mut V,
    scratch: &mut Scratch,
    samples: &mut UnitSamples,
)
    requires format { IsFormat format.now }
    requires weighting { IsSliceWeighting inter.now.weighting.now }
    requires place { (inter.now.column ≤ 8192) × (inter.now.row ≤ 8192) }
    requires small { AreSmall format.now (V.reference_at view.old) }
    ensures value { AreSound format.now records.now.items
        → held samples.new
        ≡ unit_built format.now
        (inter_unit (motion_held inter.now.motion.now) inter.now.slice.now inter.now.weighting.now
        (V.reference_at view.old) inter.now.column inter.now.row)
        records.now.items (held samples.old) }
    ensures same { V.reference_at view.new ≡ V.reference_at view.old }
{
    let source = Source {
        records,
        format,
        inter: *inter,
    };
    build_items(&source, view, records.items(), scratch, samples);
}

/// Builds what items tell, one after the other.
fn build_items<V: RefWindow>(
    source: &Source<'_>,
    view: &mut V,
    items: &[Item],
    scratch: &mut Scratch,
    samples: &mut UnitSamples,
)
    requires ready { IsReady source.now.format.now source.now.inter (V.reference_at view.old) }
    ensures value { AreSound source.now.format.now source.now.records.now.items
        → All (IsSound source.now.format.now) items.now → ArePulses source.now.format.now items.now
        → (items_built source.now.format.now (inter_of source.now.inter (V.reference_at view.old))
        source.now.records.now.items items.now (before_unit (held samples.old))).known
        ≡ held samples.new }
    ensures same { V.reference_at view.new ≡ V.reference_at view.old }
{
    let mut coding = before_unit();
    let mut k = 0;
    while k < items.len() {
        let next = Next {
            item: items[k],
            behind: &items[k + 1..],
        };
        coding = build_item(source, view, coding, &next, scratch, samples);
        k = behind_levels(items, k + 1);
    }
}

/// Which item from one on is the first that isn't a level, or how many items there are.
fn behind_levels(items: &[Item], from: usize) -> usize
    requires { from ≤ length items.now }
    ensures from { from ≤ result }
    ensures inside { result ≤ length items.now }
    ensures value { (format : UnitFormat) (inter : InterUnit) (all : List Item) (building : Building)
        → items_built format inter all (drop result items.now) building
        ≡ items_built format inter all (drop from items.now) building }
{
    for k in from..items.len() {
        if !is_level(&items[k]) {
            return k;
        }
    }
    items.len()
}

/// Whether an item is a level, which tells nothing where its block was built.
#[inline(always)]
fn is_level(item: &Item) -> bool
    ensures { result ≡ true
        → (format : UnitFormat) (inter : InterUnit) (all : List Item) (building : Building) (behind : List Item)
        → item_built format inter all building item.now behind ≡ building }
{
    match item {
        Item::Level(_, _) => true,
        _ => false,
    }
}

/// Builds what an item tells, with the items behind it.
fn build_item<V: RefWindow>(
    source: &Source<'_>,
    view: &mut V,
    coding: Coding,
    next: &Next<'_>,
    scratch: &mut Scratch,
    samples: &mut UnitSamples,
) -> Coding
    requires ready { IsReady source.now.format.now source.now.inter (V.reference_at view.old) }
    requires mode { coding.chroma_mode ≤ 34 }
    ensures value { AreSound source.now.format.now source.now.records.now.items
        → IsSound source.now.format.now next.now.item
        → BeginsPulses source.now.format.now next.now.item next.now.behind.now
        → building result (held samples.new)
        ≡ item_built source.now.format.now (inter_of source.now.inter (V.reference_at view.old))
        source.now.records.now.items (building coding (held samples.old)) next.now.item next.now.behind.now }
    ensures mode { result.chroma_mode ≤ 34 }
    ensures same { V.reference_at view.new ≡ V.reference_at view.old }
{
    match next.item {
        Item::Unit(begun) => Coding {
            mode: mode_of(begun),
            chroma_mode: coding.chroma_mode,
        },
        Item::Chroma(mode) => Coding {
            mode: coding.mode,
            chroma_mode: mode.min(34),
        },
        Item::Prediction(prediction) => {
            build_prediction(source, view, &prediction, scratch, samples);
            coding
        }
        Item::Pcm(square) => {
            build_pulses(source.format, square, next.behind, scratch, samples);
            coding
        }
        Item::Transform(transform) => {
            build_transform(source, coding, transform.square, scratch, samples);
            coding
        }
        Item::Block(block) => {
            build_block(source, coding, block, next.behind, scratch, samples);
            coding
        }
        Item::Luma(_) | Item::Sample(_) | Item::Delta(_) | Item::Level(_, _) => coding,
    }
}
