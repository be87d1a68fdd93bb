//! The blocks of prediction units.

ghost use Rattle.std.specs.Prelude.{◌≡◌, ◌≤◌, ◌^◌, ◌+◌, ◌-◌, ◌*◌, ◌/◌};
ghost use Rattle.ctu_records.specs.Prediction.{left_or_right, part_block, part_of, rectangle, upper_or_lower};
ghost use Rattle.spec_motion.specs.Derivation.{IsBlock, IsPlaced};
ghost use Rattle.spec_motion.specs.Merging.{is_cut_level, is_cut_upright, is_lower_part, is_right_part, is_shared};
ghost use Rattle.spec_motion.specs.Merging.{merge_block};

use ctu_records::{PartMode, PredictionUnit, Rectangle};
use spec_motion::SliceMotion;

/// A coding unit's first place and its side in places.
#[derive(Clone, Copy)]
struct CodingBlock {
    x: u8,
    y: u8,
    side: u8,
}

/// A unit's coding unit.
fn whole(unit: &PredictionUnit) -> CodingBlock
    requires { IsPlaced unit.now }
    ensures x { result.x ≡ unit.now.unit.x }
    ensures y { result.y ≡ unit.now.unit.y }
    ensures side { result.side ≡ 2 ^ unit.now.unit.log2_size }
{
    CodingBlock {
        x: unit.unit.x,
        y: unit.unit.y,
        side: 1 << unit.unit.log2_size,
    }
}

/// The block of a prediction unit.
pub fn part_block(unit: &PredictionUnit) -> Rectangle
    requires { IsPlaced unit.now }
    ensures value { result ≡ part_block unit.now.unit unit.now.part_mode unit.now.part }
    ensures inside { IsBlock result }
{
    part_of(whole(unit), unit.part_mode, unit.part)
}

/// The block of a part.
#[tactic(auto, unfolding(ctu_records::specs::Prediction::part_of))]
fn part_of(unit: CodingBlock, part_mode: PartMode, part: u8) -> Rectangle
    requires x { unit.x + unit.side ≤ 16 }
    requires y { unit.y + unit.side ≤ 16 }
    requires part { part ≤ 3 }
    ensures value { result ≡ part_of unit.x unit.y unit.side part_mode part }
    ensures inside { IsBlock result }
{
    let half = unit.side / 2;
    let quarter = unit.side / 4;
    match part_mode {
        PartMode::Whole => rectangle(unit),
        PartMode::TwoNxN => upper_or_lower(unit, half, part),
        PartMode::Nx2N => left_or_right(unit, half, part),
        PartMode::NxN => quarter_of(unit, part),
        PartMode::TwoNxnU => upper_or_lower(unit, quarter, part),
        PartMode::TwoNxnD => upper_or_lower(unit, unit.side - quarter, part),
        PartMode::NLx2N => left_or_right(unit, quarter, part),
        PartMode::NRx2N => left_or_right(unit, unit.side - quarter, part),
    }
}

/// A whole coding unit.
fn rectangle(unit: CodingBlock) -> Rectangle
    requires x { unit.x + unit.side ≤ 16 }
    requires y { unit.y + unit.side ≤ 16 }
    ensures value { result ≡ rectangle unit.x unit.y unit.side unit.side }
    ensures inside { IsBlock result }
{
    Rectangle {
        x: unit.x,
        y: unit.y,
        width: unit.side,
        height: unit.side,
    }
}

/// The first part of two, one above the other, or the second.
fn upper_or_lower(unit: CodingBlock, cut: u8, part: u8) -> Rectangle
    requires x { unit.x + unit.side ≤ 16 }
    requires y { unit.y + unit.side ≤ 16 }
    requires cut { cut ≤ unit.side }
    ensures value { result ≡ upper_or_lower unit.x unit.y unit.side cut part }
    ensures inside { IsBlock result }
{
    if part == 0 {
        Rectangle {
            x: unit.x,
            y: unit.y,
            width: unit.side,
            height: cut,
        }
    } else {
        Rectangle {
            x: unit.x,
            y: unit.y + cut,
            width: unit.side,
            height: unit.side - cut,
        }
    }
}

/// The first part of two, side by side, or the second.
fn left_or_right(unit: CodingBlock, cut: u8, part: u8) -> Rectangle
    requires x { unit.x + unit.side ≤ 16 }
    requires y { unit.y + unit.side ≤ 16 }
    requires cut { cut ≤ unit.side }
    ensures value { result ≡ left_or_right unit.x unit.y unit.side cut part }
    ensures inside { IsBlock result }
{
    if part == 0 {
        Rectangle {
            x: unit.x,
            y: unit.y,
            width: cut,
            height: unit.side,
        }
    } else {
        Rectangle {
            x: unit.x + cut,
            y: unit.y,
            width: unit.side - cut,
            height: unit.side,
        }
    }
}

/// A part of four.
fn quarter_of(unit: CodingBlock, part: u8) -> Rectangle
    requires x { unit.x + unit.side ≤ 16 }
    requires y { unit.y + unit.side ≤ 16 }
    requires part { part ≤ 3 }
    ensures value { result
        ≡ rectangle (unit.x + unit.side / 2 * (part - part / 2 * 2)) (unit.y + unit.side / 2 * (part / 2))
        (unit.side / 2) (unit.side / 2) }
    ensures inside { IsBlock result }
{
    let half = unit.side / 2;
    Rectangle {
        x: unit.x + half * (part - part / 2 * 2),
        y: unit.y + half * (part / 2),
        width: half,
        height: half,
    }
}

/// Whether the prediction units of a unit's coding unit have one list of merging candidates.
fn is_shared(slice: &SliceMotion, unit: &PredictionUnit) -> bool
    ensures { result ≡ is_shared slice.now unit.now }
{
    2 < slice.log2_parallel && unit.unit.log2_size == 1
}

/// The block whose merging candidates are a unit's.
pub(crate) fn merge_block(slice: &SliceMotion, unit: &PredictionUnit) -> Rectangle
    requires { IsPlaced unit.now }
    ensures value { result ≡ merge_block slice.now unit.now }
    ensures inside { IsBlock result }
{
    if is_shared(slice, unit) {
        rectangle(whole(unit))
    } else {
        part_block(unit)
    }
}

/// Whether a coding unit's parts stand side by side.
fn is_cut_upright(part_mode: PartMode) -> bool
    ensures { result ≡ is_cut_upright part_mode }
{
    matches!(
        part_mode,
        PartMode::Nx2N | PartMode::NLx2N | PartMode::NRx2N
    )
}

/// Whether a coding unit's parts stand one above the other.
fn is_cut_level(part_mode: PartMode) -> bool
    ensures { result ≡ is_cut_level part_mode }
{
    matches!(
        part_mode,
        PartMode::TwoNxN | PartMode::TwoNxnU | PartMode::TwoNxnD
    )
}

/// Whether a unit is the right one of two, and its merging candidates are its own.
pub(crate) fn is_right_part(slice: &SliceMotion, unit: &PredictionUnit) -> bool
    ensures { result ≡ is_right_part slice.now unit.now }
{
    !is_shared(slice, unit) && unit.part == 1 && is_cut_upright(unit.part_mode)
}

/// Whether a unit is the lower one of two, and its merging candidates are its own.
pub(crate) fn is_lower_part(slice: &SliceMotion, unit: &PredictionUnit) -> bool
    ensures { result ≡ is_lower_part slice.now unit.now }
{
    !is_shared(slice, unit) && unit.part == 1 && is_cut_level(unit.part_mode)
}
