//! The coding tree units of slices as lines, each as it is read (7.3.8.2 to 7.3.8.8).

use crate::prediction_lines::prediction_unit;
use ctu_records::{CodingUnit, Item, QpDelta, Square, TransformUnit};
use picture_motion::PictureMotion;
use std::io::{self, Write};

/// Where a coding tree unit stands, and on what scale its parameters of quantization are.
#[derive(Clone, Copy)]
pub(crate) struct UnitOrigin {
    /// The column of its first luma sample.
    pub x: u32,
    /// The row of its first luma sample.
    pub y: u32,
    /// QpBdOffsetY.
    pub qp_offset: i64,
}

/// The luma modes of a coding unit, by how many were read of it: one for all of its four quarters, or one for each.
#[derive(Clone, Copy)]
struct LumaModes {
    quarters: [u8; 4],
    count: usize,
}

/// Before the first mode of a coding unit.
const NO_MODES: LumaModes = LumaModes {
    quarters: [0; 4],
    count: 0,
};

/// A coding tree unit's line: its address, and the number of its slice segment in the picture.
pub(crate) fn unit_start<W: Write>(out: &mut W, address: u32, segment: usize) -> io::Result<()> {
    writeln!(out, "ctu {address} segment {segment}")
}

/// The lines of what was read of it, in reading order.
pub(crate) fn unit_items<W: Write>(
    out: &mut W,
    origin: UnitOrigin,
    motion: &PictureMotion<'_>,
    items: &[Item],
) -> io::Result<()> {
    let mut modes = NO_MODES;
    let mut skipped = false;
    for item in items {
        modes = modes_behind(modes, *item);
        skipped = skipped_behind(skipped, *item);
        match *item {
            Item::Prediction(unit) => prediction_unit(out, origin, motion, skipped, unit)?,
            other => item_line(out, origin, modes, other)?,
        }
    }
    Ok(())
}

/// Whether the coding unit of which this item was read is skipped.
fn skipped_behind(skipped: bool, item: Item) -> bool {
    match item {
        Item::Unit(unit) => unit.skipped,
        _ => skipped,
    }
}

/// The luma modes that were read of a coding unit, behind this item.
fn modes_behind(modes: LumaModes, item: Item) -> LumaModes {
    match item {
        Item::Unit(_) => NO_MODES,
        Item::Luma(luma) => with_mode(modes, luma.mode),
        _ => modes,
    }
}

/// The modes with the next one.
fn with_mode(modes: LumaModes, mode: u8) -> LumaModes {
    let [first, second, third, _] = modes.quarters;
    let quarters = match modes.count {
        0 => [mode; 4],
        1 => [first, mode, mode, mode],
        2 => [first, second, mode, mode],
        _ => [first, second, third, mode],
    };
    LumaModes {
        quarters,
        count: modes.count.saturating_add(1),
    }
}

/// The line of an item, where it has one.
fn item_line<W: Write>(
    out: &mut W,
    origin: UnitOrigin,
    modes: LumaModes,
    item: Item,
) -> io::Result<()> {
    match item {
        Item::Unit(unit) => coding_unit(out, origin, unit),
        Item::Chroma(mode) => intra_modes(out, modes, mode),
        Item::Delta(delta) => qp_delta(out, origin, delta),
        Item::Transform(unit) => transform_unit(out, origin, unit),
        _ => Ok(()),
    }
}

/// A coding unit: its first luma sample, its side, its flags, and qPY_PRED.
fn coding_unit<W: Write>(out: &mut W, origin: UnitOrigin, unit: CodingUnit) -> io::Result<()> {
    let (x, y) = first_sample(origin, unit.square);
    let side = side(unit.square.log2_size);
    let coded = if unit.skipped { "skip" } else { "coded" };
    let bypass = u8::from(unit.transquant_bypass);
    let qp = luma_qp(unit.qp_predicted, origin.qp_offset);
    writeln!(
        out,
        "unit {x} {y} size {side} {coded} transquant_bypass {bypass} qp_pred {qp}"
    )
}

/// The modes of an intra coding unit.
fn intra_modes<W: Write>(out: &mut W, modes: LumaModes, chroma: u8) -> io::Result<()> {
    let partition = if modes.count > 1 { "NxN" } else { "Full" };
    let [first, second, third, fourth] = modes.quarters;
    writeln!(
        out,
        "intra {partition} luma modes [{first}, {second}, {third}, {fourth}] chroma mode {chroma}"
    )
}

/// CuQpDeltaVal, and the QpY that it makes.
fn qp_delta<W: Write>(out: &mut W, origin: UnitOrigin, delta: QpDelta) -> io::Result<()> {
    let value = delta.delta;
    let qp = luma_qp(delta.qp, origin.qp_offset);
    writeln!(out, "qp_delta {value} qp_y {qp}")
}

/// A transform unit: its first luma sample, its side, its depth in the tree, and its coded block flags.
fn transform_unit<W: Write>(
    out: &mut W,
    origin: UnitOrigin,
    unit: TransformUnit,
) -> io::Result<()> {
    let (x, y) = first_sample(origin, unit.square);
    let side = side(unit.square.log2_size);
    let depth = unit.depth;
    let (luma, cb, cr) = (
        u8::from(unit.cbf_luma),
        u8::from(unit.cbf_cb),
        u8::from(unit.cbf_cr),
    );
    writeln!(
        out,
        "transform {x} {y} size {side} depth {depth} cbf {luma} {cb} {cr}"
    )
}

/// The first luma sample of a square in the picture.
fn first_sample(origin: UnitOrigin, square: Square) -> (u32, u32) {
    let x = origin.x.saturating_add(4 * u32::from(square.x));
    let y = origin.y.saturating_add(4 * u32::from(square.y));
    (x, y)
}

/// The side of a square in luma samples.
fn side(log2_size: u8) -> u32 {
    match log2_size {
        0 => 4,
        1 => 8,
        2 => 16,
        3 => 32,
        _ => 64,
    }
}

/// QpY by Qp'Y and QpBdOffsetY.
fn luma_qp(qp: u8, offset: i64) -> i64 {
    i64::from(qp).saturating_sub(offset)
}
