//! Prediction units as lines (7.3.8.6, 8.5.3.2).

ghost use Rattle.std.specs.Prelude.{◌≡◌, ◌^◌, ◌≤◌};

use crate::unit_lines::UnitOrigin;
use ctu_records::{MotionSyntax, PartMode, PredictionUnit, Rectangle};
use picture_motion::PictureMotion;
use spec_motion::{Motion, Vector};
use std::io::{self, Write};

/// A prediction unit: its first luma sample, its sides, its candidate where its coding unit is skipped, else the parts
/// of that unit, and its motion.
pub(crate) fn prediction_unit<W: Write>(
    out: &mut W,
    origin: UnitOrigin,
    motion: &PictureMotion<'_>,
    skipped: bool,
    unit: PredictionUnit,
) -> io::Result<()> {
    let Some(block) = block_of(&unit) else {
        return Ok(());
    };
    unit_text(out, origin, skipped, unit, block)?;
    let known = motion.motion(usize::from(block.x) + 1, usize::from(block.y) + 1);
    motion_text(out, known.unwrap_or(NO_MOTION))
}

/// What stands on the line before the motion.
fn unit_text<W: Write>(
    out: &mut W,
    origin: UnitOrigin,
    skipped: bool,
    unit: PredictionUnit,
    block: Rectangle,
) -> io::Result<()> {
    block_text(out, kind_of(unit.motion), origin, block)?;
    match unit.motion {
        MotionSyntax::Merge(index) if skipped => write!(out, " index {index}"),
        _ => {
            let parts = part_name(unit.part_mode);
            write!(out, " {parts}")
        }
    }
}

/// How the motion of a unit is coded.
fn kind_of(motion: MotionSyntax) -> &'static str {
    match motion {
        MotionSyntax::Merge(_) => "merge",
        MotionSyntax::Vectors(_, _) => "amvp",
    }
}

/// How the motion of a block is coded, its place and its sides.
fn block_text<W: Write>(
    out: &mut W,
    kind: &str,
    origin: UnitOrigin,
    block: Rectangle,
) -> io::Result<()> {
    let x = origin.x.saturating_add(4 * u32::from(block.x));
    let y = origin.y.saturating_add(4 * u32::from(block.y));
    let width = 4 * u32::from(block.width);
    let height = 4 * u32::from(block.height);
    write!(out, "{kind} {x} {y} {width}x{height}")
}

/// No vector in either list.
const NO_MOTION: Motion = Motion {
    list_0: None,
    list_1: None,
};

/// The vectors of both lists, which end the line.
fn motion_text<W: Write>(out: &mut W, motion: Motion) -> io::Result<()> {
    vector_text(out, "l0", motion.list_0)?;
    vector_text(out, "l1", motion.list_1)?;
    writeln!(out)
}

/// A list's name, and its vector and reference index, or a dash where there is none.
fn vector_text<W: Write>(out: &mut W, list: &str, vector: Option<Vector>) -> io::Result<()> {
    match vector {
        Some(vector) => {
            let (index, x, y) = (vector.ref_idx, vector.mv.x, vector.mv.y);
            write!(out, " {list} {index} {x} {y}")
        }
        None => write!(out, " {list} -"),
    }
}

/// Its block, where its coding unit lies inside the greatest coding tree unit.
fn block_of(unit: &PredictionUnit) -> Option<Rectangle> {
    let square = unit.unit;
    if square.log2_size > 4 || unit.part >= 4 {
        return None;
    }
    let side = places(square.log2_size);
    if u32::from(square.x) + side <= 16 && u32::from(square.y) + side <= 16 {
        Some(unit.block())
    } else {
        None
    }
}

/// The side of a square in places.
fn places(log2_size: u8) -> u32
    requires { log2_size ≤ 4 }
    ensures value { result ≡ 2 ^ log2_size }
    ensures few { result ≤ 16 }
{
    match log2_size {
        0 => 1,
        1 => 2,
        2 => 4,
        3 => 8,
        _ => 16,
    }
}

/// The name of a part mode.
fn part_name(mode: PartMode) -> &'static str {
    match mode {
        PartMode::Whole => "Full",
        PartMode::TwoNxN => "TwoNxN",
        PartMode::Nx2N => "Nx2N",
        PartMode::NxN => "NxN",
        PartMode::TwoNxnU => "TwoNxnU",
        PartMode::TwoNxnD => "TwoNxnD",
        PartMode::NLx2N => "NLx2N",
        PartMode::NRx2N => "NRx2N",
    }
}
