//! Prediction units of inter coding units (7.3.8.5, 7.3.8.6, 7.4.9.5).

ghost use Rattle.std.specs.Prelude.{◌≡◌, ◌+◌, ◌-◌, ◌*◌, ◌/◌, ◌^◌, ◌≤◌, ◌<◌, ◌==◌, if◌then◌else◌};
ghost use Rattle.ctu_records.specs.Prediction.{left_or_right, part_block, part_of, upper_or_lower};
ghost use Rattle.ctu_records.specs.Tree.{IsPlaced};

use crate::item::Square;

/// A motion vector, in quarter luma samples.
#[derive(Clone, Copy, Debug, PartialEq, Eq)]
pub struct Mv {
    /// To the right, from -2^15 to 2^15 - 1.
    pub x: i16,
    /// Downwards, from -2^15 to 2^15 - 1.
    pub y: i16,
}

/// PartMode of an inter coding unit (Table 7-10).
#[derive(Clone, Copy, Debug, PartialEq, Eq)]
pub enum PartMode {
    /// PART_2Nx2N.
    Whole,
    /// PART_2NxN.
    TwoNxN,
    /// PART_Nx2N.
    Nx2N,
    /// PART_NxN.
    NxN,
    /// PART_2NxnU.
    TwoNxnU,
    /// PART_2NxnD.
    TwoNxnD,
    /// PART_nLx2N.
    NLx2N,
    /// PART_nRx2N.
    NRx2N,
}

/// A vector of a prediction unit as it is coded, in one list.
#[derive(Clone, Copy, Debug, PartialEq, Eq)]
pub struct VectorSyntax {
    /// ref_idx_lX.
    pub ref_idx: u8,
    /// MvdLX.
    pub mvd: Mv,
    /// mvp_lX_flag.
    pub mvp: bool,
}

/// How a prediction unit tells its motion (7.3.8.6).
#[derive(Clone, Copy, Debug, PartialEq, Eq)]
pub enum MotionSyntax {
    /// merge_flag is 1: merge_idx.
    Merge(u8),
    /// By a vector in list 0, in list 1, or in both.
    Vectors(Option<VectorSyntax>, Option<VectorSyntax>),
}

/// A prediction unit.
#[derive(Clone, Copy, Debug, PartialEq, Eq)]
pub struct PredictionUnit {
    /// Its coding unit.
    pub unit: Square,
    /// How its coding unit is parted.
    pub part_mode: PartMode,
    /// partIdx.
    pub part: u8,
    /// How it tells its motion.
    pub motion: MotionSyntax,
}

/// A block of places: its first one, counted from the coding tree unit's first, and its sides in places.
#[derive(Clone, Copy, Debug, PartialEq, Eq)]
pub struct Rectangle {
    /// The column of its first place.
    pub x: u8,
    /// The row of its first place.
    pub y: u8,
    /// How many places it has across, at most 16.
    pub width: u8,
    /// How many it has down, at most 16.
    pub height: u8,
}

impl PredictionUnit {
    /// Its block.
    pub fn block(&self) -> Rectangle
        requires placed { IsPlaced self.now.unit }
        requires part { self.now.part < 4 }
        ensures { result ≡ part_block self.now.unit self.now.part_mode self.now.part }
    {
        part_block(self.unit, self.part_mode, self.part)
    }
}

/// The block of a part of a coding unit.
#[tactic(auto, unfolding(crate::specs::Prediction::part_of), using(crate::proofs::Sides::few_places))]
pub fn part_block(unit: Square, part_mode: PartMode, part: u8) -> Rectangle
    requires placed { IsPlaced unit }
    requires part { part < 4 }
    ensures { result ≡ part_block unit part_mode part }
{
    let n = side(unit.log2_size);
    let (x, y) = (unit.x, unit.y);
    match part_mode {
        PartMode::Whole => Rectangle {
            x,
            y,
            width: n,
            height: n,
        },
        PartMode::TwoNxN => upper_or_lower(x, y, n, n / 2, part),
        PartMode::Nx2N => left_or_right(x, y, n, n / 2, part),
        PartMode::NxN => Rectangle {
            x: x + n / 2 * (part - part / 2 * 2),
            y: y + n / 2 * (part / 2),
            width: n / 2,
            height: n / 2,
        },
        PartMode::TwoNxnU => upper_or_lower(x, y, n, n / 4, part),
        PartMode::TwoNxnD => upper_or_lower(x, y, n, n - n / 4, part),
        PartMode::NLx2N => left_or_right(x, y, n, n / 4, part),
        PartMode::NRx2N => left_or_right(x, y, n, n - n / 4, part),
    }
}

/// The side of a square in places.
#[tactic(auto, using(crate::proofs::Sides::few_places))]
fn side(log2_size: u8) -> u8
    requires { log2_size ≤ 4 }
    ensures value { result ≡ 2 ^ log2_size }
    ensures few { result ≤ 16 }
{
    1 << log2_size
}

/// The first part of two, or the second, of a square that is cut across behind so many places.
fn upper_or_lower(x: u8, y: u8, n: u8, cut: u8, part: u8) -> Rectangle
    requires y { y + n ≤ 16 }
    requires cut { cut ≤ n }
    ensures { result ≡ upper_or_lower x y n cut part }
{
    if part == 0 {
        Rectangle {
            x,
            y,
            width: n,
            height: cut,
        }
    } else {
        Rectangle {
            x,
            y: y + cut,
            width: n,
            height: n - cut,
        }
    }
}

/// The same of a square that is cut downwards.
fn left_or_right(x: u8, y: u8, n: u8, cut: u8, part: u8) -> Rectangle
    requires x { x + n ≤ 16 }
    requires cut { cut ≤ n }
    ensures { result ≡ left_or_right x y n cut part }
{
    if part == 0 {
        Rectangle {
            x,
            y,
            width: cut,
            height: n,
        }
    } else {
        Rectangle {
            x: x + cut,
            y,
            width: n - cut,
            height: n,
        }
    }
}
