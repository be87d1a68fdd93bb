//! Squares of a component.

ghost use Rattle.std.specs.Prelude.{◌≡◌, ◌<◌, ◌≤◌, ◌+◌, ◌*◌, ◌^◌};
ghost use Rattle.ctu_build.specs.Held.{IsInside, chroma_place, luma_place, place_of};
ghost use Rattle.spec_reconstruction.specs.Sound.{IsCoded, IsSquare};

use ctu_records::{CodedBlock, Square};

/// A square of 2^`log2` samples on a side of component `c`, whose first sample is at (`x`, `y`), counted from the
/// unit's first one.
#[derive(Clone, Copy, Debug, PartialEq, Eq)]
pub struct Place {
    /// The component: 0 for luma, 1 for Cb, 2 for Cr.
    pub c: u8,
    /// The column of its first sample.
    pub x: u32,
    /// The line of its first sample.
    pub y: u32,
    /// The binary logarithm of its side in samples of the component.
    pub log2: u32,
}

impl Place {
    /// How many samples it has on a side.
    #[tactic(auto, using(crate::proofs::Sizes::small, crate::proofs::Sizes::large))]
    pub fn side(&self) -> usize
        requires some { 2 ≤ self.now.log2 }
        requires few { self.now.log2 ≤ 5 }
        ensures value { result ≡ 2 ^ self.now.log2 }
        ensures least { 4 ≤ result }
        ensures greatest { result ≤ 32 }
    {
        1 << self.log2
    }

    /// How many samples it has.
    pub fn area(&self) -> usize
        requires some { 2 ≤ self.now.log2 }
        requires few { self.now.log2 ≤ 5 }
        ensures value { result ≡ 2 ^ self.now.log2 * 2 ^ self.now.log2 }
        ensures greatest { result ≤ 1024 }
    {
        self.side() * self.side()
    }
}

/// Where the samples of a square are in Cb or Cr.
pub(crate) fn chroma_place(square: Square, c: u8) -> Place
    requires square { IsSquare square }
    requires some { 1 ≤ square.log2_size }
    requires c { c < 3 }
    ensures value { result ≡ chroma_place c square }
    ensures inside { IsInside result }
{
    Place {
        c,
        x: 2 * u32::from(square.x),
        y: 2 * u32::from(square.y),
        log2: u32::from(square.log2_size) + 1,
    }
}

/// Where they are in luma.
pub(crate) fn luma_place(square: Square) -> Place
    requires square { IsSquare square }
    ensures value { result ≡ luma_place square }
    ensures inside { IsInside result }
{
    Place {
        c: 0,
        x: 4 * u32::from(square.x),
        y: 4 * u32::from(square.y),
        log2: u32::from(square.log2_size) + 2,
    }
}

/// Where a block's samples are.
pub(crate) fn place_of(block: CodedBlock) -> Place
    requires { IsCoded block }
    ensures value { result ≡ place_of block }
    ensures inside { IsInside result }
{
    let side = if block.component == 0 { 4 } else { 2 };
    Place {
        c: block.component,
        x: side * u32::from(block.x),
        y: side * u32::from(block.y),
        log2: u32::from(block.log2_size),
    }
}
