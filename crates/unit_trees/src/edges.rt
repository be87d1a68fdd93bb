//! What a coding tree unit leaves to one beside it. A place is a block of 4x4 luma samples.

ghost use Rattle.std.specs.Prelude.{◌≡◌, ◌-◌, ◌<◌, ◌≤◌, slice_index_or};
ghost use Rattle.ctu_records.specs.Tree.{no_side, side};
ghost use Rattle.spec_slice_data.specs.Segment.{side_of};
ghost use Rattle.unit_trees.specs.Edges.{bottom_of, no_edge, place_of, right_of};

use ctu_records::{ComponentOffset, Records, Sao, Side};

/// A place that is not available.
const NO_SIDE: Side = Side {
    depth: 0,
    skipped: false,
    intra: false,
    luma_mode: 1,
    qp: 0,
};

/// No unit.
const NO_EDGE: Edge = Edge {
    places: [NO_SIDE; 16],
    sao: Sao {
        luma: ComponentOffset::Off,
        cb: ComponentOffset::Off,
        cr: ComponentOffset::Off,
    },
};

/// What a coding tree unit leaves to the one on its right or to the one below it.
#[derive(Clone, Copy)]
pub struct Edge {
    /// Its rightmost places from the top down, or its lowest ones from the left. Those past its side mean nothing.
    pub places: [Side; 16],
    /// Its sample adaptive offset.
    pub sao: Sao,
}

impl Edge {
    /// That of a unit which isn't there.
    pub fn none() -> Edge
        ensures { result ≡ no_edge }
    {
        NO_EDGE
    }

    /// What a unit that was read, whose side has `n` places, leaves to the one on its right.
    pub fn right_of(records: &Records, n: u32) -> Edge
        requires some { 1 ≤ n }
        requires small { n ≤ 16 }
        ensures { result ≡ right_of n records.now }
    {
        Edge {
            places: right_places(records, n),
            sao: records.sao(),
        }
    }

    /// What it leaves to the one below it.
    pub fn bottom_of(records: &Records, n: u32) -> Edge
        requires some { 1 ≤ n }
        requires small { n ≤ 16 }
        ensures { result ≡ bottom_of n records.now }
    {
        Edge {
            places: bottom_places(records, n),
            sao: records.sao(),
        }
    }

    /// A place; past the last, one that is not available.
    #[inline(always)]
    pub(crate) fn place(&self, k: u32) -> Side
        ensures { result ≡ place_of self.now k }
    {
        if k < 16 {
            self.places[k as usize]
        } else {
            NO_SIDE
        }
    }
}

/// The rightmost places of a unit.
fn right_places(records: &Records, n: u32) -> [Side; 16]
    requires some { 1 ≤ n }
    requires small { n ≤ 16 }
    ensures { result ≡ side 16 (λ k. side_of records.now (n - 1) k) }
{
    let mut places = [NO_SIDE; 16];
    for k in 0..16usize {
        places[k] = side_of(records, (n - 1) as usize, k);
    }
    places
}

/// The lowest places of a unit.
fn bottom_places(records: &Records, n: u32) -> [Side; 16]
    requires some { 1 ≤ n }
    requires small { n ≤ 16 }
    ensures { result ≡ side 16 (λ k. side_of records.now k (n - 1)) }
{
    let mut places = [NO_SIDE; 16];
    for k in 0..16usize {
        places[k] = side_of(records, k, (n - 1) as usize);
    }
    places
}

/// What was read of a place of a unit.
fn side_of(records: &Records, x: usize, y: usize) -> Side
    requires x { x < 16 }
    requires y { y < 16 }
    ensures { result ≡ side_of records.now x y }
{
    let coding = records.coding(x, y);
    Side {
        depth: coding.depth,
        skipped: coding.skipped,
        intra: coding.intra,
        luma_mode: records.luma_mode(x, y),
        qp: records.qp(x, y),
    }
}
