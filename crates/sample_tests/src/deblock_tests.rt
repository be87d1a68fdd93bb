//! A step between two blocks.

ghost use Rattle.deblock.specs.Samples.{IsBounded};

use deblock::{PlaceView, Row, vertical_row};
use spec_deblocking::{Place, Plane};

/// Places of QpY 37 without offsets, the edges on whose left have strength 2.
struct StrongEdges;

impl PlaceView for StrongEdges {
    ghost use Rattle.std.specs.Prelude.{pos, false};

    ghost place_at = { λ v x y. record {
      left_strength = 2;
      top_strength = 0;
      qp_y = pos 37;
      kept = false;
      slice_beta_offset_div2 = pos 0;
      slice_tc_offset_div2 = pos 0;
    } };

    fn place(&self, _x: usize, _y: usize) -> Place {
        Place {
            left_strength: 2,
            top_strength: 0,
            qp_y: 37,
            kept: false,
            slice_beta_offset_div2: 0,
            slice_tc_offset_div2: 0,
        }
    }
}

/// A line of a step from 100 to 110, and the same behind the strong filter.
const STEP: [u16; 16] = [
    100, 100, 100, 100, 100, 100, 100, 100, 110, 110, 110, 110, 110, 110, 110, 110,
];

const SMOOTHED: [u16; 16] = [
    100, 100, 100, 100, 100, 101, 103, 104, 106, 108, 109, 110, 110, 110, 110, 110,
];

/// Four such lines.
fn four(line: &[u16; 16]) -> [u16; 64]
    ensures { IsBounded 255 result }
{
    let mut lines = [0u16; 64];
    for k in 0..64 {
        lines[k] = line[k % 16].min(255);
    }
    lines
}

/// Whether the strong filter smoothes the step.
fn is_step_smoothed() -> bool {
    let row = Row {
        plane: Plane::Luma,
        bit_depth: 8,
        width: 16,
        height: 4,
        first: 0,
        end: 4,
        top: 0,
        bottom: 4,
    };
    let mut samples = four(&STEP);
    vertical_row(&StrongEdges, &row, &mut samples);
    samples == four(&SMOOTHED)
}

#[test]
fn a_step_becomes_smooth(rt: HostRuntime) {
    assert!(rt; is_step_smoothed());
}
