//! DC prediction between two sides.

ghost use Rattle.std.specs.Prelude.{cond, nat_le, Some, None};

use intra_pred::{Border, neighbours, predict};

/// 100 in every column up to one, down to a line, and 120 to the right of it.
#[derive(Drop)]
struct Sides {
    column: u32,
    line: u32,
}

impl Border for Sides {
    ghost known = { λ s c x y. cond (nat_le x s.column) (cond (nat_le y s.line) (Some 100) None) (Some 120) };

    fn sample(&self, _c: u8, x: u32, y: u32) -> Option<u16> {
        if x <= self.column {
            if y <= self.line { Some(100) } else { None }
        } else {
            Some(120)
        }
    }
}

/// The DC prediction of a luma block of 8 columns between 100 on the left and 120 above.
fn is_dc_filtered() -> bool {
    let sides = Sides {
        column: 8,
        line: 16,
    };
    let mut edge = [0; 33];
    neighbours(&sides, 0, 8, 8, 3, 8, &mut edge);
    let mut out = [0; 64];
    predict(&edge, 0, 3, 1, true, 8, &mut out);
    [out[0], out[1], out[7], out[8], out[56], out[9], out[63]]
        == [110, 113, 113, 108, 108, 110, 110]
}

#[test]
fn dc_comes_closer_to_its_neighbours_at_two_edges(rt: HostRuntime) {
    assert!(rt; is_dc_filtered());
}
