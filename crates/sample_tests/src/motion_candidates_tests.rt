//! Merging and prediction by the motion on two sides of a unit.

ghost use Rattle.std.specs.Prelude.{cond, Some, None, ◌==◌, ◌&&◌};

use ctu_records::{MotionSyntax, Mv, PartMode, PredictionUnit, Rectangle, Square};
use motion_candidates::{MotionView, amvp, derive, merge};
use spec_motion::{Collocated, Motion, Reference, SliceMotion, Vector};

/// Motion at A1 and B1 of a unit at the first place alone.
#[derive(Drop)]
struct Sides {
    left: Motion,
    above: Motion,
}

impl MotionView for Sides {
    ghost motion_at = { λ s column row. cond (column == 0 && row == 2) (Some s.left)
        (cond (column == 2 && row == 0) (Some s.above) None) };

    ghost collocated_at = { λ s column row. None };

    fn motion(&self, column: usize, row: usize) -> Option<Motion> {
        if column == 0 && row == 2 {
            Some(self.left)
        } else if column == 2 && row == 0 {
            Some(self.above)
        } else {
            None
        }
    }

    fn collocated(&self, _column: usize, _row: usize) -> Option<Collocated> {
        None
    }
}

/// One vector in list 0.
fn pointing(x: i16, y: i16, ref_idx: u8) -> Motion {
    Motion {
        list_0: Some(Vector {
            mv: Mv { x, y },
            ref_idx,
        }),
        list_1: None,
    }
}

/// A reference picture.
const REFERENCE: Reference = Reference {
    picture: 0,
    order: 0,
    long_term: false,
};

/// A P slice with two references, of a picture of order count 8.
const SLICE: SliceMotion = SliceMotion {
    is_b: false,
    max_candidates: 4,
    log2_parallel: 2,
    order: 8,
    references_0: [REFERENCE; 16],
    references_1: [REFERENCE; 16],
    active_0: 2,
    active_1: 0,
    temporal: true,
    from_list_0: true,
    collocated_order: 0,
    side: 16,
    right: 16,
    lower: 16,
};

/// The first unit, merged with its last candidate.
const UNIT: PredictionUnit = PredictionUnit {
    unit: Square {
        x: 0,
        y: 0,
        log2_size: 1,
    },
    part_mode: PartMode::Whole,
    part: 0,
    motion: MotionSyntax::Merge(3),
};

/// Whether the two sides are candidates, and zero candidates follow.
fn are_candidates_merged() -> bool {
    let sides = Sides {
        left: pointing(3, 0, 1),
        above: pointing(-3, 0, 0),
    };
    let found = [
        merge(&sides, &SLICE, &UNIT, 0),
        merge(&sides, &SLICE, &UNIT, 1),
        merge(&sides, &SLICE, &UNIT, 2),
        derive(&sides, &SLICE, &UNIT),
    ];
    found
        == [
            sides.left,
            sides.above,
            pointing(0, 0, 0),
            pointing(0, 0, 1),
        ]
}

#[test]
fn zero_candidates_follow_those_beside_a_unit(rt: HostRuntime) {
    assert!(rt; are_candidates_merged());
}

/// The predictor of a vector over one picture by a vector on the left over two.
fn halved(slice: &SliceMotion, x: i16, y: i16) -> Mv {
    let sides = Sides {
        left: pointing(x, y, 1),
        above: pointing(0, 0, 0),
    };
    let block = Rectangle {
        x: 0,
        y: 0,
        width: 2,
        height: 2,
    };
    amvp(&sides, slice, block, 0, 0, false)
}

/// Whether half of a vector over two pictures is that over one, rounded away from 0 by half.
fn are_vectors_halved() -> bool {
    let mut slice = SLICE;
    slice.references_0[0] = Reference {
        picture: 0,
        order: 7,
        long_term: false,
    };
    slice.references_0[1] = Reference {
        picture: 1,
        order: 6,
        long_term: false,
    };
    let first = halved(&slice, 8, -8);
    let second = halved(&slice, 7, 0);
    [first.x, first.y, second.x] == [4, -4, 3]
}

#[test]
fn a_vector_over_two_pictures_is_halved(rt: HostRuntime) {
    assert!(rt; are_vectors_halved());
}
