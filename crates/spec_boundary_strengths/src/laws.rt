//! What follows from the definitions.

ghost use Rattle.std.specs.Prelude.{◌≡◌, ◌+◌, ℕ, pos, Bool, true, false, ◌&&◌, ◌||◌, List, Option, Some, None};
ghost use Rattle.ctu_records.specs.declared.item.Item.{Item};
ghost use Rattle.picture_buffer.specs.declared.place_motion.PlaceMotion.{PlaceMotion};
ghost use Rattle.spec_boundary_strengths.specs.Motion.{motion_strength};
ghost use Rattle.spec_boundary_strengths.specs.Edges.{is_transform_left, is_transform_top, is_prediction_left};
ghost use Rattle.spec_boundary_strengths.specs.Edges.{is_prediction_top};
ghost use Rattle.spec_boundary_strengths.specs.Strengths.{Beside, coded_around, is_filtered, strength, left_strength};
ghost use Rattle.spec_boundary_strengths.specs.Strengths.{top_strength};
ghost use Rattle.spec_boundary_strengths.specs.Worked.{vector_into, by_one, by_other, by_both, two_parts, beside_parts};

/// Both sides of an edge may be exchanged.
pub fn strengths_are_symmetric()
    ensures { (coded : Bool) (p q : Option PlaceMotion) → strength coded p q ≡ strength coded q p }
{}

/// Each edge that is filtered has strength 2 where a place behind it is predicted in intra mode: so have all of a unit
/// without inter prediction.
pub fn intra_edges_are_strong()
    ensures left { (beside : Beside) (items : List Item) (x y : ℕ) → beside.motion (x + 1) (y + 1) ≡ None
        → is_filtered beside.disabled beside.left x ≡ true
        → (is_transform_left items x y || is_prediction_left items x y) ≡ true → left_strength beside items x y ≡ 2 }
    ensures top { (beside : Beside) (items : List Item) (x y : ℕ) → beside.motion (x + 1) (y + 1) ≡ None
        → is_filtered beside.disabled beside.top y ≡ true
        → (is_transform_top items x y || is_prediction_top items x y) ≡ true → top_strength beside items x y ≡ 2 }
{}

/// Where motion is the same on both sides of an edge, and nothing is coded, there is no strength.
pub fn equal_motion_has_no_strength()
    ensures left { (beside : Beside) (items : List Item) (x y : ℕ) (motion : PlaceMotion)
        → beside.motion x (y + 1) ≡ Some motion → beside.motion (x + 1) (y + 1) ≡ Some motion
        → coded_around beside items x (y + 1) ≡ false → coded_around beside items (x + 1) (y + 1) ≡ false
        → left_strength beside items x y ≡ 0 }
    ensures top { (beside : Beside) (items : List Item) (x y : ℕ) (motion : PlaceMotion)
        → beside.motion (x + 1) y ≡ Some motion → beside.motion (x + 1) (y + 1) ≡ Some motion
        → coded_around beside items (x + 1) y ≡ false → coded_around beside items (x + 1) (y + 1) ≡ false
        → top_strength beside items x y ≡ 0 }
{}

/// Vectors are compared by the picture that they point to, whatever their list and their index, and are apart from four
/// quarter samples on; two vectors match in their order or crossed.
pub fn vectors_are_compared_by_picture()
    ensures index { motion_strength (by_one (vector_into 0 5 (pos 8))) (by_other (vector_into 2 5 (pos 11))) ≡ 0 }
    ensures picture { motion_strength (by_one (vector_into 0 5 (pos 8))) (by_one (vector_into 0 6 (pos 8))) ≡ 1 }
    ensures apart { motion_strength (by_one (vector_into 0 5 (pos 8))) (by_one (vector_into 0 5 (pos 12))) ≡ 1 }
    ensures count { motion_strength (by_one (vector_into 0 5 (pos 8)))
        (by_both (vector_into 0 5 (pos 8)) (vector_into 0 5 (pos 8)))
        ≡ 1 }
    ensures crossed { motion_strength (by_both (vector_into 0 5 (pos 8)) (vector_into 0 6 (pos 20)))
        (by_both (vector_into 1 6 (pos 20)) (vector_into 1 5 (pos 9)))
        ≡ 0 }
    ensures same { motion_strength (by_both (vector_into 0 5 (pos 8)) (vector_into 0 5 (pos 20)))
        (by_both (vector_into 1 5 (pos 20)) (vector_into 1 5 (pos 8)))
        ≡ 0 }
{}

/// A coding unit of 16x16 luma samples in two parts beside each other, whose vectors are a whole sample apart: strength
/// 1 where they meet, 0 at the left side, beside which motion is the same, and none off the grid or at the top.
pub fn parts_meet_with_strength_one()
    ensures middle { left_strength beside_parts two_parts 2 0 ≡ 1 }
    ensures side { left_strength beside_parts two_parts 0 0 ≡ 0 }
    ensures inside { left_strength beside_parts two_parts 1 0 ≡ 0 }
    ensures top { top_strength beside_parts two_parts 2 0 ≡ 0 }
{}
