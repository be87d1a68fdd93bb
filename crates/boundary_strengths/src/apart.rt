//! When the motion on both sides of an edge differs (8.7.2.4).

ghost use Rattle.std.specs.Prelude.{◌≡◌, ◌≤◌};
ghost use Rattle.spec_boundary_strengths.specs.Motion.{are_apart, differ, differ_by_two, motion_strength, one_apart};
ghost use Rattle.spec_boundary_strengths.specs.Motion.{same_picture, vectors};

use spec_boundary_strengths::{PlaceMotion, PlaceVector, Vectors};

/// bS by motion alone.
#[tactic(auto, unfolding(spec_boundary_strengths::specs::Motion::motion_strength))]
pub fn motion_strength(p: &PlaceMotion, q: &PlaceMotion) -> u8
    ensures { result ≡ motion_strength p.now q.now }
{
    if differ(vectors(p), vectors(q)) { 1 } else { 0 }
}

/// The vectors of a place.
#[tactic(auto, unfolding(spec_boundary_strengths::specs::Motion::vectors))]
fn vectors(motion: &PlaceMotion) -> Vectors
    ensures { result ≡ vectors motion.now }
{
    match (motion.list_0, motion.list_1) {
        (None, None) => Vectors::NoVector,
        (None, Some(v)) => Vectors::OneVector(v),
        (Some(v), None) => Vectors::OneVector(v),
        (Some(v), Some(w)) => Vectors::TwoVectors(v, w),
    }
}

/// Whether there is another number of vectors, or they point to other pictures, or are apart.
#[tactic(auto, unfolding(spec_boundary_strengths::specs::Motion::differ))]
fn differ(p: Vectors, q: Vectors) -> bool
    ensures { result ≡ differ p q }
{
    match (p, q) {
        (Vectors::NoVector, Vectors::NoVector) => false,
        (Vectors::OneVector(v), Vectors::OneVector(w)) => !same_picture(&v, &w)
            || are_apart(&v, &w),
        (Vectors::TwoVectors(p0, p1), Vectors::TwoVectors(q0, q1)) => differ_by_two(
            &p0, &p1, &q0, &q1,
        ),
        (Vectors::NoVector, Vectors::OneVector(_)) => true,
        (Vectors::NoVector, Vectors::TwoVectors(_, _)) => true,
        (Vectors::OneVector(_), Vectors::NoVector) => true,
        (Vectors::OneVector(_), Vectors::TwoVectors(_, _)) => true,
        (Vectors::TwoVectors(_, _), Vectors::NoVector) => true,
        (Vectors::TwoVectors(_, _), Vectors::OneVector(_)) => true,
    }
}

/// Whether two vectors point to the same picture.
fn same_picture(v: &PlaceVector, w: &PlaceVector) -> bool
    ensures { result ≡ same_picture v.now w.now }
{
    v.reference.picture == w.reference.picture
}

/// Whether two vectors are at least four quarter samples apart, across or down.
#[tactic(auto, unfolding(spec_boundary_strengths::specs::Motion::are_apart))]
fn are_apart(v: &PlaceVector, w: &PlaceVector) -> bool
    ensures { result ≡ are_apart v.now w.now }
{
    4 <= v.vector.mv.x.abs_diff(w.vector.mv.x) || 4 <= v.vector.mv.y.abs_diff(w.vector.mv.y)
}

/// Whether one of two pairs of vectors is apart.
fn one_apart(p0: &PlaceVector, q0: &PlaceVector, p1: &PlaceVector, q1: &PlaceVector) -> bool
    ensures { result ≡ one_apart p0.now q0.now p1.now q1.now }
{
    are_apart(p0, q0) || are_apart(p1, q1)
}

/// Whether two vectors differ from two others.
#[tactic(auto, unfolding(spec_boundary_strengths::specs::Motion::differ_by_two))]
fn differ_by_two(p0: &PlaceVector, p1: &PlaceVector, q0: &PlaceVector, q1: &PlaceVector) -> bool
    ensures { result ≡ differ_by_two p0.now p1.now q0.now q1.now }
{
    let in_order = same_picture(p0, q0) && same_picture(p1, q1);
    let crossed = same_picture(p0, q1) && same_picture(p1, q0);
    if !(in_order || crossed) {
        true
    } else if same_picture(p0, p1) {
        one_apart(p0, q0, p1, q1) && one_apart(p0, q1, p1, q0)
    } else if in_order {
        one_apart(p0, q0, p1, q1)
    } else {
        one_apart(p0, q1, p1, q0)
    }
}
