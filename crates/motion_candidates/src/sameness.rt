//! When vectors and motions are the same.

ghost use Rattle.std.specs.Prelude.{◌≡◌};
ghost use Rattle.spec_motion.specs.Merging.{is_same, unless_same};
ghost use Rattle.spec_motion.specs.Vectors.{agree, same_motion, same_mv, same_vector};

use ctu_records::Mv;
use spec_motion::{Motion, Vector};

/// Whether two vectors are the same.
pub(crate) fn same_mv(a: Mv, b: Mv) -> bool
    ensures { result ≡ same_mv a b }
{
    a.x == b.x && a.y == b.y
}

/// Whether two vectors of a list are the same, with the same index.
fn same_vector(a: Option<Vector>, b: Option<Vector>) -> bool
    ensures { result ≡ same_vector a b }
{
    match (a, b) {
        (None, None) => true,
        (Some(a), Some(b)) => same_mv(a.mv, b.mv) && a.ref_idx == b.ref_idx,
        _ => false,
    }
}

/// Whether two motions have the same vectors and indices.
#[tactic(auto, unfolding(spec_motion::specs::Vectors::same_motion))]
fn same_motion(a: Motion, b: Motion) -> bool
    ensures { result ≡ same_motion a b }
{
    same_vector(a.list_0, b.list_0) && same_vector(a.list_1, b.list_1)
}

/// Whether a candidate has the motion of another one.
fn is_same(candidate: Option<Motion>, other: Option<Motion>) -> bool
    ensures { result ≡ is_same candidate other }
{
    match (candidate, other) {
        (Some(candidate), Some(other)) => same_motion(candidate, other),
        _ => false,
    }
}

/// A candidate, unless it has the motion of another one.
pub(crate) fn unless_same(candidate: Option<Motion>, other: Option<Motion>) -> Option<Motion>
    ensures { result ≡ unless_same candidate other }
{
    if is_same(candidate, other) {
        None
    } else {
        candidate
    }
}

/// Whether two flags are the same.
pub(crate) fn agree(a: bool, b: bool) -> bool
    ensures { result ≡ agree a b }
{
    if a { b } else { !b }
}
