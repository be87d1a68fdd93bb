//! The search for pictures in the decoded picture buffer by their names (8.3.2).

ghost use Rattle.std.specs.Prelude.{◌≡◌, ◌^◌, ◌<◌, ◌≤◌, length, IfSome};
ghost use Rattle.spec_reference_pictures.specs.ReferencePictureSet.{IsName, is_among, is_named, is_place, is_sought};
ghost use Rattle.spec_reference_pictures.specs.ReferencePictureSet.{place_of};

use crate::picture_order_count::lsb_of;
use header_types::PictureName;

/// The place of the picture with this name, where `counts` are the order counts of the pictures that are sought, in
/// decoding order: of several the one decoded last.
#[tactic(auto, unfolding(spec_reference_pictures::specs::ReferencePictureSet::place_of))]
pub(crate) fn place_of(name: PictureName, counts: &[Option<i32>]) -> Option<u32>
    requires name { IsName name }
    requires few { length counts.now < 2 ^ 32 }
    ensures { result ≡ place_of name counts.now }
{
    let mut found = None;
    for (k, count) in counts.iter().enumerate() {
        if is_sought(name, *count) {
            found = Some(k as u32);
        }
    }
    found
}

/// Whether a picture that is sought, with this order count, has this name.
fn is_sought(name: PictureName, count: Option<i32>) -> bool
    requires name { IsName name }
    ensures { result ≡ is_sought name count }
{
    match count {
        Some(poc) => is_named(name, poc),
        None => false,
    }
}

/// Whether a picture with this order count has this name.
#[tactic(auto, unfolding(spec_reference_pictures::specs::ReferencePictureSet::is_named))]
fn is_named(name: PictureName, poc: i32) -> bool
    requires name { IsName name }
    ensures { result ≡ is_named name poc }
{
    match name {
        PictureName::Lsb { max_lsb, lsb } => lsb_of(max_lsb, poc) == lsb,
        PictureName::OrderCount(named) => i64::from(poc) == named,
    }
}

/// Whether the place is one of these.
pub(crate) fn is_among(place: u32, places: &[Option<u32>]) -> bool
    ensures { result ≡ is_among place places.now }
{
    places.iter().any(|other| is_place(place, *other))
}

/// Whether this is the place.
fn is_place(place: u32, other: Option<u32>) -> bool
    ensures { result ≡ is_place place other }
{
    match other {
        Some(found) => found == place,
        None => false,
    }
}
