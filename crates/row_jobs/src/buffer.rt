//! The decoded picture buffer while a flight is decoded (C.5.2.3).

ghost use Rattle.std.specs.Prelude.{◌≡◌, ◌<◌, ◌++◌, ◌∷◌, [], OnOk, length, if◌then◌else◌};
ghost use Rattle.std.specs.List.{remove};
ghost use Rattle.row_workers.specs.SpecDecoder.{is_among};
ghost use Rattle.row_workers.specs.SpecFlights.{staying};

use picture_buffer::{Bases, Picture, SharedPicture};
use std::alloc::{AllocError, Global};

/// A decoded picture stands behind the last of the flight's pictures and of the buffer, of which then those at these
/// places stay.
pub(crate) fn enter(
    alloc: Global,
    picture: Picture,
    kept: &[u32],
    buffer: &mut Bases,
    pictures: &mut Bases,
) -> Result<(), AllocError>
    ensures buffer { OnOk result (buffer.new ≡ staying kept.now 0 (buffer.old ++ picture ∷ [])) }
    ensures pictures { OnOk result (pictures.new ≡ pictures.old ++ picture ∷ []) }
{
    let shared = SharedPicture::new(alloc, picture)?;
    pictures.push_shared(shared.share()?)?;
    buffer.push_shared(shared)?;
    keep(buffer, kept);
    Ok(())
}

/// Keeps the pictures at these places, in the buffer's order.
fn keep(buffer: &mut Bases, places: &[u32])
    ensures { buffer.new ≡ staying places.now 0 buffer.old }
{
    let mut place = buffer.len();
    while 0 < place {
        place -= 1;
        judge_place(buffer, place, places);
    }
}

/// Takes the picture at a place out, unless the place is one of these.
fn judge_place(buffer: &mut Bases, place: usize, places: &[u32])
    requires { place < length buffer.old }
    ensures { buffer.new ≡ (if is_among places.now place then buffer.old else remove buffer.old place) }
{
    if !is_among(places, place) {
        let _left = buffer.remove(place);
    }
}

/// Whether a place is one of these.
fn is_among(places: &[u32], place: usize) -> bool
    ensures { result ≡ is_among places.now place }
{
    places.iter().any(|other| *other as usize == place)
}
