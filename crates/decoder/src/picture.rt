//! A picture of a flight.

ghost use Rattle.std.specs.Prelude.{◌≡◌, ◌++◌, ◌∷◌, [], List, Option, None, OnErr};
ghost use Rattle.plan_types.specs.declared.picture_plan.PicturePlan.{PicturePlan};
ghost use Rattle.row_jobs.specs.PictureBuild.{decoded_of};
ghost use Rattle.spec_picture_build.specs.References.{DecodedPicture};
ghost use Rattle.row_jobs.specs.FlightResults.{Decodes};
ghost use Rattle.spec_decoded_pictures.specs.Decoded.{picture_decoded};
ghost use Rattle.spec_decoder.specs.Decoder.{compared, decoded_data};
ghost use Rattle.decoder.specs.Flights.{TakesNext};

use crate::hashes::first_mismatch;
use crate::writing::outcome_of;
use hv_base::{Fault, Outcome};
use picture_buffer::{Picture, SharedPicture};
use plan_types::PicturePlan;
use row_jobs::FlightResult;

/// Takes the next picture of a flight that was decoded, or answers what stopped the flight in it. Its planes are
/// compared with their stated hashes, where `hash` is true.
pub(crate) fn next_picture(
    hash: bool,
    picture: &PicturePlan,
    flight: &mut FlightResult,
) -> Result<SharedPicture, Outcome>
    ensures { (buffer : List DecodedPicture) (later : List PicturePlan)
        → Decodes buffer (picture.now ∷ later) flight.old.pictures flight.old.fault
        → TakesNext hash buffer picture.now later flight.new result }
{
    let Some(shared) = flight.next() else {
        return Err(outcome_of(flight.fault));
    };
    match compare(hash, picture, shared.picture()) {
        None => Ok(shared),
        Some(fault) => Err(Outcome::Fault(fault)),
    }
}

/// The first hash stated for a picture that its planes haven't, where hashes are compared.
fn compare(hash: bool, plan: &PicturePlan, picture: &Picture) -> Option<Fault>
    ensures { result ≡ compared hash plan.now (decoded_of picture.now) }
{
    if !hash {
        return None;
    }
    first_mismatch(picture, plan.hashes.as_slice())
}
