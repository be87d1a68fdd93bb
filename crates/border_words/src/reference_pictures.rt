//! The pictures that a picture of a flight refers to.

use flight_plan::Reference;
use picture_buffer::Bases;
use plan_types::PicturePlan;

/// The pictures that a picture of a flight may refer to.
#[derive(Clone, Copy)]
pub struct ReferencePictures<'a> {
    /// The plans of the flight.
    pub plans: &'a [PicturePlan],
    /// The picture, by its place in the flight.
    pub picture: usize,
    /// The pictures of the decoded picture buffer before it, by name.
    pub names: &'a [Reference],
    /// Those that were decoded before the flight.
    pub bases: &'a Bases,
}
