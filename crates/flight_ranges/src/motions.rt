//! Whether the motion of a picture has vectors that may be.

ghost use Rattle.std.specs.Prelude.{Decides};
ghost use Rattle.picture_buffer.specs.Motion.{motions_of};
ghost use Rattle.flight_facts.specs.FlightValueLaws.{AreMotionsHeld};

use picture_buffer::MotionField;

/// Whether each place that has motion has a vector, and each vector a reference index below 16.
pub(crate) fn are_motions_held(field: &MotionField) -> bool
    ensures { Decides result (AreMotionsHeld (motions_of field.now)) }
{
    field.are_motions_held()
}
