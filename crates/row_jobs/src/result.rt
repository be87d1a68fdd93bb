//! What a flight was decoded to.

ghost use Rattle.std.specs.Prelude.{◌≡◌, ◌++◌, None, []};
ghost use Rattle.row_jobs.specs.Decoding.{some_picture};

use hv_base::Stop;
use picture_buffer::{Bases, SharedPicture};

/// The pictures of a flight that were decoded, and what stopped it.
#[derive(Drop)]
pub struct FlightResult {
    /// Those before the first picture in which a rule is broken, in decoding order; all where none is.
    pub pictures: Bases,
    /// That rule with its NAL unit and its coding tree unit, where one is broken.
    pub fault: Option<Stop>,
}

impl FlightResult {
    /// Takes the first picture out, if there is one.
    pub fn next(&mut self) -> Option<SharedPicture>
        ensures value { self.old.pictures ≡ some_picture result ++ self.new.pictures }
        ensures none { result ≡ None → self.old.pictures ≡ [] }
        ensures fault { self.new.fault ≡ self.old.fault }
    {
        if self.pictures.len() == 0 {
            return None;
        }
        Some(self.pictures.remove(0))
    }
}
