//! What filtering asks of a picture, apart from its samples.

ghost use Rattle.std.specs.Prelude.{◌≡◌, ℕ};
ghost use Rattle.spec_deblocking.specs.declared.place.Place.{Place};

use spec_deblocking::Place;

/// The places of a picture, each of four columns and four lines of luma samples.
pub trait PlaceView {
    /// What is known of a place, by its column and line, both in places.
    ghost place_at: { Self → ℕ → ℕ → Place };

    /// What is known of a place.
    fn place(&self, x: usize, y: usize) -> Place
        ensures { result ≡ place_at self.now x y };
}
