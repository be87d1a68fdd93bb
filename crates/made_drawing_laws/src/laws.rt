//! Laws of the definitions.

ghost use Rattle.std.specs.Prelude.{◌≡◌, ℕ, ◌+◌, ◌<◌, Bool, true};
ghost use Rattle.spec_decoder.specs.Decoder.{decoded};
ghost use Rattle.spec_made.specs.Stream.{made};
ghost use Rattle.spec_drawn_pictures.specs.Shown.{IsBefore, shown_at};
ghost use Rattle.made_drawing_laws.specs.Decoded.{IsAsDrawn};

use made_decoding_laws::{made_streams_are_decoded, made_streams_are_written};
use made_laws::made_pictures_go_out_in_order;

/// What the stream of a seed is decoded to, whether stated hashes are compared or not: as many pictures as were asked
/// for, those that are drawn of the seed, group by group and in each by order count, and no rule is broken and no limit
/// met.
pub fn made_streams_decode_as_drawn()
    ensures { (hash : Bool) (seed pictures : ℕ) → IsAsDrawn seed pictures (decoded hash true (made seed pictures)) }
{
    made_streams_are_decoded();
    made_streams_are_written();
}

/// Of so many pictures each is shown at one place: `shown_at` gives one of them (`inside`), and is its own inverse
/// (`once`). The picture at a place is of an earlier group than the one at the next, or of the same and of a lesser
/// order count (`rising`).
pub fn drawn_pictures_are_shown_in_order()
    ensures inside { (pictures place : ℕ) → place < pictures → shown_at pictures place < pictures }
    ensures once { (pictures place : ℕ) → place < pictures
        → shown_at pictures (shown_at pictures place) ≡ place }
    ensures rising { (pictures place : ℕ) → place + 1 < pictures
        → IsBefore (shown_at pictures place) (shown_at pictures (place + 1)) }
{
    made_pictures_go_out_in_order();
}
