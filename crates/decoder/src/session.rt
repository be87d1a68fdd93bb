//! A stream that comes in pieces.

ghost use Rattle.std.specs.Prelude.{◌≡◌, None, false};

use crate::options::Options;
use crate::stream::Decoder;
use hv_base::Outcome;
use nal_stream::Framer;

/// A stream that is decoded while it comes in pieces, cut anywhere. A picture goes out as soon as the units behind it
/// show that it does and its flight has run, which is when the flight is full, the sequence parameter set changes, or
/// the stream ends or stops. It holds what it needs: the unit that isn't whole, the pictures of the flight that isn't
/// full, and the decoded picture buffer.
///
/// Contracts speak of all bytes that it was given and all that its sinks gained ("it stands for" these).
#[derive(Drop)]
pub struct Session {
    pub(crate) options: Options,
    pub(crate) framer: Framer,
    pub(crate) decoder: Decoder,
    /// How decoding ended, once it has.
    pub(crate) outcome: Option<Outcome>,
    ghost open: { outcome ≡ None → framer.finished ≡ false },
}
