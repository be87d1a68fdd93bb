//! What the words of a command line ask for.

use decoder::Options;

/// What the words ask for: a command and its options.
#[derive(Clone, Copy, Debug, PartialEq, Eq)]
pub enum Request {
    /// To decode a stream and write its pictures, their hashes or a list of them.
    Decode(Options),
    /// To make one, or to sum it up.
    Make(MakeOptions),
}

/// Which stream is made, and what is written of it.
#[derive(Clone, Copy, Debug, PartialEq, Eq)]
pub struct MakeOptions {
    /// The seed of what is drawn.
    pub seed: u64,
    /// How many pictures, 1 to 1000.
    pub pictures: u32,
    /// Whether a line that sums the stream up is written in its place.
    pub summary: bool,
}
