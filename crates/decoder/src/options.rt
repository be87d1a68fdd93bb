//! How a stream is decoded, and what is written of it.

use spec_decoder::Form;

/// How a stream is decoded, and what is written of it. The threads and the pictures at once change nothing of it.
#[derive(Clone, Copy, Debug, PartialEq, Eq)]
pub struct Options {
    /// How many threads decode, 1 to 64.
    pub workers: u32,
    /// How many pictures are decoded at once, 1 to 16.
    pub ahead: u32,
    /// Whether planes are compared with the hashes that the stream states (rule 27).
    pub hash: bool,
    /// What is written of each picture.
    pub form: Form,
}
