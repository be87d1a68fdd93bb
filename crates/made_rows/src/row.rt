//! A row that is written.

/// The bytes of a row, and the contexts behind its second unit, which the row below begins with.
#[derive(Debug, Drop)]
pub struct Row {
    /// The bytes of its substream.
    pub bytes: Vec<u8>,
    /// The contexts behind its second unit.
    pub contexts: [u8; 154],
}
