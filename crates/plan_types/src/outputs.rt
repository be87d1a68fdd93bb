//! What a picture puts out.

use slice_types::{DpbPicture, FieldList};

/// What a picture puts out of the decoded picture buffer, and what it leaves there (C.5.2). A picture is named by its
/// place in the buffer before the current picture, in decoding order, and the current picture by the place behind the
/// last.
#[derive(Debug, Drop)]
pub struct Outputs {
    /// The pictures that go out before the current picture is decoded, in output order.
    pub before: FieldList<u32>,
    /// The pictures that go out once the current picture is decoded, in output order.
    pub behind: FieldList<u32>,
    /// The pictures that stay in the buffer, in decoding order.
    pub kept: FieldList<u32>,
    /// The same pictures, as they are marked then: the buffer before the next picture.
    pub dpb: FieldList<DpbPicture>,
}
