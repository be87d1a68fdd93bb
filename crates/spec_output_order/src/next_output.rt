//! The picture that goes out next.

/// The picture of the decoded picture buffer that goes out next (C.5.2.4).
#[derive(Clone, Copy, Debug, PartialEq, Eq)]
pub struct NextOutput {
    /// Its place in the buffer, in decoding order.
    pub place: usize,
    /// PicOrderCntVal.
    pub poc: i32,
}
