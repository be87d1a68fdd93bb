//! What is written of each picture that goes out.

/// What is written of each picture that goes out.
#[derive(Clone, Copy, Debug, PartialEq, Eq)]
pub enum Form {
    /// Its samples inside the conformance window: the planes Y, Cb and Cr, row after row, a byte a sample where both
    /// bit depths are 8, and else two, the low one first.
    I420,
    /// A line `<k> <md5>`: its number from 0, and the MD5 of the bytes of `I420` in 32 hexadecimal digits.
    Hash,
    /// A line `<k> <poc> <nal type> <width>x<height>`: its number from 0, PicOrderCntVal, the nal_unit_type of its
    /// slices, and its luma samples across and down inside the conformance window.
    List,
}
