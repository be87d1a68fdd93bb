//! Picture hashes, as a stream states them.

use hv_base::Digest;

/// The MD5 digests that a decoded picture hash message states for the planes of a picture (D.2.19, D.3.19).
#[derive(Clone, Copy, Debug)]
pub struct StatedHash {
    /// The number of the NAL unit that states them.
    pub nal: u32,
    /// The digest of the luma plane.
    pub luma: Digest,
    /// The digest of the Cb plane.
    pub cb: Digest,
    /// The digest of the Cr plane.
    pub cr: Digest,
}
