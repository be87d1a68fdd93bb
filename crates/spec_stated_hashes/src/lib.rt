//! What a stream states of the planes of its pictures (H.265 7.3.5, D.2.19, D.3.19): definitions.
#![tactic(auto)]

mod laws;

pub use hv_base::{Digest, Nal};
pub use laws::written_hashes_are_stated;
