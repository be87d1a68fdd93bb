//! Picture hashes: what a stream states of planes, and what planes have (H.265 7.3.5, D.2.19, D.3.19).
#![tactic(auto)]

mod digest;
mod messages;
mod plane;

pub use digest::digest_of;
pub use messages::read_hash;
pub use plane::plane_md5;

#[cfg(test)]
mod tests;
