//! The MD5 of a plane whose samples come in pieces (H.265 D.3.19).
#![tactic(auto)]

mod hasher;

pub use hasher::PlaneHasher;

#[cfg(test)]
mod tests;
