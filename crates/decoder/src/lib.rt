//! Decodes a stream: reads its bytes from a source, or takes them in pieces, and writes its pictures to a sink.
#![tactic(auto)]

mod buffer;
mod decoding;
mod hashes;
mod options;
mod picture;
mod pieces;
mod session;
mod session_calls;
mod stream;
mod tag;
mod together;
mod writing;

pub use decoding::decode;
pub use options::Options;
pub use session::Session;
pub use spec_decoder::Form;
