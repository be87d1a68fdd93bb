//! What the stream of a seed is decoded to is the pictures that are drawn of it (H.265 8.1.3, C.5.2).
#![tactic(auto)]

mod laws;

pub use laws::{drawn_pictures_are_shown_in_order, made_streams_decode_as_drawn};
pub use made_decoding_laws::made_streams_are_decoded;
