//! The pictures of the stream of a seed are decoded as they are drawn, one behind the other (H.265 8.1.3, C.5.2).
#![tactic(auto)]

mod laws;

pub use laws::{
    made_pictures_are_decoded_in_turn, made_planes_are_drawn, made_samples_are_bytes,
    made_streams_are_decoded, made_streams_are_written, planned_pictures_are_decoded,
};
