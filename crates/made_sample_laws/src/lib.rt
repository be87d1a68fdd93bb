//! The samples of made coding tree units, by the processes that decode them (H.265 8.4.4.1, 8.5.3.3, 8.7).
#![tactic(auto)]

mod laws;

pub use laws::{kept_places_stay, pulses_are_kept, pulses_are_laid_as_drawn, whole_vectors_copy};
