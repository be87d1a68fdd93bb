//! What goes out of the decoded picture buffer, in which order, and what stays there (H.265 C.5.2).
#![tactic(auto)]

mod bumping;
mod current;
mod dpb;
mod full;
mod kept;
mod marking;
mod next_output;
mod outputs;
#[cfg(test)]
mod tests;

pub use current::current_picture;
pub use dpb::Dpb;
pub use full::is_full_of_references;
pub use outputs::{last_outputs, outputs_of};
pub use ref_picture_sets::{begins_anew, build_lists, derive_rps, is_irap, poc_of};
