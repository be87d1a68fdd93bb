//! What goes out of the decoded picture buffer, in which order, and what stays there (H.265 C.5.2): definitions.
#![tactic(auto)]

mod current_picture;
mod laws;
mod next_output;

pub use current_picture::CurrentPicture;
pub use laws::{
    buffer_keeps_its_bounds, buffer_keeps_its_size, few_pictures_stay, first_pictures_go_out,
    lone_pictures_go_out_at_once, outputs_are_a_start_and_a_placing,
    outputs_name_pictures_of_the_buffer, waiting_pictures_go_out_once,
};
pub use next_output::NextOutput;
pub use plan_types::Outputs;
