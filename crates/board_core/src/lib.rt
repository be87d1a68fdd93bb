//! Which event of a flight must come before which: the pure core of row scheduling, a machine over events.
#![tactic(auto)]

mod bad_units;
mod core_state;
mod drawing_order;
mod event;
mod event_needs;
mod flight_layout;
mod laws;
mod need_list;
mod phase_rows;
mod pictures;
mod predicted_blocks;
mod search;

pub use core_state::Core;
pub use drawing_order::line_in;
pub use event::Event;
pub use event_needs::needs;
pub use laws::{
    counted_units_are_sound, ending_runs_agree, every_run_is_sound, lines_are_drawn_in_order,
    ready_events_use_counted_units,
};
pub use need_list::Needs;
pub use predicted_blocks::{
    LumaLines, PredictedBlock, are_luma_lines, is_block, motion_reach, reached_rows,
};
