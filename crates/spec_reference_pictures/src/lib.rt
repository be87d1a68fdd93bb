//! Picture order count, reference picture sets and reference picture lists (H.265 7.3.7, 7.4.8, 8.3): definitions.
#![tactic(auto)]

mod laws_references;
mod laws_short_term;

pub use laws_references::{
    entries_tell_order_counts, every_kept_picture_is_in_a_set, lists_have_current_pictures,
    short_term_lists_are_disjoint, the_total_is_that_of_the_fields,
};
pub use laws_short_term::{sets_are_near, sets_are_nearest_first};
