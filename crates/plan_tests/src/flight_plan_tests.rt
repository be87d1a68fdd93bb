//! A flight that takes a picture and a bad coding tree unit of it.

use flight_plan::{FlightPicture, FlightPlan};
use std::alloc::Global;

/// Whether a plan takes a picture and a bad coding tree unit of it, which is none of its filter units.
fn is_planned(alloc: Global) -> bool {
    let mut plan = FlightPlan::new(alloc);
    let picture = FlightPicture::new(3, 2, true, Vec::new(alloc), Vec::new(alloc));
    let is_taken = plan.takes(&picture) && plan.push(picture).is_ok();
    let is_bad_taken = plan.is_tree_unit(5) && plan.push_bad(5).is_ok();
    is_taken
        && plan.units() == 12
        && !plan.is_tree_unit(6)
        && is_bad_taken
        && plan.bad() == [5].as_slice()
}

#[test]
fn a_flight_takes_a_picture(rt: HostRuntime) {
    assert!(rt; is_planned(rt.alloc()));
}
