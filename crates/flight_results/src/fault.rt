//! Where the decoding of a flight stops, by the fault word of its board.

ghost use Rattle.std.specs.Prelude.{◌≡◌, ◌<◌, ◌≤◌, Some, slice_get};
ghost use Rattle.std.specs.Option.{option_map};
ghost use Rattle.hv_base.specs.declared.breach.Breach.{Breach};
ghost use Rattle.hv_base.specs.Stops.{stopped_at};
ghost use Rattle.rule_numbers.specs.Rules.{IsNumbered};
ghost use Rattle.plan_types.specs.declared.picture_plan.PicturePlan.{PicturePlan};
ghost use Rattle.spec_picture_trees.specs.Picture.{SegmentAt};
ghost use Rattle.spec_known_units.specs.Known.{picture_segments, segment_having};
ghost use Rattle.row_trees.specs.SpecFlights.{PlannedFlight};
ghost use Rattle.row_trees.specs.SpecFlights.{flight_rows};
ghost use Rattle.flight_lines.specs.Flights.{IsSized};
ghost use Rattle.flight_lines.specs.Numbers.{units_a_picture};
ghost use Rattle.flight_results.specs.Stopped.{StopsFlight, TellsStop};

use hv_base::Stop;
use plan_types::PicturePlan;
use row_trees::{RowSegments, pictures_are_decoded_as_known};
use rule_numbers::breach_of;
use sample_words::Layout;

/// How many pictures of a flight are decoded, and what stops it behind them.
#[derive(Clone, Copy)]
pub struct FlightStop {
    /// The first pictures of the flight, in decoding order.
    pub count: usize,
    /// The rule that the next picture breaks first, with its NAL unit and its coding tree unit; none behind the last.
    pub fault: Option<Stop>,
}

/// Where the decoding of a flight stops, by the fault word of its board.
pub fn stop_of(plans: &[PicturePlan], layout: &Layout, word: u64) -> FlightStop
    ensures { (f : PlannedFlight) → f.pictures ≡ plans.now → IsSized (flight_rows f) layout.now → TellsStop f word
        → StopsFlight f result.count result.fault }
{
    pictures_are_decoded_as_known();
    if word == u64::MAX {
        return FlightStop {
            count: plans.len(),
            fault: None,
        };
    }
    let whole = units_a_picture(layout);
    let unit = word / 32;
    let count = (unit / whole) as usize;
    let address = (unit % whole) as u32;
    FlightStop {
        count,
        fault: fault_at(plans, count, address, word % 32),
    }
}

/// How many units each picture has.
fn units_a_picture(layout: &Layout) -> u64
    ensures value { result ≡ units_a_picture layout.now }
    ensures some { 0 < result }
    ensures few { result ≤ 263680 }
{
    let rows = layout.rows();
    let columns = layout.columns();
    rows * columns + 3 * rows
}

/// The rule with this number, with the NAL unit of the slice segment that has the unit at an address of a picture.
fn fault_at(plans: &[PicturePlan], picture: usize, address: u32, rule: u64) -> Option<Stop>
    ensures { (plan : PicturePlan) (at : SegmentAt) (breach : Breach) → slice_get plans.now picture ≡ Some plan
        → segment_having (picture_segments plan) address ≡ Some at → IsNumbered rule breach
        → result ≡ Some (stopped_at at.nal (Some address) breach) }
{
    if picture < plans.len() {
        fault_in(&plans[picture], address, rule)
    } else {
        None
    }
}

/// The same of a picture.
fn fault_in(plan: &PicturePlan, address: u32, rule: u64) -> Option<Stop>
    ensures { (at : SegmentAt) (breach : Breach)
        → segment_having (picture_segments plan.now) address ≡ Some at → IsNumbered rule breach
        → result ≡ Some (stopped_at at.nal (Some address) breach) }
{
    let nal = nal_of(plan, address)?;
    let breach = breach_of(rule)?;
    Some(breach.at(nal, Some(address)))
}

/// The NAL unit of the slice segment that has the unit at an address, if one has it.
fn nal_of(plan: &PicturePlan, address: u32) -> Option<u32>
    ensures { result
        ≡ option_map (λ (at : SegmentAt). at.nal) (segment_having (picture_segments plan.now) address) }
{
    let mut segments = RowSegments::new(plan);
    segments.go_to(address);
    let segment = segments.current()?;
    Some(segment.nal())
}
