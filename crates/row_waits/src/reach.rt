//! Waiting for the final rows of reference pictures that a coding tree unit reaches (8.5.3.3).

ghost use Rattle.std.specs.Prelude.{◌≡◌, ◌<◌, ◌≤◌, ℕ, All};
ghost use Rattle.board_core.specs.Reach.{IsLumaLines};
ghost use Rattle.flight_plan.specs.Flight.{IsEarlier};
ghost use Rattle.flight_plan.specs.declared.row_range.Reference.TheVariants.{Flight};
ghost use Rattle.progress_words.specs.declared.waiting.Waited.TheVariants.{Ready, Stopped};
ghost use Rattle.progress_words.specs.Passes.{view};
ghost use Rattle.progress_words.specs.Views.{HasEnded};
ghost use Rattle.sample_words.specs.Sizes.{rows};
ghost use Rattle.spec_motion.specs.Units.{IsPlacedItem};
ghost use Rattle.flight_waits.specs.FactsOfFlights.{flight_meaning};
ghost use Rattle.flight_waits.specs.FactsOfFlights.{flight_in};
ghost use Rattle.flight_waits.specs.Waits.{HoldsUnit};
ghost use Rattle.unit_reach.specs.Ranges.{one};
ghost use Rattle.row_waits.specs.Seen.{HasLookedAround, HasRange, HasReach, HasRow, MayWait, ReachesEarlier};

use crate::picture_view::PictureView;
use ctu_records::Item;
use flight_plan::{Reference, RowRange};
use flight_waits::{FlightFacts, wait_for_final_rows};
use flight_windows::SeenRows;
use hv_io::Gate;
use line_words::UnitPlace;
use progress_words::{Board, Pass, Waited};
use std::sync::Wait;
use unit_reach::{ReachSource, item_reach};

/// Waits for the rows of reference pictures that the items of a coding tree unit reach, where they aren't seen yet, or
/// until a fault is found before the unit. Those that were waited for are seen then.
pub fn wait_for_reach<R: Wait, G: Gate>(
    rt: &R,
    board: &Board<'_, FlightFacts>,
    pass: &mut Pass<FlightFacts>,
    picture: &PictureView<'_>,
    at: &UnitPlace,
    source: &ReachSource<'_>,
    items: &[Item],
    seen: &mut SeenRows,
    gate: &G,
) -> Waited
    requires may { MayWait board.now picture.now at.now pass.old seen.old }
    requires lines { IsLumaLines source.now.lines }
    requires placed { All IsPlacedItem items.now }
    requires earlier { All (ReachesEarlier at.now.line.picture source.now) items.now }
    ensures ready { result ≡ Ready → All (HasReach picture.now.layout.now seen.new source.now) items.now }
    ensures ended { result ≡ Stopped → HoldsUnit (view pass.old) at.now
        → HasEnded (flight_meaning (flight_in board.now.flight)) (view pass.new) }
    ensures may { MayWait board.now picture.now at.now pass.new seen.new }
    ensures looked { HasLookedAround at.now pass.old pass.new seen.old seen.new }
{
    if source.row <= LAST_ROW {
        wait_for_items(rt, board, pass, picture, at, source, items, seen, gate)
    } else {
        wait_for_earlier_pictures(rt, board, pass, picture, at, seen, gate)
    }
}

/// Down to this row of places the rows that a unit reaches are reckoned. A unit below it, of which there are some where
/// pictures of nearly 8192 lines have units of 16, waits for whole pictures.
const LAST_ROW: u32 = 2032;

/// Waits for all rows of the pictures of the flight before a unit's own.
fn wait_for_earlier_pictures<R: Wait, G: Gate>(
    rt: &R,
    board: &Board<'_, FlightFacts>,
    pass: &mut Pass<FlightFacts>,
    picture: &PictureView<'_>,
    at: &UnitPlace,
    seen: &mut SeenRows,
    gate: &G,
) -> Waited
    requires may { MayWait board.now picture.now at.now pass.old seen.old }
    ensures ready { result ≡ Ready → (j row : ℕ) → j < at.now.line.picture
        → HasRow picture.now.layout.now seen.new j row }
    ensures ended { result ≡ Stopped → HoldsUnit (view pass.old) at.now
        → HasEnded (flight_meaning (flight_in board.now.flight)) (view pass.new) }
    ensures may { MayWait board.now picture.now at.now pass.new seen.new }
    ensures looked { HasLookedAround at.now pass.old pass.new seen.old seen.new }
{
    let end = picture.layout.rows() as u32;
    for other in 0..at.line().picture {
        match wait_for_rows(rt, board, pass, picture, at, other, 0, end, seen, gate) {
            Waited::Ready => {}
            Waited::Stopped => return Waited::Stopped,
        }
    }
    Waited::Ready
}

/// Waits for the rows that items reach, item by item.
fn wait_for_items<R: Wait, G: Gate>(
    rt: &R,
    board: &Board<'_, FlightFacts>,
    pass: &mut Pass<FlightFacts>,
    picture: &PictureView<'_>,
    at: &UnitPlace,
    source: &ReachSource<'_>,
    items: &[Item],
    seen: &mut SeenRows,
    gate: &G,
) -> Waited
    requires may { MayWait board.now picture.now at.now pass.old seen.old }
    requires lines { IsLumaLines source.now.lines }
    requires row { source.now.row ≤ 2032 }
    requires placed { All IsPlacedItem items.now }
    requires earlier { All (ReachesEarlier at.now.line.picture source.now) items.now }
    ensures ready { result ≡ Ready → All (HasReach picture.now.layout.now seen.new source.now) items.now }
    ensures ended { result ≡ Stopped → HoldsUnit (view pass.old) at.now
        → HasEnded (flight_meaning (flight_in board.now.flight)) (view pass.new) }
    ensures may { MayWait board.now picture.now at.now pass.new seen.new }
    ensures looked { HasLookedAround at.now pass.old pass.new seen.old seen.new }
{
    for k in 0..items.len() {
        match wait_for_item(rt, board, pass, picture, at, source, items[k], seen, gate) {
            Waited::Ready => {}
            Waited::Stopped => return Waited::Stopped,
        }
    }
    Waited::Ready
}

/// The same for one item.
fn wait_for_item<R: Wait, G: Gate>(
    rt: &R,
    board: &Board<'_, FlightFacts>,
    pass: &mut Pass<FlightFacts>,
    picture: &PictureView<'_>,
    at: &UnitPlace,
    source: &ReachSource<'_>,
    item: Item,
    seen: &mut SeenRows,
    gate: &G,
) -> Waited
    requires may { MayWait board.now picture.now at.now pass.old seen.old }
    requires lines { IsLumaLines source.now.lines }
    requires row { source.now.row ≤ 2032 }
    requires placed { IsPlacedItem item }
    requires earlier { ReachesEarlier at.now.line.picture source.now item }
    ensures ready { result ≡ Ready → HasReach picture.now.layout.now seen.new source.now item }
    ensures ended { result ≡ Stopped → HoldsUnit (view pass.old) at.now
        → HasEnded (flight_meaning (flight_in board.now.flight)) (view pass.new) }
    ensures may { MayWait board.now picture.now at.now pass.new seen.new }
    ensures looked { HasLookedAround at.now pass.old pass.new seen.old seen.new }
{
    let reach = item_reach(source, &item);
    match wait_for_range(rt, board, pass, picture, at, reach.list_0, seen, gate) {
        Waited::Ready => wait_for_range(rt, board, pass, picture, at, reach.list_1, seen, gate),
        Waited::Stopped => Waited::Stopped,
    }
}

/// The same for a range of rows, if there is one. Those of a picture from before the flight are there.
fn wait_for_range<R: Wait, G: Gate>(
    rt: &R,
    board: &Board<'_, FlightFacts>,
    pass: &mut Pass<FlightFacts>,
    picture: &PictureView<'_>,
    at: &UnitPlace,
    range: Option<RowRange>,
    seen: &mut SeenRows,
    gate: &G,
) -> Waited
    requires may { MayWait board.now picture.now at.now pass.old seen.old }
    requires earlier { All (λ r. IsEarlier at.now.line.picture r.picture) (one range) }
    ensures ready { result ≡ Ready → All (HasRange picture.now.layout.now seen.new) (one range) }
    ensures ended { result ≡ Stopped → HoldsUnit (view pass.old) at.now
        → HasEnded (flight_meaning (flight_in board.now.flight)) (view pass.new) }
    ensures may { MayWait board.now picture.now at.now pass.new seen.new }
    ensures looked { HasLookedAround at.now pass.old pass.new seen.old seen.new }
{
    match range {
        None => Waited::Ready,
        Some(range) => match range.picture {
            Reference::Base(_) => Waited::Ready,
            Reference::Flight(other) => {
                let end = rows_end(picture, range.last);
                wait_for_rows(
                    rt,
                    board,
                    pass,
                    picture,
                    at,
                    other,
                    range.first,
                    end,
                    seen,
                    gate,
                )
            }
        },
    }
}

/// The end of the rows up to `last` that pictures of the flight have.
fn rows_end(picture: &PictureView<'_>, last: u32) -> u32
    ensures { (row : ℕ) → row ≤ last → row < rows picture.now.layout.now → row < result }
{
    let rows = picture.layout.rows() as u32;
    if last < rows { last + 1 } else { rows }
}

/// The same for the rows of a picture of the flight from one on, before another.
fn wait_for_rows<R: Wait, G: Gate>(
    rt: &R,
    board: &Board<'_, FlightFacts>,
    pass: &mut Pass<FlightFacts>,
    picture: &PictureView<'_>,
    at: &UnitPlace,
    other: u32,
    first: u32,
    end: u32,
    seen: &mut SeenRows,
    gate: &G,
) -> Waited
    requires may { MayWait board.now picture.now at.now pass.old seen.old }
    requires earlier { other < at.now.line.picture }
    ensures ready { result ≡ Ready → (row : ℕ) → first ≤ row → row < end
        → HasRow picture.now.layout.now seen.new other row }
    ensures ended { result ≡ Stopped → HoldsUnit (view pass.old) at.now
        → HasEnded (flight_meaning (flight_in board.now.flight)) (view pass.new) }
    ensures may { MayWait board.now picture.now at.now pass.new seen.new }
    ensures looked { HasLookedAround at.now pass.old pass.new seen.old seen.new }
{
    for row in first..end {
        match wait_for_row(rt, board, pass, picture, at, other, row, seen, gate) {
            Waited::Ready => {}
            Waited::Stopped => return Waited::Stopped,
        }
    }
    Waited::Ready
}

/// The same for one row.
fn wait_for_row<R: Wait, G: Gate>(
    rt: &R,
    board: &Board<'_, FlightFacts>,
    pass: &mut Pass<FlightFacts>,
    picture: &PictureView<'_>,
    at: &UnitPlace,
    other: u32,
    row: u32,
    seen: &mut SeenRows,
    gate: &G,
) -> Waited
    requires may { MayWait board.now picture.now at.now pass.old seen.old }
    requires earlier { other < at.now.line.picture }
    ensures ready { result ≡ Ready → HasRow picture.now.layout.now seen.new other row }
    ensures ended { result ≡ Stopped → HoldsUnit (view pass.old) at.now
        → HasEnded (flight_meaning (flight_in board.now.flight)) (view pass.new) }
    ensures may { MayWait board.now picture.now at.now pass.new seen.new }
    ensures looked { HasLookedAround at.now pass.old pass.new seen.old seen.new }
{
    if seen.has(other as usize, row as usize) {
        return Waited::Ready;
    }
    let range = RowRange {
        picture: Reference::Flight(other),
        first: row,
        last: row,
    };
    match wait_for_final_rows(
        rt,
        board,
        pass,
        picture.layout,
        picture.frame,
        at,
        range,
        gate,
    ) {
        Waited::Ready => {
            seen.add(other as usize, row as usize);
            Waited::Ready
        }
        Waited::Stopped => Waited::Stopped,
    }
}
