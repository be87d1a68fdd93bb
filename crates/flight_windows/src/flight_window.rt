//! Lines and windows of a picture of a flight.

ghost use Rattle.std.specs.Prelude.{◌≡◌, ◌+◌, ◌-◌, ◌*◌, ◌<◌, ◌≤◌, ◌&&◌, ℕ, ℤ, pos, ◌+ℤ◌, ◌≤ℤ◌, length, cond};
ghost use Rattle.std.specs.Prelude.{nat_le, nat_lt};
ghost use Rattle.std.specs.List.{All};
ghost use Rattle.header_types.specs.declared.sps.PictureFormat.{PictureFormat};
ghost use Rattle.inter_pred.specs.Passes.{at, IsByte};
ghost use Rattle.progress_words.specs.Passes.{Knows, view};
ghost use Rattle.spec_picture_build.specs.References.{greatest_sample};
ghost use Rattle.flight_windows.specs.Lines.{IsFinalRow, IsRowPlace, IsSpan};
ghost use Rattle.flight_windows.specs.Reading.{SeesRows, flight_sample};

use crate::final_lines::final_line;
use crate::final_rows::{FinalRow, FinalRows};
use crate::row_places::RowPlace;
use crate::spans::Span;
use inter_pred::Window;
use progress_words::Pass;
use sample_lines::FlightFacts;

/// The samples of a line of component `c` of a picture of the flight from a column on, held to a greatest one.
pub(crate) fn flight_row(
    rows: &FinalRows<'_>,
    pass: &mut Pass<FlightFacts>,
    picture: u32,
    c: usize,
    greatest: u16,
    x: i32,
    y: i32,
    out: &mut [u16],
)
    requires sees { SeesRows rows.now pass.old }
    requires component { c < 3 }
    requires count { length out.old ≤ 71 }
    requires place { x ≤ℤ pos 1073741824 }
    ensures value { (format : PictureFormat) → greatest ≡ greatest_sample format c → (k : ℕ) → k < length out.old
        → at out.new k ≡ flight_sample rows.now picture format c (x +ℤ pos k) y }
    ensures same { Knows pass.old pass.new (view pass.old) }
{
    if out.is_empty() {
        return;
    }
    let span = Span::of(&rows.layout, c, x, out.len());
    let place = RowPlace::of(&rows.layout, c, y);
    let row = rows.row(picture, place.row);
    final_line(rows, pass, &row, place, c, span, greatest, out);
}

/// The samples of a window of a picture of the flight, in lines of 72, held to a greatest one.
pub(crate) fn flight_window(
    rows: &FinalRows<'_>,
    pass: &mut Pass<FlightFacts>,
    picture: u32,
    greatest: u16,
    from: Window,
    out: &mut [u16; 5112],
)
    requires sees { SeesRows rows.now pass.old }
    requires component { from.component < 3 }
    requires size { (from.width ≤ 71) × (from.height ≤ 71) }
    requires place { (from.x ≤ℤ pos 1073741824) × (from.y ≤ℤ pos 1073741824) }
    ensures value { (format : PictureFormat) → greatest ≡ greatest_sample format from.component
        → (i j : ℕ) → i < from.width → j < from.height
        → at out.new (72 * j + i)
        ≡ flight_sample rows.now picture format from.component (from.x +ℤ pos i) (from.y +ℤ pos j) }
    ensures bytes { (format : PictureFormat) → greatest ≡ greatest_sample format from.component
        → ((x y : ℤ) → flight_sample rows.now picture format from.component x y < 256)
        → All IsByte out.old → All IsByte out.new }
    ensures same { Knows pass.old pass.new (view pass.old) }
{
    if from.width == 0 {
        return;
    }
    let c = from.component as usize;
    let span = Span::of(&rows.layout, c, from.x, from.width);
    let first = RowPlace::of(&rows.layout, c, from.y);
    let row = rows.row(picture, first.row);
    lay_lines(rows, pass, row, c, span, greatest, from, out);
}

/// Its lines, one after the other. Where a row stands on the board is worked out when it begins.
fn lay_lines(
    rows: &FinalRows<'_>,
    pass: &mut Pass<FlightFacts>,
    first: FinalRow,
    c: usize,
    span: Span,
    greatest: u16,
    from: Window,
    out: &mut [u16; 5112],
)
    requires sees { SeesRows rows.now pass.old }
    requires row { IsFinalRow rows.now.layout rows.now.seen.now first }
    requires component { c < 3 }
    requires span { IsSpan rows.now.layout c from.width span }
    requires size { (from.width ≤ 71) × (from.height ≤ 71) }
    requires place { from.y ≤ℤ pos 1073741824 }
    ensures value { (format : PictureFormat) → greatest ≡ greatest_sample format c
        → (i j : ℕ) → i < from.width → j < from.height
        → at out.new (72 * j + i)
        ≡ flight_sample rows.now first.picture format c (span.column +ℤ pos i) (from.y +ℤ pos j) }
    ensures bytes { (format : PictureFormat) → greatest ≡ greatest_sample format c
        → ((x y : ℤ) → flight_sample rows.now first.picture format c x y < 256)
        → All IsByte out.old → All IsByte out.new }
    ensures same { Knows pass.old pass.new (view pass.old) }
{
    let mut row = first;
    for j in 0..from.height {
        let place = RowPlace::of(&rows.layout, c, line_at(from.y, j));
        rows.turn_to(&mut row, place.row);
        lay_line(
            rows,
            pass,
            &row,
            place,
            c,
            span,
            greatest,
            out,
            72 * j,
            from.width,
        );
    }
}

/// A line, counted from another one.
fn line_at(first: i32, j: usize) -> i32
    requires place { first ≤ℤ pos 1073741824 }
    requires few { j ≤ 71 }
    ensures { result ≡ first +ℤ pos j }
{
    first + j as i32
}

/// A line of it, from a place on.
#[inline(always)]
fn lay_line(
    rows: &FinalRows<'_>,
    pass: &mut Pass<FlightFacts>,
    row: &FinalRow,
    place: RowPlace,
    c: usize,
    span: Span,
    greatest: u16,
    out: &mut [u16],
    to: usize,
    width: usize,
)
    requires sees { SeesRows rows.now pass.old }
    requires row { IsFinalRow rows.now.layout rows.now.seen.now row.now }
    requires here { row.now.row ≡ place.row }
    requires component { c < 3 }
    requires place { IsRowPlace rows.now.layout c place }
    requires span { IsSpan rows.now.layout c width span }
    requires width { width ≤ 71 }
    requires room { to + width ≤ length out.old }
    ensures value { (format : PictureFormat) → greatest ≡ greatest_sample format c → (q : ℕ) → at out.new q
        ≡ cond (nat_le to q && nat_lt q (to + width))
        (flight_sample rows.now row.now.picture format c (span.column +ℤ pos (q - to)) place.y) (at out.old q) }
    ensures bytes { (format : PictureFormat) → greatest ≡ greatest_sample format c
        → ((x y : ℤ) → flight_sample rows.now row.now.picture format c x y < 256)
        → All IsByte out.old → All IsByte out.new }
    ensures count { length out.new ≡ length out.old }
    ensures same { Knows pass.old pass.new (view pass.old) }
{
    final_line(
        rows,
        pass,
        row,
        place,
        c,
        span,
        greatest,
        &mut out[to..to + width],
    );
}
