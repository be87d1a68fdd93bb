ghost use Rattle.std.specs.Prelude.{◌≡◌, ◌<◌, ◌+◌, ◌*◌, length};

use super::*;
use crate::flight::Sums;
use crate::hand::{first_unit, steps, sums_by_hand, two_hands};
use hv_io::OpenGate;
use progress_words::{BoardMemory, Words};
use std::alloc::Global;
use std::sync::Wait;
use std::thread::Threads;

// The next number of a row of them.
fn next(seed: &mut u64) -> u64 {
    *seed = seed
        .wrapping_mul(6364136223846793005)
        .wrapping_add(1442695040888963407);
    *seed >> 33
}

// A flight of a few rows; one row in three has a mark.
fn flight_of(alloc: Global, number: u64) -> Option<Sums> {
    let mut seed = number;
    let rows = next(&mut seed) as usize % 8;
    let width = next(&mut seed) as usize % 8 + 1;
    let mut input = Vec::new(alloc);
    for _ in 0..rows * width {
        input.push(next(&mut seed)).ok()?;
    }
    let mut marks = Vec::new(alloc);
    for _ in 0..rows {
        marks.push(next(&mut seed) as usize % (3 * width)).ok()?;
    }
    Sums::new(input, marks, rows, width)
}

// A flight of so many rows and columns, of which the row `marked` breaks a rule at its unit 2.
fn small_flight(alloc: Global, rows: usize, width: usize, marked: usize) -> Option<Sums> {
    let mut input = Vec::new(alloc);
    let mut marks = Vec::new(alloc);
    for row in 0..rows {
        let mark = if row == marked { 2 } else { width };
        marks.push(mark).ok()?;
        for column in 0..width {
            let number = (row as u64).wrapping_mul(1000).wrapping_add(column as u64);
            input.push(number).ok()?;
        }
    }
    Sums::new(input, marks, rows, width)
}

// The values of a row, from those of the row above.
fn row_of(alloc: Global, flight: &Sums, line: usize, above: &[u64]) -> Option<Vec<u64>>
    requires { line < flight.now.rows }
{
    let mut row = Vec::new(alloc);
    let mut left = 0;
    for unit in 0..flight.width {
        let column = (unit + 1).min(flight.width - 1);
        let above = above.get(column).copied().unwrap_or(0);
        left = flight
            .input_at(line, unit)
            .wrapping_add(left)
            .wrapping_add(above);
        row.push(left).ok()?;
    }
    Some(row)
}

// The first fault word: that of the first row with a mark.
fn first_fault(flight: &Sums) -> u64 {
    for line in 0..flight.rows {
        let mark = flight.mark_at(line);
        if mark < flight.width {
            return 32 * ((line * flight.width + mark) as u64) + 7;
        }
    }
    u64::MAX
}

// Whether the words of a row's units before the fault are their values and the numbers after them.
fn is_row(words: &Words<'_>, flight: &Sums, line: usize, row: &[u64], fault: u64) -> bool
    requires line { line < flight.now.rows }
    requires count { length words.now ≡ (8 * flight.now.rows + 16) + flight.now.rows * flight.now.width * 2 }
{
    for unit in 0..flight.width {
        let value = row.get(unit).copied().unwrap_or(0);
        let first = words.at(place_of(flight, line, unit, 0));
        let second = words.at(place_of(flight, line, unit, 1));
        let before = ((line * flight.width + unit) as u64) < fault / 32;
        if before && (first != value || second != value.wrapping_add(1)) {
            return false;
        }
    }
    true
}

// Whether a closed board has the first fault and the words before it.
fn is_closed(alloc: Global, words: &Words<'_>, flight: &Sums) -> bool
    requires { length words.now ≡ (8 * flight.now.rows + 16) + flight.now.rows * flight.now.width * 2 }
{
    let fault = first_fault(flight);
    if words.at(8 * flight.rows + 8) != fault {
        return false;
    }
    let mut above = Vec::new(alloc);
    for line in 0..flight.rows {
        let Some(row) = row_of(alloc, flight, line, above.as_slice()) else {
            return false;
        };
        if !is_row(words, flight, line, row.as_slice(), fault) {
            return false;
        }
        above = row;
    }
    true
}

// Whether a flight that so many threads build is left as expected.
fn is_built<R: Threads + Wait + Sync>(
    rt: &R,
    alloc: Global,
    memory: &mut BoardMemory,
    number: u64,
    threads: usize,
) -> bool {
    let Some(flight) = flight_of(alloc, number) else {
        return false;
    };
    let Some(mut workers) = workers_of(alloc, threads) else {
        return false;
    };
    if workers.len() > 64 {
        return false;
    }
    match sums(rt, memory, &OpenGate, &flight, workers.as_mut_slice()) {
        Ok(words) => is_closed(alloc, &words, &flight),
        Err(_) => false,
    }
}

fn workers_of(alloc: Global, count: usize) -> Option<Vec<Worker>> {
    let mut workers = Vec::new(alloc);
    for _ in 0..count {
        workers.push(Worker { took_part: false }).ok()?;
    }
    Some(workers)
}

// Whether a flight that two passes build, turned by hand in such an order, is left as expected.
fn is_turned(alloc: Global, flight: Option<Sums>, order: u64) -> bool {
    let mut memory = BoardMemory::new(alloc);
    let Some(flight) = flight else {
        return false;
    };
    match sums_by_hand(&mut memory, &flight, order, 1_000) {
        Some(words) => is_closed(alloc, &words, &flight),
        None => false,
    }
}

// Whether a pass sees the first unit of a flight only once another pass has counted it, and reads its words then.
fn is_seen_across(alloc: Global) -> bool {
    let mut memory = BoardMemory::new(alloc);
    let Some(flight) = small_flight(alloc, 3, 1, 9) else {
        return false;
    };
    let Some((board, mut first, mut second)) = two_hands(&mut memory, &flight) else {
        return false;
    };
    if flight.rows() == 0 {
        return false;
    }
    let lent = board.lend();
    // It draws the line, looks, adds up, and writes two words.
    steps(&lent, &flight, &mut first, 5);
    let before = first_unit(&lent, &flight, &mut second.pass, 0);
    steps(&lent, &flight, &mut first, 1);
    let after = first_unit(&lent, &flight, &mut second.pass, 0);
    before.is_none() && after == Some((0, 1))
}

#[test]
fn a_pass_reads_what_another_has_counted(rt: HostRuntime) {
    assert!(rt; is_seen_across(rt.alloc()));
}

// By turns, and in runs of several steps.
const ORDERS: [u64; 4] = [
    0x5555_5555_5555_5555,
    0x0f0f_0f0f_0f0f_0f0f,
    0xe3a9_56c1_7d24_8b3f,
    0,
];

#[test]
fn two_passes_are_turned_by_hand(rt: HostRuntime) {
    for order in ORDERS {
        assert!(rt; is_turned(rt.alloc(), small_flight(rt.alloc(), 5, 6, 9), order));
        assert!(rt; is_turned(rt.alloc(), small_flight(rt.alloc(), 5, 6, 1), order));
    }
}

#[test]
fn closed_boards_are_as_expected(rt: HostRuntime) {
    let mut memory = BoardMemory::new(rt.alloc());
    for number in 0..3_334 {
        assert!(rt; is_built(&rt, rt.alloc(), &mut memory, number, 2));
        assert!(rt; is_built(&rt, rt.alloc(), &mut memory, number, 4));
        assert!(rt; is_built(&rt, rt.alloc(), &mut memory, number, 8));
    }
}
