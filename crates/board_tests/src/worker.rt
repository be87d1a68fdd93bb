//! The threads that build the flight.
ghost use Rattle.std.specs.Prelude.{ℕ, ◌≡◌, ◌<◌, ◌≤◌, ◌+◌, ◌-◌, ◌*◌, ◌%◌, ◌^◌, min, Some, None, true, false};
ghost use Rattle.std.specs.Prelude.{slice_index, length, IfOk, IfSome};
ghost use Rattle.progress_words.specs.Faults.{unit_in, IsFirstFault};
ghost use Rattle.progress_words.specs.Core.{fault_in};
ghost use Rattle.progress_words.specs.Passes.{view, Knows};
ghost use Rattle.progress_words.specs.Views.{HasEnded, opener};
ghost use Rattle.board_tests.specs.Sums.{value, place, left_of, above_of, fed_units};
ghost use Rattle.board_tests.specs.Steps.{IsAt, IsSame, IsReady, IsDone, IsGathered};
ghost use Rattle.board_tests.specs.Passes.{IsOf, IsFresh, AreSums, meaning_in};
ghost use Rattle.std.specs.Thread.{IsSync};

use crate::flight::{Meant, Sums};
use hv_io::Gate;
use progress_words::{Board, BoardMemory, OpenBoard, Pass, Waited, Words};
use std::alloc::AllocError;
use std::sync::Wait;
use std::thread::{Threads, join};

/// The place of a word.
pub fn place_of(flight: &Sums, line: usize, unit: usize, index: usize) -> usize
    requires line { line < flight.now.rows }
    requires unit { unit < flight.now.width }
    requires index { index < 2 }
    ensures value { result ≡ place flight.now.rows flight.now.width line unit index }
    ensures inside { result < (8 * flight.now.rows + 16) + flight.now.rows * flight.now.width * 2 }
{
    (8 * flight.rows + 16) + ((line * flight.width + unit) * 2 + index)
}

// The number of a unit.
pub(crate) fn number_of(flight: &Sums, line: usize, unit: usize) -> u64
    requires line { line < flight.now.rows }
    requires unit { unit < flight.now.width }
    ensures { result ≡ line * flight.now.width + unit }
{
    (line * flight.width + unit) as u64
}

// Waits for what a unit needs of the row above; false where its job has ended.
fn is_fed<R: Wait, G: Gate>(
    rt: &R,
    gate: &G,
    board: &Board<'_, Meant>,
    flight: &Sums,
    pass: &mut Pass<Meant>,
    line: usize,
    unit: usize,
) -> bool
    requires own { IsOf board.now flight.now pass.old }
    requires unit { (line < flight.now.rows) × (unit < flight.now.width) }
    requires at { IsAt (view pass.old) line unit 0 }
    ensures own { IsOf board.now flight.now pass.new }
    ensures same { IsSame (view pass.old) (view pass.new) }
    ensures at { IsAt (view pass.new) line unit 0 }
    ensures ready { result ≡ true → IsReady flight.now.input.items flight.now.marks.items flight.now.rows
        flight.now.width (view pass.new) line unit }
    ensures fed { result ≡ true → unit < fed_units flight.now.marks.items flight.now.width line }
    ensures ended { result ≡ false → HasEnded (meaning_in flight.now) (view pass.new) }
{
    if line == 0 {
        return true;
    }
    let needed = (unit + 2).min(flight.width);
    let number = number_of(flight, line, unit);
    match board.wait_line(rt, pass, line - 1, needed as u64, number, gate) {
        Waited::Ready => true,
        Waited::Stopped => false,
    }
}

// The value that the unit reads of the row above.
pub(crate) fn above(
    board: &Board<'_, Meant>,
    flight: &Sums,
    pass: &mut Pass<Meant>,
    line: usize,
    unit: usize,
) -> u64
    requires own { IsOf board.now flight.now pass.old }
    requires unit { (line < flight.now.rows) × (unit < flight.now.width) }
    requires ready { IsReady flight.now.input.items flight.now.marks.items flight.now.rows flight.now.width
        (view pass.old) line unit }
    ensures same { Knows pass.old pass.new (view pass.old) }
    ensures value { result ≡ above_of flight.now.input.items flight.now.width line unit }
{
    if line == 0 {
        return 0;
    }
    let column = (unit + 1).min(flight.width - 1);
    let place = place_of(flight, line - 1, column, 0);
    board.read(pass, place)
}

// Writes the words of a unit, and counts it.
fn finish(
    board: &Board<'_, Meant>,
    flight: &Sums,
    pass: &mut Pass<Meant>,
    line: usize,
    unit: usize,
    sum: u64,
)
    requires own { IsOf board.now flight.now pass.old }
    requires unit { (line < flight.now.rows) × (unit < flight.now.width) }
    requires at { IsAt (view pass.old) line unit 0 }
    requires ready { IsReady flight.now.input.items flight.now.marks.items flight.now.rows flight.now.width
        (view pass.old) line unit }
    requires fed { unit < fed_units flight.now.marks.items flight.now.width line }
    requires before { unit < slice_index flight.now.marks.items line }
    requires value { sum ≡ value flight.now.input.items flight.now.width line unit }
    ensures own { IsOf board.now flight.now pass.new }
    ensures at { IsAt (view pass.new) line (unit + 1) 0 × IsSame (view pass.old) (view pass.new) }
{
    for index in 0..2 {
        let word = sum.wrapping_add(index as u64);
        board.write(pass, place_of(flight, line, unit, index), word);
    }
    board.advance(pass, line);
}

// Builds a unit that has what it needs and breaks no rule, and gives its value.
fn build(
    board: &Board<'_, Meant>,
    flight: &Sums,
    pass: &mut Pass<Meant>,
    line: usize,
    unit: usize,
    left: u64,
) -> u64
    requires own { IsOf board.now flight.now pass.old }
    requires unit { (line < flight.now.rows) × (unit < flight.now.width) }
    requires at { IsAt (view pass.old) line unit 0 }
    requires ready { IsReady flight.now.input.items flight.now.marks.items flight.now.rows flight.now.width
        (view pass.old) line unit }
    requires fed { unit < fed_units flight.now.marks.items flight.now.width line }
    requires before { unit < slice_index flight.now.marks.items line }
    requires left { left ≡ left_of flight.now.input.items flight.now.width line unit }
    ensures own { IsOf board.now flight.now pass.new }
    ensures at { IsAt (view pass.new) line (unit + 1) 0 × IsSame (view pass.old) (view pass.new) }
    ensures value { result ≡ value flight.now.input.items flight.now.width line unit }
{
    let above = above(board, flight, pass, line, unit);
    let sum = flight
        .input_at(line, unit)
        .wrapping_add(left)
        .wrapping_add(above);
    finish(board, flight, pass, line, unit, sum);
    sum
}

/// Waits for what a unit needs, builds it, and gives its value; none where its job has ended.
pub(crate) fn turn<R: Wait, G: Gate>(
    rt: &R,
    gate: &G,
    board: &Board<'_, Meant>,
    flight: &Sums,
    pass: &mut Pass<Meant>,
    line: usize,
    unit: usize,
    left: u64,
) -> Option<u64>
    requires own { IsOf board.now flight.now pass.old }
    requires unit { (line < flight.now.rows) × (unit < flight.now.width) }
    requires at { IsAt (view pass.old) line unit 0 }
    requires before { unit ≤ slice_index flight.now.marks.items line }
    requires left { left ≡ left_of flight.now.input.items flight.now.width line unit }
    ensures own { IsOf board.now flight.now pass.new }
    ensures same { IsSame (view pass.old) (view pass.new) }
    ensures at { IfSome result (λ x. IsAt (view pass.new) line (unit + 1) 0) }
    ensures before { IfSome result (λ x. unit + 1 ≤ slice_index flight.now.marks.items line) }
    ensures value { IfSome result (λ x. x ≡ value flight.now.input.items flight.now.width line unit) }
    ensures ended { result ≡ None → HasEnded (meaning_in flight.now) (view pass.new) }
{
    if !is_fed(rt, gate, board, flight, pass, line, unit) {
        return None;
    }
    if flight.mark_at(line) == unit {
        let number = number_of(flight, line, unit);
        board.fault(pass, number, 7);
        return None;
    }
    Some(build(board, flight, pass, line, unit, left))
}

// Builds the units of a line, until its job has ended.
fn build_line<R: Wait, G: Gate>(
    rt: &R,
    gate: &G,
    board: &Board<'_, Meant>,
    flight: &Sums,
    pass: &mut Pass<Meant>,
    line: usize,
)
    requires own { IsOf board.now flight.now pass.old }
    requires line { line < flight.now.rows }
    requires at { IsAt (view pass.old) line 0 0 }
    ensures own { IsOf board.now flight.now pass.new }
    ensures same { IsSame (view pass.old) (view pass.new) }
    ensures ended { HasEnded (meaning_in flight.now) (view pass.new) }
{
    let mut left = 0;
    for unit in 0..flight.width {
        match turn(rt, gate, board, flight, pass, line, unit, left) {
            Some(sum) => left = sum,
            None => return,
        }
    }
}

// Builds the lines that it draws, until none is left.
fn work<R: Wait, G: Gate>(
    rt: &R,
    gate: &G,
    board: &Board<'_, Meant>,
    flight: &Sums,
    start: Pass<Meant>,
) -> Pass<Meant>
    requires own { IsFresh board.now flight.now start }
    ensures own { IsOf board.now flight.now result }
    ensures done { IsDone (meaning_in flight.now) (view start) (view result) }
{
    let mut pass = start;
    for _ in rt.forever() {
        match board.draw(&mut pass) {
            Some(line) => build_line(rt, gate, board, flight, &mut pass, line),
            None => return pass,
        }
    }
    unreachable!()
}

/// What a thread keeps for its own: whether it took part.
#[derive(Drop)]
pub struct Worker {
    pub took_part: bool,
}

// Works with a thread a worker, and joins all passes that it split.
fn fan<R: Threads + Wait + Sync, G: Gate + Sync>(
    rt: &R,
    gate: &G,
    board: &Board<'_, Meant>,
    flight: &Sums,
    start: Pass<Meant>,
    workers: &mut [Worker],
) -> Pass<Meant>
    requires own { IsFresh board.now flight.now start }
    requires opens { ((view start).opens ≡ true) × ((view start).splits + length workers.old ≤ 256) }
    ensures own { IsOf board.now flight.now result }
    ensures gathered { IsGathered (meaning_in flight.now) (view start) (view result) }
{
    let Some((first, rest)) = workers.split_first_mut() else {
        return work(rt, gate, board, flight, start);
    };
    if rest.is_empty() {
        first.took_part = true;
        return work(rt, gate, board, flight, start);
    }
    let mut pass = start;
    let other = board.split(&mut pass);
    let (mine, theirs) = join(
        rt,
        || -> Pass<Meant>
            requires { IsSync R.row × IsSync G.row × IsFresh board.now flight.now pass
                × ((view pass).opens ≡ true) × ((view pass).splits + length rest.now ≤ 256) }
            ensures { IsOf board.entry.now flight.entry.now result
                × IsGathered (meaning_in flight.entry.now) (view pass) (view result) }
        { fan(rt, gate, board, flight, pass, rest) },
        || -> Pass<Meant>
            requires { IsFresh board.now flight.now other }
            ensures { IsOf board.entry.now flight.entry.now result
                × IsDone (meaning_in flight.entry.now) (view other) (view result) }
        {
            first.took_part = true;
            work(rt, gate, board, flight, other)
        },
    );
    let mut whole = mine;
    board.join(&mut whole, theirs);
    whole
}

// A board for the flight, and the pass that others are split from.
pub(crate) fn open<'m>(
    memory: &'m mut BoardMemory,
    flight: &Sums,
) -> Result<(OpenBoard<'m, Meant>, Pass<Meant>), AllocError>
    ensures { IfOk result (λ b. IsOf b.0 flight.now b.1 × (view b.1 ≡ opener b.0.flight)) }
{
    memory.open(flight.layout(), &Meant::of(flight))
}

/// The words of the flight, built by a thread a worker: those of each unit before the first fault are its value and the
/// number after it.
pub fn sums<'m, R: Threads + Wait + Sync, G: Gate + Sync>(
    rt: &R,
    memory: &'m mut BoardMemory,
    gate: &G,
    flight: &Sums,
    workers: &mut [Worker],
) -> Result<Words<'m>, AllocError>
    requires { length workers.old ≤ 64 }
    ensures count { IfOk result (λ words.
        length words ≡ (8 * flight.now.rows + 16) + flight.now.rows * flight.now.width * 2) }
    ensures fault { IfOk result (λ words.
        IsFirstFault (meaning_in flight.now) (fault_in (meaning_in flight.now) words)) }
    ensures words { IfOk result (λ words.
        (l k j : ℕ) → l < flight.now.rows → k < flight.now.width → j < 2
        → l * flight.now.width + k < unit_in (fault_in (meaning_in flight.now) words)
        → slice_index words (place flight.now.rows flight.now.width l k j)
        ≡ (value flight.now.input.items flight.now.width l k + j) % 2 ^ 64) }
{
    let (board, pass) = open(memory, flight)?;
    let whole = fan(rt, gate, &board.lend(), flight, pass, workers);
    Ok(board.close(whole))
}
