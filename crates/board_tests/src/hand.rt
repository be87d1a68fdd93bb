//! Passes that are turned by hand, all in one thread and with no waiting.
ghost use Rattle.std.specs.Prelude.{ℕ, ◌≡◌, ◌<◌, ◌≤◌, ◌+◌, ◌*◌, ◌%◌, ◌^◌, length, IfSome, IfOk, true, false};
ghost use Rattle.progress_words.specs.Faults.{IsFirstFault};
ghost use Rattle.progress_words.specs.Core.{fault_in};
ghost use Rattle.progress_words.specs.Passes.{view};
ghost use Rattle.progress_words.specs.Views.{HasEnded};
ghost use Rattle.board_tests.specs.declared.hand.Stand.TheVariants.{Free, Looks, Fed, Writes};
ghost use Rattle.board_tests.specs.Sums.{value};
ghost use Rattle.board_tests.specs.Passes.{IsOf, AreSums, meaning_in};
ghost use Rattle.board_tests.specs.Stands.{StandsAt, IsHand, AreHands, HasSameParts, IsGathered};

use crate::flight::{Meant, Sums};
use crate::worker::{above, number_of, open, place_of};
use progress_words::{Board, BoardMemory, OpenBoard, Pass, Words};

/// A unit under way: its place, and the sum of the units on its left; once its words are written, its own value.
#[derive(Clone, Copy, Debug, PartialEq, Eq)]
pub struct Turn {
    pub line: usize,
    pub unit: usize,
    pub sum: u64,
}

/// Where a pass stands between two steps.
#[derive(Clone, Copy, Debug, PartialEq, Eq)]
pub enum Stand {
    /// Its job has ended.
    Free,
    /// The unit isn't known to have what it needs.
    Looks(Turn),
    /// The unit has what it needs.
    Fed(Turn),
    /// So many words of the unit are written.
    Writes(Turn, usize),
    /// A draw gave none.
    Done,
}

/// A pass, and where it stands.
#[derive(Drop)]
pub struct Hand {
    pub pass: Pass<Meant>,
    pub stand: Stand,
}

// Draws a line.
fn draw(board: &Board<'_, Meant>, flight: &Sums, pass: &mut Pass<Meant>) -> Stand
    requires own { IsOf board.now flight.now pass.old }
    requires at { StandsAt flight.now (view pass.old) Free }
    ensures own { IsOf board.now flight.now pass.new }
    ensures kept { HasSameParts (view pass.old) (view pass.new) }
    ensures at { StandsAt flight.now (view pass.new) result }
{
    match board.draw(pass) {
        Some(line) => Stand::Looks(Turn {
            line,
            unit: 0,
            sum: 0,
        }),
        None => Stand::Done,
    }
}

// Looks once whether a unit has what it needs, or a fault stands before it.
fn look(board: &Board<'_, Meant>, flight: &Sums, pass: &mut Pass<Meant>, turn: Turn) -> Stand
    requires own { IsOf board.now flight.now pass.old }
    requires at { StandsAt flight.now (view pass.old) (Looks turn) }
    ensures own { IsOf board.now flight.now pass.new }
    ensures kept { HasSameParts (view pass.old) (view pass.new) }
    ensures at { StandsAt flight.now (view pass.new) result }
{
    if turn.line == 0 {
        return Stand::Fed(turn);
    }
    let needed = (turn.unit + 2).min(flight.width);
    if board.seen(pass, turn.line - 1) >= needed as u64 {
        return Stand::Fed(turn);
    }
    look_for_fault(board, flight, pass, turn)
}

// Looks once whether a fault stands before a unit.
fn look_for_fault(
    board: &Board<'_, Meant>,
    flight: &Sums,
    pass: &mut Pass<Meant>,
    turn: Turn,
) -> Stand
    requires own { IsOf board.now flight.now pass.old }
    requires at { StandsAt flight.now (view pass.old) (Looks turn) }
    ensures own { IsOf board.now flight.now pass.new }
    ensures kept { HasSameParts (view pass.old) (view pass.new) }
    ensures at { StandsAt flight.now (view pass.new) result }
{
    let number = number_of(flight, turn.line, turn.unit);
    if board.least(pass) / 32 < number {
        Stand::Free
    } else {
        Stand::Looks(turn)
    }
}

// Finds that a unit breaks a rule, or adds up what it reads.
fn add(board: &Board<'_, Meant>, flight: &Sums, pass: &mut Pass<Meant>, turn: Turn) -> Stand
    requires own { IsOf board.now flight.now pass.old }
    requires at { StandsAt flight.now (view pass.old) (Fed turn) }
    ensures own { IsOf board.now flight.now pass.new }
    ensures kept { HasSameParts (view pass.old) (view pass.new) }
    ensures at { StandsAt flight.now (view pass.new) result }
{
    if flight.mark_at(turn.line) == turn.unit {
        let number = number_of(flight, turn.line, turn.unit);
        board.fault(pass, number, 7);
        return Stand::Free;
    }
    let above = above(board, flight, pass, turn.line, turn.unit);
    let sum = flight
        .input_at(turn.line, turn.unit)
        .wrapping_add(turn.sum)
        .wrapping_add(above);
    Stand::Writes(Turn { sum, ..turn }, 0)
}

// Writes the next word of a unit, and counts the unit once all are written.
fn write(
    board: &Board<'_, Meant>,
    flight: &Sums,
    pass: &mut Pass<Meant>,
    turn: Turn,
    written: usize,
) -> Stand
    requires own { IsOf board.now flight.now pass.old }
    requires at { StandsAt flight.now (view pass.old) (Writes turn written) }
    ensures own { IsOf board.now flight.now pass.new }
    ensures kept { HasSameParts (view pass.old) (view pass.new) }
    ensures at { StandsAt flight.now (view pass.new) result }
{
    if written == 2 {
        return count(board, flight, pass, turn);
    }
    let word = turn.sum.wrapping_add(written as u64);
    board.write(pass, place_of(flight, turn.line, turn.unit, written), word);
    Stand::Writes(turn, written + 1)
}

// Counts a unit.
fn count(board: &Board<'_, Meant>, flight: &Sums, pass: &mut Pass<Meant>, turn: Turn) -> Stand
    requires own { IsOf board.now flight.now pass.old }
    requires at { StandsAt flight.now (view pass.old) (Writes turn 2) }
    ensures own { IsOf board.now flight.now pass.new }
    ensures kept { HasSameParts (view pass.old) (view pass.new) }
    ensures at { StandsAt flight.now (view pass.new) result }
{
    board.advance(pass, turn.line);
    let unit = turn.unit + 1;
    if unit < flight.width {
        Stand::Looks(Turn { unit, ..turn })
    } else {
        Stand::Free
    }
}

// Where the pass stands after its next step.
fn next(board: &Board<'_, Meant>, flight: &Sums, pass: &mut Pass<Meant>, stand: Stand) -> Stand
    requires own { IsOf board.now flight.now pass.old }
    requires at { StandsAt flight.now (view pass.old) stand }
    ensures own { IsOf board.now flight.now pass.new }
    ensures kept { HasSameParts (view pass.old) (view pass.new) }
    ensures at { StandsAt flight.now (view pass.new) result }
{
    match stand {
        Stand::Free => draw(board, flight, pass),
        Stand::Looks(turn) => look(board, flight, pass, turn),
        Stand::Fed(turn) => add(board, flight, pass, turn),
        Stand::Writes(turn, written) => write(board, flight, pass, turn, written),
        Stand::Done => Stand::Done,
    }
}

/// Takes the next step of a pass; whether it could go on.
pub(crate) fn step(board: &Board<'_, Meant>, flight: &Sums, hand: &mut Hand) -> bool
    requires own { IsHand board.now flight.now hand.old }
    ensures own { IsHand board.now flight.now hand.new }
    ensures kept { HasSameParts (view hand.old.pass) (view hand.new.pass) }
{
    let before = hand.stand;
    hand.stand = next(board, flight, &mut hand.pass, before);
    hand.stand != before
}

/// Takes so many steps of a pass.
pub(crate) fn steps(board: &Board<'_, Meant>, flight: &Sums, hand: &mut Hand, count: usize)
    requires own { IsHand board.now flight.now hand.old }
    ensures own { IsHand board.now flight.now hand.new }
{
    for _ in 0..count {
        step(board, flight, hand);
    }
}

/// The words of a line's first unit, where one look shows that unit counted.
pub(crate) fn first_unit(
    board: &Board<'_, Meant>,
    flight: &Sums,
    pass: &mut Pass<Meant>,
    line: usize,
) -> Option<(u64, u64)>
    requires own { IsOf board.now flight.now pass.old }
    requires line { line < flight.now.rows }
    ensures own { IsOf board.now flight.now pass.new }
    ensures value { IfSome result (λ r. (r.0 ≡ value flight.now.input.items flight.now.width line 0)
        × (r.1 ≡ (value flight.now.input.items flight.now.width line 0 + 1) % 2 ^ 64)) }
{
    if board.seen(pass, line) == 0 {
        return None;
    }
    let place = place_of(flight, line, 0, 0);
    let first = board.read(pass, place);
    let beside = place_of(flight, line, 0, 1);
    let second = board.read(pass, beside);
    Some((first, second))
}

/// Two passes of one board, before their work.
pub(crate) fn two_hands<'m>(
    memory: &'m mut BoardMemory,
    flight: &Sums,
) -> Option<(OpenBoard<'m, Meant>, Hand, Hand)>
    ensures { IfSome result (λ r. AreHands r.0 flight.now r.1 r.2) }
{
    let (board, mut pass) = open(memory, flight).ok()?;
    let other = board.lend().split(&mut pass);
    let first = Hand {
        pass,
        stand: Stand::Free,
    };
    let second = Hand {
        pass: other,
        stand: Stand::Free,
    };
    Some((board, first, second))
}

// Joins two passes, where both are done.
fn join_hands(
    board: &Board<'_, Meant>,
    flight: &Sums,
    first: Hand,
    second: Hand,
) -> Option<Pass<Meant>>
    requires { AreHands board.now flight.now first second }
    ensures { IfSome result (λ p. IsOf board.now flight.now p × IsGathered (view p)
        × HasEnded (meaning_in flight.now) (view p)) }
{
    let Hand { mut pass, stand } = first;
    let Hand {
        pass: other,
        stand: beside,
    } = second;
    let (Stand::Done, Stand::Done) = (stand, beside) else {
        return None;
    };
    board.join(&mut pass, other);
    Some(pass)
}

/// The words of the flight, by two passes that one thread turns. The bits of `order` tell which of them is to step;
/// where it can't go on the other does. None where memory or turns run out.
pub(crate) fn sums_by_hand<'m>(
    memory: &'m mut BoardMemory,
    flight: &Sums,
    order: u64,
    turns: usize,
) -> Option<Words<'m>>
    ensures count { IfSome result (λ words.
        length words ≡ (8 * flight.now.rows + 16) + flight.now.rows * flight.now.width * 2) }
    ensures fault { IfSome result (λ words.
        IsFirstFault (meaning_in flight.now) (fault_in (meaning_in flight.now) words)) }
    ensures words { IfSome result (λ words. AreSums flight.now words) }
{
    let (board, mut first, mut second) = two_hands(memory, flight)?;
    take_turns(&board.lend(), flight, &mut first, &mut second, order, turns);
    let pass = join_hands(&board.lend(), flight, first, second)?;
    Some(board.close(pass))
}

// So many turns, in that order.
fn take_turns(
    board: &Board<'_, Meant>,
    flight: &Sums,
    first: &mut Hand,
    second: &mut Hand,
    order: u64,
    turns: usize,
)
    requires { AreHands board.now flight.now first.old second.old }
    ensures { AreHands board.now flight.now first.new second.new }
{
    for turn in 0..turns {
        let is_first = (order >> (turn % 64)) & 1 == 0;
        turn_one(board, flight, first, second, is_first);
    }
}

// A step of the one or, where it can't go on, of the other.
fn turn_both(board: &Board<'_, Meant>, flight: &Sums, one: &mut Hand, other: &mut Hand)
    requires own { IsHand board.now flight.now one.old × IsHand board.now flight.now other.old }
    ensures own { IsHand board.now flight.now one.new × IsHand board.now flight.now other.new }
    ensures kept { HasSameParts (view one.old.pass) (view one.new.pass)
        × HasSameParts (view other.old.pass) (view other.new.pass) }
{
    if !step(board, flight, one) {
        step(board, flight, other);
    }
}

// The turn of the first or of the second.
fn turn_one(
    board: &Board<'_, Meant>,
    flight: &Sums,
    first: &mut Hand,
    second: &mut Hand,
    is_first: bool,
)
    requires { AreHands board.now flight.now first.old second.old }
    ensures { AreHands board.now flight.now first.new second.new }
{
    if is_first {
        turn_both(board, flight, first, second);
    } else {
        turn_both(board, flight, second, first);
    }
}
