//! The order in which the lines of a picture are drawn.

ghost use Rattle.std.specs.Prelude.{◌≡◌, ◌+◌, ◌*◌, ◌<◌, ◌≤◌};
ghost use Rattle.board_core.specs.Places.{delay, lines_before, phase_lines_before, turn_of};

use hv_base::{Line, Phase};

/// By how many rows a phase comes behind B.
pub fn delay_of(phase: Phase) -> u32
    ensures value { result ≡ delay phase }
    ensures small { result ≤ 12 }
{
    match phase {
        Phase::B => 0,
        Phase::V => 8,
        Phase::H => 10,
        Phase::S => 12,
    }
}

/// The lines of the phase with delay `other` that are drawn before the phase with delay `behind` has its line in a
/// turn.
fn phase_lines(rows: u32, turn: u32, behind: u32, other: u32) -> u32
    requires { turn ≤ 1024 }
    ensures value { result ≡ phase_lines_before rows turn behind other }
    ensures small { result ≤ rows }
{
    let own = if other < behind { 1 } else { 0 };
    (turn + own).saturating_sub(other).min(rows)
}

/// The lines of a picture of so many rows that are drawn before the phase with delay `behind` has its line in a turn.
#[tactic(auto, unfolding(crate::specs::Places::lines_before))]
pub fn count_before(rows: u32, turn: u32, behind: u32) -> u32
    requires rows { rows ≤ 512 }
    requires turn { turn ≤ 1024 }
    ensures value { result ≡ lines_before rows turn behind }
    ensures small { result ≤ 4 * rows }
{
    phase_lines(rows, turn, behind, 0)
        + phase_lines(rows, turn, behind, 8)
        + phase_lines(rows, turn, behind, 10)
        + phase_lines(rows, turn, behind, 12)
}

/// The line of a picture of so many rows before which `within` of the picture's lines are drawn.
pub fn line_in(picture: u32, rows: u32, within: u32) -> Line
    requires rows { rows ≤ 512 }
    requires inside { within < 4 * rows }
    ensures picture { result.picture ≡ picture }
    ensures row { result.row < rows }
    ensures value { lines_before rows (turn_of result) (delay result.phase) ≡ within }
{
    let turn = turn_at(rows, within);
    let phase = phase_at(rows, turn, within);
    Line {
        phase,
        picture,
        row: turn - delay_of(phase),
    }
}

/// The turn that has the line before which `within` lines are drawn.
fn turn_at(rows: u32, within: u32) -> u32
    requires rows { rows ≤ 512 }
    requires inside { within < 4 * rows }
    ensures turn { result < rows + 12 }
    ensures from { lines_before rows result 0 ≤ within }
    ensures below { within < lines_before rows result 13 }
{
    let mut low = 0;
    let mut high = rows + 12;
    while high - low > 1 {
        let middle = low + (high - low) / 2;
        if count_before(rows, middle, 0) <= within {
            low = middle;
        } else {
            high = middle;
        }
    }
    low
}

/// The phase of that line.
#[tactic(auto, using(crate::proofs::Drawing::next_phase, crate::proofs::Drawing::behind_vertical, crate::proofs::Drawing::behind_horizontal))]
fn phase_at(rows: u32, turn: u32, within: u32) -> Phase
    requires rows { rows ≤ 512 }
    requires turn { turn < rows + 12 }
    requires from { lines_before rows turn 0 ≤ within }
    requires below { within < lines_before rows turn 13 }
    ensures from { lines_before rows turn (delay result) ≤ within }
    ensures below { within < lines_before rows turn (delay result + 1) }
{
    if within < count_before(rows, turn, 8) {
        Phase::B
    } else if within < count_before(rows, turn, 10) {
        Phase::V
    } else if within < count_before(rows, turn, 12) {
        Phase::H
    } else {
        Phase::S
    }
}
