//! Pieces, faulty ends and cuts of a row.

use crate::byte_text::number_of;
use crate::row_error::RowError;
use hv_io::HoldGate;
use std::alloc::{AllocError, Global};

/// How many bytes a sink takes where a row doesn't say it.
pub(crate) const ROOM: usize = 1 << 20;

/// For how many turns a gate keeps a unit back.
const TURNS: u64 = 1_000_000_000;

/// The number of no unit.
const NO_UNIT: u64 = u64::MAX;

/// What is another from run to run.
#[derive(Clone, Copy, PartialEq, Eq)]
pub(crate) enum Turning {
    /// Behind how many bytes the stream is cut.
    Cut,
    /// Which read fails.
    Read,
    /// Which write fails.
    Write,
    /// Which write to the error sink fails.
    Tell,
}

/// The runs of a row: one for each number from the first to the last.
#[derive(Clone, Copy)]
pub(crate) struct Turns {
    turning: Turning,
    first: u32,
    last: u32,
}

/// The pieces in which the source and the sinks work, the bytes of the stream and of the output that are taken, the
/// calls that fail, and what is another from run to run.
#[derive(Drop)]
pub(crate) struct Ends {
    pub(crate) piece: Option<u32>,
    pub(crate) room: usize,
    pub(crate) length: usize,
    pub(crate) reads: Vec<u64>,
    pub(crate) writes: Vec<u64>,
    pub(crate) tells: Vec<u64>,
    hold: u64,
    until: u64,
    turns: Option<Turns>,
    number: u32,
}

impl Ends {
    /// The words: `by=N` for pieces of N bytes; `room=N` for an output of N bytes; `read=N`, `write=N` and `tell=N` for
    /// a failing call of the source, of the output and of the error sink, from 0; `reads=A-B`, `writes=A-B` and
    /// `tells=A-B` for a run for each of these numbers, in which that call fails; `cut=A-B` for a run for each of these
    /// lengths of the stream; `hold=N` and `until=M` for a gate that keeps unit N back until unit M has come; `-` for
    /// none.
    pub(crate) fn read(alloc: Global, text: &str) -> Result<Ends, RowError> {
        let mut ends = Ends::whole(alloc);
        for word in text.split_whitespace() {
            if word == "-" {
                break;
            }
            ends.take(word)?;
        }
        Ok(ends)
    }

    /// Ends that take and give all.
    fn whole(alloc: Global) -> Ends {
        Ends {
            piece: None,
            room: ROOM,
            length: usize::MAX,
            reads: Vec::new(alloc),
            writes: Vec::new(alloc),
            tells: Vec::new(alloc),
            hold: NO_UNIT,
            until: NO_UNIT,
            turns: None,
            number: 0,
        }
    }

    /// Takes a word.
    fn take(&mut self, word: &str) -> Result<(), RowError> {
        let Some((name, numbers)) = word.split_once('=') else {
            return Err(RowError::Unreadable);
        };
        match numbers.split_once('-') {
            Some((first, last)) => self.set_turns(name, number_of(first)?, number_of(last)?),
            None => self.set(name, number_of(numbers)?),
        }
    }

    /// Takes the number that stands behind a name.
    fn set(&mut self, name: &str, number: u32) -> Result<(), RowError> {
        match name {
            "by" => self.piece = Some(number),
            "room" => self.room = number as usize,
            "read" => self.reads.push(u64::from(number))?,
            "write" => self.writes.push(u64::from(number))?,
            "tell" => self.tells.push(u64::from(number))?,
            "hold" => self.hold = u64::from(number),
            "until" => self.until = u64::from(number),
            _ => return Err(RowError::Unreadable),
        }
        Ok(())
    }

    /// Takes the numbers that stand behind a name.
    fn set_turns(&mut self, name: &str, first: u32, last: u32) -> Result<(), RowError> {
        let turning = match name {
            "cut" => Turning::Cut,
            "reads" => Turning::Read,
            "writes" => Turning::Write,
            "tells" => Turning::Tell,
            _ => return Err(RowError::Unreadable),
        };
        self.turns = Some(Turns {
            turning,
            first,
            last,
        });
        Ok(())
    }

    /// The numbers of the runs in each size of pieces: those of the turns, or 0 alone.
    pub(crate) fn numbers(&self) -> (u32, u32) {
        match self.turns {
            Some(turns) => (turns.first, turns.last),
            None => (0, 0),
        }
    }

    /// The number of the run.
    pub(crate) fn number(&self) -> u32 {
        self.number
    }

    /// Turns to the run of a number.
    pub(crate) fn turn_to(&mut self, number: u32) -> Result<(), AllocError> {
        self.number = number;
        match self.turning() {
            Some(Turning::Cut) => self.length = number as usize,
            Some(Turning::Read) => set_one(&mut self.reads, number)?,
            Some(Turning::Write) => set_one(&mut self.writes, number)?,
            Some(Turning::Tell) => set_one(&mut self.tells, number)?,
            None => {}
        }
        Ok(())
    }

    /// What is another from run to run.
    fn turning(&self) -> Option<Turning> {
        Some(self.turns?.turning)
    }

    /// The number of the call that fails in this run, where it is of this kind.
    pub(crate) fn fails_at(&self, turning: Turning) -> Option<u32> {
        if self.turning() == Some(turning) {
            Some(self.number)
        } else {
            None
        }
    }

    /// Whether the error sink takes all that is told.
    pub(crate) fn is_told_whole(&self) -> bool {
        self.tells.is_empty()
    }

    /// A gate that keeps back the unit that the words name.
    pub(crate) fn gate(&self) -> HoldGate {
        HoldGate::new(self.hold, self.until, TURNS)
    }

    /// Whether no unit was to be kept back, or the one that was awaited has come.
    pub(crate) fn is_released(&self, gate: &HoldGate) -> bool {
        self.hold == NO_UNIT || gate.released()
    }

    /// The front of a stream that these ends give.
    pub(crate) fn given<'a>(&self, stream: &'a [u8]) -> &'a [u8] {
        stream.get(..self.length).unwrap_or(stream)
    }
}

/// Makes a number the only one.
fn set_one(numbers: &mut Vec<u64>, number: u32) -> Result<(), AllocError> {
    numbers.clear();
    numbers.push(u64::from(number))?;
    Ok(())
}

/// Whether bytes are a front of the whole, which isn't all of it, such as so many calls leave that each took 1 byte or
/// more, and at most a piece.
pub(crate) fn is_front(whole: &[u8], bytes: &[u8], calls: u32, piece: u32) -> bool {
    let count = bytes.len() as u64;
    whole.starts_with(bytes)
        && bytes.len() < whole.len()
        && u64::from(calls) <= count
        && count <= u64::from(calls).saturating_mul(u64::from(piece))
}
