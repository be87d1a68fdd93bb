//! Rows of `sessions.txt`: a stream that is pushed byte by byte into a session, and what is written, held and answered
//! behind which byte.

ghost use Rattle.std.specs.Prelude.{◌≤◌, IfOk};

use crate::asked::Asked;
use crate::byte_text::{UnitNames, name_and_columns, number_of, words_of};
use crate::outcome_text::outcome_text;
use crate::row_error::RowError;
use crate::row_output::RowOutput;
use crate::tally::Tally;
use command_line::Session;
use hv_base::Outcome;
use hv_io::{MemSink, OpenGate};
use std::alloc::Global;
use std::sync::Wait;
use std::thread::Threads;

/// How many bytes the sink takes.
const ROOM: usize = 1 << 20;

/// The columns of a row.
#[derive(Clone, Copy)]
struct Columns<'a> {
    words: &'a str,
    stream: &'a str,
    last: &'a str,
    changes: &'a str,
    output: &'a str,
}

/// What is to be seen of a session behind a push.
#[derive(Clone, Copy, PartialEq, Eq)]
struct Seen {
    written: usize,
    plans: u32,
    pictures: u32,
    answer: Option<Outcome>,
}

/// What was seen of a session last, and each change as text.
#[derive(Drop)]
struct Trace {
    seen: Seen,
    text: String,
}

/// Pushes the stream of each row of the table.
pub(crate) fn session_rows<R: Threads + Wait + Sync>(
    rt: &R,
    alloc: Global,
    table: &str,
    tally: &mut Tally,
) -> Result<(), RowError> {
    let mut names = UnitNames::new(alloc);
    for line in table.lines() {
        if names.is_row(line)? {
            session_row(rt, alloc, &names, line, tally)?;
        }
    }
    Ok(())
}

/// Pushes the stream of the row of a line.
fn session_row<R: Threads + Wait + Sync>(
    rt: &R,
    alloc: Global,
    names: &UnitNames<'_>,
    line: &str,
    tally: &mut Tally,
) -> Result<(), RowError> {
    let (name, rest) = name_and_columns(line);
    let columns = columns_of(rest);
    let bytes = names.stream_of(alloc, columns.stream)?;
    tally.add_row();
    tally.add_run(name, difference(rt, alloc, columns, bytes.as_slice())?)
}

/// The columns behind the name.
fn columns_of(text: &str) -> Columns<'_> {
    let mut columns = text.split(" | ");
    Columns {
        words: columns.next().unwrap_or(""),
        stream: columns.next().unwrap_or(""),
        last: columns.next().unwrap_or(""),
        changes: columns.next().unwrap_or(""),
        output: columns.next().unwrap_or(""),
    }
}

/// In what a session that gets these bytes differs from what the row says.
fn difference<R: Threads + Wait + Sync>(
    rt: &R,
    alloc: Global,
    columns: Columns<'_>,
    bytes: &[u8],
) -> Result<Option<String>, RowError> {
    let session = session_of(alloc, columns.words)?;
    let output = RowOutput::read(alloc, columns.output)?;
    let mut out = MemSink::new(alloc, ROOM, ROOM, &[])?;
    let text = changes_of(rt, alloc, session, columns.last, bytes, &mut out)?;
    if text.as_str() == columns.changes && output.is(alloc, out.bytes())? {
        return Ok(None);
    }
    Ok(Some(text))
}

/// A session as the words of a row ask for.
fn session_of(alloc: Global, text: &str) -> Result<Session, RowError> {
    let words = words_of(alloc, text, "4")?;
    match Asked::read(words.as_slice())? {
        Some(asked) => Ok(asked.session(alloc)?),
        None => Err(RowError::Unreadable),
    }
}

/// Pushes bytes one by one and then makes the last call, `finish`, or `halt`, behind all bytes or behind `halt N`: what
/// changed behind which byte, and what the last call answered.
fn changes_of<R: Threads + Wait + Sync>(
    rt: &R,
    alloc: Global,
    session: Session,
    last: &str,
    bytes: &[u8],
    out: &mut MemSink<'_>,
) -> Result<String, RowError> {
    let mut session = session;
    let mut trace = Trace::new(alloc);
    let count = pushed_count(last, bytes.len())?;
    for at in 0..count {
        let answer = session.push(rt, &bytes[at..at + 1], out, &OpenGate);
        let (plans, pictures) = session.kept();
        let written = out.bytes().len();
        trace.see(
            alloc,
            at + 1,
            Seen {
                written,
                plans,
                pictures,
                answer,
            },
        )?;
    }
    let answer = last_answer(rt, session, last, out);
    trace.ended(alloc, last, out.bytes().len(), answer)
}

/// How many bytes are pushed before the last call.
fn pushed_count(last: &str, count: usize) -> Result<usize, RowError>
    ensures { IfOk result (λ n. n ≤ count) }
{
    match last.split_once(' ') {
        Some((_, number)) => Ok((number_of(number)? as usize).min(count)),
        None => Ok(count),
    }
}

/// What the last call answers.
fn last_answer<R: Threads + Wait + Sync>(
    rt: &R,
    session: Session,
    last: &str,
    out: &mut MemSink<'_>,
) -> Option<Outcome> {
    if last == "finish" {
        return Some(session.finish(rt, out, &OpenGate));
    }
    session.halt(rt, out, &OpenGate)
}

impl Trace {
    /// Before the first byte.
    fn new(alloc: Global) -> Trace {
        Trace {
            seen: Seen {
                written: 0,
                plans: 0,
                pictures: 0,
                answer: None,
            },
            text: String::new(alloc),
        }
    }

    /// Notes what is seen behind so many bytes, where it changed: the bytes written, and the plans and the pictures
    /// held, or the answer, where there is one.
    fn see(&mut self, alloc: Global, count: usize, seen: Seen) -> Result<(), RowError> {
        if seen == self.seen {
            return Ok(());
        }
        self.seen = seen;
        let (written, plans, pictures) = (seen.written, seen.plans, seen.pictures);
        let change = match seen.answer {
            None => format!(in alloc; "{count}={written}/{plans}/{pictures}, ")?,
            answer => {
                let answer = answer_text(alloc, answer)?;
                format!(in alloc; "{count}={written}{answer}, ")?
            }
        };
        self.text.push_str(change.as_str())?;
        Ok(())
    }

    /// The text of all changes, with that of the last call.
    fn ended(
        self,
        alloc: Global,
        last: &str,
        written: usize,
        answer: Option<Outcome>,
    ) -> Result<String, RowError> {
        let answer = answer_text(alloc, answer)?;
        let changes = self.text.as_str();
        Ok(format!(in alloc; "{changes}{last}={written}{answer}")?)
    }
}

/// An answer as text, behind a space; nothing for none.
fn answer_text(alloc: Global, answer: Option<Outcome>) -> Result<String, RowError> {
    match answer {
        None => Ok(String::new(alloc)),
        Some(Outcome::Ok) => Ok(String::from_str(alloc, " ok")?),
        Some(outcome) => {
            let text = outcome_text(alloc, outcome)?;
            Ok(format!(in alloc; " {text}")?)
        }
    }
}
