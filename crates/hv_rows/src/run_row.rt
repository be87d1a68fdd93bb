//! Rows of `runs.txt`: a command line and a stream, and how `run` and a session answer them.

use crate::asked::Asked;
use crate::byte_text::{UnitNames, name_and_columns, number_of, words_of};
use crate::ends::{Ends, ROOM, Turning, is_front};
use crate::made_stream::stream_of_seed;
use crate::outcome_text::outcome_text;
use crate::pushes::{Pieces, PushedEnd, push_pieces};
use crate::row_error::RowError;
use crate::row_output::RowOutput;
use crate::tally::Tally;
use command_line::run;
use hv_base::{Outcome, Status};
use hv_io::{MemSink, MemSource};
use std::alloc::Global;
use std::sync::Wait;
use std::thread::Threads;

/// The sizes of pieces with which a row without faulty ends is run.
const PIECES: [u32; 3] = [1, 7, 65_536];

/// The numbers of workers for which `each` stands.
const WORKERS: [&str; 3] = ["1", "2", "8"];

/// What a row is run on.
#[derive(Drop)]
struct RunInput {
    words: Vec<String>,
    bytes: Vec<u8>,
    ends: Ends,
}

/// How a row says that its run ends.
#[derive(Drop)]
struct RunEnd {
    status: u32,
    output: RowOutput,
    told: String,
}

#[derive(Drop)]
struct RunRow {
    input: RunInput,
    end: RunEnd,
}

/// The columns of a row.
#[derive(Clone, Copy)]
struct Columns<'a> {
    name: &'a str,
    words: &'a str,
    stream: &'a str,
    ends: &'a str,
    status: u32,
    output: &'a str,
    told: &'a str,
}

/// Runs each row of the table.
pub(crate) fn run_rows<R: Threads + Wait + Sync>(
    rt: &R,
    alloc: Global,
    table: &str,
    tally: &mut Tally,
) -> Result<(), RowError> {
    let mut names = UnitNames::new(alloc);
    for line in table.lines() {
        if names.is_row(line)? {
            tally.add_row();
            run_by_workers(rt, alloc, &names, columns_of(line)?, tally)?;
        }
    }
    Ok(())
}

/// The columns of a line.
fn columns_of(line: &str) -> Result<Columns<'_>, RowError> {
    let (name, rest) = name_and_columns(line);
    let mut columns = rest.split(" | ");
    Ok(Columns {
        name,
        words: columns.next().unwrap_or(""),
        stream: columns.next().unwrap_or(""),
        ends: columns.next().unwrap_or(""),
        status: number_of(columns.next().unwrap_or(""))?,
        output: columns.next().unwrap_or(""),
        told: columns.next().unwrap_or(""),
    })
}

/// Runs the row of these columns with each number of workers, where its words have `each`.
fn run_by_workers<R: Threads + Wait + Sync>(
    rt: &R,
    alloc: Global,
    names: &UnitNames<'_>,
    columns: Columns<'_>,
    tally: &mut Tally,
) -> Result<(), RowError> {
    if !columns.words.contains("each") {
        return run_row(rt, alloc, names, columns, "", tally);
    }
    for workers in WORKERS {
        run_row(rt, alloc, names, columns, workers, tally)?;
    }
    Ok(())
}

/// The row of its columns, with so many workers.
fn row_of(
    alloc: Global,
    names: &UnitNames<'_>,
    columns: Columns<'_>,
    workers: &str,
) -> Result<RunRow, RowError> {
    let input = input_of(alloc, names, columns, workers)?;
    let is_whole = input.ends.is_told_whole();
    let end = end_of(alloc, columns, is_whole)?;
    Ok(RunRow { input, end })
}

/// What a row is run on.
fn input_of(
    alloc: Global,
    names: &UnitNames<'_>,
    columns: Columns<'_>,
    workers: &str,
) -> Result<RunInput, RowError> {
    let words = words_of(alloc, columns.words, workers)?;
    let bytes = bytes_of_stream(alloc, names, columns.stream)?;
    let ends = Ends::read(alloc, columns.ends)?;
    Ok(RunInput { words, bytes, ends })
}

/// The bytes of a stream: of one that is made of a seed, or of its units.
fn bytes_of_stream(alloc: Global, names: &UnitNames<'_>, text: &str) -> Result<Vec<u8>, RowError> {
    match stream_of_seed(alloc, text)? {
        Some(bytes) => Ok(bytes),
        None => names.stream_of(alloc, text),
    }
}

/// How a row says that its run ends.
fn end_of(alloc: Global, columns: Columns<'_>, is_whole: bool) -> Result<RunEnd, RowError> {
    let output = RowOutput::read(alloc, columns.output)?;
    let told = told_of(alloc, columns.told, is_whole)?;
    Ok(RunEnd {
        status: columns.status,
        output,
        told,
    })
}

/// Runs the row of these columns in each size of pieces.
fn run_row<R: Threads + Wait + Sync>(
    rt: &R,
    alloc: Global,
    names: &UnitNames<'_>,
    columns: Columns<'_>,
    workers: &str,
    tally: &mut Tally,
) -> Result<(), RowError> {
    let mut row = row_of(alloc, names, columns, workers)?;
    for piece in pieces_of(row.input.ends.piece) {
        if piece != 0 {
            run_turns(rt, alloc, columns.name, &mut row, piece, tally)?;
        }
    }
    Ok(())
}

/// Runs each turn of a row in these pieces.
fn run_turns<R: Threads + Wait + Sync>(
    rt: &R,
    alloc: Global,
    name: &str,
    row: &mut RunRow,
    piece: u32,
    tally: &mut Tally,
) -> Result<(), RowError> {
    let (first, last) = row.input.ends.numbers();
    for number in first..=last {
        row.input.ends.turn_to(number)?;
        tally.add_run(name, difference(rt, alloc, row, piece)?)?;
        push_row(rt, alloc, name, row, piece, tally)?;
    }
    Ok(())
}

/// The sizes of pieces with which a row is run, by the one that it names; 0 for none.
fn pieces_of(own: Option<u32>) -> [u32; 3] {
    match own.unwrap_or(0) {
        0 => PIECES,
        own => [own, 0, 0],
    }
}

/// What the error sink gains: the line, or nothing for `-`; where a write to it fails, a front of the line.
fn told_of(alloc: Global, line: &str, is_whole: bool) -> Result<String, RowError> {
    let end = if is_whole { "\n" } else { "" };
    match line {
        "-" => Ok(String::new(alloc)),
        told => Ok(format!(in alloc; "{told}{end}")?),
    }
}

/// In what a run of the row in these pieces differs from what the row says.
fn difference<R: Threads + Wait + Sync>(
    rt: &R,
    alloc: Global,
    row: &RunRow,
    piece: u32,
) -> Result<Option<String>, RowError> {
    let RunInput { words, bytes, ends } = &row.input;
    let size = (piece as usize).max(1);
    let stream = ends.given(bytes.as_slice());
    let mut src = MemSource::new(stream, size, ends.reads.as_slice());
    let mut out = MemSink::new(alloc, ends.room, size, ends.writes.as_slice())?;
    let mut err = MemSink::new(alloc, ROOM, size, ends.tells.as_slice())?;
    let gate = ends.gate();
    let Status(status) = run(
        rt,
        alloc,
        words.as_slice(),
        &mut src,
        &mut out,
        &mut err,
        &gate,
    );
    if !ends.is_released(&gate) {
        return Ok(Some(format!(in alloc;
            "pieces of {piece}: the unit that is awaited doesn't come"
        )?));
    }
    difference_of(alloc, row, piece, status, out.bytes(), err.bytes())
}

/// Pushes the stream of a row into a session, in these pieces. Not where the row doesn't decode, its words are faulty,
/// or its error sink fails, which a session doesn't know.
fn push_row<R: Threads + Wait + Sync>(
    rt: &R,
    alloc: Global,
    name: &str,
    row: &RunRow,
    piece: u32,
    tally: &mut Tally,
) -> Result<(), RowError> {
    if row.end.status == 1 || !row.input.ends.is_told_whole() {
        return Ok(());
    }
    match Asked::read(row.input.words.as_slice())? {
        Some(asked) => tally.add_run(name, pushed_difference(rt, alloc, row, asked, piece)?),
        None => Ok(()),
    }
}

/// In what a session that gets the stream in these pieces differs from what the row says.
fn pushed_difference<R: Threads + Wait + Sync>(
    rt: &R,
    alloc: Global,
    row: &RunRow,
    asked: Asked,
    piece: u32,
) -> Result<Option<String>, RowError> {
    let RunInput { bytes, ends, .. } = &row.input;
    let size = (piece as usize).max(1);
    let pieces = Pieces {
        bytes: ends.given(bytes.as_slice()),
        size,
        fails: ends.reads.as_slice(),
    };
    let mut out = MemSink::new(alloc, ends.room, size, ends.writes.as_slice())?;
    let PushedEnd { outcome, is_sound } = push_pieces(
        rt,
        asked.session(alloc)?,
        asked,
        pieces,
        &mut out,
    );
    if !is_sound {
        return Ok(Some(format!(in alloc;
            "pushed in pieces of {piece}: it holds or answers more"
        )?));
    }
    let Status(status) = outcome.status();
    let told = line_of(alloc, outcome)?;
    difference_of(alloc, row, piece, status, out.bytes(), told.as_bytes())
}

/// What is told of an outcome: its line, or nothing where all went well.
fn line_of(alloc: Global, outcome: Outcome) -> Result<String, RowError> {
    let text = outcome_text(alloc, outcome)?;
    told_of(alloc, text.as_str(), true)
}

/// In what a run in these pieces, which ended so, differs from what its row says.
fn difference_of(
    alloc: Global,
    row: &RunRow,
    piece: u32,
    status: u8,
    output: &[u8],
    told: &[u8],
) -> Result<Option<String>, RowError> {
    let is_status = u32::from(status) == row.end.status;
    if is_status && is_output(alloc, row, piece, output)? && is_told(row, piece, told) {
        return Ok(None);
    }
    let bytes = output.len();
    let told = String::from_utf8_lossy(alloc, told)?;
    let number = row.input.ends.number();
    let text = format!(in alloc;
        "pieces of {piece}, turn {number}: status {status}, {bytes} bytes, told {told:?}"
    )?;
    Ok(Some(text))
}

/// Whether the output is that of the row, or a front of it where a write fails in turn.
fn is_output(alloc: Global, row: &RunRow, piece: u32, output: &[u8]) -> Result<bool, RowError> {
    match row.input.ends.fails_at(Turning::Write) {
        Some(calls) => Ok(row.end.output.is_left_by(output, calls, piece)),
        None => row.end.output.is(alloc, output),
    }
}

/// Whether what was told is the line of the row, or a front of it where a write to the error sink fails in turn.
fn is_told(row: &RunRow, piece: u32, told: &[u8]) -> bool {
    let line = row.end.told.as_bytes();
    match row.input.ends.fails_at(Turning::Tell) {
        Some(calls) => is_front(line, told, calls, piece),
        None => told == line,
    }
}
