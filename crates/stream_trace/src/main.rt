//! Prints a line for each NAL unit of the byte stream on standard input: its number, `nal_unit_type`, `nuh_layer_id`,
//! TemporalId, the bytes of its payload and how many emulation prevention bytes were removed; then the first broken
//! rule or limit, where there is one. With the word `fields` on the command line the fields of each accepted parameter
//! set follow its unit's line, a `name=value` a line, or `refused` and the rule or limit for which it isn't accepted.
//!
//! With the word `pictures` it prints a line for each planned picture instead, in decoding order: its number, its
//! picture order count, its `nal_unit_type`, its width and its height inside the conformance window; with the word
//! `slices` the fields of the picture's slice segment headers follow, and with the word `outputs` the pictures come in
//! output order. With the word `trees` the coding trees of pictures come, a line each for what was read; with the word
//! `rows` their samples behind their loop filters, a line each with the MD5 of a row of coding tree blocks.
//! What stops the stream is told on the error stream then, and by the exit status: 2 where it breaks a rule, 3 where it
//! meets a limit.
//!
//! Behind a word (`units` for none) may stand a file, and further words with a file each. Then the streams of these
//! files are read in turn, each behind a line `==` and its name, and what stops one is printed behind its lines.
#![tactic(auto)]

ghost use Rattle.std.specs.Prelude.{◌≡◌, false};

mod plan_trace;
mod set_trace;
mod trace_error;

use crate::plan_trace::{PlanLines, PlanTrace};
use crate::set_trace::print_set;
use crate::trace_error::TraceError;
use hv_base::{Nal, Outcome, Status, Stop};
use nal_stream::{Framer, Next};
use picture_text::{OutputTrace, RowTrace, TreeTrace};
use std::alloc::Global;
use std::io::{self, BufWriter, Read, Write};
use std::process::ExitCode;
use std::{env, fs};

/// What is printed of a stream.
#[derive(Drop)]
enum Trace {
    /// A line a unit.
    Units,
    /// The fields of parameter sets too.
    Fields(Global),
    /// The planned pictures.
    Plan(PlanTrace),
}

fn main(rt: HostRuntime) -> Result<ExitCode, TraceError> {
    let mut args = env::args(&rt)?;
    let _name = args.next();
    let first = args.next();
    let word = first.as_ref().map_or("units", String::as_str);
    match args.next() {
        None => trace_input(&rt, word),
        Some(path) => trace_files(&rt, word, path.as_str(), args),
    }
}

/// Prints what a word asks for of the stream on standard input, and answers how it ended.
fn trace_input(rt: &HostRuntime, word: &str) -> Result<ExitCode, TraceError> {
    let mut trace = asked_for(rt, word)?;
    trace_standard(rt, &mut trace)
}

/// Prints what is asked for of the stream on standard input, and answers how it ended.
fn trace_standard(rt: &HostRuntime, trace: &mut Trace) -> Result<ExitCode, TraceError> {
    print_standard(rt, trace)?;
    tell_stop(rt, trace)
}

/// Prints what is asked for of the stream on standard input.
fn print_standard(rt: &HostRuntime, trace: &mut Trace) -> io::Result<()> {
    let mut out = BufWriter::new(rt.alloc(), io::writer(rt))?;
    print_whole(rt, trace, &mut out)
}

/// Prints what is asked for of the stream on standard input, and flushes it.
fn print_whole<W: Write>(rt: &HostRuntime, trace: &mut Trace, out: &mut W) -> io::Result<()> {
    trace_stream(rt, trace, rt.reader(), out)?;
    out.flush()
}

/// Prints what words ask for of the streams in files, in turn.
fn trace_files(
    rt: &HostRuntime,
    word: &str,
    path: &str,
    mut args: env::Args,
) -> Result<ExitCode, TraceError> {
    let mut out = BufWriter::new(rt.alloc(), io::writer(rt))?;
    trace_all(rt, word, path, &mut args, &mut out)
}

/// Prints what words ask for of the streams in files, the first and those that are still to be named.
fn trace_all<W: Write>(
    rt: &HostRuntime,
    word: &str,
    path: &str,
    args: &mut env::Args,
    out: &mut W,
) -> Result<ExitCode, TraceError> {
    trace_named(rt, word, path, out)?;
    for _ in 0..u64::MAX {
        if !trace_next(rt, args, out)? {
            break;
        }
    }
    out.flush()?;
    Ok(ExitCode::SUCCESS)
}

/// Prints what the next word asks for of the stream in the file behind it. Says whether there was one.
fn trace_next<W: Write>(
    rt: &HostRuntime,
    args: &mut env::Args,
    out: &mut W,
) -> Result<bool, TraceError> {
    match (args.next(), args.next()) {
        (Some(word), Some(path)) => {
            trace_named(rt, word.as_str(), path.as_str(), out)?;
            Ok(true)
        }
        _ => Ok(false),
    }
}

/// What a word on the command line asks for.
fn asked_for(rt: &HostRuntime, word: &str) -> Result<Trace, TraceError> {
    match word {
        "units" => Ok(Trace::Units),
        "fields" => Ok(Trace::Fields(rt.alloc())),
        "pictures" => plan(rt, PlanLines::Pictures),
        "slices" => plan(rt, PlanLines::Slices),
        "outputs" => plan(rt, PlanLines::Outputs(OutputTrace::new(rt.alloc()))),
        "trees" => plan(rt, PlanLines::Trees(TreeTrace::new(rt.alloc()))),
        "rows" => plan(rt, PlanLines::Rows(RowTrace::new(rt.alloc()))),
        _ => Err(TraceError::Usage),
    }
}

/// Prints what a word asks for of the stream in a file.
fn trace_named<W: Write>(
    rt: &HostRuntime,
    word: &str,
    path: &str,
    out: &mut W,
) -> Result<(), TraceError> {
    let mut trace = asked_for(rt, word)?;
    trace_file(rt, &mut trace, path, out)?;
    Ok(())
}

/// Prints a file's name, what is asked for of its stream, and what stops that.
fn trace_file<W: Write>(
    rt: &HostRuntime,
    trace: &mut Trace,
    path: &str,
    out: &mut W,
) -> io::Result<()> {
    writeln!(out, "== {path}")?;
    trace_stream(rt, trace, fs::open(rt, path)?, out)?;
    match stop_of(trace) {
        None => Ok(()),
        Some(Stop::Fault(fault)) => writeln!(out, "{fault}"),
        Some(Stop::Limit(limit)) => writeln!(out, "{limit}"),
    }
}

/// Prints what is asked for of a stream.
fn trace_stream<R: Read + Drop, W: Write>(
    rt: &HostRuntime,
    trace: &mut Trace,
    input: R,
    out: &mut W,
) -> io::Result<()> {
    let buffer = vec![in rt.alloc(); 0; 65_536]?;
    let mut framer = Framer::new(rt.alloc())?;
    frame_stream(trace, input, buffer, &mut framer, out)
}

/// Prints what is asked for of a stream, whose pieces come by way of a buffer.
fn frame_stream<R: Read + Drop, W: Write>(
    trace: &mut Trace,
    mut input: R,
    mut buffer: Vec<u8>,
    framer: &mut Framer,
    out: &mut W,
) -> io::Result<()>
    requires { framer.old.finished ≡ false }
{
    match read_all(trace, &mut input, &mut buffer, framer, out) {
        Ok(true) => print_rest(trace, framer, out),
        Ok(false) => Ok(()),
        Err(error) => Err(error),
    }
}

/// Prints what is known of a stream only where its input ends.
fn print_rest<W: Write>(trace: &mut Trace, framer: &mut Framer, out: &mut W) -> io::Result<()> {
    framer.finish();
    let _ = print_units(trace, framer, out)?;
    print_end(trace, out)
}

/// The planned pictures, as these lines.
fn plan(rt: &HostRuntime, lines: PlanLines) -> Result<Trace, TraceError> {
    Ok(Trace::Plan(PlanTrace::new(rt.alloc(), lines)?))
}

/// Feeds the input and prints its units as they get whole. Says whether none was refused.
fn read_all<R: Read, W: Write>(
    trace: &mut Trace,
    input: &mut R,
    buffer: &mut [u8],
    framer: &mut Framer,
    out: &mut W,
) -> io::Result<bool>
    requires { framer.old.finished ≡ false }
{
    for _ in 0..u64::MAX {
        let count = input.read(buffer)?;
        if count == 0 {
            break;
        }
        framer.feed(&buffer[..count])?;
        if !print_units(trace, framer, out)? {
            return Ok(false);
        }
    }
    Ok(true)
}

/// Prints the units that are whole. Says whether none was refused.
fn print_units<W: Write>(trace: &mut Trace, framer: &mut Framer, out: &mut W) -> io::Result<bool>
    ensures { framer.new.finished ≡ framer.old.finished }
{
    for _ in 0..u64::MAX {
        match framer.next()? {
            Next::More | Next::End => break,
            next => {
                if !print_next(trace, next, out)? {
                    return Ok(false);
                }
            }
        }
    }
    Ok(true)
}

/// Prints what comes of a framer's answer. Says whether the stream goes on.
fn print_next<W: Write>(trace: &mut Trace, next: Next, out: &mut W) -> io::Result<bool> {
    match trace {
        Trace::Units => print_answer(None, next, out),
        Trace::Fields(alloc) => print_answer(Some(*alloc), next, out),
        Trace::Plan(plan) => plan.print_next(next, out),
    }
}

/// Prints what is known of a picture only where the input ends.
fn print_end<W: Write>(trace: &mut Trace, out: &mut W) -> io::Result<()> {
    match trace {
        Trace::Units | Trace::Fields(_) => Ok(()),
        Trace::Plan(plan) => plan.print_end(out),
    }
}

/// Prints a framer's answer, and the fields of parameter sets where memory to read them is given. Says whether the
/// stream goes on.
fn print_answer<W: Write>(sets: Option<Global>, next: Next, out: &mut W) -> io::Result<bool> {
    match next {
        Next::Unit(nal) => {
            print_nal(sets, &nal, out)?;
            Ok(true)
        }
        Next::Fault(fault) => {
            writeln!(out, "{fault}")?;
            Ok(false)
        }
        Next::Limit(limit) => {
            writeln!(out, "{limit}")?;
            Ok(false)
        }
        Next::More | Next::End => Ok(true),
    }
}

/// A unit's line, and the fields of a parameter set where memory to read them is given.
fn print_nal<W: Write>(sets: Option<Global>, nal: &Nal, out: &mut W) -> io::Result<()> {
    print_unit(nal, out)?;
    match sets {
        Some(alloc) => print_set(alloc, nal, out),
        None => Ok(()),
    }
}

fn print_unit<W: Write>(nal: &Nal, out: &mut W) -> io::Result<()> {
    let (number, kind, layer, id) = (nal.index, nal.nal_type, nal.layer, nal.temporal_id);
    let payload = nal.rbsp.as_slice().len();
    let removed = nal.removed.as_slice().len();
    writeln!(out, "{number} {kind} {layer} {id} {payload} {removed}")
}

/// What stopped the planning.
fn stop_of(trace: &Trace) -> Option<Stop> {
    match trace {
        Trace::Units | Trace::Fields(_) => None,
        Trace::Plan(plan) => plan.stop(),
    }
}

/// Tells on the error stream what stopped the planning, and answers the exit status.
fn tell_stop(rt: &HostRuntime, trace: &Trace) -> Result<ExitCode, TraceError> {
    let outcome = match stop_of(trace) {
        None => Outcome::Ok,
        Some(Stop::Fault(fault)) => {
            eprintln!(rt; "{fault}")?;
            Outcome::Fault(fault)
        }
        Some(Stop::Limit(limit)) => {
            eprintln!(rt; "{limit}")?;
            Outcome::Limit(limit)
        }
    };
    let Status(status) = outcome.status();
    Ok(ExitCode::from(status))
}
