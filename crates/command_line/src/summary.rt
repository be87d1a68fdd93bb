//! What a stream that is made is decoded to, summed up.

ghost use Rattle.std.specs.Prelude.{◌≡◌, IfOk};
ghost use Rattle.spec_decoder.specs.declared.form.Form.TheVariants as form;
ghost use Rattle.spec_decoder.specs.Decoder.{bytes_of};
ghost use Rattle.decoder.specs.Headline.{change_of};
ghost use Rattle.command_line.specs.Making.{MakesLine, decoded_of, stream_of};
ghost use Rattle.command_line.specs.Summary.{summary_of};

use crate::growing_sink::GrowingSink;
use crate::request::MakeOptions;
use crate::slice_source::SliceSource;
use crate::summary_line::{SummaryLine, summary_line};
use decoder::{Form, Options, decode};
use hv_base::Outcome;
use hv_io::{Failed, Gate, Sink, write_all};
use made_drawing_laws::made_streams_are_decoded;
use std::alloc::{AllocError, Global};
use std::sync::Wait;
use std::thread::Threads;
use stream_maker::make;

/// How the stream is decoded: what is written of it doesn't depend on its hashes.
const DECODING: Options = Options {
    workers: 1,
    ahead: 1,
    hash: false,
    form: Form::I420,
};

/// Writes the line that sums a stream up: `Ok`, `Memory` or `WriteFault`.
pub(crate) fn write_summary<R: Threads + Wait + Sync, O: Sink, G: Gate + Sync>(
    rt: &R,
    alloc: Global,
    options: MakeOptions,
    out: &mut O,
    gate: &G,
) -> Outcome
    ensures { MakesLine (change_of O.contents O.faults out.old out.new) (summary_of (decoded_of options)) result }
{
    let Ok(line) = summary_of(rt, alloc, options, gate) else {
        return Outcome::Memory;
    };
    match write_all(out, line.as_slice()) {
        Ok(()) => Outcome::Ok,
        Err(Failed) => Outcome::WriteFault,
    }
}

/// The line that sums a stream up.
fn summary_of<R: Threads + Wait + Sync, G: Gate + Sync>(
    rt: &R,
    alloc: Global,
    options: MakeOptions,
    gate: &G,
) -> Result<SummaryLine, AllocError>
    ensures { IfOk result (λ line. line.items ≡ summary_of (decoded_of options)) }
{
    made_streams_are_decoded();
    let stream = made(alloc, options)?;
    let bytes = decoded(rt, alloc, options, stream.as_slice(), gate)?;
    Ok(summary_line(options.pictures, bytes.as_slice()))
}

/// A stream.
fn made(alloc: Global, options: MakeOptions) -> Result<Vec<u8>, AllocError>
    ensures { IfOk result (λ stream. stream.items ≡ stream_of options) }
{
    let mut out = GrowingSink::new(alloc);
    match make(alloc, options.seed, options.pictures, &mut out) {
        Outcome::Ok => Ok(out.into_bytes()),
        Outcome::Memory | Outcome::WriteFault => Err(AllocError),
        Outcome::Fault(_) | Outcome::Limit(_) | Outcome::ReadFault => unreachable!(),
    }
}

/// The samples of the pictures that a stream is decoded to.
fn decoded<R: Threads + Wait + Sync, G: Gate + Sync>(
    rt: &R,
    alloc: Global,
    options: MakeOptions,
    stream: &[u8],
    gate: &G,
) -> Result<Vec<u8>, AllocError>
    requires { stream.now ≡ stream_of options }
    ensures { IfOk result (λ bytes. bytes.items ≡ bytes_of form.I420 (decoded_of options)) }
{
    made_streams_are_decoded();
    let mut src = SliceSource::new(stream);
    let mut out = GrowingSink::new(alloc);
    match decode(rt, alloc, DECODING, &mut src, &mut out, gate) {
        Outcome::Ok => Ok(out.into_bytes()),
        Outcome::Memory | Outcome::WriteFault => Err(AllocError),
        Outcome::Fault(_) | Outcome::Limit(_) | Outcome::ReadFault => unreachable!(),
    }
}
