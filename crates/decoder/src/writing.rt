//! Decodes the pictures of flights, and writes them in output order, each as soon as its flight has run and it goes out
//! of the decoded picture buffer.

ghost use Rattle.std.specs.Prelude.{◌≡◌, ◌∷◌, List, OnOk};
ghost use Rattle.plan_types.specs.declared.picture_plan.PicturePlan.{PicturePlan};
ghost use Rattle.picture_plan.specs.Flights.{pictures_of};
ghost use Rattle.row_jobs.specs.FlightResults.{Decodes};
ghost use Rattle.spec_decoder.specs.Decoder.{decoded_from, finished, pictures_in};
ghost use Rattle.decoder.specs.Buffers.{buffer_of};
ghost use Rattle.decoder.specs.Headline.{change_of, outcome_of};
ghost use Rattle.decoder.specs.Writing.{IsAnswered, TakesPicture, WritesFirst, owed_from};

use crate::buffer::Buffer;
use crate::options::Options;
use crate::together::most_together;
use hv_base::{Outcome, Stop};
use hv_io::{Gate, Sink};
use picture_plan::{Flight, Flights, Planned};
use plan_types::PicturePlan;
use row_jobs::{FlightResult, have_row_substreams};
use spec_decoder::Form;
use std::sync::Wait;
use std::thread::Threads;

/// Decodes the pictures of the last flights, writes what then goes out, and answers how decoding ends.
pub(crate) fn write_last<R: Threads + Wait + Sync, O: Sink, G: Gate + Sync>(
    rt: &R,
    options: Options,
    planned: Planned,
    buffer: &mut Buffer,
    out: &mut O,
    gate: &G,
) -> Outcome
    ensures { IsAnswered (owed_from options.form buffer.old.number
        (decoded_from options.hash (finished planned.last planned.stop) (pictures_of planned.flights)
        (buffer_of buffer.old)))
        (change_of O.contents O.faults out.old out.new) result }
{
    match decode_flights(rt, options, planned.flights, buffer, out, gate) {
        Ok(()) => write_end(
            options.form,
            planned.last.as_slice(),
            planned.stop,
            buffer,
            out,
        ),
        Err(outcome) => outcome,
    }
}

/// Writes the pictures that go out behind all others, and answers how decoding ends.
fn write_end<O: Sink>(
    form: Form,
    last: &[u32],
    stop: Option<Stop>,
    buffer: &mut Buffer,
    out: &mut O,
) -> Outcome
    ensures { IsAnswered (owed_from form buffer.old.number (finished last.now stop (buffer_of buffer.old)))
        (change_of O.contents O.faults out.old out.new) result }
{
    match buffer.write(form, last, out) {
        Ok(()) => outcome_of(stop),
        Err(outcome) => outcome,
    }
}

/// How decoding ends where this stops the stream.
pub(crate) fn outcome_of(stop: Option<Stop>) -> Outcome
    ensures { result ≡ outcome_of stop }
{
    match stop {
        None => Outcome::Ok,
        Some(Stop::Fault(fault)) => Outcome::Fault(fault),
        Some(Stop::Limit(limit)) => Outcome::Limit(limit),
    }
}

/// Decodes the pictures of flights, and writes what goes out.
pub(crate) fn decode_flights<R: Threads + Wait + Sync, O: Sink, G: Gate + Sync>(
    rt: &R,
    options: Options,
    flights: Flights,
    buffer: &mut Buffer,
    out: &mut O,
    gate: &G,
) -> Result<(), Outcome>
    ensures { WritesFirst options.form options.hash (change_of O.contents O.faults out.old out.new)
        (pictures_of flights) buffer.old buffer.new result }
{
    let mut left = flights;
    while let Some(flight) = left.next() {
        decode_flight(rt, options, flight, buffer, out, gate)?;
    }
    Ok(())
}

/// Decodes the pictures of a flight, as many together as the memory of one board is for, and writes what goes out.
fn decode_flight<R: Threads + Wait + Sync, O: Sink, G: Gate + Sync>(
    rt: &R,
    options: Options,
    flight: Flight,
    buffer: &mut Buffer,
    out: &mut O,
    gate: &G,
) -> Result<(), Outcome>
    ensures { WritesFirst options.form options.hash (change_of O.contents O.faults out.old out.new) flight buffer.old
        buffer.new result }
{
    let mut left = flight;
    'parts: while 0 < left.len() {
        let together = most_together(left.as_slice());
        let Ok(part) = left.take_first(together) else {
            return Err(Outcome::Memory);
        };
        decode_pictures(rt, options, &part, buffer, out, gate)?;
    }
    Ok(())
}

/// Decodes the pictures of a flight, and writes what goes out, up to the first in which something is broken or met.
fn decode_pictures<R: Threads + Wait + Sync, O: Sink, G: Gate + Sync>(
    rt: &R,
    options: Options,
    pictures: &Flight,
    buffer: &mut Buffer,
    out: &mut O,
    gate: &G,
) -> Result<(), Outcome>
    ensures { WritesFirst options.form options.hash (change_of O.contents O.faults out.old out.new) pictures.now
        buffer.old buffer.new result }
{
    let plans = pictures.as_slice();
    if options.workers < 2 || !have_row_substreams(plans) {
        return decode_singly(options, plans, buffer, out);
    }
    let Ok(mut flight) = buffer.run_flight(rt, options.workers, pictures, gate) else {
        return Err(Outcome::Memory);
    };
    take_pictures(options, plans, &mut flight, buffer, out)
}

/// Decodes pictures one after the other, where several workers can't share their rows. What goes out with each is
/// written before the next is decoded, so that no more pictures are held than stand in the buffer.
fn decode_singly<O: Sink>(
    options: Options,
    pictures: &[PicturePlan],
    buffer: &mut Buffer,
    out: &mut O,
) -> Result<(), Outcome>
    ensures { WritesFirst options.form options.hash (change_of O.contents O.faults out.old out.new) pictures.now
        buffer.old buffer.new result }
{
    for picture in pictures {
        decode_picture(options, picture, buffer, out)?;
    }
    Ok(())
}

/// Decodes the next picture, and writes what goes out before it and behind it.
fn decode_picture<O: Sink>(
    options: Options,
    picture: &PicturePlan,
    buffer: &mut Buffer,
    out: &mut O,
) -> Result<(), Outcome>
    ensures { TakesPicture options.form options.hash (change_of O.contents O.faults out.old out.new) picture.now
        buffer.old buffer.new result }
{
    let Ok(mut flight) = buffer.run_picture(picture) else {
        return Err(Outcome::Memory);
    };
    take_picture(options, picture, &mut flight, buffer, out)
}

/// Takes the pictures of a flight that was decoded, and writes what goes out, up to the first in which something is
/// broken or met.
fn take_pictures<O: Sink>(
    options: Options,
    pictures: &[PicturePlan],
    flight: &mut FlightResult,
    buffer: &mut Buffer,
    out: &mut O,
) -> Result<(), Outcome>
    requires { Decodes (pictures_in (buffer_of buffer.old)) pictures.now flight.old.pictures flight.old.fault }
    ensures { WritesFirst options.form options.hash (change_of O.contents O.faults out.old out.new) pictures.now
        buffer.old buffer.new result }
{
    for picture in pictures {
        take_picture(options, picture, flight, buffer, out)?;
    }
    Ok(())
}

/// Takes the next picture of a flight that was decoded, and writes what goes out before it and behind it (C.5.2).
fn take_picture<O: Sink>(
    options: Options,
    picture: &PicturePlan,
    flight: &mut FlightResult,
    buffer: &mut Buffer,
    out: &mut O,
) -> Result<(), Outcome>
    ensures takes { (later : List PicturePlan)
        → Decodes (pictures_in (buffer_of buffer.old)) (picture.now ∷ later) flight.old.pictures flight.old.fault
        → TakesPicture options.form options.hash (change_of O.contents O.faults out.old out.new) picture.now
        buffer.old buffer.new result }
    ensures left { (later : List PicturePlan)
        → Decodes (pictures_in (buffer_of buffer.old)) (picture.now ∷ later) flight.old.pictures flight.old.fault
        → OnOk result
        (Decodes (pictures_in (buffer_of buffer.new)) later flight.new.pictures flight.new.fault) }
{
    buffer.write(options.form, picture.outputs.before.as_slice(), out)?;
    buffer.enter(options.hash, picture, flight)?;
    buffer.write(options.form, picture.outputs.behind.as_slice(), out)?;
    buffer.keep(picture.outputs.kept.as_slice());
    Ok(())
}
