//! From the units of a stream to its pictures.

ghost use Rattle.std.specs.Prelude.{◌≡◌, ℕ, Bool, List, [], IfOk, length, true, false};
ghost use Rattle.spec_nal_units.specs.Judged.{Told};
ghost use Rattle.nal_stream.specs.Answers.{told_by};
ghost use Rattle.decoder.specs.Buffers.{buffer_of};
ghost use Rattle.decoder.specs.Headline.{change_of};
ghost use Rattle.decoder.specs.Options.{IsInRange};
ghost use Rattle.decoder.specs.Owed.{still_owed};
ghost use Rattle.decoder.specs.Taking.{HasTaken, Lessens, PlansUnit, StillTells, TakesUnit, TakesUnits};
ghost use Rattle.decoder.specs.Writing.{IsAnswered};

use crate::buffer::Buffer;
use crate::options::Options;
use crate::writing::{decode_flights, write_last};
use hv_base::Outcome;
use hv_io::{Gate, Sink};
use nal_stream::{Framer, Next};
use picture_plan::Planner;
use std::alloc::{AllocError, Global};
use std::sync::Wait;
use std::thread::Threads;

/// What was taken of a stream.
#[derive(Clone, Copy)]
pub(crate) enum Taken {
    /// A unit, behind which others may stand.
    Unit,
    /// Nothing: all whole units were taken before.
    Last,
}

/// The pictures that are planned of a stream, and those that were decoded and stay in the buffer.
#[derive(Drop)]
pub(crate) struct Decoder {
    planner: Planner,
    buffer: Buffer,
}

impl Decoder {
    /// Before the first unit.
    pub(crate) fn new(alloc: Global, options: Options) -> Result<Decoder, AllocError>
        requires { IsInRange options }
        ensures { IfOk result (λ d. HasTaken options d [] []) }
    {
        Ok(Decoder {
            planner: Planner::new(alloc, options.ahead, options.hash)?,
            buffer: Buffer::new(alloc),
        })
    }

    /// How many pictures wait for their flight's end.
    pub(crate) fn waiting(&self) -> usize
        ensures { result ≡ length self.now.planner.pending }
    {
        self.planner.waiting()
    }

    /// How many pictures the buffer holds.
    pub(crate) fn held(&self) -> usize
        ensures { result ≡ length (buffer_of self.now.buffer) }
    {
        self.buffer.len()
    }

    /// Takes all whole units that a framer holds, and writes the pictures that go out then.
    pub(crate) fn take_units<R: Threads + Wait + Sync, O: Sink, G: Gate + Sync>(
        &mut self,
        rt: &R,
        options: Options,
        framer: &mut Framer,
        out: &mut O,
        gate: &G,
    ) -> Result<(), Outcome>
        ensures taken { (ended : Bool) (bytes : List ℕ) (given later : List Told) (gained : List ℕ)
            → StillTells framer.old ended bytes given later → HasTaken options self.old given gained
            → TakesUnits options (change_of O.contents O.faults out.old out.new) framer.new self.new ended bytes gained
            result }
        ensures finished { framer.new.finished ≡ framer.old.finished }
    {
        'units: loop {
            match self.take_unit(rt, options, framer, out, gate)? {
                Taken::Unit => {}
                Taken::Last => return Ok(()),
            }
        }
    }

    /// Takes a unit and writes the pictures that go out then.
    fn take_unit<R: Threads + Wait + Sync, O: Sink, G: Gate + Sync>(
        &mut self,
        rt: &R,
        options: Options,
        framer: &mut Framer,
        out: &mut O,
        gate: &G,
    ) -> Result<Taken, Outcome>
        ensures taken { (ended : Bool) (bytes : List ℕ) (given later : List Told) (gained : List ℕ)
            → StillTells framer.old ended bytes given later → HasTaken options self.old given gained
            → TakesUnit options (change_of O.contents O.faults out.old out.new) framer.new self.new ended bytes gained
            result }
        ensures less { Lessens framer.old framer.new result }
        ensures finished { framer.new.finished ≡ framer.old.finished }
    {
        let Ok(next) = framer.next() else {
            return Err(Outcome::Memory);
        };
        match next {
            Next::More => Ok(Taken::Last),
            Next::End => Ok(Taken::Last),
            unit => {
                self.plan_unit(rt, options, unit, out, gate)?;
                Ok(Taken::Unit)
            }
        }
    }

    /// Plans a unit and writes the pictures that go out then.
    fn plan_unit<R: Threads + Wait + Sync, O: Sink, G: Gate + Sync>(
        &mut self,
        rt: &R,
        options: Options,
        next: Next,
        out: &mut O,
        gate: &G,
    ) -> Result<(), Outcome>
        ensures { PlansUnit options (change_of O.contents O.faults out.old out.new) self.old (told_by next) self.new
            result }
    {
        let Ok(planned) = self.planner.unit(next) else {
            return Err(Outcome::Memory);
        };
        match planned.stop {
            None => decode_flights(rt, options, planned.flights, &mut self.buffer, out, gate),
            Some(_) => Err(write_last(rt, options, planned, &mut self.buffer, out, gate)),
        }
    }

    /// Writes the pictures that are left where the input ended, and answers how decoding ends.
    pub(crate) fn write_end<R: Threads + Wait + Sync, O: Sink, G: Gate + Sync>(
        &mut self,
        rt: &R,
        options: Options,
        out: &mut O,
        gate: &G,
    ) -> Outcome
        ensures { IsAnswered (still_owed options.form options.hash true self.old.planner self.old.buffer [])
            (change_of O.contents O.faults out.old out.new) result }
    {
        match self.planner.finish() {
            Ok(planned) => write_last(rt, options, planned, &mut self.buffer, out, gate),
            Err(_) => Outcome::Memory,
        }
    }

    /// Writes the pictures that are over where no more of the input comes, and answers how decoding ends.
    pub(crate) fn write_halted<R: Threads + Wait + Sync, O: Sink, G: Gate + Sync>(
        &mut self,
        rt: &R,
        options: Options,
        out: &mut O,
        gate: &G,
    ) -> Outcome
        ensures { IsAnswered (still_owed options.form options.hash false self.old.planner self.old.buffer [])
            (change_of O.contents O.faults out.old out.new) result }
    {
        write_last(
            rt,
            options,
            self.planner.halt(),
            &mut self.buffer,
            out,
            gate,
        )
    }
}
