//! The calls of a session.

ghost use Rattle.std.specs.Prelude.{◌≡◌, ◌^◌, ◌-◌, ℕ, List, ◌++◌, [], Some, None, IfOk, IfSome, true, false, length};
ghost use Rattle.std.specs.Prelude.{min};
ghost use Rattle.decoder.specs.Buffers.{buffer_of};
ghost use Rattle.decoder.specs.Headline.{change_of};
ghost use Rattle.decoder.specs.Options.{IsInRange};
ghost use Rattle.decoder.specs.Session.{IsCountedBy, IsNoSuccess, Pushed, Stands, halted_as};
ghost use Rattle.decoder.specs.Taking.{Ended, IsCounted, TakesUnits, all_owed};

use crate::options::Options;
use crate::session::Session;
use crate::stream::Decoder;
use hv_base::Outcome;
use hv_io::{Gate, Sink};
use nal_stream::Framer;
use std::alloc::{AllocError, Global};
use std::sync::Wait;
use std::thread::Threads;

impl Session {
    /// A session that was given nothing. `AllocError` is want of memory.
    pub fn new(alloc: Global, options: Options) -> Result<Session, AllocError>
        requires { IsInRange options }
        ensures stands { IfOk result (λ s. Stands s [] []) }
        ensures options { IfOk result (λ s. s.options ≡ options) }
        ensures going { IfOk result (λ s. s.outcome ≡ None) }
    {
        Ok(Session {
            options,
            framer: Framer::new(alloc)?,
            decoder: Decoder::new(alloc, options)?,
            outcome: None,
        })
    }

    /// Takes the next piece of the stream and writes the pictures that go out then. `None` where more may come, and
    /// else how decoding ended: with the first broken rule or limit, behind all that is owed before it, with a write
    /// fault, or with want of memory behind whole pictures or lines. Once it has ended each call answers the same and
    /// writes nothing.
    pub fn push<R: Threads + Wait + Sync, O: Sink, G: Gate + Sync>(
        &mut self,
        rt: &R,
        piece: &[u8],
        out: &mut O,
        gate: &G,
    ) -> Option<Outcome>
        ensures pushed { (bytes gained : List ℕ) → Stands self.old bytes gained
            → Pushed self.new (change_of O.contents O.faults out.old out.new) (bytes ++ piece.now) gained result }
        ensures counted { (bytes gained : List ℕ) → Stands self.old bytes gained → self.old.outcome ≡ None
            → IsCountedBy (change_of O.contents O.faults out.old out.new) result }
        ensures again { IfSome self.old.outcome (λ o. (result ≡ Some o) × (out.new ≡ out.old)) }
        ensures answer { self.new.outcome ≡ result }
        ensures options { self.new.options ≡ self.old.options }
    {
        if let Some(outcome) = self.outcome {
            return Some(outcome);
        }
        match self.take_piece(rt, piece, out, gate) {
            Ok(()) => None,
            Err(outcome) => {
                self.outcome = Some(outcome);
                Some(outcome)
            }
        }
    }

    /// Takes a piece where decoding hasn't ended.
    fn take_piece<R: Threads + Wait + Sync, O: Sink, G: Gate + Sync>(
        &mut self,
        rt: &R,
        piece: &[u8],
        out: &mut O,
        gate: &G,
    ) -> Result<(), Outcome>
        requires { self.old.outcome ≡ None }
        ensures taken { (bytes gained : List ℕ) → Stands self.old bytes gained → self.old.outcome ≡ None
            → TakesUnits self.old.options (change_of O.contents O.faults out.old out.new) self.new.framer
            self.new.decoder false (bytes ++ piece.now) gained result }
        ensures options { self.new.options ≡ self.old.options }
        ensures outcome { self.new.outcome ≡ self.old.outcome }
    {
        if self.framer.feed(piece).is_err() {
            return Err(Outcome::Memory);
        }
        self.decoder
            .take_units(rt, self.options, &mut self.framer, out, gate)
    }

    /// The stream ends here: writes the pictures that are left, and answers how decoding ended.
    pub fn finish<R: Threads + Wait + Sync, O: Sink, G: Gate + Sync>(
        self,
        rt: &R,
        out: &mut O,
        gate: &G,
    ) -> Outcome
        ensures ended { (bytes gained : List ℕ) → Stands self bytes gained → self.outcome ≡ None
            → Ended (change_of O.contents O.faults out.old out.new) (all_owed self.options true bytes) gained result }
        ensures again { IfSome self.outcome (λ o. (result ≡ o) × (out.new ≡ out.old)) }
    {
        let mut session = self;
        session.end(rt, out, gate)
    }

    /// The same of a session that stays.
    pub(crate) fn end<R: Threads + Wait + Sync, O: Sink, G: Gate + Sync>(
        &mut self,
        rt: &R,
        out: &mut O,
        gate: &G,
    ) -> Outcome
        ensures ended { (bytes gained : List ℕ) → Stands self.old bytes gained → self.old.outcome ≡ None
            → Ended (change_of O.contents O.faults out.old out.new) (all_owed self.old.options true bytes) gained
            result }
        ensures again { IfSome self.old.outcome (λ o. (result ≡ o) × (out.new ≡ out.old)) }
    {
        if let Some(outcome) = self.outcome {
            return outcome;
        }
        self.framer.finish();
        match self
            .decoder
            .take_units(rt, self.options, &mut self.framer, out, gate)
        {
            Ok(()) => {
                let outcome = self.decoder.write_end(rt, self.options, out, gate);
                self.outcome = Some(outcome);
                outcome
            }
            Err(outcome) => {
                self.outcome = Some(outcome);
                outcome
            }
        }
    }

    /// No more of the stream comes, though it hasn't ended, as where a read failed: writes the pictures that are over,
    /// and answers how decoding ended, `None` where nothing stopped it.
    pub fn halt<R: Threads + Wait + Sync, O: Sink, G: Gate + Sync>(
        self,
        rt: &R,
        out: &mut O,
        gate: &G,
    ) -> Option<Outcome>
        ensures ended { (bytes gained : List ℕ) → Stands self bytes gained → self.outcome ≡ None
            → Ended (change_of O.contents O.faults out.old out.new) (all_owed self.options false bytes) gained
            (halted_as result) }
        ensures again { IfSome self.outcome (λ o. (result ≡ Some o) × (out.new ≡ out.old)) }
        ensures stop { self.outcome ≡ None → IsNoSuccess result }
    {
        let mut session = self;
        session.stop(rt, out, gate)
    }

    /// The same of a session that stays.
    pub(crate) fn stop<R: Threads + Wait + Sync, O: Sink, G: Gate + Sync>(
        &mut self,
        rt: &R,
        out: &mut O,
        gate: &G,
    ) -> Option<Outcome>
        ensures ended { (bytes gained : List ℕ) → Stands self.old bytes gained → self.old.outcome ≡ None
            → Ended (change_of O.contents O.faults out.old out.new) (all_owed self.old.options false bytes) gained
            (halted_as result) }
        ensures again { IfSome self.old.outcome (λ o. (result ≡ Some o) × (out.new ≡ out.old)) }
        ensures stop { self.old.outcome ≡ None → IsNoSuccess result }
    {
        if let Some(outcome) = self.outcome {
            return Some(outcome);
        }
        match self.decoder.write_halted(rt, self.options, out, gate) {
            Outcome::Ok => None,
            outcome => Some(outcome),
        }
    }

    /// How many pictures are planned and wait for their flight's end, and how many the decoded picture buffer holds.
    pub fn kept(&self) -> (u32, u32)
        ensures plans { result.0 ≡ min (length self.now.decoder.planner.pending) (2 ^ 32 - 1) }
        ensures pictures { result.1 ≡ min (length (buffer_of self.now.decoder.buffer)) (2 ^ 32 - 1) }
    {
        (
            counted(self.decoder.waiting()),
            counted(self.decoder.held()),
        )
    }
}

/// A count, up to 2^32 - 1.
fn counted(count: usize) -> u32
    ensures { result ≡ min count (2 ^ 32 - 1) }
{
    count.min(0xFFFF_FFFF) as u32
}
