//! The decoded picture buffer (C.5.2).

ghost use Rattle.std.specs.Prelude.{◌≡◌, ◌<◌, ◌++◌, ◌∷◌, [], IfOk, OnOk, length, option_map, slice_get};
ghost use Rattle.std.specs.Prelude.{List, if◌then◌else◌};
ghost use Rattle.std.specs.List.{remove};
ghost use Rattle.plan_types.specs.declared.picture_plan.PicturePlan.{PicturePlan};
ghost use Rattle.row_jobs.specs.FlightResults.{Decodes};
ghost use Rattle.spec_decoder.specs.Decoder.{decoded_picture, is_among, kept_from, next_out, out_at, pictures_in};
ghost use Rattle.decoder.specs.Buffers.{buffer_of, tagged};
ghost use Rattle.decoder.specs.Flights.{IsLeft};
ghost use Rattle.decoder.specs.Headline.{change_of};
ghost use Rattle.decoder.specs.Pictures.{Enters};
ghost use Rattle.decoder.specs.Writing.{GoOut};

use crate::picture::next_picture;
use crate::pieces::write_piece;
use crate::tag::Tag;
use hv_base::Outcome;
use hv_io::{Gate, Sink};
use picture_buffer::{Bases, Picture, SharedPicture};
use picture_plan::Flight;
use plan_types::PicturePlan;
use row_jobs::{FlightResult, Spares, run_flight, run_picture};
use spec_decoder::Form;
use std::alloc::{AllocError, Global};
use std::marker::Model;
use std::sync::Wait;
use std::thread::Threads;

/// The pictures of the decoded picture buffer, in decoding order, and how many pictures went out of it. A picture is
/// named by its place.
#[derive(Drop)]
pub(crate) struct Buffer {
    alloc: Global,
    /// What is told of each picture.
    tags: Vec<Tag>,
    pictures: Bases,
    /// The number of the next picture that goes out, up to 2^64 - 1.
    number: u64,
    /// Memory for later pictures: that of those which left it, and that in which they are filtered.
    spares: Spares,
}

impl Model for Buffer {
    ghost use Rattle.std.specs.Prelude.{◌≡◌, length};
    ghost use Rattle.decoder.specs.Buffers.{HeldBuffer};

    ghost Value = { HeldBuffer };

    ghost view = { λ b. record { tags = b.tags.items; pictures = b.pictures; number = b.number } };

    ghost invariant = { λ b. length b.tags.items ≡ length b.pictures };
}

impl Buffer {
    /// An empty buffer.
    pub(crate) fn new(alloc: Global) -> Buffer
        ensures none { buffer_of result ≡ [] }
        ensures first { result.number ≡ 0 }
    {
        Buffer {
            alloc,
            tags: Vec::new(alloc),
            pictures: Bases::new(alloc),
            number: 0,
            spares: Spares::new(alloc),
        }
    }

    /// Decodes the pictures of a flight by those that are there.
    pub(crate) fn run_flight<R: Threads + Wait + Sync, G: Gate + Sync>(
        &mut self,
        rt: &R,
        workers: u32,
        pictures: &Flight,
        gate: &G,
    ) -> Result<FlightResult, AllocError>
        ensures decoded { IfOk result
            (λ r. Decodes (pictures_in (buffer_of self.old)) pictures.now r.pictures r.fault) }
        ensures same { self.new ≡ self.old }
    {
        run_flight(
            rt,
            self.alloc,
            pictures,
            &self.pictures,
            workers,
            gate,
            &mut self.spares,
        )
    }

    /// Decodes a picture by those that are there.
    pub(crate) fn run_picture(&mut self, picture: &PicturePlan) -> Result<FlightResult, AllocError>
        ensures decoded { IfOk result
            (λ r. Decodes (pictures_in (buffer_of self.old)) (picture.now ∷ []) r.pictures r.fault) }
        ensures same { self.new ≡ self.old }
    {
        run_picture(self.alloc, picture, &self.pictures, &mut self.spares)
    }

    /// The next picture of a flight that was decoded stands behind the last. Its planes are compared with their stated
    /// hashes, where `hash` is true.
    pub(crate) fn enter(
        &mut self,
        hash: bool,
        picture: &PicturePlan,
        flight: &mut FlightResult,
    ) -> Result<(), Outcome>
        ensures enters { (later : List PicturePlan)
            → Decodes (pictures_in (buffer_of self.old)) (picture.now ∷ later) flight.old.pictures flight.old.fault
            → Enters self.old self.new (decoded_picture hash (buffer_of self.old) picture.now) result }
        ensures left { (later : List PicturePlan)
            → Decodes (pictures_in (buffer_of self.old)) (picture.now ∷ later) flight.old.pictures flight.old.fault
            → OnOk result (IsLeft picture.now later self.new flight.new) }
        ensures number { self.new.number ≡ self.old.number }
    {
        let shared = next_picture(hash, picture, flight)?;
        match self.push(Tag::of(picture), shared) {
            Ok(()) => Ok(()),
            Err(_) => Err(Outcome::Memory),
        }
    }

    /// How many pictures it holds.
    pub(crate) fn len(&self) -> usize
        ensures { result ≡ length (buffer_of self.now) }
    {
        self.pictures.len()
    }

    /// A picture behind the last. `Err` is want of memory.
    fn push(&mut self, tag: Tag, picture: SharedPicture) -> Result<(), AllocError>
        ensures tags { OnOk result (self.new.tags ≡ self.old.tags ++ tag ∷ []) }
        ensures pictures { OnOk result (self.new.pictures ≡ self.old.pictures ++ picture ∷ []) }
        ensures even { length self.old.tags ≡ length self.old.pictures }
        ensures number { self.new.number ≡ self.old.number }
    {
        if self.tags.push(tag).is_err() {
            return Err(AllocError);
        }
        let pushed = self.pictures.push_shared(picture);
        if pushed.is_err() {
            let _ = self.tags.pop();
        }
        pushed
    }

    /// Writes the pictures at these places, one after the other. A place behind the last has none.
    pub(crate) fn write<O: Sink>(
        &mut self,
        form: Form,
        places: &[u32],
        out: &mut O,
    ) -> Result<(), Outcome>
        ensures wrote { GoOut form (change_of O.contents O.faults out.old out.new) self.old.number self.new.number
            (out_at (buffer_of self.old) places.now) result }
        ensures same { buffer_of self.new ≡ buffer_of self.old }
    {
        for place in places {
            self.write_place(form, *place, out)?;
        }
        Ok(())
    }

    /// Writes the picture at a place.
    fn write_place<O: Sink>(&mut self, form: Form, place: u32, out: &mut O) -> Result<(), Outcome>
        ensures wrote { GoOut form (change_of O.contents O.faults out.old out.new) self.old.number self.new.number
            (next_out (slice_get (buffer_of self.old) place) []) result }
        ensures same { buffer_of self.new ≡ buffer_of self.old }
    {
        match self.at(place) {
            None => Ok(()),
            Some((tag, picture)) => match write_piece(form, self.number, tag, picture, out) {
                Ok(()) => {
                    self.number = self.number.saturating_add(1);
                    Ok(())
                }
                Err(_) => Err(Outcome::WriteFault),
            },
        }
    }

    /// The picture at a place, with what is told of it.
    fn at(&self, place: u32) -> Option<(Tag, &Picture)>
        ensures { option_map (λ p. tagged p.0 p.1.now) result ≡ slice_get (buffer_of self.now) place }
    {
        match self.tags.get(place as usize) {
            None => None,
            Some(tag) => match self.pictures.get(place) {
                None => None,
                Some(picture) => Some((*tag, picture)),
            },
        }
    }

    /// Keeps the pictures at these places, in the buffer's order. The others are spare.
    pub(crate) fn keep(&mut self, places: &[u32])
        ensures kept { buffer_of self.new ≡ kept_from places.now 0 (buffer_of self.old) }
        ensures number { self.new.number ≡ self.old.number }
    {
        let mut place = self.pictures.len();
        while 0 < place {
            place -= 1;
            self.judge_place(place, places);
        }
    }

    /// Takes the picture at a place out, unless the place is one of these. It is spare then.
    fn judge_place(&mut self, place: usize, places: &[u32])
        requires { place < length self.old.pictures }
        ensures tags { self.new.tags
            ≡ (if is_among places.now place then self.old.tags else remove self.old.tags place) }
        ensures pictures { self.new.pictures
            ≡ (if is_among places.now place then self.old.pictures else remove self.old.pictures place) }
        ensures level { length self.new.tags ≡ length self.new.pictures }
        ensures number { self.new.number ≡ self.old.number }
    {
        if !is_among(places, place) {
            let _ = self.tags.remove(place);
            self.spares.give(self.pictures.remove(place));
        }
    }
}

/// Whether a place is one of these.
fn is_among(places: &[u32], place: usize) -> bool
    ensures { result ≡ is_among places.now place }
{
    places.iter().any(|other| *other as usize == place)
}
