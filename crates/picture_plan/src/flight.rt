//! Pictures that are decoded together.

ghost use Rattle.std.specs.Prelude.{◌≡◌, ◌++◌, ◌∷◌, [], None, length, OnOk, OnErr, IfOk, IfErr, take, drop};
ghost use Rattle.picture_plan.specs.Flights.{some_flight};

use plan_types::PicturePlan;
use std::alloc::{AllocError, Global};
use std::marker::Model;

/// Consecutive pictures of one sequence parameter set, in decoding order. Contracts see the list.
#[derive(Debug, Drop)]
pub struct Flight {
    pictures: Vec<PicturePlan>,
}

impl Model for Flight {
    ghost use Rattle.std.specs.Prelude.{List};
    ghost use Rattle.plan_types.specs.declared.picture_plan.PicturePlan.{PicturePlan};

    ghost Value = { List PicturePlan };

    ghost view = { λ f. f.pictures.items };
}

impl Flight {
    /// No picture.
    pub(crate) fn new(alloc: Global) -> Flight
        ensures { result ≡ [] }
    {
        Flight {
            pictures: Vec::new(alloc),
        }
    }

    /// Adds a picture at the end. Gives it back where there is no memory for it.
    pub(crate) fn push(&mut self, picture: PicturePlan) -> Result<(), PicturePlan>
        ensures ok { OnOk result (self.new ≡ self.old ++ picture ∷ []) }
        ensures err { OnErr result (self.new ≡ self.old) }
        ensures back { IfErr result (λ p. p ≡ picture) }
    {
        match self.pictures.push(picture) {
            Ok(()) => Ok(()),
            Err(failed) => Err(failed.value),
        }
    }

    /// Takes the first `count` pictures out, as a flight of their own; all where there are no more. `Err` is want of
    /// memory: some of these pictures are then lost, and nothing is said of those that are left.
    pub fn take_first(&mut self, count: usize) -> Result<Flight, AllocError>
        ensures first { IfOk result (λ first. first ≡ take count self.old) }
        ensures left { OnOk result (self.new ≡ drop count self.old) }
    {
        let most = self.pictures.len();
        let mut first = Flight::new(*self.pictures.allocator());
        for _taken in 0..count.min(most) {
            first.pictures.push(self.pictures.remove(0))?;
        }
        Ok(first)
    }

    /// The pictures in decoding order.
    pub fn as_slice(&self) -> &[PicturePlan]
        ensures { result.now ≡ self.now }
    {
        self.pictures.as_slice()
    }

    /// How many pictures there are.
    pub fn len(&self) -> usize
        ensures { result ≡ length self.now }
    {
        self.pictures.len()
    }
}

/// The flights that a call ends, in decoding order, each for another reason. Contracts see the list.
#[derive(Debug, Drop)]
pub struct Flights {
    /// Ended since a picture is of another sequence parameter set.
    changed: Option<Flight>,
    /// Ended since it has as many pictures as a flight may have.
    full: Option<Flight>,
    /// Ended since the stream stops or ends.
    stopped: Option<Flight>,
}

impl Model for Flights {
    ghost use Rattle.std.specs.Prelude.{List, ◌++◌};
    ghost use Rattle.plan_types.specs.declared.picture_plan.PicturePlan.{PicturePlan};
    ghost use Rattle.picture_plan.specs.Flights.{some_flight};

    ghost Value = { List (List PicturePlan) };

    ghost view = { λ f. (some_flight f.changed ++ some_flight f.full) ++ some_flight f.stopped };
}

impl Flights {
    /// These flights.
    pub(crate) fn new(ended: Ended, stopped: Option<Flight>) -> Flights
        ensures { result ≡ (some_flight ended.changed ++ some_flight ended.full) ++ some_flight stopped }
    {
        Flights {
            changed: ended.changed,
            full: ended.full,
            stopped,
        }
    }

    /// Takes the first flight out, if there is one.
    pub fn next(&mut self) -> Option<Flight>
        ensures value { self.old ≡ some_flight result ++ self.new }
        ensures none { result ≡ None → self.old ≡ [] }
    {
        if self.changed.is_some() {
            return self.changed.take();
        }
        if self.full.is_some() {
            return self.full.take();
        }
        self.stopped.take()
    }
}

/// The flights that a picture ends.
#[derive(Drop)]
pub(crate) struct Ended {
    /// Since it is of another sequence parameter set.
    pub changed: Option<Flight>,
    /// Since the flight has as many pictures as a flight may have.
    pub full: Option<Flight>,
}
