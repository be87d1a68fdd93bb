//! The pictures of one buffer by name.

ghost use Rattle.std.specs.Prelude.{◌≡◌, ◌++◌, ◌∷◌, [], IfOk, OnOk, map, if◌then◌else◌};
ghost use Rattle.std.specs.List.{range_with_len};
ghost use Rattle.flight_plan.specs.declared.row_range.Reference.TheVariants.{Base, Flight};
ghost use Rattle.spec_flights.specs.SpecDecoderDecoder.{is_among};
ghost use Rattle.spec_flights.specs.References.{staying};

use flight_plan::Reference;
use std::alloc::{AllocError, Global};
use std::marker::Model;

/// The pictures of a decoded picture buffer, by name. Contracts see the list.
#[derive(Drop)]
pub struct BufferNames {
    names: Vec<Reference>,
}

impl Model for BufferNames {
    ghost use Rattle.std.specs.Prelude.{List};
    ghost use Rattle.flight_plan.specs.declared.row_range.Reference.{Reference};

    ghost Value = { List Reference };

    ghost view = { λ b. b.names.items };
}

impl BufferNames {
    /// The buffer before the first picture of a flight, of so many pictures.
    pub(crate) fn of_bases(alloc: Global, bases: u32) -> Result<BufferNames, AllocError>
        ensures { IfOk result (λ names. names ≡ map Base (range_with_len 0 bases)) }
    {
        let mut names = Vec::new(alloc);
        for place in 0..bases {
            names.push(Reference::Base(place))?;
        }
        Ok(BufferNames { names })
    }

    /// The buffer behind the picture at a place of the flight: it stands behind the last, and those at the places
    /// `kept` stay.
    pub(crate) fn behind(
        &self,
        alloc: Global,
        picture: u32,
        kept: &[u32],
    ) -> Result<BufferNames, AllocError>
        ensures { IfOk result (λ names. names ≡ staying kept.now 0 (self.now ++ Flight picture ∷ [])) }
    {
        let mut names = Vec::new(alloc);
        for place in 0..self.names.len() {
            keep(&mut names, self.names[place], kept, place)?;
        }
        keep(
            &mut names,
            Reference::Flight(picture),
            kept,
            self.names.len(),
        )?;
        Ok(BufferNames { names })
    }

    /// The names, in the buffer's order.
    pub fn as_slice(&self) -> &[Reference]
        ensures { result.now ≡ self.now }
    {
        self.names.as_slice()
    }
}

/// A name stands behind others, if its place is one of these.
fn keep(
    names: &mut Vec<Reference>,
    name: Reference,
    kept: &[u32],
    place: usize,
) -> Result<(), AllocError>
    ensures { OnOk result (names.new.items
        ≡ (if is_among kept.now place then names.old.items ++ name ∷ [] else names.old.items)) }
{
    if is_among(kept, place) {
        names.push(name)?;
    }
    Ok(())
}

/// Whether a place is one of these.
fn is_among(places: &[u32], place: usize) -> bool
    ensures { result ≡ is_among places.now place }
{
    places.iter().any(|other| *other as usize == place)
}
