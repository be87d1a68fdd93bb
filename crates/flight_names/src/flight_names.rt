//! The pictures of the buffers of a flight by name.

ghost use Rattle.std.specs.Prelude.{◌≡◌, ◌<◌, ◌≤◌, ◌++◌, ◌∷◌, [], IfOk, length, slice_index_or};
ghost use Rattle.flight_plan.specs.declared.row_range.Reference.TheVariants.{Flight};
ghost use Rattle.spec_flights.specs.References.{staying};
ghost use Rattle.flight_names.specs.Names.{all_names};

use crate::buffer_names::BufferNames;
use flight_plan::Reference;
use plan_types::PicturePlan;
use std::alloc::{AllocError, Global};
use std::marker::Model;

/// The pictures of the decoded picture buffer before each picture of a flight, by name. Contracts see a list of lists.
#[derive(Drop)]
pub struct FlightNames {
    pictures: Vec<BufferNames>,
}

impl Model for FlightNames {
    ghost use Rattle.std.specs.Prelude.{List};
    ghost use Rattle.flight_plan.specs.declared.row_range.Reference.{Reference};

    ghost Value = { List (List Reference) };

    ghost view = { λ f. f.pictures.items };
}

impl FlightNames {
    /// Those of a flight of these pictures behind so many others. `Err` is want of memory, and no other call takes any.
    pub fn new(
        alloc: Global,
        pictures: &[PicturePlan],
        bases: u32,
    ) -> Result<FlightNames, AllocError>
        requires { length pictures.now ≤ 65536 }
        ensures { IfOk result (λ names. names ≡ all_names pictures.now bases) }
    {
        let mut buffer = BufferNames::of_bases(alloc, bases)?;
        let mut names = Vec::new(alloc);
        for place in 0..pictures.len() {
            let next = next_buffer(alloc, &buffer, place, &pictures[place])?;
            names.push(buffer)?;
            buffer = next;
        }
        Ok(FlightNames { pictures: names })
    }

    /// Those before the picture at a place; none where there is no picture.
    pub fn before(&self, place: usize) -> &[Reference]
        ensures { result.now ≡ slice_index_or self.now place [] }
    {
        match self.pictures.get(place) {
            Some(names) => names.as_slice(),
            None => &[],
        }
    }
}

/// The buffer behind the picture at a place.
fn next_buffer(
    alloc: Global,
    buffer: &BufferNames,
    place: usize,
    plan: &PicturePlan,
) -> Result<BufferNames, AllocError>
    requires { place < 65536 }
    ensures { IfOk result (λ next. next ≡ staying plan.now.outputs.kept 0 (buffer.now ++ Flight place ∷ [])) }
{
    buffer.behind(alloc, place as u32, plan.outputs.kept.as_slice())
}
