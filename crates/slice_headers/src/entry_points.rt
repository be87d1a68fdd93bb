//! The substreams of slice segment data (7.4.7.1).

ghost use Rattle.spec_slice_headers.specs.Substreams.{
  IsInside,
  bytes_of,
  data_size,
  payload_before,
  put_back,
  range_between,
  range_from,
  substream_ranges,
  substreams,
  unit_place,
};
ghost use Rattle.std.specs.Prelude.{◌≡◌, ◌+◌, ◌≤◌, ◌<◌, All, IfOk, length, map, min};

use header_types::FieldList;
use hv_base::BytePlaces;
use slice_types::Substream;
use std::alloc::{AllocError, Global};

// How many bytes of the payload stand before a place of the unit.
fn payload_before(removed: &BytePlaces, place: usize) -> usize
    ensures { result ≡ payload_before removed.now place }
{
    let before = removed.count_before(place);
    place.saturating_sub(2).saturating_sub(before)
}

// Where a byte stands once the byte that was removed at a place is put back.
fn put_back(place: usize, removed: u32) -> usize
    requires { place < usize.MAX }
    ensures value { result ≡ put_back place removed }
    ensures next { result ≤ place + 1 }
{
    if removed as usize <= place {
        place + 1
    } else {
        place
    }
}

// The place in the unit of a byte of the payload.
fn unit_place(removed: &[u32], i: usize) -> usize
    requires { i + 2 + length removed.now ≤ usize.MAX }
    ensures value { result ≡ unit_place removed.now i }
    ensures near { result ≤ i + 2 + length removed.now }
{
    let mut place = i + 2;
    for r in removed {
        place = put_back(place, *r);
    }
    place
}

// The place in the unit behind its last byte.
fn unit_end(payload: &[u8], removed: &BytePlaces) -> usize
    ensures value { result ≡ 2 + length payload.now + length removed.now }
    ensures few { result + 2 + length removed.now ≤ usize.MAX }
{
    2 + payload.len() + removed.as_slice().len()
}

// The place in the unit of a byte of the payload, or `end` where that place is behind it.
#[tactic(auto, using(crate::proofs::UnitPlaces::up_to))]
fn place_up_to(removed: &BytePlaces, i: usize, end: usize) -> usize
    requires { end + 2 + length removed.now ≤ usize.MAX }
    ensures { result ≡ min (unit_place removed.now i) end }
{
    unit_place(removed.as_slice(), i.min(end)).min(end)
}

// The place so many bytes behind another, or `end` where that place is behind it.
fn next_place(place: usize, offset: u64, end: usize) -> usize
    ensures { result ≡ min (place + offset) end }
{
    place.saturating_add(offset as usize).min(end)
}

/// How many bytes of the NAL unit, as it stands in the stream, the slice segment data have that begin at the byte
/// `first` of its payload: the emulation prevention bytes behind that byte are among them. `removed` has the places
/// in the unit of its emulation prevention bytes.
#[tactic(auto, unfolding(spec_slice_headers::specs::Substreams::data_size))]
pub fn data_size(payload: &[u8], removed: &BytePlaces, first: usize) -> usize
    ensures { result ≡ data_size payload.now removed.now first }
{
    let end = unit_end(payload, removed);
    end - place_up_to(removed, first, end)
}

// The range of the payload from one place of the unit to another.
fn range_between(payload: &[u8], removed: &BytePlaces, from: usize, to: usize) -> Substream
    ensures { result ≡ range_between payload.now removed.now from to }
{
    let end = payload_before(removed, to).min(payload.len());
    Substream {
        start: payload_before(removed, from).min(end),
        end,
    }
}

// The range of the payload from a place of the unit on.
fn range_from(payload: &[u8], removed: &BytePlaces, from: usize) -> Substream
    ensures { result ≡ range_from payload.now removed.now from }
{
    Substream {
        start: payload_before(removed, from).min(payload.len()),
        end: payload.len(),
    }
}

/// The substreams of the slice segment data that begin at the byte `first` of a payload, as ranges of the payload: for
/// any data, since a place behind the payload's end gives its end. `offsets` says how many bytes of the NAL unit, as it
/// stands in the stream, each substream but the last has, and `removed` has the places in the unit of its emulation
/// prevention bytes. They are gone over once, for the first place; each later one is searched among them by halves.
pub fn substreams(
    alloc: Global,
    payload: &[u8],
    removed: &BytePlaces,
    first: usize,
    offsets: &[u64],
) -> Result<FieldList<Substream>, AllocError>
    ensures ranges { IfOk result (λ s. s ≡ substream_ranges payload.now removed.now first offsets.now) }
    ensures value { IfOk result
        (λ s. map (bytes_of payload.now) s ≡ substreams payload.now removed.now first offsets.now) }
    ensures inside { IfOk result (All (IsInside payload.now)) }
{
    let end = unit_end(payload, removed);
    let mut found = FieldList::new(alloc);
    let mut place = place_up_to(removed, first, end);
    for offset in offsets {
        let next = next_place(place, *offset, end);
        found.push(range_between(payload, removed, place, next))?;
        place = next;
    }
    found.push(range_from(payload, removed, place))?;
    Ok(found)
}
