//! Streams that are made of a seed.

use crate::byte_text::number_of;
use crate::ends::ROOM;
use crate::row_error::RowError;
use hv_base::Outcome;
use hv_io::MemSink;
use std::alloc::Global;
use stream_maker::{Bend, BendKind, make, make_bent};

/// The bytes of a stream `made SEED COUNT`, of so many pictures, or `bent SEED COUNT PICTURE/ROW/KIND ..`, in which
/// rows are spoiled; `None` where the text is of another kind.
pub(crate) fn stream_of_seed(alloc: Global, text: &str) -> Result<Option<Vec<u8>>, RowError> {
    match text.split_once(' ') {
        Some(("made", rest)) => Ok(Some(made_stream(alloc, rest)?)),
        Some(("bent", rest)) => Ok(Some(bent_stream(alloc, rest)?)),
        _ => Ok(None),
    }
}

/// The stream of a seed with so many pictures.
pub(crate) fn made_stream(alloc: Global, text: &str) -> Result<Vec<u8>, RowError> {
    let mut words = text.split(' ');
    let seed = number_of(words.next().unwrap_or(""))?;
    let count = number_of(words.next().unwrap_or(""))?;
    let mut out = MemSink::new(alloc, ROOM, ROOM, &[])?;
    let outcome = make(alloc, u64::from(seed), count, &mut out);
    bytes_behind(alloc, outcome, &out)
}

/// The same, but that pictures stand still and rows are spoiled.
fn bent_stream(alloc: Global, text: &str) -> Result<Vec<u8>, RowError> {
    let mut words = text.split(' ');
    let seed = number_of(words.next().unwrap_or(""))?;
    let count = number_of(words.next().unwrap_or(""))?;
    let mut bends = Vec::new(alloc);
    for word in words {
        bends.push(bend_of(word)?)?;
    }
    let mut out = MemSink::new(alloc, ROOM, ROOM, &[])?;
    let outcome = make_bent(alloc, u64::from(seed), count, bends.as_slice(), &mut out);
    bytes_behind(alloc, outcome, &out)
}

/// The bytes of a stream that is made.
fn bytes_behind(alloc: Global, outcome: Outcome, out: &MemSink<'_>) -> Result<Vec<u8>, RowError> {
    match outcome {
        Outcome::Ok => Ok(Vec::from_slice(alloc, out.bytes())?),
        _ => Err(RowError::Unreadable),
    }
}

/// The picture, the row and the kind of a row that is spoiled.
fn bend_of(word: &str) -> Result<Bend, RowError> {
    let mut parts = word.split('/');
    let picture = number_of(parts.next().unwrap_or(""))?;
    let row = number_of(parts.next().unwrap_or(""))?;
    let kind = kind_of(parts.next().unwrap_or(""))?;
    Ok(Bend { picture, row, kind })
}

/// How a row is spoiled.
fn kind_of(name: &str) -> Result<BendKind, RowError> {
    match name {
        "Byte" => Ok(BendKind::Byte),
        "Subset" => Ok(BendKind::Subset),
        "Slice" => Ok(BendKind::Slice),
        _ => Err(RowError::Unreadable),
    }
}
