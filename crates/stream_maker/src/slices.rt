//! The substreams of slices, and where they begin.

ghost use Rattle.std.specs.Prelude.{◌≡◌, ◌+◌, ◌*◌, ◌++◌, ◌<◌, ◌≤◌, [], drop, length, map, IfOk, OnOk};
ghost use Rattle.std.specs.List.{All, range_with_len};
ghost use Rattle.std.specs.Prelude.{pos};
ghost use Rattle.spec_cabac.specs.Contexts.{first_contexts, contexts_of};
ghost use Rattle.spec_made.specs.Headers.{offset_of, entries_of, rows_of};
ghost use Rattle.cabac_writer.specs.Pulses.{contexts_behind};
ghost use Rattle.spec_made.specs.InterRows.{words_from, contexts_at, contexts_of_motion, init_type};
ghost use Rattle.spec_made.specs.PcmRows.{parts_from, contexts_behind_parts, pcm_contexts_at};
ghost use Rattle.spec_made.specs.Bends.{bend_at, inter_row_by, pcm_row_by};
ghost use Rattle.made_rows.specs.Small.{AreSmall};

use crate::escaping::append_escaped;
use made_rows::{Row, bent_inter_row, bent_pcm_row, inter_row, pcm_row};
use spec_cabac::{INIT_VALUES, initial_context};
use spec_made::{Bend, BendKind, InterUnit, Motion, PcmUnit, Shift};
use std::alloc::{AllocError, Global};

/// The substreams of a slice, and where each but the first begins.
#[derive(Debug, Drop)]
pub struct SliceData {
    /// The bytes of all rows.
    pub bytes: Vec<u8>,
    /// entry_point_offset_minus1 of each row but the last.
    pub offsets: Vec<u32>,
}

/// entry_point_offset_minus1 of a row.
fn offset_of(alloc: Global, row: &[u8]) -> Result<u32, AllocError>
    ensures { IfOk result (λ offset. offset ≡ offset_of row.now) }
{
    let mut escaped = Vec::new(alloc);
    append_escaped(&mut escaped, 1, 1, row)?;
    Ok((escaped.len().saturating_sub(1) % 4294967296) as u32)
}

/// That of the row that begins behind so many bytes.
fn offset_behind(alloc: Global, bytes: &[u8], before: usize) -> Result<u32, AllocError>
    requires { before ≤ length bytes.now }
    ensures { IfOk result (λ offset. offset ≡ offset_of (drop before bytes.now)) }
{
    offset_of(alloc, &bytes[before..])
}

/// How a row of a picture is spoiled, if it is: by the first bend that names it.
fn bend_at(bends: &[Bend], picture: u32, row: usize) -> Option<BendKind>
    ensures { result ≡ bend_at bends.now picture row }
{
    for k in 0..bends.len() {
        let bend = bends[k];
        if bend.picture == picture && bend.row as usize == row {
            return Some(bend.kind);
        }
    }
    None
}

/// A row of a P or B picture, spoiled or not.
#[tactic(auto, unfolding(spec_made::specs::InterRows::inter_row))]
fn inter_row_by(
    alloc: Global,
    bend: Option<BendKind>,
    motion: Motion,
    units: &[InterUnit],
    r: usize,
    contexts: [u8; 154],
) -> Result<Row, AllocError>
    requires row { r < 6 }
    requires units { length units.now ≡ 48 }
    requires motion { AreSmall motion }
    requires is { contexts ≡ contexts_at (contexts_of_motion motion) motion units.now r }
    requires contexts { All (λ context. context < 126) contexts }
    ensures bytes { IfOk result (λ row. row.bytes.items ≡ inter_row_by bend motion units.now r) }
    ensures behind { IfOk result (λ row. row.contexts
        ≡ contexts_behind (words_from motion units.now (8 * r) 2) contexts) }
    ensures small { IfOk result (λ row. All (λ context. context < 126) row.contexts) }
{
    match bend {
        None => inter_row(alloc, motion, units, r, contexts),
        Some(kind) => bent_inter_row(alloc, kind, motion, units, r, contexts),
    }
}

/// A row of an IDR picture, spoiled or not.
#[tactic(auto, unfolding(spec_made::specs::PcmRows::pcm_row))]
fn pcm_row_by(
    alloc: Global,
    bend: Option<BendKind>,
    units: &[PcmUnit],
    r: usize,
    contexts: [u8; 154],
) -> Result<Row, AllocError>
    requires row { r < 6 }
    requires units { length units.now ≡ 48 }
    requires is { contexts ≡ pcm_contexts_at units.now r }
    requires contexts { All (λ context. context < 126) contexts }
    ensures bytes { IfOk result (λ row. row.bytes.items ≡ pcm_row_by bend units.now r) }
    ensures behind { IfOk result (λ row. row.contexts
        ≡ contexts_behind_parts (parts_from units.now (8 * r) 2 []) contexts) }
    ensures small { IfOk result (λ row. All (λ context. context < 126) row.contexts) }
{
    match bend {
        None => pcm_row(alloc, units, r, contexts),
        Some(kind) => bent_pcm_row(alloc, kind, units, r, contexts),
    }
}

/// Appends a row, and answers the contexts that the next one begins with.
#[tactic(auto, unfolding(spec_made::specs::InterRows::contexts_at))]
fn append_inter_row(
    alloc: Global,
    bytes: &mut Vec<u8>,
    bend: Option<BendKind>,
    motion: Motion,
    units: &[InterUnit],
    r: usize,
    contexts: [u8; 154],
) -> Result<[u8; 154], AllocError>
    requires row { r < 6 }
    requires units { length units.now ≡ 48 }
    requires motion { AreSmall motion }
    requires is { contexts ≡ contexts_at (contexts_of_motion motion) motion units.now r }
    requires contexts { All (λ context. context < 126) contexts }
    ensures bytes { OnOk result (bytes.new.items ≡ bytes.old.items ++ inter_row_by bend motion units.now r) }
    ensures behind { IfOk result (λ behind. behind
        ≡ contexts_at (contexts_of_motion motion) motion units.now (r + 1)) }
    ensures small { IfOk result (All (λ context. context < 126)) }
{
    let row = inter_row_by(alloc, bend, motion, units, r, contexts)?;
    bytes.extend_from_slice(row.bytes.as_slice())?;
    Ok(row.contexts)
}

/// The same of a row of an IDR picture.
#[tactic(auto, unfolding(spec_made::specs::PcmRows::pcm_contexts_at))]
fn append_pcm_row(
    alloc: Global,
    bytes: &mut Vec<u8>,
    bend: Option<BendKind>,
    units: &[PcmUnit],
    r: usize,
    contexts: [u8; 154],
) -> Result<[u8; 154], AllocError>
    requires row { r < 6 }
    requires units { length units.now ≡ 48 }
    requires is { contexts ≡ pcm_contexts_at units.now r }
    requires contexts { All (λ context. context < 126) contexts }
    ensures bytes { OnOk result (bytes.new.items ≡ bytes.old.items ++ pcm_row_by bend units.now r) }
    ensures behind { IfOk result (λ behind. behind ≡ pcm_contexts_at units.now (r + 1)) }
    ensures small { IfOk result (All (λ context. context < 126)) }
{
    let row = pcm_row_by(alloc, bend, units, r, contexts)?;
    bytes.extend_from_slice(row.bytes.as_slice())?;
    Ok(row.contexts)
}

/// The contexts of these initValues at QP 26.
fn initialized(init_values: [u8; 154]) -> [u8; 154]
    ensures value { result ≡ contexts_of 26 init_values }
    ensures small { All (λ context. context < 126) result }
{
    let mut values = [0; 154];
    for i in 0..154usize {
        values[i] = initial_context(26, init_values[i]);
    }
    values
}

/// The first contexts of a slice of QP 26.
#[tactic(auto, unfolding(spec_cabac::specs::Contexts::first_contexts))]
fn first_contexts(init_type: u32) -> [u8; 154]
    requires { init_type < 3 }
    ensures value { result ≡ first_contexts (pos 26) init_type }
    ensures small { All (λ context. context < 126) result }
{
    initialized(INIT_VALUES[init_type as usize])
}

/// initType of a P picture, or of a B picture.
fn init_type(second: Option<Shift>) -> u32
    ensures value { result ≡ init_type second }
    ensures small { result < 3 }
{
    match second {
        None => 1,
        Some(_) => 2,
    }
}

/// The substreams of the P or B picture of a number.
pub fn inter_data(
    alloc: Global,
    bends: &[Bend],
    picture: u32,
    motion: Motion,
    units: &[InterUnit],
) -> Result<SliceData, AllocError>
    requires units { length units.now ≡ 48 }
    requires motion { AreSmall motion }
    ensures bytes { IfOk result (λ made. made.bytes.items
        ≡ rows_of (λ r. inter_row_by (bend_at bends.now picture r) motion units.now r) 6) }
    ensures offsets { IfOk result (λ made. made.offsets.items
        ≡ entries_of (λ r. inter_row_by (bend_at bends.now picture r) motion units.now r)) }
{
    let mut contexts = first_contexts(init_type(motion.second));
    let mut bytes = Vec::new(alloc);
    let mut offsets = Vec::new(alloc);
    for r in 0..5usize {
        let before = bytes.len();
        let bend = bend_at(bends, picture, r);
        contexts = append_inter_row(alloc, &mut bytes, bend, motion, units, r, contexts)?;
        offsets.push(offset_behind(alloc, bytes.as_slice(), before)?)?;
    }
    let bend = bend_at(bends, picture, 5);
    contexts = append_inter_row(alloc, &mut bytes, bend, motion, units, 5, contexts)?;
    Ok(SliceData { bytes, offsets })
}

/// The substreams of the IDR picture of a number.
pub fn pcm_data(
    alloc: Global,
    bends: &[Bend],
    picture: u32,
    units: &[PcmUnit],
) -> Result<SliceData, AllocError>
    requires { length units.now ≡ 48 }
    ensures bytes { IfOk result (λ made. made.bytes.items
        ≡ rows_of (λ r. pcm_row_by (bend_at bends.now picture r) units.now r) 6) }
    ensures offsets { IfOk result (λ made. made.offsets.items
        ≡ entries_of (λ r. pcm_row_by (bend_at bends.now picture r) units.now r)) }
{
    let mut contexts = first_contexts(0);
    let mut bytes = Vec::new(alloc);
    let mut offsets = Vec::new(alloc);
    for r in 0..5usize {
        let before = bytes.len();
        let bend = bend_at(bends, picture, r);
        contexts = append_pcm_row(alloc, &mut bytes, bend, units, r, contexts)?;
        offsets.push(offset_behind(alloc, bytes.as_slice(), before)?)?;
    }
    let bend = bend_at(bends, picture, 5);
    contexts = append_pcm_row(alloc, &mut bytes, bend, units, 5, contexts)?;
    Ok(SliceData { bytes, offsets })
}
