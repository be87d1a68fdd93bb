//! Rows that are spoiled at their last unit.

ghost use Rattle.std.specs.Prelude.{◌≡◌, ◌+◌, ◌*◌, ◌<◌, ◌≤◌, ◌++◌, true, [], length, IfOk};
ghost use Rattle.std.specs.List.{All};
ghost use Rattle.cabac_writer.specs.Coding.{no_bins, with_words};
ghost use Rattle.cabac_writer.specs.Pulses.{contexts_behind};
ghost use Rattle.spec_made.specs.InterRows.{words_from};
ghost use Rattle.spec_made.specs.PcmRows.{parts_from, contexts_behind_parts};
ghost use Rattle.spec_made.specs.Bends.{bare_words, bent_end, bent_inter_bytes, bent_pcm_bytes};
ghost use Rattle.made_rows.specs.Small.{AreSmall};

use crate::bin_writer::BinWriter;
use crate::inter_rows::{write_bare, write_end, write_from};
use crate::pcm_rows::append_from;
use crate::row::Row;
use spec_made::{BendKind, InterUnit, Motion, PcmUnit};
use std::alloc::{AllocError, Global};

/// Ends a row behind all bins that stand before the end_of_slice_segment_flag of its last unit.
fn end_bent(writer: BinWriter, i: usize, kind: BendKind) -> Result<Vec<u8>, AllocError>
    ensures { IfOk result (λ bytes. bytes.items ≡ bent_end kind i writer) }
{
    let mut writer = writer;
    match kind {
        BendKind::Byte => {
            write_end(&mut writer, i)?;
            let mut bytes = writer.end()?;
            bytes.push(255)?;
            Ok(bytes)
        }
        BendKind::Subset => {
            write_end(&mut writer, i)?;
            writer.go_on()?;
            writer.leave()
        }
        BendKind::Slice => writer.end(),
    }
}

/// The substream of row `r` of a P or B picture, spoiled, from the contexts before it.
#[tactic(auto, using(crate::proofs::Words::row_front))]
pub fn bent_inter_row(
    alloc: Global,
    kind: BendKind,
    motion: Motion,
    units: &[InterUnit],
    r: usize,
    contexts: [u8; 154],
) -> Result<Row, AllocError>
    requires row { r < 6 }
    requires units { length units.now ≡ 48 }
    requires motion { AreSmall motion }
    requires contexts { All (λ context. context < 126) contexts }
    ensures bytes { IfOk result (λ row. row.bytes.items ≡ bent_inter_bytes kind motion units.now r contexts) }
    ensures behind { IfOk result (λ row. row.contexts
        ≡ contexts_behind (words_from motion units.now (8 * r) 2) contexts) }
    ensures small { IfOk result (λ row. All (λ context. context < 126) row.contexts) }
{
    let mut writer = BinWriter::new(alloc, contexts);
    write_from(&mut writer, motion, units, 8 * r, 2)?;
    let behind = writer.contexts();
    write_from(&mut writer, motion, units, 8 * r + 2, 5)?;
    write_bare(&mut writer, motion, units, 8 * r + 7)?;
    let bytes = end_bent(writer, 8 * r + 7, kind)?;
    Ok(Row {
        bytes,
        contexts: behind,
    })
}

/// The last bytes of row `r` of an IDR picture, spoiled.
fn last_bent(
    alloc: Global,
    kind: BendKind,
    r: usize,
    contexts: [u8; 154],
) -> Result<Vec<u8>, AllocError>
    requires row { r < 6 }
    requires contexts { All (λ context. context < 126) contexts }
    ensures { IfOk result (λ bytes. bytes.items ≡ bent_end kind (8 * r + 7) (no_bins, contexts)) }
{
    end_bent(BinWriter::new(alloc, contexts), 8 * r + 7, kind)
}

/// The substream of row `r` of an IDR picture, spoiled, from the contexts before it.
pub fn bent_pcm_row(
    alloc: Global,
    kind: BendKind,
    units: &[PcmUnit],
    r: usize,
    contexts: [u8; 154],
) -> Result<Row, AllocError>
    requires row { r < 6 }
    requires units { length units.now ≡ 48 }
    requires contexts { All (λ context. context < 126) contexts }
    ensures bytes { IfOk result (λ row. row.bytes.items ≡ bent_pcm_bytes kind units.now r contexts) }
    ensures behind { IfOk result (λ row. row.contexts
        ≡ contexts_behind_parts (parts_from units.now (8 * r) 2 []) contexts) }
    ensures small { IfOk result (λ row. All (λ context. context < 126) row.contexts) }
{
    let mut bytes = Vec::new(alloc);
    let behind = append_from(alloc, &mut bytes, contexts, units, 8 * r, 2, false)?;
    let last = append_from(alloc, &mut bytes, behind, units, 8 * r + 2, 6, true)?;
    let end = last_bent(alloc, kind, r, last)?;
    bytes.extend_from_slice(end.as_slice())?;
    Ok(Row {
        bytes,
        contexts: behind,
    })
}
