//! Rows of coding tree units by pulse code modulation.

ghost use Rattle.std.specs.Prelude.{◌≡◌, ◌+◌, ◌*◌, ◌<◌, ◌≤◌, true, false, [], ◌∷◌, ◌++◌, length, get_or, OnOk, IfOk};
ghost use Rattle.std.specs.List.{All};
ghost use Rattle.cabac_writer.specs.Coding.{no_bins, with_words, with_terminate, flushed_bits};
ghost use Rattle.cabac_writer.specs.Pulses.{contexts_behind};
ghost use Rattle.spec_made.specs.InterRows.{beside};
ghost use Rattle.spec_made.specs.Written.{bytes_of, section_bytes};
ghost use Rattle.spec_made.specs.PcmRows.{no_samples, split_left, split_above, whole_word, quarter_of, split_word};
ghost use Rattle.spec_made.specs.PcmRows.{later_parts, split_parts, parts_of, parts_from, bytes_of_part, part_bytes};
ghost use Rattle.spec_made.specs.PcmRows.{contexts_behind_parts};
ghost use Rattle.spec_made.specs.PcmRows.{row_bytes};
ghost use Rattle.spec_made.specs.InterRows.{end_words};
ghost use Rattle.made_rows.specs.Small.{before_words};

use crate::bin_writer::BinWriter;
use crate::inter_rows::write_end;
use crate::row::Row;
use spec_cabac::{PART_MODE, SPLIT_CU_FLAG};
use spec_made::PcmUnit;
use std::alloc::{AllocError, Global};

/// Whether the unit on the left is split.
fn split_left(units: &[PcmUnit], i: usize) -> bool
    requires { i < length units.now }
    ensures { result ≡ split_left units.now i }
{
    i % 8 != 0 && units[i - 1].split
}

/// Whether the unit above is split.
fn split_above(units: &[PcmUnit], i: usize) -> bool
    requires { i < length units.now }
    ensures { result ≡ split_above units.now i }
{
    i >= 8 && units[i - 8].split
}

/// How many of them are.
fn split_beside(units: &[PcmUnit], i: usize) -> usize
    requires { i < length units.now }
    ensures value { result ≡ beside (split_left units.now i) (split_above units.now i) }
    ensures small { result ≤ 2 }
{
    usize::from(split_left(units, i)) + usize::from(split_above(units, i))
}

/// Ends the bins, and appends their bytes and the samples behind them.
fn append_section(row: &mut Vec<u8>, writer: BinWriter, samples: &[u8]) -> Result<(), AllocError>
    ensures { OnOk result (row.new.items
        ≡ row.old.items ++ (bytes_of (flushed_bits (with_terminate writer.0 true)) ++ samples.now)) }
{
    let bytes = writer.end()?;
    row.extend_from_slice(bytes.as_slice())?;
    row.extend_from_slice(samples)?;
    Ok(())
}

/// end_of_slice_segment_flag of the unit before, if there is one in its row.
fn write_before(writer: &mut BinWriter, follows: bool) -> Result<(), AllocError>
    ensures { OnOk result (writer.new ≡ with_words writer.old (before_words follows)) }
{
    if follows { writer.go_on() } else { Ok(()) }
}

/// Appends a unit of one coding unit, and answers the contexts behind it.
#[tactic(auto, using(crate::proofs::Words::with_words_append), unfolding(cabac_writer::specs::Pulses::section_bits))]
fn append_whole(
    alloc: Global,
    row: &mut Vec<u8>,
    contexts: [u8; 154],
    units: &[PcmUnit],
    i: usize,
    follows: bool,
) -> Result<[u8; 154], AllocError>
    requires inside { i < length units.now }
    requires contexts { All (λ context. context < 126) contexts }
    ensures bytes { OnOk result (row.new.items ≡ row.old.items
        ++ (section_bytes (before_words follows ++ split_word units.now i false) contexts
        ++ (get_or units.now i no_samples).samples)) }
    ensures behind { IfOk result (λ behind. behind
        ≡ contexts_behind (before_words follows ++ split_word units.now i false) contexts) }
    ensures small { IfOk result (All (λ context. context < 126)) }
{
    let mut writer = BinWriter::new(alloc, contexts);
    write_before(&mut writer, follows)?;
    writer.decision(SPLIT_CU_FLAG + split_beside(units, i), false)?;
    let behind = writer.contexts();
    append_section(row, writer, &units[i].samples)?;
    Ok(behind)
}

/// The samples of a coding unit of a unit that is split.
fn quarter_of(samples: &[u8], q: usize) -> &[u8]
    requires length { length samples.now ≡ 384 }
    requires quarter { q < 4 }
    ensures { result.now ≡ quarter_of samples.now q }
{
    &samples[96 * q..96 * q + 96]
}

/// Appends the first coding unit of a unit that is split.
#[tactic(auto, using(crate::proofs::Words::with_words_append), unfolding(cabac_writer::specs::Pulses::section_bits))]
fn append_first(
    alloc: Global,
    row: &mut Vec<u8>,
    contexts: [u8; 154],
    units: &[PcmUnit],
    i: usize,
    follows: bool,
) -> Result<[u8; 154], AllocError>
    requires inside { i < length units.now }
    requires contexts { All (λ context. context < 126) contexts }
    ensures bytes { OnOk result (row.new.items ≡ row.old.items
        ++ (section_bytes (before_words follows ++ (split_word units.now i true ++ whole_word)) contexts
        ++ quarter_of (get_or units.now i no_samples).samples 0)) }
    ensures behind { IfOk result (λ behind. behind
        ≡ contexts_behind (before_words follows ++ (split_word units.now i true ++ whole_word)) contexts) }
    ensures small { IfOk result (All (λ context. context < 126)) }
{
    let mut writer = BinWriter::new(alloc, contexts);
    write_before(&mut writer, follows)?;
    writer.decision(SPLIT_CU_FLAG + split_beside(units, i), true)?;
    writer.decision(PART_MODE, true)?;
    let behind = writer.contexts();
    append_section(row, writer, quarter_of(&units[i].samples, 0))?;
    Ok(behind)
}

/// Appends a later one.
#[tactic(auto, unfolding(cabac_writer::specs::Pulses::section_bits))]
fn append_later(
    alloc: Global,
    row: &mut Vec<u8>,
    contexts: [u8; 154],
    samples: &[u8],
) -> Result<[u8; 154], AllocError>
    requires contexts { All (λ context. context < 126) contexts }
    ensures bytes { OnOk result (row.new.items ≡ row.old.items ++ (section_bytes whole_word contexts ++ samples.now)) }
    ensures behind { IfOk result (λ behind. behind ≡ contexts_behind whole_word contexts) }
    ensures small { IfOk result (All (λ context. context < 126)) }
{
    let mut writer = BinWriter::new(alloc, contexts);
    writer.decision(PART_MODE, true)?;
    let behind = writer.contexts();
    append_section(row, writer, samples)?;
    Ok(behind)
}

/// Appends the three later ones.
#[tactic(auto, using(crate::proofs::Words::appended))]
fn append_three(
    alloc: Global,
    row: &mut Vec<u8>,
    contexts: [u8; 154],
    samples: &[u8],
) -> Result<[u8; 154], AllocError>
    requires length { length samples.now ≡ 384 }
    requires contexts { All (λ context. context < 126) contexts }
    ensures bytes { OnOk result (row.new.items ≡ row.old.items ++ part_bytes (later_parts samples.now) contexts) }
    ensures behind { IfOk result (λ behind. behind ≡ contexts_behind_parts (later_parts samples.now) contexts) }
    ensures small { IfOk result (All (λ context. context < 126)) }
{
    let second = append_later(alloc, row, contexts, quarter_of(samples, 1))?;
    let third = append_later(alloc, row, second, quarter_of(samples, 2))?;
    let fourth = append_later(alloc, row, third, quarter_of(samples, 3))?;
    Ok(fourth)
}

/// Appends a unit of four coding units, and answers the contexts behind it.
#[tactic(auto, using(crate::proofs::Words::appended))]
fn append_quarters(
    alloc: Global,
    row: &mut Vec<u8>,
    contexts: [u8; 154],
    units: &[PcmUnit],
    i: usize,
    follows: bool,
) -> Result<[u8; 154], AllocError>
    requires inside { i < length units.now }
    requires contexts { All (λ context. context < 126) contexts }
    ensures bytes { OnOk result (row.new.items ≡ row.old.items
        ++ part_bytes (split_parts units.now i (get_or units.now i no_samples) (before_words follows)) contexts) }
    ensures behind { IfOk result (λ behind. behind
        ≡ contexts_behind_parts (split_parts units.now i (get_or units.now i no_samples) (before_words follows))
        contexts) }
    ensures small { IfOk result (All (λ context. context < 126)) }
{
    let behind = append_first(alloc, row, contexts, units, i, follows)?;
    let last = append_three(alloc, row, behind, &units[i].samples)?;
    Ok(last)
}

/// Appends a unit, and answers the contexts behind it.
#[tactic(auto, using(crate::proofs::Words::appended))]
fn append_unit(
    alloc: Global,
    row: &mut Vec<u8>,
    contexts: [u8; 154],
    units: &[PcmUnit],
    i: usize,
    follows: bool,
) -> Result<[u8; 154], AllocError>
    requires inside { i < length units.now }
    requires contexts { All (λ context. context < 126) contexts }
    ensures bytes { OnOk result (row.new.items ≡ row.old.items
        ++ part_bytes (parts_of units.now i (get_or units.now i no_samples) (before_words follows)) contexts) }
    ensures behind { IfOk result (λ behind. behind
        ≡ contexts_behind_parts (parts_of units.now i (get_or units.now i no_samples) (before_words follows))
        contexts) }
    ensures small { IfOk result (All (λ context. context < 126)) }
{
    if units[i].split {
        append_quarters(alloc, row, contexts, units, i, follows)
    } else {
        append_whole(alloc, row, contexts, units, i, follows)
    }
}

/// Appends so many units from one on, and answers the contexts behind them.
pub(crate) fn append_from(
    alloc: Global,
    row: &mut Vec<u8>,
    contexts: [u8; 154],
    units: &[PcmUnit],
    first: usize,
    n: usize,
    follows: bool,
) -> Result<[u8; 154], AllocError>
    requires length { length units.now ≡ 48 }
    requires inside { first + n ≤ 48 }
    requires contexts { All (λ context. context < 126) contexts }
    ensures bytes { OnOk result (row.new.items ≡ row.old.items
        ++ part_bytes (parts_from units.now first n (before_words follows)) contexts) }
    ensures behind { IfOk result (λ behind. behind
        ≡ contexts_behind_parts (parts_from units.now first n (before_words follows)) contexts) }
    ensures small { IfOk result (All (λ context. context < 126)) }
{
    let mut behind = contexts;
    let mut after = follows;
    for k in 0..n {
        behind = append_unit(alloc, row, behind, units, first + k, after)?;
        after = true;
    }
    Ok(behind)
}

/// The bytes of the last bins of row `r`, and of the terminate bin of 1 behind them.
#[tactic(auto, unfolding(cabac_writer::specs::Pulses::section_bits))]
fn last_bytes(alloc: Global, r: usize, contexts: [u8; 154]) -> Result<Vec<u8>, AllocError>
    requires row { r < 6 }
    requires contexts { All (λ context. context < 126) contexts }
    ensures { IfOk result (λ bytes. bytes.items ≡ section_bytes (end_words (8 * r + 7)) contexts) }
{
    let mut writer = BinWriter::new(alloc, contexts);
    write_end(&mut writer, 8 * r + 7)?;
    let bytes = writer.end()?;
    Ok(bytes)
}

/// The substream of row `r`, from the contexts before it: its bytes, and the contexts behind its second unit.
pub fn pcm_row(
    alloc: Global,
    units: &[PcmUnit],
    r: usize,
    contexts: [u8; 154],
) -> Result<Row, AllocError>
    requires row { r < 6 }
    requires units { length units.now ≡ 48 }
    requires contexts { All (λ context. context < 126) contexts }
    ensures bytes { IfOk result (λ row. row.bytes.items ≡ row_bytes units.now r contexts) }
    ensures behind { IfOk result (λ row. row.contexts
        ≡ contexts_behind_parts (parts_from units.now (8 * r) 2 []) contexts) }
    ensures small { IfOk result (λ row. All (λ context. context < 126) row.contexts) }
{
    let mut bytes = Vec::new(alloc);
    let behind = append_from(alloc, &mut bytes, contexts, units, 8 * r, 2, false)?;
    let last = append_from(alloc, &mut bytes, behind, units, 8 * r + 2, 6, true)?;
    let end = last_bytes(alloc, r, last)?;
    bytes.extend_from_slice(end.as_slice())?;
    Ok(Row {
        bytes,
        contexts: behind,
    })
}
