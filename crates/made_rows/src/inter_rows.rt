//! Rows of coding tree units that are predicted from other pictures.

ghost use Rattle.std.specs.Prelude.{◌≡◌, ℕ, ◌+◌, ◌-◌, ◌*◌, ◌^◌, ◌<◌, ◌≤◌, true, false, [], ◌∷◌, length, OnOk, nat_lt};
ghost use Rattle.std.specs.Prelude.{slice_index_or, replicate, ◌≢◌, ◌==◌, if◌then◌else◌};
ghost use Rattle.spec_cabac.specs.Bins.{Decision};
ghost use Rattle.spec_cabac.specs.declared.init_values.TheConstants.{ABS_MVD_GREATER1_FLAG};
ghost use Rattle.cabac_writer.specs.Coding.{with_words};
ghost use Rattle.spec_bits.specs.Spelling.{u_bits};
ghost use Rattle.spec_made.specs.InterRows.{bypasses, beside, size_of, log_of, size_words, moves, where_moves};
ghost use Rattle.spec_made.specs.InterRows.{vector_words};
ghost use Rattle.spec_made.specs.InterRows.{list_words, second_words, coded_words, part_words, later_motion, left_of};
ghost use Rattle.spec_made.specs.InterRows.{above_of, is_skipped, unit_words};
ghost use Rattle.spec_made.specs.Draws.{no_unit};
ghost use Rattle.std.specs.List.{All};
ghost use Rattle.std.specs.Prelude.{IfOk};
ghost use Rattle.cabac_writer.specs.Pulses.{contexts_behind};
ghost use Rattle.spec_made.specs.Written.{section_bytes};
ghost use Rattle.spec_made.specs.InterRows.{quarter_words, end_words, words_at, words_from};
ghost use Rattle.spec_made.specs.Bends.{bare_words};
ghost use Rattle.made_rows.specs.Small.{AreSmall, AreSmallIn};

use crate::bin_writer::BinWriter;
use crate::row::Row;
use spec_cabac::{
    ABS_MVD_GREATER0_FLAG, ABS_MVD_GREATER1_FLAG, CU_SKIP_FLAG, INTER_PRED_IDC, MERGE_FLAG,
    MVP_FLAG, PART_MODE, PRED_MODE_FLAG, RQT_ROOT_CBF, SPLIT_CU_FLAG,
};
use spec_made::{InterUnit, Motion, Shift};
use std::alloc::{AllocError, Global};

/// A difference's absolute value, in quarters of a sample.
fn size_of(d: u32) -> u32
    requires { d ≤ 200 }
    ensures value { result ≡ size_of d }
    ensures some { d ≢ 100 → 8 ≤ result }
{
    if d < 100 {
        8 * (100 - d)
    } else {
        8 * (d - 100)
    }
}

/// abs_mvd_greater1_flag, which is 1 of each difference that isn't 0.
fn write_greater(writer: &mut BinWriter, d: u32) -> Result<(), AllocError>
    ensures { OnOk result (writer.new
        ≡ with_words writer.old (where_moves d ((Decision ABS_MVD_GREATER1_FLAG, true) ∷ []))) }
{
    if d != 100 {
        writer.decision(ABS_MVD_GREATER1_FLAG, true)
    } else {
        Ok(())
    }
}

/// So many bypass bins of 1.
fn write_ones(writer: &mut BinWriter, n: u32) -> Result<(), AllocError>
    ensures { OnOk result (writer.new ≡ with_words writer.old (bypasses (replicate n true))) }
{
    for i in 0..n {
        writer.bypass(true)?;
    }
    Ok(())
}

/// The `n` least digits of a number, by bypass bins, the greatest first.
fn write_digits(writer: &mut BinWriter, n: u32, value: u32) -> Result<(), AllocError>
    requires { n ≤ 32 }
    ensures { OnOk result (writer.new ≡ with_words writer.old (bypasses (u_bits n value))) }
{
    for i in 0..n {
        writer.bypass((value >> (n - 1 - i)) & 1 == 1)?;
    }
    Ok(())
}

/// The place of the greatest digit of a difference's absolute value.
fn log_of(size: u32) -> u32
    requires some { 8 ≤ size }
    ensures value { result ≡ log_of size }
    ensures some { 3 ≤ result }
    ensures small { result ≤ 9 }
{
    let low = u32::from(2 <= size) + u32::from(4 <= size) + u32::from(8 <= size);
    let middle = u32::from(16 <= size) + u32::from(32 <= size) + u32::from(64 <= size);
    let high = u32::from(128 <= size) + u32::from(256 <= size) + u32::from(512 <= size);
    low + middle + high
}

/// abs_mvd_minus2 and mvd_sign_flag.
#[tactic(auto, using(crate::proofs::Words::with_words_append), unfolding(spec_made::specs::InterRows::size_words))]
fn write_size(writer: &mut BinWriter, d: u32) -> Result<(), AllocError>
    requires inside { d ≤ 200 }
    requires some { d ≢ 100 }
    ensures { OnOk result (writer.new ≡ with_words writer.old (size_words d)) }
{
    let size = size_of(d);
    let log = log_of(size);
    write_ones(writer, log - 1)?;
    writer.bypass(false)?;
    write_digits(writer, log, size)?;
    writer.bypass(d < 100)?;
    Ok(())
}

/// abs_mvd_minus2 and mvd_sign_flag of a difference that isn't 0.
fn write_size_where(writer: &mut BinWriter, d: u32) -> Result<(), AllocError>
    requires { d ≤ 200 }
    ensures { OnOk result (writer.new ≡ with_words writer.old (where_moves d (size_words d))) }
{
    if d != 100 {
        write_size(writer, d)
    } else {
        Ok(())
    }
}

/// mvd_coding, and mvp_flag.
#[tactic(auto, using(crate::proofs::Words::with_words_append), unfolding(spec_made::specs::InterRows::vector_words))]
fn write_vector(writer: &mut BinWriter, shift: Shift) -> Result<(), AllocError>
    requires across { shift.across ≤ 200 }
    requires down { shift.down ≤ 200 }
    ensures { OnOk result (writer.new ≡ with_words writer.old (vector_words shift)) }
{
    writer.decision(ABS_MVD_GREATER0_FLAG, shift.across != 100)?;
    writer.decision(ABS_MVD_GREATER0_FLAG, shift.down != 100)?;
    write_greater(writer, shift.across)?;
    write_greater(writer, shift.down)?;
    write_size_where(writer, shift.across)?;
    write_size_where(writer, shift.down)?;
    writer.decision(MVP_FLAG, false)?;
    Ok(())
}

/// inter_pred_idc.
fn write_lists(
    writer: &mut BinWriter,
    depth: usize,
    second: Option<Shift>,
) -> Result<(), AllocError>
    requires { depth ≤ 1 }
    ensures { OnOk result (writer.new ≡ with_words writer.old (list_words depth second)) }
{
    match second {
        Some(_) => writer.decision(INTER_PRED_IDC + depth, true),
        None => Ok(()),
    }
}

/// The vector of list 1.
fn write_second(writer: &mut BinWriter, second: Option<Shift>) -> Result<(), AllocError>
    requires { AreSmallIn second }
    ensures { OnOk result (writer.new ≡ with_words writer.old (second_words second)) }
{
    match second {
        Some(shift) => write_vector(writer, shift),
        None => Ok(()),
    }
}

/// A coding unit that isn't skipped, behind cu_skip_flag.
#[tactic(auto, using(crate::proofs::Words::with_words_append), unfolding(spec_made::specs::InterRows::coded_words))]
fn write_coded(writer: &mut BinWriter, depth: usize, motion: Motion) -> Result<(), AllocError>
    requires depth { depth ≤ 1 }
    requires small { AreSmall motion }
    ensures { OnOk result (writer.new ≡ with_words writer.old (coded_words depth motion)) }
{
    writer.decision(PRED_MODE_FLAG, false)?;
    writer.decision(PART_MODE, true)?;
    writer.decision(MERGE_FLAG, false)?;
    write_lists(writer, depth, motion.second)?;
    write_vector(writer, motion.first)?;
    write_second(writer, motion.second)?;
    writer.decision(RQT_ROOT_CBF, false)?;
    Ok(())
}

/// A coding unit, by how many of the places on the left and above are skipped.
#[tactic(auto, using(crate::proofs::Words::with_words_append), unfolding(spec_made::specs::InterRows::part_words))]
fn write_part(
    writer: &mut BinWriter,
    depth: usize,
    beside: usize,
    skipped: bool,
    motion: Motion,
) -> Result<(), AllocError>
    requires depth { depth ≤ 1 }
    requires beside { beside ≤ 2 }
    requires small { AreSmall motion }
    ensures { OnOk result (writer.new ≡ with_words writer.old (part_words depth beside skipped motion)) }
{
    writer.decision(CU_SKIP_FLAG + beside, skipped)?;
    if skipped {
        Ok(())
    } else {
        write_coded(writer, depth, motion)
    }
}

/// How many of two are so.
fn count_of(left: bool, above: bool) -> usize
    ensures value { result ≡ beside left above }
    ensures small { result ≤ 2 }
{
    usize::from(left) + usize::from(above)
}

/// The difference of a vector that is its predictor, in as many lists.
pub fn later_motion(motion: Motion) -> Motion
    ensures value { result ≡ later_motion motion }
    ensures small { AreSmall result }
{
    let still = Shift {
        across: 100,
        down: 100,
    };
    Motion {
        first: still,
        second: match motion.second {
            Some(_) => Some(still),
            None => None,
        },
    }
}

/// No unit, beside which nothing is split or skipped.
const NO_UNIT: InterUnit = InterUnit {
    split: false,
    skips: [false, false, false, false],
};

/// The unit of a number.
fn unit_of(units: &[InterUnit], i: usize) -> InterUnit
    requires { i < length units.now }
    ensures { result ≡ slice_index_or units.now i no_unit }
{
    units[i]
}

/// The unit on the left, or none.
fn left_of(units: &[InterUnit], i: usize) -> InterUnit
    requires { i < length units.now }
    ensures { result ≡ left_of units.now i }
{
    if i % 8 == 0 {
        NO_UNIT
    } else {
        unit_of(units, i - 1)
    }
}

/// The unit above, or none.
fn above_of(units: &[InterUnit], i: usize) -> InterUnit
    requires { i < length units.now }
    ensures { result ≡ above_of units.now i }
{
    if i < 8 {
        NO_UNIT
    } else {
        unit_of(units, i - 8)
    }
}

/// Whether the coding unit of a quarter is skipped.
fn is_skipped(unit: InterUnit, quarter: usize) -> bool
    requires { quarter < 4 }
    ensures { result ≡ is_skipped unit quarter }
{
    let place = if unit.split { quarter } else { 0 };
    unit.skips[place]
}

/// A unit of four coding units, behind split_cu_flag.
#[tactic(auto, using(crate::proofs::Words::with_words_append))]
fn write_quarters(
    writer: &mut BinWriter,
    first: Motion,
    later: Motion,
    left: InterUnit,
    above: InterUnit,
    unit: InterUnit,
) -> Result<(), AllocError>
    requires first { AreSmall first }
    requires later { AreSmall later }
    ensures { OnOk result (writer.new ≡ with_words writer.old (quarter_words first later left above unit)) }
{
    let beside = count_of(is_skipped(left, 1), is_skipped(above, 2));
    write_part(writer, 1, beside, is_skipped(unit, 0), first)?;
    let beside = count_of(is_skipped(unit, 0), is_skipped(above, 3));
    write_part(writer, 1, beside, is_skipped(unit, 1), later)?;
    let beside = count_of(is_skipped(left, 3), is_skipped(unit, 0));
    write_part(writer, 1, beside, is_skipped(unit, 2), later)?;
    let beside = count_of(is_skipped(unit, 2), is_skipped(unit, 1));
    write_part(writer, 1, beside, is_skipped(unit, 3), later)?;
    Ok(())
}

/// A coding tree unit.
#[tactic(auto, unfolding(spec_made::specs::InterRows::unit_words))]
fn write_unit(
    writer: &mut BinWriter,
    first: Motion,
    later: Motion,
    left: InterUnit,
    above: InterUnit,
    unit: InterUnit,
) -> Result<(), AllocError>
    requires first { AreSmall first }
    requires later { AreSmall later }
    ensures { OnOk result (writer.new ≡ with_words writer.old (unit_words first later left above unit)) }
{
    writer.decision(
        SPLIT_CU_FLAG + count_of(left.split, above.split),
        unit.split,
    )?;
    if unit.split {
        write_quarters(writer, first, later, left, above, unit)
    } else {
        let beside = count_of(is_skipped(left, 1), is_skipped(above, 2));
        write_part(writer, 0, beside, is_skipped(unit, 0), first)
    }
}

/// end_of_slice_segment_flag, where it isn't the last bin of its substream.
pub(crate) fn write_end(writer: &mut BinWriter, i: usize) -> Result<(), AllocError>
    ensures { OnOk result (writer.new ≡ with_words writer.old (end_words i)) }
{
    if i == 47 { Ok(()) } else { writer.go_on() }
}

/// The motion that the first coding unit of a unit tells.
fn first_motion(motion: Motion, i: usize) -> Motion
    requires { AreSmall motion }
    ensures value { result ≡ (if i == 0 then motion else later_motion motion) }
    ensures small { AreSmall result }
{
    if i == 0 { motion } else { later_motion(motion) }
}

/// The unit of a number.
#[tactic(auto, unfolding(spec_made::specs::Bends::bare_words))]
pub(crate) fn write_bare(
    writer: &mut BinWriter,
    motion: Motion,
    units: &[InterUnit],
    i: usize,
) -> Result<(), AllocError>
    requires inside { i < length units.now }
    requires small { AreSmall motion }
    ensures { OnOk result (writer.new ≡ with_words writer.old (bare_words motion units.now i)) }
{
    let first = first_motion(motion, i);
    let later = later_motion(motion);
    write_unit(
        writer,
        first,
        later,
        left_of(units, i),
        above_of(units, i),
        unit_of(units, i),
    )
}

/// The unit of a number and what follows it.
#[tactic(auto, using(crate::proofs::Words::words_at_append))]
fn write_at(
    writer: &mut BinWriter,
    motion: Motion,
    units: &[InterUnit],
    i: usize,
) -> Result<(), AllocError>
    requires inside { i < length units.now }
    requires small { AreSmall motion }
    ensures { OnOk result (writer.new ≡ with_words writer.old (words_at motion units.now i)) }
{
    write_bare(writer, motion, units, i)?;
    write_end(writer, i)?;
    Ok(())
}

/// So many units from one on, and what follows each.
pub(crate) fn write_from(
    writer: &mut BinWriter,
    motion: Motion,
    units: &[InterUnit],
    first: usize,
    n: usize,
) -> Result<(), AllocError>
    requires inside { first + n ≤ length units.now }
    requires small { AreSmall motion }
    ensures { OnOk result (writer.new ≡ with_words writer.old (words_from motion units.now first n)) }
{
    for k in 0..n {
        write_at(writer, motion, units, first + k)?;
    }
    Ok(())
}

/// The substream of row `r`, from the contexts before it: its bytes, and the contexts behind its second unit.
#[tactic(auto, using(crate::proofs::Words::row_words), unfolding(cabac_writer::specs::Pulses::section_bits))]
pub fn inter_row(
    alloc: Global,
    motion: Motion,
    units: &[InterUnit],
    r: usize,
    contexts: [u8; 154],
) -> Result<Row, AllocError>
    requires row { r < 6 }
    requires units { length units.now ≡ 48 }
    requires motion { AreSmall motion }
    requires contexts { All (λ context. context < 126) contexts }
    ensures bytes { IfOk result (λ row. row.bytes.items
        ≡ section_bytes (words_from motion units.now (8 * r) 8) contexts) }
    ensures behind { IfOk result (λ row. row.contexts
        ≡ contexts_behind (words_from motion units.now (8 * r) 2) contexts) }
    ensures small { IfOk result (λ row. All (λ context. context < 126) row.contexts) }
{
    let mut writer = BinWriter::new(alloc, contexts);
    write_from(&mut writer, motion, units, 8 * r, 2)?;
    let behind = writer.contexts();
    write_from(&mut writer, motion, units, 8 * r + 2, 6)?;
    let bytes = writer.end()?;
    Ok(Row {
        bytes,
        contexts: behind,
    })
}
