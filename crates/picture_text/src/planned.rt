//! What is known of a planned picture, as text.

use header_types::{Lists, Mark, RefEntry, ScalingList};
use param_sets::picture_scaling_lists;
use plan_types::{PicturePlan, SegmentPlan};
use std::alloc::{AllocError, Global};

/// The order count; the reference picture set (StCurrBefore, StCurrAfter, StFoll, LtCurr, LtFoll) and the marks, by
/// places in the buffer; how many scaling lists there are and the sum of their factors; the lists and substreams of
/// each segment.
pub fn plan_text(alloc: Global, picture: &PicturePlan) -> Result<String, AllocError> {
    let (poc, rps) = (picture.poc, &picture.rps);
    let mut text = format!(in alloc; "poc {poc}")?;
    push_places(alloc, &mut text, "before", rps.st_curr_before.as_slice())?;
    push_places(alloc, &mut text, "after", rps.st_curr_after.as_slice())?;
    push_places(alloc, &mut text, "foll", rps.st_foll.as_slice())?;
    push_places(alloc, &mut text, "lt", rps.lt_curr.as_slice())?;
    push_places(alloc, &mut text, "ltfoll", rps.lt_foll.as_slice())?;
    push_marks(&mut text, rps.marks.as_slice())?;
    push_scaling(alloc, &mut text, picture)?;
    for segment in picture.segments.as_slice() {
        push_segment(alloc, &mut text, segment)?;
    }
    Ok(text)
}

fn push_places(
    alloc: Global,
    text: &mut String,
    word: &str,
    places: &[u32],
) -> Result<(), AllocError> {
    if places.is_empty() {
        return Ok(());
    }
    text.push_str(" ")?;
    text.push_str(word)?;
    for place in places {
        let told = format!(in alloc; " {place}")?;
        text.push_str(told.as_str())?;
    }
    Ok(())
}

/// A letter for each picture of the buffer: S, L or - where it is unused for reference.
fn push_marks(text: &mut String, marks: &[Mark]) -> Result<(), AllocError> {
    if !marks.is_empty() {
        text.push_str(" marks ")?;
    }
    for mark in marks {
        text.push_str(match mark {
            Mark::Unused => "-",
            Mark::Short => "S",
            Mark::Long => "L",
        })?;
    }
    Ok(())
}

/// Where the picture is scaled by lists, how many there are and the sum of their factors.
fn push_scaling(alloc: Global, text: &mut String, picture: &PicturePlan) -> Result<(), AllocError> {
    let (sps, pps) = (picture.sps.fields(), picture.pps.fields());
    if let Some(scaling) = picture_scaling_lists(alloc, sps, pps)? {
        let count = scaling.lists.as_slice().len();
        let sum = sum_of(scaling.lists.as_slice());
        let told = format!(in alloc; " scaling {count} {sum}")?;
        text.push_str(told.as_str())?;
    }
    Ok(())
}

fn sum_of(lists: &[ScalingList]) -> u32 {
    let mut sum = 0u32;
    for list in lists {
        sum = sum.saturating_add(u32::from(list.dc));
        for factor in list.factors.as_slice() {
            sum = sum.saturating_add(u32::from(*factor));
        }
    }
    sum
}

fn push_segment(alloc: Global, text: &mut String, segment: &SegmentPlan) -> Result<(), AllocError> {
    if let Some(Lists { l0, l1 }) = &segment.lists {
        push_list(alloc, text, "l0", l0.as_slice())?;
        push_list(alloc, text, "l1", l1.as_slice())?;
    }
    text.push_str(" data")?;
    for part in segment.substreams.as_slice() {
        let (start, end) = (part.start, part.end);
        let told = format!(in alloc; " {start}..{end}")?;
        text.push_str(told.as_str())?;
    }
    Ok(())
}

/// The places of a list's entries, with L behind those that are used as long-term reference.
fn push_list(
    alloc: Global,
    text: &mut String,
    word: &str,
    entries: &[RefEntry],
) -> Result<(), AllocError> {
    if entries.is_empty() {
        return Ok(());
    }
    text.push_str(" ")?;
    text.push_str(word)?;
    for entry in entries {
        let place = entry.place;
        let sign = if entry.is_long_term { "L" } else { "" };
        let told = format!(in alloc; " {place}{sign}")?;
        text.push_str(told.as_str())?;
    }
    Ok(())
}
