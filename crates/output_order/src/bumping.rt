//! Pictures go out one after the other ("bumping", C.5.2.4), or are discarded.

ghost use Rattle.std.specs.Prelude.{◌≡◌, ◌++◌, ◌^◌, ◌<◌, ◌≤◌, OnOk, length};
ghost use Rattle.std.specs.List.{count_by};
ghost use Rattle.spec_output_order.specs.OutputOrder.{bumped, bumped_at_most, discarded, is_full, is_kept};
ghost use Rattle.spec_output_order.specs.OutputOrder.{is_needed_for_output, needs_bumping, not_needed_at};

use crate::kept::is_kept;
use crate::next_output::next_output;
use header_types::{DpbPicture, FieldList};
use std::alloc::AllocError;

/// Pictures go out as long as one is needed for output and either more are than `reorder` or at least `size` stay in
/// the buffer. Their places follow those of `out`.
#[tactic(auto, unfolding(spec_output_order::specs::OutputOrder::bumped))]
pub(crate) fn bump(
    reorder: u32,
    size: Option<u64>,
    out: &mut FieldList<u32>,
    pictures: &mut FieldList<DpbPicture>,
) -> Result<(), AllocError>
    requires few { length pictures.old < 2 ^ 32 }
    ensures out { OnOk result (out.new ≡ out.old ++ (bumped reorder size pictures.old).out) }
    ensures left { OnOk result (pictures.new ≡ (bumped reorder size pictures.old).left) }
    ensures same { length pictures.new ≡ length pictures.old }
{
    let most = pictures.len();
    bump_at_most(reorder, size, most, out, pictures)
}

/// The same, with at most `most` pictures.
fn bump_at_most(
    reorder: u32,
    size: Option<u64>,
    most: usize,
    out: &mut FieldList<u32>,
    pictures: &mut FieldList<DpbPicture>,
) -> Result<(), AllocError>
    requires few { length pictures.old < 2 ^ 32 }
    ensures out { OnOk result (out.new ≡ out.old ++ (bumped_at_most reorder size most pictures.old).out) }
    ensures left { OnOk result (pictures.new ≡ (bumped_at_most reorder size most pictures.old).left) }
    ensures same { length pictures.new ≡ length pictures.old }
{
    if most == 0 || !needs_bumping(reorder, size, pictures.as_slice()) {
        return Ok(());
    }
    match next_output(pictures.as_slice()) {
        None => Ok(()),
        Some(next) => {
            out.push(next.place as u32)?;
            mark_not_needed(pictures, next.place);
            bump_at_most(reorder, size, most - 1, out, pictures)
        }
    }
}

/// Whether a picture has to go out.
#[tactic(auto, unfolding(spec_output_order::specs::OutputOrder::needs_bumping))]
fn needs_bumping(reorder: u32, size: Option<u64>, pictures: &[DpbPicture]) -> bool
    ensures { result ≡ needs_bumping reorder size pictures.now }
{
    (reorder as usize) < needed_count(pictures) || is_full(size, pictures)
}

fn needed_count(pictures: &[DpbPicture]) -> usize
    ensures { result ≡ count_by is_needed_for_output pictures.now }
{
    pictures
        .iter()
        .filter(|picture| picture.needed_for_output)
        .count()
}

fn is_full(size: Option<u64>, pictures: &[DpbPicture]) -> bool
    ensures { result ≡ is_full size pictures.now }
{
    match size {
        None => false,
        Some(size) => size <= kept_count(pictures) as u64,
    }
}

fn kept_count(pictures: &[DpbPicture]) -> usize
    ensures { result ≡ count_by is_kept pictures.now }
{
    pictures.iter().filter(|picture| is_kept(picture)).count()
}

/// No picture is needed for output any more.
pub(crate) fn discard(pictures: &mut FieldList<DpbPicture>)
    ensures value { pictures.new ≡ discarded pictures.old }
    ensures same { length pictures.new ≡ length pictures.old }
{
    for i in 0..pictures.len() {
        mark_not_needed(pictures, i);
    }
}

/// The picture at a place isn't needed for output any more.
fn mark_not_needed(pictures: &mut FieldList<DpbPicture>, place: usize)
    requires { place < length pictures.old }
    ensures value { pictures.new ≡ not_needed_at pictures.old place }
    ensures same { length pictures.new ≡ length pictures.old }
{
    let picture = DpbPicture {
        needed_for_output: false,
        ..pictures.as_slice()[place]
    };
    pictures.set(place, picture);
}
