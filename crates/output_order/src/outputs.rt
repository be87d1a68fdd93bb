//! What a picture puts out, and what the end of the input does (C.5.2.2, C.5.2.3).

ghost use Rattle.std.specs.Prelude.{◌≡◌, ◌^◌, ◌<◌, IfOk, OnOk, None, [], ◌∷◌, ◌++◌, length};
ghost use Rattle.std.specs.List.{filter};
ghost use Rattle.spec_output_order.specs.OutputOrder.{bumped, ended, is_kept, kept_from, last_outputs, newest};
ghost use Rattle.spec_output_order.specs.OutputOrder.{outputs_of, started};

use crate::bumping::{bump, discard};
use crate::kept::{kept_pictures, kept_places};
use crate::marking::all_marked;
use header_types::{DpbPicture, FieldList, Mark};
use spec_output_order::{CurrentPicture, Outputs};
use std::alloc::{AllocError, Global};

/// What the current picture puts out of the decoded picture buffer, and what it leaves there (C.5.2.2, C.5.2.3), where
/// `dpb` are the pictures there in decoding order and `marks` says how the current picture marks each of them. Pictures
/// are named by their places in `dpb`, and the current picture by the place behind the last. `AllocError` where memory
/// runs out.
#[tactic(auto, unfolding(spec_output_order::specs::OutputOrder::outputs_of))]
pub fn outputs_of(
    alloc: Global,
    current: CurrentPicture,
    dpb: &[DpbPicture],
    marks: &[Mark],
) -> Result<Outputs, AllocError>
    requires few { length dpb.now < 2 ^ 16 }
    ensures { IfOk result (λ o. o ≡ outputs_of current dpb.now marks.now) }
{
    let mut pictures = all_marked(alloc, dpb, marks)?;
    let mut before = FieldList::new(alloc);
    start(current, &mut before, &mut pictures)?;
    let mut behind = FieldList::new(alloc);
    end(current, &mut behind, &mut pictures)?;
    outputs_by(alloc, before, behind, pictures.as_slice())
}

/// These pictures go out, and of `pictures` stay those that are needed for output or marked as reference.
pub(crate) fn outputs_by(
    alloc: Global,
    before: FieldList<u32>,
    behind: FieldList<u32>,
    pictures: &[DpbPicture],
) -> Result<Outputs, AllocError>
    requires few { length pictures.now < 2 ^ 32 }
    ensures { IfOk result (λ o. o
        ≡ record {
          before = before;
          behind = behind;
          kept = kept_from 0 pictures.now;
          dpb = filter is_kept pictures.now;
        }) }
{
    let kept = kept_places(alloc, pictures)?;
    let dpb = kept_pictures(alloc, pictures)?;
    Ok(Outputs {
        before,
        behind,
        kept,
        dpb,
    })
}

/// Before the current picture is decoded: where it begins anew the pictures that are needed for output are discarded or
/// all go out, else pictures go out until there is room (C.5.2.2).
#[tactic(auto, unfolding(spec_output_order::specs::OutputOrder::started))]
pub(crate) fn start(
    current: CurrentPicture,
    out: &mut FieldList<u32>,
    pictures: &mut FieldList<DpbPicture>,
) -> Result<(), AllocError>
    requires few { length pictures.old < 2 ^ 16 }
    ensures out { OnOk result (out.new ≡ out.old ++ (started current pictures.old).out) }
    ensures left { OnOk result (pictures.new ≡ (started current pictures.old).left) }
    ensures same { length pictures.new ≡ length pictures.old }
{
    if !current.begins_anew {
        let size = current.ordering.max_dec_pic_buffering_minus1 as u64 + 1;
        bump(
            current.ordering.max_num_reorder_pics,
            Some(size),
            out,
            pictures,
        )
    } else if current.no_output_of_prior_pics_flag {
        discard(pictures);
        Ok(())
    } else {
        bump(0, None, out, pictures)
    }
}

/// The current picture enters the buffer, and pictures go out until no more are needed for output than may be
/// reordered (C.5.2.3).
#[tactic(auto, unfolding(spec_output_order::specs::OutputOrder::ended))]
fn end(
    current: CurrentPicture,
    out: &mut FieldList<u32>,
    pictures: &mut FieldList<DpbPicture>,
) -> Result<(), AllocError>
    requires few { length pictures.old < 2 ^ 16 }
    ensures out { OnOk result (out.new ≡ out.old ++ (ended current pictures.old).out) }
    ensures left { OnOk result (pictures.new ≡ (ended current pictures.old).left) }
    ensures few { OnOk result (length pictures.new < 2 ^ 32) }
{
    let picture = newest(current.poc, current.pic_output_flag);
    enter(
        current.ordering.max_num_reorder_pics,
        picture,
        out,
        pictures,
    )
}

/// A picture of this order count as it enters the buffer.
pub(crate) fn newest(poc: i32, pic_output_flag: bool) -> DpbPicture
    ensures { result ≡ newest poc pic_output_flag }
{
    DpbPicture {
        poc,
        mark: Mark::Short,
        needed_for_output: pic_output_flag,
    }
}

/// A picture enters the buffer, and pictures go out until no more are needed for output than `reorder`.
pub(crate) fn enter(
    reorder: u32,
    picture: DpbPicture,
    out: &mut FieldList<u32>,
    pictures: &mut FieldList<DpbPicture>,
) -> Result<(), AllocError>
    requires few { length pictures.old < 2 ^ 16 }
    ensures out { OnOk result (out.new ≡ out.old ++ (bumped reorder None (pictures.old ++ picture ∷ [])).out) }
    ensures left { OnOk result (pictures.new ≡ (bumped reorder None (pictures.old ++ picture ∷ [])).left) }
    ensures few { OnOk result (length pictures.new < 2 ^ 32) }
{
    pictures.push(picture)?;
    bump(reorder, None, out, pictures)
}

/// The places of the pictures that go out where the input ends, in output order: all that are needed for output, where
/// `dpb` are the pictures of the decoded picture buffer in decoding order (C.5.2.4). `AllocError` where memory runs
/// out.
#[tactic(auto, unfolding(spec_output_order::specs::OutputOrder::last_outputs))]
pub fn last_outputs(alloc: Global, dpb: &[DpbPicture]) -> Result<FieldList<u32>, AllocError>
    requires few { length dpb.now < 2 ^ 16 }
    ensures { IfOk result (λ out. out ≡ last_outputs dpb.now) }
{
    let mut pictures = copied(alloc, dpb)?;
    let mut out = FieldList::new(alloc);
    bump(0, None, &mut out, &mut pictures)?;
    Ok(out)
}

/// The pictures of the buffer once more.
pub(crate) fn copied(alloc: Global, dpb: &[DpbPicture]) -> Result<FieldList<DpbPicture>, AllocError>
    ensures { IfOk result (λ pictures. pictures ≡ dpb.now) }
{
    Ok(FieldList::from_items(Vec::from_slice(alloc, dpb)?))
}
