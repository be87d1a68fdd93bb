//! The decoded picture buffer by itself (C.5.2).

ghost use Rattle.std.specs.Prelude.{◌≡◌, ◌+◌, ◌≤◌, ℕ, ℤ, true, false, None, Some, [], IfOk, OnOk, OnErr, length};
ghost use Rattle.std.specs.List.{count_by};
ghost use Rattle.header_types.specs.SequenceParameterSets.{highest_ordering};
ghost use Rattle.ref_picture_sets.specs.SpecReferencePictures.{begins_anew};
ghost use Rattle.ref_picture_sets.specs.SpecReferencePictures.{is_reference};
ghost use Rattle.spec_output_order.specs.OutputOrder.{is_full_of_references, newest};
ghost use Rattle.spec_output_order.specs.CurrentPictures.{current_picture};
ghost use Rattle.spec_output_order.specs.Buffer.{GivesOutputs, HasPlaces, flush_outputs, place_outputs, start_of};
ghost use Rattle.spec_output_order.specs.Buffer.{start_outputs};

use crate::current::current_picture;
use crate::full::is_full_of_references;
use crate::marking::all_marked;
use crate::outputs::{copied, enter, last_outputs, newest, outputs_by, start};
use header_types::{DpbPicture, FieldList, Mark, Rps, Sps};
use hv_base::{FaultKind, Refusal};
use slice_types::SliceHeader;
use spec_output_order::{CurrentPicture, Outputs};
use std::alloc::{AllocError, Global};
use std::marker::Model;

/// The decoded picture buffer. Contracts see its pictures in decoding order and, where a picture was started and isn't
/// placed yet, how many may be reordered then. Between two calls it has at most 16 pictures.
#[derive(Debug, Drop)]
pub struct Dpb {
    alloc: Global,
    pictures: FieldList<DpbPicture>,
    started: Option<u32>,
}

impl Model for Dpb {
    ghost use Rattle.spec_output_order.specs.Buffer.{Buffer, HasPlaces};

    ghost Value = { Buffer };

    ghost view = { λ d. record { pictures = d.pictures; started = d.started } };

    ghost invariant = { λ d. HasPlaces d.pictures d.started };
}

impl Dpb {
    /// An empty buffer.
    pub fn new(alloc: Global) -> Result<Dpb, AllocError>
        ensures { IfOk result (λ dpb. dpb ≡ record { pictures = []; started = None }) }
    {
        Ok(Dpb {
            alloc,
            pictures: FieldList::new(alloc),
            started: None,
        })
    }

    /// The pictures in decoding order.
    pub fn pictures(&self) -> &[DpbPicture]
        ensures { result.now ≡ self.now.pictures }
    {
        self.pictures.as_slice()
    }

    /// A picture starts, whose reference picture set over these pictures this is: what goes out before it, and what
    /// stays, named by places in the buffer before the call. `DpbFull` where the buffer has no room: the picture
    /// doesn't begin anew, and as many pictures are marked as reference as the buffer holds. After a refusal all is as
    /// before.
    pub fn start(&mut self, header: &SliceHeader, sps: &Sps, rps: &Rps) -> Result<Outputs, Refusal>
        requires anew { begins_anew header.now.kind ≡ true → count_by is_reference rps.now.marks ≡ 0 }
        ensures value { (poc : ℤ)
            → GivesOutputs result (start_of (current_picture header.now sps.now poc) self.old.pictures rps.now.marks) }
        ensures left { IfOk result (λ o. self.new
            ≡ record {
              pictures = o.dpb;
              started = Some (highest_ordering sps.now.order.sub_layer_ordering).max_num_reorder_pics;
            }) }
        ensures room { OnOk result
            (length self.new.pictures
            ≤ (highest_ordering sps.now.order.sub_layer_ordering).max_dec_pic_buffering_minus1) }
        ensures err { OnErr result (self.new ≡ self.old) }
    {
        let current = current_picture(header.fields(), sps, 0);
        self.start_current(current, rps.marks.as_slice())
    }

    /// The same, by what of the picture decides its outputs.
    pub(crate) fn start_current(
        &mut self,
        current: CurrentPicture,
        marks: &[Mark],
    ) -> Result<Outputs, Refusal>
        requires anew { current.begins_anew ≡ true → count_by is_reference marks.now ≡ 0 }
        requires buffering { current.ordering.max_dec_pic_buffering_minus1 ≤ 15 }
        ensures value { GivesOutputs result (start_of current self.old.pictures marks.now) }
        ensures left { IfOk result
            (λ o. self.new ≡ record { pictures = o.dpb; started = Some current.ordering.max_num_reorder_pics }) }
        ensures room { OnOk result (length self.new.pictures ≤ current.ordering.max_dec_pic_buffering_minus1) }
        ensures err { OnErr result (self.new ≡ self.old) }
    {
        if is_full_of_references(current.begins_anew, current.ordering, marks) {
            return Err(Refusal::Fault(FaultKind::DpbFull));
        }
        let outputs = start_outputs(self.alloc, current, self.pictures.as_slice(), marks)?;
        Ok(self.left_by(outputs, Some(current.ordering.max_num_reorder_pics))?)
    }

    /// The picture that was started is placed: what goes out behind it, and what stays, named by places in the buffer
    /// before the call, and the picture itself by the place behind the last. After want of memory all is as before.
    pub fn place(&mut self, header: &SliceHeader, poc: i32) -> Result<Outputs, AllocError>
        requires started { self.old.started ≡ None → ⊥ }
        ensures value { (reorder : ℕ) → self.old.started ≡ Some reorder
            → IfOk result
            (λ o. o ≡ place_outputs reorder (newest poc header.now.slice.pic_output_flag) self.old.pictures) }
        ensures left { IfOk result (λ o. self.new ≡ record { pictures = o.dpb; started = None }) }
        ensures err { OnErr result (self.new ≡ self.old) }
    {
        self.place_newest(newest(poc, header.fields().slice.pic_output_flag))
    }

    /// The same of a picture as it enters the buffer.
    #[tactic(auto, using(crate::proofs::Sizes::one_less))]
    pub(crate) fn place_newest(&mut self, picture: DpbPicture) -> Result<Outputs, AllocError>
        requires started { self.old.started ≡ None → ⊥ }
        ensures value { (reorder : ℕ) → self.old.started ≡ Some reorder
            → IfOk result (λ o. o ≡ place_outputs reorder picture self.old.pictures) }
        ensures left { IfOk result (λ o. self.new ≡ record { pictures = o.dpb; started = None }) }
        ensures err { OnErr result (self.new ≡ self.old) }
    {
        let reorder = self.started.unwrap();
        let outputs = place_outputs(self.alloc, reorder, picture, self.pictures.as_slice())?;
        self.left_by(outputs, None)
    }

    /// The pictures that stay by these outputs are the buffer. After want of memory all is as before.
    fn left_by(&mut self, outputs: Outputs, started: Option<u32>) -> Result<Outputs, AllocError>
        requires { HasPlaces outputs.dpb started }
        ensures value { IfOk result (λ o. o ≡ outputs) }
        ensures left { OnOk result (self.new ≡ record { pictures = outputs.dpb; started = started }) }
        ensures err { OnErr result (self.new ≡ self.old) }
    {
        self.pictures = outputs.dpb.clone()?;
        self.started = started;
        Ok(outputs)
    }

    /// The pictures that are still needed for output go out, behind the last picture, and none stays. After want of
    /// memory all is as before.
    pub fn flush(&mut self) -> Result<Outputs, AllocError>
        ensures value { IfOk result (λ o. o ≡ flush_outputs self.old.pictures) }
        ensures left { OnOk result (self.new ≡ record (self.old) { pictures = [] }) }
        ensures err { OnErr result (self.new ≡ self.old) }
    {
        let behind = last_outputs(self.alloc, self.pictures.as_slice())?;
        self.pictures = FieldList::new(self.alloc);
        Ok(Outputs {
            before: FieldList::new(self.alloc),
            behind,
            kept: FieldList::new(self.alloc),
            dpb: FieldList::new(self.alloc),
        })
    }
}

/// What goes out of these pictures before a picture that marks them so, for which they have room, and what stays.
fn start_outputs(
    alloc: Global,
    current: CurrentPicture,
    pictures: &[DpbPicture],
    marks: &[Mark],
) -> Result<Outputs, AllocError>
    requires few { length pictures.now ≤ 16 }
    requires room { is_full_of_references current.begins_anew current.ordering marks.now ≡ false }
    requires anew { current.begins_anew ≡ true → count_by is_reference marks.now ≡ 0 }
    ensures value { IfOk result (λ o. o ≡ start_outputs current pictures.now marks.now) }
    ensures left { IfOk result (λ o. length o.dpb ≤ current.ordering.max_dec_pic_buffering_minus1) }
{
    outputs_before(alloc, current, pictures, marks)
}

#[tactic(auto, unfolding(spec_output_order::specs::Buffer::start_outputs))]
fn outputs_before(
    alloc: Global,
    current: CurrentPicture,
    pictures: &[DpbPicture],
    marks: &[Mark],
) -> Result<Outputs, AllocError>
    requires few { length pictures.now ≤ 16 }
    ensures { IfOk result (λ o. o ≡ start_outputs current pictures.now marks.now) }
{
    let mut left = all_marked(alloc, pictures, marks)?;
    let mut before = FieldList::new(alloc);
    start(current, &mut before, &mut left)?;
    outputs_by(alloc, before, FieldList::new(alloc), left.as_slice())
}

/// What goes out of these pictures and one more behind them, and what stays.
fn place_outputs(
    alloc: Global,
    reorder: u32,
    picture: DpbPicture,
    pictures: &[DpbPicture],
) -> Result<Outputs, AllocError>
    requires few { length pictures.now ≤ 15 }
    ensures value { IfOk result (λ o. o ≡ place_outputs reorder picture pictures.now) }
    ensures left { IfOk result (λ o. length o.dpb ≤ length pictures.now + 1) }
{
    outputs_behind(alloc, reorder, picture, pictures)
}

#[tactic(auto, unfolding(spec_output_order::specs::Buffer::place_outputs))]
fn outputs_behind(
    alloc: Global,
    reorder: u32,
    picture: DpbPicture,
    pictures: &[DpbPicture],
) -> Result<Outputs, AllocError>
    requires few { length pictures.now ≤ 15 }
    ensures { IfOk result (λ o. o ≡ place_outputs reorder picture pictures.now) }
{
    let mut left = copied(alloc, pictures)?;
    let mut behind = FieldList::new(alloc);
    enter(reorder, picture, &mut behind, &mut left)?;
    outputs_by(alloc, FieldList::new(alloc), behind, left.as_slice())
}
