//! Hashes that are stated for the open picture (D.2.19, D.3.19).

ghost use Rattle.std.specs.Prelude.{◌≡◌, IfOk, IfSome, OnErr, OnOk, option_map};
ghost use Rattle.spec_nal_units.specs.Judged.{unit_of};
ghost use Rattle.spec_picture_plan.specs.declared.unit_kind.UnitKind.TheVariants as unit;
ghost use Rattle.spec_picture_plan.specs.Steps.{kind_step, stated_hash, with_hashes};
ghost use Rattle.picture_headers.specs.Bounds.{KeepsFew};
ghost use Rattle.picture_plan.specs.Taken.{left_by, taken};

use crate::state::State;
use crate::step::Step;
use hash_sei::{digest_of, read_hash};
use hv_base::Nal;
use plan_types::{PicturePlan, StatedHash};
use std::alloc::AllocError;

impl State {
    /// Plans suffix supplemental enhancement information, which is of the open picture, if there is one. After want of
    /// memory all is as before.
    pub(crate) fn plan_suffix(&mut self, nal: &Nal) -> Result<Step, AllocError>
        ensures value { IfOk result (λ step. left_by step self.new
            ≡ taken self.old (kind_step self.old.between (unit_of nal.now) unit.SuffixInformation)) }
        ensures err { OnErr result (self.new ≡ self.old) }
    {
        add_hashes(&mut self.between.picture, nal)?;
        Ok(Step::only(None))
    }
}

/// Adds what a unit states to a picture, if there is one. After want of memory it is as before.
fn add_hashes(picture: &mut Option<PicturePlan>, nal: &Nal) -> Result<(), AllocError>
    ensures ok { OnOk result (picture.new ≡ option_map (with_hashes (unit_of nal.now)) picture.old) }
    ensures kept { IfSome picture.old KeepsFew → IfSome picture.new KeepsFew }
    ensures err { OnErr result (picture.new ≡ picture.old) }
{
    match (picture, read_hash(nal)) {
        (Some(picture), Some(hashes)) => picture.hashes.push(stated_hash(nal.index, &hashes)),
        _ => Ok(()),
    }
}

/// The hashes of the planes Y, Cb and Cr as the unit of this number states them.
fn stated_hash(nal: u32, hashes: &[[u8; 16]; 3]) -> StatedHash
    ensures { result ≡ stated_hash nal hashes.now }
{
    StatedHash {
        nal,
        luma: digest_of(&hashes[0]),
        cb: digest_of(&hashes[1]),
        cr: digest_of(&hashes[2]),
    }
}
