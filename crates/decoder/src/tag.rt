//! What is told of a picture as it goes out.

ghost use Rattle.std.specs.Prelude.{◌≡◌};

use plan_types::PicturePlan;

/// What is told of a picture as it goes out, beside its samples.
#[derive(Clone, Copy)]
pub(crate) struct Tag {
    /// PicOrderCntVal.
    pub(crate) poc: i32,
    /// The nal_unit_type of its slices.
    pub(crate) nal_type: u8,
}

impl Tag {
    /// That of a planned picture.
    pub(crate) fn of(picture: &PicturePlan) -> Tag
        ensures poc { result.poc ≡ picture.now.poc }
        ensures nal_type { result.nal_type ≡ picture.now.kind.nal_type }
    {
        Tag {
            poc: picture.poc,
            nal_type: picture.kind.nal_type,
        }
    }
}
