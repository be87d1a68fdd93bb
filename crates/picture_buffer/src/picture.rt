//! A decoded picture.

ghost use Rattle.std.specs.Prelude.{◌≡◌};
ghost use Rattle.header_types.specs.SequenceParameterSets.{IsPictureFormat};
ghost use Rattle.picture_buffer.specs.Planes.{HasSides};

use crate::motion_field::MotionField;
use crate::planes::Planes;
use header_types::PictureFormat;
use std::marker::Model;

/// A decoded picture: its format, its samples, and its motion. Its planes have the sides of its format.
#[derive(Drop)]
pub struct Picture {
    format: PictureFormat,
    planes: Planes,
    motion: MotionField,
}

impl Model for Picture {
    ghost use Rattle.header_types.specs.SequenceParameterSets.{IsPictureFormat};
    ghost use Rattle.picture_buffer.specs.Pictures.{HeldPicture};
    ghost use Rattle.picture_buffer.specs.Planes.{HasSides};

    ghost Value = { HeldPicture };

    ghost view = { λ p. record { format = p.format; planes = p.planes; motion = p.motion } };

    ghost invariant = { λ p. HasSides p.planes p.format.pic_width_in_luma_samples p.format.pic_height_in_luma_samples
        × IsPictureFormat p.format };
}

impl Picture {
    /// A picture of this format, of these samples and this motion.
    pub fn new(format: PictureFormat, planes: Planes, motion: MotionField) -> Picture
        requires sides { HasSides planes format.pic_width_in_luma_samples format.pic_height_in_luma_samples }
        requires format { IsPictureFormat format }
        ensures { result ≡ record { format = format; planes = planes; motion = motion } }
    {
        Picture {
            format,
            planes,
            motion,
        }
    }

    /// Its format.
    pub fn format(&self) -> &PictureFormat
        ensures value { result.now ≡ self.now.format }
        ensures format { IsPictureFormat self.now.format }
    {
        &self.format
    }

    /// Its samples.
    pub fn planes(&self) -> &Planes
        ensures value { result.now ≡ self.now.planes }
        ensures sides { HasSides self.now.planes self.now.format.pic_width_in_luma_samples
            self.now.format.pic_height_in_luma_samples }
    {
        &self.planes
    }

    /// Its motion.
    pub fn motion(&self) -> &MotionField
        ensures { result.now ≡ self.now.motion }
    {
        &self.motion
    }

    /// Its samples and its motion, for a later picture to be kept in their memory.
    pub fn into_parts(self) -> (Planes, MotionField)
        ensures planes { result.0 ≡ self.planes }
        ensures motion { result.1 ≡ self.motion }
        ensures sides { HasSides self.planes self.format.pic_width_in_luma_samples
            self.format.pic_height_in_luma_samples }
        ensures format { IsPictureFormat self.format }
    {
        (self.planes, self.motion)
    }
}
