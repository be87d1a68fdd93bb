//! A decoded picture with several owners.

ghost use Rattle.std.specs.Prelude.{◌≡◌, IfOk, IfSome};
ghost use Rattle.header_types.specs.SequenceParameterSets.{IsPictureFormat};

use crate::picture::Picture;
use std::alloc::{AllocError, Global};
use std::marker::Model;
use std::sync::Arc;

/// A decoded picture with several owners, as one that stands in two buffers. Contracts see the picture.
#[derive(Drop)]
pub struct SharedPicture {
    owner: Arc<Picture>,
}

impl Model for SharedPicture {
    ghost use Rattle.std.specs.Arc.{arc_value};
    ghost use Rattle.picture_buffer.specs.Pictures.{HeldPicture};

    ghost Value = { HeldPicture };

    ghost view = { λ s. arc_value s.owner };
}

impl SharedPicture {
    /// A picture with one owner. `Err` is want of memory, and the picture is dropped then.
    pub fn new(alloc: Global, picture: Picture) -> Result<SharedPicture, AllocError>
        ensures { IfOk result (λ s. s ≡ picture) }
    {
        match Arc::new(alloc, picture) {
            Ok(owner) => Ok(SharedPicture { owner }),
            Err(_) => Err(AllocError),
        }
    }

    /// One more owner of it. Refused only where the count of owners is full.
    pub fn share(&self) -> Result<SharedPicture, AllocError>
        ensures { IfOk result (λ s. s ≡ self.now) }
    {
        Ok(SharedPicture {
            owner: Arc::try_clone(&self.owner)?,
        })
    }

    /// The picture.
    pub fn picture(&self) -> &Picture
        ensures value { result.now ≡ self.now }
        ensures format { IsPictureFormat self.now.format }
    {
        let picture = &*self.owner;
        let _ = picture.format();
        picture
    }

    /// Gives it up: the picture itself, where this was its last owner.
    pub fn into_picture(self) -> Option<Picture>
        ensures { IfSome result (λ p. p ≡ self) }
    {
        Arc::into_inner(self.owner)
    }
}
