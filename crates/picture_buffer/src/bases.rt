//! The pictures that later pictures refer to.

ghost use Rattle.std.specs.Prelude.{◌≡◌, ◌<◌, ◌++◌, ◌∷◌, [], IfOk, OnErr, OnOk, Some, length, slice_get};
ghost use Rattle.std.specs.List.{All, remove};
ghost use Rattle.std.specs.Option.{option_copied};
ghost use Rattle.picture_buffer.specs.Pictures.{HasFormat};

use crate::picture::Picture;
use crate::shared_picture::SharedPicture;
use std::alloc::{AllocError, Global};
use std::marker::Model;

/// The pictures of the decoded picture buffer, in decoding order, as later pictures refer to them (C.5.2). A picture is
/// named by its place. Other buffers may have the same pictures.
#[derive(Drop)]
pub struct Bases {
    alloc: Global,
    pictures: Vec<SharedPicture>,
}

impl Model for Bases {
    ghost use Rattle.std.specs.Prelude.{List};
    ghost use Rattle.std.specs.List.{All};
    ghost use Rattle.picture_buffer.specs.Pictures.{HasFormat, HeldPicture};

    ghost Value = { List HeldPicture };

    ghost view = { λ b. b.pictures.items };

    ghost invariant = { λ b. All HasFormat b.pictures.items };
}

impl Bases {
    /// None.
    pub fn new(alloc: Global) -> Bases
        ensures { result ≡ [] }
    {
        Bases {
            alloc,
            pictures: Vec::new(alloc),
        }
    }

    /// Another buffer with the same pictures. `Err` is want of memory.
    pub fn share(&self) -> Result<Bases, AllocError>
        ensures { IfOk result (λ b. b ≡ self.now) }
    {
        let mut shared = Bases::new(self.alloc);
        for picture in &self.pictures {
            shared.push_shared(picture.share()?)?;
        }
        Ok(shared)
    }

    /// How many there are. Each has a format that may be.
    pub fn len(&self) -> usize
        ensures value { result ≡ length self.now }
        ensures formats { All HasFormat self.now }
    {
        self.pictures.len()
    }

    /// The picture at a place; `None` behind the last.
    pub fn get(&self, place: u32) -> Option<&Picture>
        ensures { option_copied result ≡ slice_get self.now place }
    {
        match self.pictures.get(place as usize) {
            Some(shared) => Some(shared.picture()),
            None => None,
        }
    }

    /// A picture behind the last. `Err` is want of memory, and the picture is dropped then.
    pub fn push(&mut self, picture: Picture) -> Result<(), AllocError>
        ensures pushed { OnOk result (self.new ≡ self.old ++ picture ∷ []) }
        ensures kept { OnErr result (self.new ≡ self.old) }
    {
        let shared = SharedPicture::new(self.alloc, picture)?;
        self.push_shared(shared)
    }

    /// The same of a picture that others own too.
    pub fn push_shared(&mut self, shared: SharedPicture) -> Result<(), AllocError>
        ensures pushed { OnOk result (self.new ≡ self.old ++ shared ∷ []) }
        ensures kept { OnErr result (self.new ≡ self.old) }
    {
        let _ = shared.picture();
        match self.pictures.push(shared) {
            Ok(()) => Ok(()),
            Err(_) => Err(AllocError),
        }
    }

    /// Takes the picture at a place out and hands it over; those behind it move up.
    pub fn remove(&mut self, place: usize) -> SharedPicture
        requires { place < length self.old }
        ensures picture { slice_get self.old place ≡ Some result }
        ensures left { self.new ≡ remove self.old place }
    {
        self.pictures.remove(place)
    }
}
