//! Journals as bytes.
ghost use Rattle.std.specs.Prelude.{◌≡◌, IfOk};

use acc_base::{Bytes, Duplicate, OutOfMemory, Sequence};
use acc_stamp::Actor;

/// The bytes of an actor's journal.
#[derive(Debug, Drop)]
pub struct Image {
    /// Whose journal it is.
    pub actor: Actor,
    /// What its disk holds.
    pub bytes: Bytes,
}

/// Journals of actors.
pub type Images = Sequence<Image>;

impl Image {
    /// An equal image, in memory of its own.
    pub fn copy(&self) -> Result<Image, OutOfMemory>
        ensures { IfOk result (λ copy. copy ≡ self.now) }
    {
        Ok(Image {
            actor: self.actor,
            bytes: self.bytes.copy()?,
        })
    }
}

impl Duplicate for Image {
    fn copy(&self) -> Result<Image, OutOfMemory> {
        Image::copy(self)
    }
}
