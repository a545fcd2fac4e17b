//! Disks that hold journals.
ghost use Rattle.std.specs.Prelude.{◌≡◌, find, option_copied, IfOk};
ghost use Rattle.acc_stamp.specs.Actor.{actor_eq};
ghost use Rattle.acc_left.specs.declared.image.Image.{Image as AnImage};
ghost use Rattle.acc_left_laws.specs.Left.{journal_at};
ghost use Rattle.acc_resume.specs.Opened.{memory, HoldsJournal};

use acc_base::OutOfMemory;
use acc_left::Image;
use acc_ports::MemDisk;
use acc_stamp::Actor;
use std::alloc::Global;

/// A disk of its own with the journal of an actor, which has nothing in it where none of these is the actor's.
pub(crate) fn disk_of(alloc: Global, images: &[Image], actor: Actor) -> Result<MemDisk, OutOfMemory>
    ensures { IfOk result (HoldsJournal memory (journal_at images.now actor)) }
{
    match image_of(images, actor) {
        Some(image) => MemDisk::of(alloc, image.bytes.copy()?),
        None => MemDisk::new(alloc),
    }
}

// The journal of an actor among these.
fn image_of(images: &[Image], actor: Actor) -> Option<&Image>
    ensures { option_copied result ≡ find (λ (image : AnImage). actor_eq image.actor actor) images.now }
{
    for image in images {
        if image.actor == actor {
            return Some(image);
        }
    }
    None
}
