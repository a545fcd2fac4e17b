//! Disks that a run may crash.
ghost use Rattle.acc_ports.specs.Moments.{Crashes, Arms};

use crate::Disk;
use acc_base::OutOfMemory;

/// A disk that a run may crash, and whose next failure it may choose.
pub trait Rig: Disk {
    /// Crashes: one of the images is left, and is the only one then. Nothing is armed after it. A strict disk leaves, for the
    /// choice 0, the content at the last sync; for 1 what a read gives; and for any other choice what a read gives, with the
    /// choice in place of each byte that was written since the last sync. Without memory for it the content is still one of the
    /// images, whichever it is, and a crash may leave no other content than before.
    fn crash(&mut self, choice: u8) -> Result<(), OutOfMemory>
        ensures { Crashes Self.Disk choice self.old self.new result };

    /// Arms a call of a strict disk: so many more calls of `Disk` pass, and the next one fails. What it arms of another disk isn't
    /// told. This is no such call itself.
    fn arm(&mut self, calls: u64)
        ensures { Arms Self.Disk calls self.old self.new };
}
