//! Makers of disks.
ghost use Rattle.std.specs.Prelude.{◌≡◌, ℕ, Bool, IsTrue, List, [], ◌∷◌, ◌++◌, IfOk, OnOk, OnErr};
ghost use Rattle.acc_ports.specs.Moments.{IsFresh};

use crate::Rig;
use acc_base::OutOfMemory;

/// What gives a run its disks, and takes them back at its end.
pub trait DiskMaker {
    type D: Rig + Send;

    /// Whether all disks that it makes are strict. No call changes that.
    ghost strict: { Self → Bool };

    /// The disks that were given back, each with its number.
    ghost given: { Self → List (ℕ × Self.D) };

    /// A new disk. It holds the two bytes 1 and 0, synced, has counted no fault, and nothing is armed.
    fn make(&mut self, number: u32) -> Result<Self::D, OutOfMemory>
        ensures fresh { IfOk result (λ disk. IsFresh Self.D.Disk disk) }
        ensures strict { IsTrue (strict self.old) → IfOk result (λ disk. IsTrue (Self.D.state disk).strict) }
        ensures kind { strict self.new ≡ strict self.old }
        ensures given { given self.new ≡ given self.old };

    /// Takes a disk back. Without memory for that the disk is gone, and the list is as before.
    fn back(&mut self, number: u32, disk: Self::D) -> Result<(), OutOfMemory>
        ensures ok { OnOk result (given self.new ≡ given self.old ++ (number, disk) ∷ []) }
        ensures err { OnErr result (given self.new ≡ given self.old) }
        ensures kind { strict self.new ≡ strict self.old };
}
