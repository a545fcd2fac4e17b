//! Disks.
ghost use Rattle.std.specs.Prelude.{◌≡◌, ℕ, ◌+◌, ◌≤◌, List, length, take, drop, IfOk, OnOk};
ghost use Rattle.acc_ports.specs.State.{DiskState};
ghost use Rattle.acc_ports.specs.Disk.{Torn, Follows, NoFurther, EachCall, OnlyReads, Writes, Syncs};

use crate::PortError;

/// Bytes that last, as those of a file do.
///
/// A crash may come at any moment, also during a call. Between two syncs, each range that was written, also by a call that
/// failed, and every byte past the length at the last sync may hold any byte after it, and all other bytes stay. After a
/// sync that succeeds it leaves what a read gives. So that contracts can speak of every moment, a disk has a clock.
pub trait Disk {
    /// The disk at a moment.
    ghost state: { Self → DiskState };

    /// The images: the contents that a crash may leave now.
    ghost is_image: { Self → List ℕ → Type 0 };

    /// The contents that a crash might have left at some moment since that time, during a call or between two.
    ghost was_image: { Self → ℕ → List ℕ → Type 0 };

    /// How many bytes there are.
    fn len(&mut self) -> Result<u64, PortError>
        ensures value { IfOk result (λ count. count ≡ length (state self.old).content) }
        ensures reads { OnlyReads (state self.old) (state self.new) result }
        ensures images { NoFurther (is_image self.old) (is_image self.new) }
        ensures call { EachCall (state self.old) (state self.new) (was_image self.old) (was_image self.new) (is_image self.new) result };

    /// Reads the bytes from a place on, as many as `into` has room for. After an error `into` may hold any bytes.
    fn read(&mut self, at: u64, into: &mut [u8]) -> Result<(), PortError>
        requires { at + length into.old ≤ length (state self.old).content }
        ensures bytes { OnOk result (into.new ≡ take (length into.old) (drop at (state self.old).content)) }
        ensures reads { OnlyReads (state self.old) (state self.new) result }
        ensures images { NoFurther (is_image self.old) (is_image self.new) }
        ensures call { EachCall (state self.old) (state self.new) (was_image self.old) (was_image self.new) (is_image self.new) result };

    /// Writes bytes at a place, over what stands there and past the end. They last once a sync has succeeded. After an error
    /// any of them may stand there or not.
    fn write_at(&mut self, at: u64, bytes: &[u8]) -> Result<(), PortError>
        requires { at ≤ length (state self.old).content }
        ensures writes { Writes at bytes.now (state self.old) (state self.new) result }
        ensures images { Follows (Torn at (length bytes.now)) (is_image self.old) (is_image self.new) }
        ensures call { EachCall (state self.old) (state self.new) (was_image self.old) (was_image self.new) (is_image self.new) result };

    /// Makes what was written last: after it a crash leaves what a read gives.
    fn sync(&mut self) -> Result<(), PortError>
        ensures syncs { Syncs (state self.old) (state self.new) (is_image self.new) result }
        ensures images { NoFurther (is_image self.old) (is_image self.new) }
        ensures call { EachCall (state self.old) (state self.new) (was_image self.old) (was_image self.new) (is_image self.new) result };

    /// The present moment is one of those since an earlier one.
    ghost counts_now: { (disk : Self) (moment : ℕ) (image : List ℕ) → moment ≤ (state disk).clock → is_image disk image → was_image disk moment image };

    /// Since the present moment there is no other.
    ghost only_now: { (disk : Self) (image : List ℕ) → was_image disk (state disk).clock image → is_image disk image };
}
