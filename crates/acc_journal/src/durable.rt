//! Bytes that last.
ghost use Rattle.std.specs.Prelude.{◌≡◌, ◌⊎◌, ◌^◌, ◌<◌, ◌≤◌, ℕ, IsTrue, List, length, OnOk, IsErrOf};
ghost use Rattle.acc_ports.specs.Disk.{overwritten, Torn, IsAtRest};
ghost use Rattle.acc_ports.specs.Moments.{LeavesOnly};
ghost use Rattle.acc_journal.specs.Calls.{Asks};
ghost use Rattle.acc_journal.specs.Journal.{FailedHalfWay};

use acc_ports::{Disk, PortError};

/// Writes bytes at a place of a disk at rest, and syncs them. After an error the disk isn't at rest: a crash may leave any
/// bytes in that range and past the end.
pub(crate) fn write_durably<D: Disk>(disk: &mut D, at: u64, bytes: &[u8]) -> Result<(), PortError>
    requires inside { at ≤ length (D.state disk.old).content }
    requires rest { IsAtRest (D.state disk.old) (D.is_image disk.old) }

    ensures content { OnOk result ((D.state disk.new).content ≡ overwritten at bytes.now (D.state disk.old).content) }
    ensures rest { OnOk result (IsAtRest (D.state disk.new) (D.is_image disk.new)) }
    ensures images { (image : List ℕ) → D.is_image disk.new image → Torn at (length bytes.now) (D.state disk.old).content image }
    ensures any_moment { LeavesOnly D.Disk disk.old disk.new (λ image. (image ≡ (D.state disk.old).content) ⊎ Torn at (length bytes.now) (D.state disk.old).content image) }
    ensures fits { length (D.state disk.new).content < 2 ^ 64 }
    ensures calls { Asks D.Disk 2 disk.old disk.new result }
    ensures failed { IsTrue (D.state disk.old).strict → IsErrOf result PortError.Failed → FailedHalfWay at bytes.now (D.state disk.old) (D.state disk.new) }
{
    disk.write_at(at, bytes)?;
    disk.sync()
}
