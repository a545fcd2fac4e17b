//! The disks at the end of a run.
ghost use Rattle.std.specs.Prelude.{◌≡◌, ◌++◌, map, OnOk};
ghost use Rattle.acc_run.specs.Given.{numbered};

use acc_base::OutOfMemory;
use acc_cluster::Disks;
use acc_ports::DiskMaker;

/// Gives the disks back, in their order.
pub fn give_back<M: DiskMaker>(disks: &mut M, ended: Disks<M::D>) -> Result<(), OutOfMemory>
where
    M::D: Drop,
    ensures given { OnOk result (M.given disks.new ≡ M.given disks.old ++ map numbered ended.items) }
    ensures kind { M.strict disks.new ≡ M.strict disks.old }
{
    for (actor, disk) in ended {
        disks.back(actor.0, disk)?;
    }
    Ok(())
}
