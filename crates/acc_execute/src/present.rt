//! What a Stable is answered at once.
ghost use Rattle.std.specs.Prelude.{◌≡◌, IfOk};
ghost use Rattle.std.specs.Option.{option_copied};
ghost use Rattle.acc_stamp.specs.Actor.{shard_of};
ghost use Rattle.acc_message.specs.StoreRules.{read_here};
ghost use Rattle.acc_record.specs.Shelf.{record_at, cell_at};
ghost use Rattle.acc_execute.specs.Now.{answer_now, at_once_of};

use acc_base::OutOfMemory;
use acc_message::{Messages, ReadAnswer};
use acc_opening::{Place, read_here};
use acc_record::{Record, Shelf, answering};
use acc_stamp::{Ballot, TxnId};
use acc_topology::Topology;
use acc_txn::BodyParts;
use acc_value::CellList;

/// The answer to a Stable of a transaction that is opened: its outcome, or else the cells that it reads here. There is none
/// as long as it isn't opened.
pub(crate) fn at_once(
    shelf: &Shelf,
    topology: &Topology,
    there: Option<&Record>,
    id: TxnId,
    ballot: Ballot,
) -> Result<Messages, OutOfMemory>
    requires { option_copied there ≡ record_at shelf.now.records id }
    ensures { IfOk result (λ sent. sent ≡ at_once_of topology.now shelf.now id ballot) }
{
    let mut sent = Messages::new(shelf.cells.pending.allocator());
    let Some(there) = there else {
        return Ok(sent);
    };
    if !there.opened {
        return Ok(sent);
    }
    let answer = answer_now(shelf, topology, there)?;
    sent.push(answering(shelf, id, ballot).read_ok(answer))?;
    Ok(sent)
}

fn answer_now(shelf: &Shelf, topology: &Topology, there: &Record) -> Result<ReadAnswer, OutOfMemory>
    ensures { IfOk result (λ answer. answer ≡ answer_now topology.now shelf.now there.now) }
{
    match &there.outcome {
        Some(outcome) => Ok(ReadAnswer::Known(outcome.outcome().copy()?)),
        None => Ok(ReadAnswer::Values(present_cells(shelf, topology, there.body.parts())?)),
    }
}

// The cells that a body reads here, as they are now.
fn present_cells(
    shelf: &Shelf,
    topology: &Topology,
    body: &BodyParts,
) -> Result<CellList, OutOfMemory>
    ensures { IfOk result (λ read. read ≡ read_here topology.now (shard_of shelf.now.actor) body.now (cell_at shelf.now.cells)) }
{
    let place = Place {
        topology,
        shard: shelf.actor.shard(),
        cells: &shelf.cells,
    };
    let none = CellList::new(shelf.cells.pending.allocator());
    let read = read_here(&place, &none, body)?;
    Ok(read)
}
