//! What the turns of a step send and write.
ghost use Rattle.std.specs.Prelude.{◌≡◌, ◌++◌, [], map, IfOk, OnOk};
ghost use Rattle.acc_stamp.specs.declared.actors.Actor.{Actor};
ghost use Rattle.acc_stamp.specs.Actor.{shard_of};
ghost use Rattle.acc_message.specs.declared.answer.ReadAnswer.TheVariants.{Values};
ghost use Rattle.acc_message.specs.StoreRules.{read_ok};
ghost use Rattle.acc_opening.specs.Lookup.{lookup};
ghost use Rattle.acc_opening.specs.Turns.{change_of, changes_in};
ghost use Rattle.acc_record.specs.Shelf.{cell_at};
ghost use Rattle.std.specs.List.{AllByRecursion};
ghost use Rattle.acc_opening.specs.Layer.{layered, WritesOver};
ghost use Rattle.acc_opening.specs.Release.{sent_by, written_in, IsKept, IsReleased};

use crate::layer::write;
use crate::read::{Place, read_here};
use crate::{Known, Turn, record_of};
use acc_base::OutOfMemory;
use acc_message::{Envelope, Message, Messages, ReadAnswer};
use acc_record::{Cells, Record};
use acc_stamp::{Actor, Ballot, TxnId, home};
use acc_topology::Topology;
use acc_value::CellList;
use std::alloc::Global;

/// What the turns of a step send, and what they write.
#[derive(Debug, Drop)]
pub struct Released {
    /// The messages, in the order of the turns.
    pub sent: Messages,
    /// The cells that are written, by the last turn that writes each.
    pub writes: CellList,
}

// Sends the cells that were read to each attempt that waits for them.
fn send_cells(
    sent: &mut Messages,
    own: Actor,
    id: TxnId,
    ballots: &[Ballot],
    read: &CellList,
) -> Result<(), OutOfMemory>
    ensures { OnOk result (sent.new ≡ sent.old ++ map (λ b. read_ok own id b (Values read.now)) ballots.now) }
{
    for ballot in ballots {
        let envelope = Envelope {
            from: own,
            to: home(id, *ballot),
            id,
            ballot: *ballot,
        };
        sent.push(envelope.read_ok(ReadAnswer::Values(read.copy()?)))?;
    }
    Ok(())
}

// Sends to those that wait for a transaction that a turn opens what it reads.
fn open_turn(
    place: &Place<'_>,
    own: Actor,
    there: &Record,
    turn: &Turn,
    sent: &mut Messages,
    writes: &CellList,
) -> Result<(), OutOfMemory>
    requires { place.now.shard ≡ shard_of own }
    ensures { OnOk result (sent.new ≡ sent.old ++ sent_by place.now.topology.now own there.now (change_of turn.now) (layered place.now.cells.now writes.now)) }
{
    if !turn.opens {
        return Ok(());
    }
    let read = read_here(place, writes, there.body.parts())?;
    send_cells(sent, own, turn.id, there.waiters.as_slice(), &read)
}

// Makes the writes of a transaction that a turn applies.
fn apply_turn(
    place: &Place<'_>,
    there: &Record,
    turn: &Turn,
    writes: &mut CellList,
) -> Result<(), OutOfMemory>
    ensures { OnOk result (WritesOver writes.old (written_in place.now.topology.now place.now.shard there.now (change_of turn.now)) writes.new) }
{
    if !turn.applies {
        return Ok(());
    }
    match &there.outcome {
        Some(outcome) => write(place.topology, place.shard, writes, outcome.outcome()),
        None => Ok(()),
    }
}

// No messages yet, with room for one of each turn that opens. Mostly one attempt waits for each transaction that is opened.
fn with_room(alloc: Global, turns: &[Turn]) -> Result<Messages, OutOfMemory>
    ensures { IfOk result (λ sent. sent ≡ []) }
{
    let mut room: usize = 0;
    for turn in turns {
        if turn.opens {
            room = room.saturating_add(1);
        }
    }
    let sent = Vec::with_capacity(alloc, room)?;
    Ok(Messages::from_vec(sent))
}

/// What the turns of a step send and write, where each transaction has a record. Nothing is written yet.
pub fn release(
    alloc: Global,
    topology: &Topology,
    own: Actor,
    cells: &Cells,
    known: &Known<'_>,
    turns: &[Turn],
) -> Result<Released, OutOfMemory>
    requires { AllByRecursion (IsKept (lookup known.now.records.now known.now.own.now)) turns.now }
    ensures { IfOk result (IsReleased topology.now own (lookup known.now.records.now known.now.own.now) (changes_in turns.now) (cell_at cells.now)) }
{
    let place = Place {
        topology,
        shard: own.shard(),
        cells,
    };
    let mut sent = with_room(alloc, turns)?;
    let mut writes = CellList::new(alloc);
    for turn in turns {
        let Some(there) = record_of(known.records, known.own, turn.id) else {
            unreachable!()
        };
        open_turn(&place, own, there, turn, &mut sent, &writes)?;
        apply_turn(&place, there, turn, &mut writes)?;
    }
    Ok(Released { sent, writes })
}
