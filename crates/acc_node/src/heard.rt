//! What a message makes of an attempt.
ghost use Rattle.std.specs.Prelude.{◌≡◌, true, false, [], ◌∷◌, Option, IfOk, IfErr, OnErr};
ghost use Rattle.acc_stamp.specs.declared.stamps.TxnId.{TxnId};
ghost use Rattle.acc_message.specs.Attempts.{Attempt};
ghost use Rattle.acc_message.specs.Coordinator.{silence, reaction};
ghost use Rattle.acc_stamp.specs.Actor.{home_of};
ghost use Rattle.acc_coord.specs.Stands.{StandsFor as Coordinates};
ghost use Rattle.acc_node.specs.declared.running.Running.TheVariants.{Coordinating};
ghost use Rattle.acc_node.specs.Stands.{RunsAs, Hears, JudgedAs, turned, waits};

use crate::clients::{answer_client, one_note};
use crate::running::Running;
use acc_base::OutOfMemory;
use acc_coord::Coord;
use acc_message::{Emitted, Message, Messages, Note, Notes};
use acc_recover::{Judged, Recovery};
use acc_stamp::TxnId;
use acc_topology::Topology;
use std::alloc::Global;

/// What an attempt emits, whether it ends, and whether the reply to the client is among the notes.
#[derive(Debug, Drop)]
pub(crate) struct Heard {
    pub(crate) emitted: Emitted,
    pub(crate) has_ended: bool,
    pub(crate) has_replied: bool,
}

/// Nothing.
pub(crate) fn silent(alloc: Global) -> Heard
    ensures { result ≡ record { emitted = silence; has_ended = false; has_replied = false } }
{
    Heard {
        emitted: Emitted {
            notes: Notes::new(alloc),
            out: Messages::new(alloc),
        },
        has_ended: false,
        has_replied: false,
    }
}

impl Running {
    /// What the attempt at a transaction makes of a message that is no Inform. Where the client is open, the reply stands right
    /// after an outcome. Without memory the attempt is as before.
    pub(crate) fn hear(
        &mut self,
        topology: &Topology,
        id: TxnId,
        is_open: bool,
        m: &Message,
    ) -> Result<Heard, OutOfMemory>
        ensures ok { IfOk result (λ heard. (a : Attempt) → RunsAs topology.now id self.old a →
            Hears topology.now id self.new is_open heard (reaction topology.now (home_of id a.ballot) id a m.now)) }
        ensures err { OnErr result (self.new ≡ self.old) }
    {
        match self {
            Running::Coordinating(coord) => coordinate(coord, topology, is_open, m),
            Running::Recovering(recovery) => {
                let judged = recovery.get_mut().on_answer(topology, m)?;
                let (heard, coord) = follow(recovery.get(), topology, id, judged)?;
                self.turn(coord);
                Ok(heard)
            }
        }
    }

    // Goes on as a coordinator, where there is one.
    fn turn(&mut self, coord: Option<Coord>)
        ensures { self.new ≡ turned self.old coord }
    {
        if let Some(coord) = coord {
            *self = Running::Coordinating(coord);
        }
    }
}

// What a coordinator makes of it.
fn coordinate(
    coord: &mut Coord,
    topology: &Topology,
    is_open: bool,
    m: &Message,
) -> Result<Heard, OutOfMemory>
    ensures ok { IfOk result (λ heard. (x : TxnId) (a : Attempt) → Coordinates topology.now x coord.old a →
        Hears topology.now x (Coordinating coord.new) is_open heard (reaction topology.now (home_of x a.ballot) x a m.now)) }
    ensures err { OnErr result (coord.new ≡ coord.old) }
{
    let (emitted, has_ended) = coord.on_answer(topology, m)?;
    let Emitted { mut notes, out } = emitted;
    let has_replied = answer_client(&mut notes, has_ended, is_open)?;
    Ok(Heard {
        emitted: Emitted { notes, out },
        has_ended,
        has_replied,
    })
}

// How an attempt that asked for evidence goes on: as a coordinator, where there is a choice.
fn follow(
    recovery: &Recovery,
    topology: &Topology,
    id: TxnId,
    judged: Judged,
) -> Result<(Heard, Option<Coord>), OutOfMemory>
    ensures ok { IfOk result (λ r. JudgedAs topology.now id recovery.now judged r.0 r.1) }
    ensures err { IfErr result (λ error. waits judged ≡ false) }
{
    let ballot = recovery.ballot();
    let alloc = recovery.body().parts().lets.allocator();
    match judged {
        Judged::Wait => Ok((silent(alloc), None)),
        Judged::Go(choice) => {
            let (coord, emitted) = Coord::go(topology, id, ballot, recovery.body(), choice)?;
            let heard = Heard {
                emitted,
                has_ended: false,
                has_replied: false,
            };
            Ok((heard, Some(coord)))
        }
        Judged::Blocked(by) => Ok((ended(Note::Blocked { id, ballot, by }, alloc)?, None)),
        Judged::Ended(by) => Ok((ended(Note::Ended { id, ballot, by }, alloc)?, None)),
    }
}

// The end of an attempt, with a note of it.
fn ended(note: Note, alloc: Global) -> Result<Heard, OutOfMemory>
    ensures { IfOk result (λ heard. heard ≡ record { emitted = record { notes = note ∷ []; out = [] }; has_ended = true; has_replied = false }) }
{
    Ok(Heard {
        emitted: Emitted {
            notes: one_note(alloc, note)?,
            out: Messages::new(alloc),
        },
        has_ended: true,
        has_replied: false,
    })
}
