//! The steps of a store, planned and then taken.
ghost use Rattle.std.specs.Prelude.{◌≡◌, ◌<◌, ◌^◌, true, IfOk, OnErr};
ghost use Rattle.acc_message.specs.declared.message.Message.{Message};
ghost use Rattle.acc_message.specs.Fields.{top_of};
ghost use Rattle.acc_message.specs.Opening.{may_open};
ghost use Rattle.acc_record.specs.Shelf.{IsSame};
ghost use Rattle.acc_record.specs.Stands.{IsFor, AnswersByRules};
ghost use Rattle.acc_execute.specs.Executed.{Stands, IsReady};
ghost use Rattle.acc_store.specs.Prepared.{IsPreparedAt, sent_by};

use acc_accept::{prepare_accept, prepare_commit};
use acc_base::OutOfMemory;
use acc_execute::{PreparedStep, prepare_apply, prepare_stable, take_apply, take_stable};
use acc_message::{Message, Messages};
use acc_preaccept::prepare_preaccept;
use acc_record::{QuietPlan, Shelf};
use acc_reveal::prepare_recover;
use acc_topology::Topology;

/// A step that is planned. Nothing is changed yet.
#[derive(Debug, Drop)]
pub enum Prepared {
    /// A Stable or an Apply, with all that it opens, applies and sends.
    Opens(PreparedStep),
    /// A message that opens nothing, with its answer.
    Quiet(QuietPlan),
}

/// Plans the step of a store that takes a message.
pub(crate) fn prepare(
    shelf: &Shelf,
    topology: &Topology,
    m: &Message,
) -> Result<Prepared, OutOfMemory>
    requires store { IsFor shelf.now.actor m.now }
    requires top { top_of m.now < 2 ^ 62 }
    requires greatest { shelf.now.greatest < 2 ^ 62 }
    requires stands { Stands topology.now shelf.now }
    ensures { IfOk result (IsPreparedAt topology.now shelf.now m.now) }
{
    match m {
        Message::PreAccept { .. } => Ok(Prepared::Quiet(prepare_preaccept(shelf, topology, m)?)),
        Message::Accept { .. } => Ok(Prepared::Quiet(prepare_accept(shelf, topology, m)?)),
        Message::Commit { .. } => Ok(Prepared::Quiet(prepare_commit(shelf, topology, m)?)),
        Message::Recover { .. } => Ok(Prepared::Quiet(prepare_recover(shelf, topology, m)?)),
        Message::Stable { .. } => Ok(Prepared::Opens(prepare_stable(shelf, topology, m)?)),
        Message::Apply { .. } => Ok(Prepared::Opens(prepare_apply(shelf, topology, m)?)),
        _ => unreachable!(),
    }
}

impl Prepared {
    /// What the step sends.
    pub(crate) fn sent(&self) -> &Messages
        ensures { result.now ≡ sent_by self.now }
    {
        match self {
            Prepared::Opens(step) => step.sent(),
            Prepared::Quiet(plan) => plan.sent(),
        }
    }
}

/// The step of a store that takes a message as it was planned: what it sends. Without memory for it the shelf is as before.
#[inline(always)]
pub(crate) fn take(
    shelf: &mut Shelf,
    topology: &Topology,
    m: &Message,
    prepared: Prepared,
) -> Result<Messages, OutOfMemory>
    requires { IsPreparedAt topology.now shelf.old m.now prepared }
    ensures ok { IfOk result (λ sent. AnswersByRules topology.now shelf.old shelf.new m.now sent) }
    ensures err { OnErr result (IsSame shelf.old shelf.new) }
{
    match prepared {
        Prepared::Opens(step) => take_opening(shelf, topology, m, step),
        Prepared::Quiet(plan) => shelf.take_quiet(plan),
    }
}

fn take_opening(
    shelf: &mut Shelf,
    topology: &Topology,
    m: &Message,
    step: PreparedStep,
) -> Result<Messages, OutOfMemory>
    requires opening { may_open m.now ≡ true }
    requires ready { IsReady topology.now shelf.old m.now step.parts.value }
    ensures ok { IfOk result (λ sent. AnswersByRules topology.now shelf.old shelf.new m.now sent) }
    ensures err { OnErr result (IsSame shelf.old shelf.new) }
{
    match m {
        Message::Stable { .. } => take_stable(shelf, topology, m, step),
        Message::Apply { .. } => take_apply(shelf, topology, m, step),
        _ => unreachable!(),
    }
}
