//! Entering items within the limits.
ghost use Rattle.std.specs.Prelude.{◌≡◌, ℕ, ◌<◌, ◌≤◌, ◌∷◌, Bool, IfErr, OnOk, IfSome, length, is_none, false, true};
ghost use Rattle.acc_message.specs.declared.error.Which.{Which as AWhich};
ghost use Rattle.acc_message.specs.declared.error.RunError.{RunError as AnError};
ghost use Rattle.acc_message.specs.declared.item.Item.{Item as AnItem};
ghost use Rattle.acc_message.specs.Run.{Cluster as RunCluster};
ghost use Rattle.acc_message_code.specs.Weight.{weight_of};
ghost use Rattle.acc_run_laws.specs.Sends.{AreSendable};
ghost use Rattle.acc_schedule_runs.specs.Situations.{Situation};
ghost use Rattle.acc_schedule_runs.specs.Moves.{with_item, tried_if};
ghost use Rattle.acc_schedule_runs.specs.Limits.{EndsAt, most_items};
ghost use Rattle.acc_history.specs.Stands.{StandsFor, TakesSent, EventTakesSent};
ghost use Rattle.acc_actors.specs.Asked.{IsEmitted};
ghost use Rattle.acc_cluster.specs.Steps.{IfLimit};
ghost use Rattle.acc_cluster.specs.Entering.{HasPlace, IsPastOf, HasGrown, step_item};

use acc_history::History;
use acc_message::{Emitted, Entry, Event, Item, RunError, Skip, Which};
use acc_message_code::messages_length;
use acc_schedule_runs::limits::{MOST_BYTES, MOST_ITEMS};
use acc_stamp::Actor;

// The limit of items is reached.
#[cold]
#[inline(never)]
fn too_many_items() -> RunError
    ensures { result ≡ AnError.Limit AWhich.Items most_items }
{
    RunError::Limit {
        which: Which::Items,
        number: MOST_ITEMS,
    }
}

/// Whether one item more is within the limit of items.
#[inline(always)]
pub(crate) fn check_place(history: &History) -> Result<(), RunError>
    ensures ok { OnOk result ((s : Situation) → StandsFor history.now s → HasPlace s) }
    ensures limit { IfErr result (λ error. (error ≡ AnError.Limit AWhich.Items most_items) × ((s : Situation) → StandsFor history.now s → most_items ≤ length s.own)) }
{
    if history.len() as u64 >= MOST_ITEMS {
        return Err(too_many_items());
    }
    Ok(())
}

// Enters an item whose messages have so many bytes, within the limit of bytes.
#[inline(always)]
fn enter(history: &mut History, item: Item, weight: u64) -> Result<(), RunError>
    ensures ok { OnOk result ((s : Situation) → IsPastOf history.old s → HasPlace s → TakesSent s item → weight ≡ weight_of item → IsPastOf history.new (with_item item s)) }
    ensures limit { IfErr result (IfLimit (λ which number. (s : Situation) → IsPastOf history.old s → HasPlace s → weight ≡ weight_of item
        → (0 < weight) × EndsAt (λ front. front ≡ item ∷ s.own) s.own which number)) }
    ensures as_before { IfErr result (IfLimit (λ which number. history.new ≡ history.old)) }
{
    if history.weight().saturating_add(weight) > MOST_BYTES {
        return Err(RunError::Limit {
            which: Which::Bytes,
            number: MOST_BYTES,
        });
    }
    history.add(item, weight)?;
    Ok(())
}

/// Enters that a step of the schedule, by its number, was passed over.
pub(crate) fn enter_skip(history: &mut History, number: u32, cause: Skip) -> Result<(), RunError>
    ensures ok { OnOk result ((s : Situation) → IsPastOf history.old s → HasPlace s → IsPastOf history.new (with_item (AnItem.Skipped number cause) s)) }
    ensures never { IfErr result (IfLimit (λ which most. (s : Situation) → IsPastOf history.old s → HasPlace s → ⊥)) }
{
    enter(
        history,
        Item::Skipped {
            step: number,
            cause,
        },
        0,
    )
}

/// Enters that an actor went down.
pub(crate) fn enter_down(history: &mut History, actor: Actor) -> Result<(), RunError>
    ensures ok { OnOk result ((s : Situation) → IsPastOf history.old s → HasPlace s → IsPastOf history.new (with_item (AnItem.Down actor) s)) }
    ensures never { IfErr result (IfLimit (λ which most. (s : Situation) → IsPastOf history.old s → HasPlace s → ⊥)) }
    ensures as_before { IfErr result (IfLimit (λ which number. history.new ≡ history.old)) }
{
    enter(history, Item::Down { actor }, 0)
}

/// Enters an entry of an actor.
#[inline(always)]
pub(crate) fn enter_entry(
    history: &mut History,
    actor: Actor,
    event: Event,
    emitted: Emitted,
    lost: bool,
) -> Result<(), RunError>
    requires sendable { AreSendable emitted.out }
    ensures ok { OnOk result ((s : Situation) → IsPastOf history.old s → HasPlace s → EventTakesSent s event → IsPastOf history.new (with_item (step_item actor event emitted lost) s)) }
    ensures limit { IfErr result (IfLimit (λ which number. (s : Situation) → IsPastOf history.old s → HasPlace s
        → EndsAt (λ front. front ≡ step_item actor event emitted lost ∷ s.own) s.own which number)) }
    ensures as_before { IfErr result (IfLimit (λ which number. history.new ≡ history.old)) }
{
    let weight = messages_length(emitted.out.as_slice());
    if history.weight().saturating_add(weight) > MOST_BYTES {
        return Err(RunError::Limit {
            which: Which::Bytes,
            number: MOST_BYTES,
        });
    }
    let entry = Entry {
        actor,
        event,
        emitted,
        lost,
    };
    history.add_entry(entry, weight)?;
    Ok(())
}

/// Enters what an actor gave, or that its disk failed.
#[inline(always)]
pub(crate) fn enter_given(
    history: &mut History,
    actor: Actor,
    event: Event,
    given: Option<Emitted>,
) -> Result<(), RunError>
    requires sendable { IfSome given (λ emitted. AreSendable emitted.out) }
    ensures ok { OnOk result ((cluster : RunCluster) (s : Situation) → IsPastOf history.old s → HasPlace s → EventTakesSent s event → IsEmitted cluster s actor event given
        → IsPastOf history.new (tried_if (is_none given) cluster s actor event)) }
    ensures limit { IfErr result (IfLimit (λ which number. (cluster : RunCluster) (s : Situation) → IsPastOf history.old s → HasPlace s → IsEmitted cluster s actor event given
        → (is_none given ≡ false) × EndsAt (λ front. front ≡ (tried_if false cluster s actor event).own) s.own which number)) }
    ensures as_before { IfErr result (IfLimit (λ which number. history.new ≡ history.old)) }
    ensures grown { OnOk result ((s : Situation) → IsPastOf history.old s → HasPlace s → EventTakesSent s event → HasGrown history.new s) }
{
    match given {
        Some(emitted) => enter_entry(history, actor, event, emitted, false),
        None => enter_down(history, actor),
    }
}
