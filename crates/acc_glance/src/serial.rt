//! The cells that the first outcomes of a run leave in turn.
ghost use Rattle.std.specs.Prelude.{◌≡◌, List, [], ◌∷◌, ◌++◌, ◌||◌, is_some, IfSome, Some, OnOk};
ghost use Rattle.std.specs.List.{list_any};
ghost use Rattle.std.specs.Option.{option_copied};
ghost use Rattle.acc_stamp.specs.declared.stamps.TxnId.{TxnId as AnId};
ghost use Rattle.acc_stamp.specs.Stamp.{id_eq};
ghost use Rattle.acc_value.specs.Cells.{cells_of};
ghost use Rattle.acc_message.specs.declared.item.Item.{Item};
ghost use Rattle.acc_message.specs.declared.message.Message.{Message};
ghost use Rattle.acc_message.specs.declared.note.Note.{Note as ANote};
ghost use Rattle.acc_message.specs.Items.{noted_in};
ghost use Rattle.acc_message.specs.Run.{Cluster};
ghost use Rattle.acc_message.specs.Shown.{with_sent};
ghost use Rattle.acc_safety.specs.Decisions.{body_at};
ghost use Rattle.acc_report.specs.Known.{number_at};
ghost use Rattle.acc_schedule_runs.specs.Schedules.{cluster_of};
ghost use Rattle.acc_glance.specs.Serial.{has_id, outcome_id, Tells, TellsNotes};

use crate::answers::answer;
use crate::begun::enter_begin;
use acc_base::OutOfMemory;
use acc_message::{Note, Shown};
use acc_schedule::Plan;
use acc_stamp::TxnId;
use acc_txn::Body;
use acc_value::{CellMap, Key, Value};
use std::alloc::Global;
use std::collections::{BTreeMap, BTreeSet};

/// The serial cells of the items so far.
#[derive(Drop)]
pub(crate) struct Serial {
    // The numbers of the transactions that the items begin, by their ids.
    begun: BTreeMap<TxnId, u32>,
    // The transactions with an outcome.
    answered: BTreeSet<TxnId>,
    cells: CellMap,
}

impl Serial {
    /// Those of no items.
    pub(crate) fn new(alloc: Global) -> Serial
        ensures { (cluster : Cluster) → Tells result cluster [] }
    {
        Serial {
            begun: BTreeMap::new(alloc),
            answered: BTreeSet::new(alloc),
            cells: CellMap::new(alloc),
        }
    }

    /// The cell of a key.
    pub(crate) fn cell(&self, key: &Key) -> Option<&Value>
        ensures { option_copied result ≡ cells_of self.now.cells key.now }
    {
        self.cells.get(key)
    }

    /// Takes one item more.
    pub(crate) fn enter(&mut self, plan: &Plan, item: Shown<'_>) -> Result<(), OutOfMemory>
        ensures { OnOk result ((out : List Message) (earlier : List Item) → Tells self.old (cluster_of plan.now) earlier
            → Tells self.new (cluster_of plan.now) (with_sent item.entry out ∷ earlier)) }
    {
        enter_begin(&mut self.begun, item)?;
        for note in notes_of(item) {
            self.enter_note(plan, note)?;
        }
        Ok(())
    }

    // Takes one note more.
    fn enter_note(&mut self, plan: &Plan, note: &Note) -> Result<(), OutOfMemory>
        ensures { OnOk result ((items : List Item) (notes : List ANote) → TellsNotes self.old (cluster_of plan.now) items notes
            → TellsNotes self.new (cluster_of plan.now) items (notes ++ note.now ∷ [])) }
    {
        match outcome_of(note) {
            Some(id) => self.enter_outcome(plan, id),
            None => Ok(()),
        }
    }

    // Takes an outcome of a transaction, which counts where it is the first.
    fn enter_outcome(&mut self, plan: &Plan, id: TxnId) -> Result<(), OutOfMemory>
        ensures { OnOk result ((items : List Item) (notes : List ANote) (note : ANote) → outcome_id note ≡ Some id
            → TellsNotes self.old (cluster_of plan.now) items notes → TellsNotes self.new (cluster_of plan.now) items (notes ++ note ∷ [])) }
    {
        if self.answered.contains(&id) {
            return Ok(());
        }
        let Some(body) = self.body_of(plan, id) else {
            return Err(OutOfMemory);
        };
        let outcome = answer(body, &self.cells)?;
        self.cells.apply(&outcome.writes)?;
        insert_id(&mut self.answered, id)
    }

    // The body of a transaction that is begun.
    fn body_of<'p>(&self, plan: &'p Plan, id: TxnId) -> Option<&'p Body>
        ensures { IfSome result (λ body. body_at (cluster_of plan.now) (number_at self.now.begun.entries id) ≡ Some body.now) }
    {
        let txn = self.begun.get(&id).copied()?;
        plan.bodies.as_slice().get(txn as usize)
    }
}

// Adds a transaction to those with an outcome.
fn insert_id(answered: &mut BTreeSet<TxnId>, id: TxnId) -> Result<(), OutOfMemory>
    ensures { OnOk result ((x : AnId) → has_id answered.new.keys x ≡ (has_id answered.old.keys x || id_eq id x)) }
{
    answered.insert(id)?;
    Ok(())
}

/// The notes of an item.
pub(crate) fn notes_of(item: Shown<'_>) -> &[Note]
    ensures { (out : List Message) → result.now ≡ noted_in (with_sent item.entry out) }
{
    match item {
        Shown::Step { notes, .. } => notes,
        Shown::Skipped { .. } => &[],
        Shown::Down { .. } => &[],
    }
}

/// Whether an outcome is noted.
pub(crate) fn tells_outcome(notes: &[Note]) -> bool
    ensures { result ≡ list_any (λ note. is_some (outcome_id note)) notes.now }
{
    notes.iter().any(|note| outcome_of(note).is_some())
}

// The transaction of an outcome.
fn outcome_of(note: &Note) -> Option<TxnId>
    ensures { result ≡ outcome_id note.now }
{
    match note {
        Note::Outcome { id, .. } => Some(*id),
        _ => None,
    }
}
