//! Worked examples of one store and of one node: what it sends for each of a list of messages, or what it emits for each of a
//! list of steps. Each is the contract of a function that does nothing.
ghost use Rattle.std.specs.Prelude.{◌≡◌, true, false, [], ◌∷◌, None, Some, map};
ghost use Rattle.acc_message.specs.Items.{id_of_note};
ghost use Rattle.acc_message.specs.Taken.{body_known};
ghost use Rattle.acc_message.specs.Opening.{cells_at};
ghost use Rattle.acc_examples.specs.Clusters.{writing, x};
ghost use Rattle.acc_examples.specs.Actors.{three, store_at, a, b, sent_by, waiting_at, emitted_by_node};
ghost use Rattle.acc_examples.specs.AwaitedWhileCommitted as awaited_while_committed_row;
ghost use Rattle.acc_examples.specs.AcceptedOnceStable as accepted_once_stable_row;
ghost use Rattle.acc_examples.specs.VotesAtAStore as votes_at_a_store_row;
ghost use Rattle.acc_examples.specs.ConflictByShard as conflict_by_shard_row;
ghost use Rattle.acc_examples.specs.EvidenceBounds as evidence_bounds_row;
ghost use Rattle.acc_examples.specs.ClosedClients as closed_clients_row;
ghost use Rattle.acc_examples.specs.OpenedInTurn as opened_in_turn_row;
ghost use Rattle.acc_examples.specs.LastRecordCounts as last_record_counts_row;
ghost use Rattle.acc_examples.specs.FirstAnswerCounts as first_answer_counts_row;
ghost use Rattle.acc_examples.specs.CommitRound as commit_round_row;
ghost use Rattle.acc_examples.specs.DrawsOverRestarts as draws_over_restarts_row;
ghost use Rattle.acc_examples.specs.ChangedVoteMayBeFast as changed_vote_may_be_fast_row;
ghost use Rattle.acc_examples.specs.RecordAdopted as record_adopted_row;
ghost use Rattle.acc_examples.specs.SmallerElectorate as smaller_electorate_row;
ghost use Rattle.acc_examples.specs.FirstBodyCounts as first_body_counts_row;
ghost use Rattle.acc_examples.specs.NotesNamed as notes_named_row;
ghost use Rattle.acc_examples.specs.PromisesHeld as promises_held_row;
ghost use Rattle.acc_examples.specs.StrangersIgnored as strangers_ignored_row;
ghost use Rattle.acc_examples.specs.WritesByShard as writes_by_shard_row;
ghost use Rattle.acc_examples.specs.LostAndDown.{marked_well, marked_badly, fits, down_well, down_badly, end_well, numbered, message_of, taken, took_both};

/// A store votes above what it saw, and gives a vote again.
pub fn votes_at_a_store()
    ensures { sent_by three (store_at 1) votes_at_a_store_row.messages ≡ votes_at_a_store_row.answers }
{}

/// Transactions that share a key of another shard don't conflict in this one.
pub fn conflict_by_shard()
    ensures { sent_by conflict_by_shard_row.two_shards conflict_by_shard_row.own conflict_by_shard_row.messages ≡ conflict_by_shard_row.answers }
{}

/// A store refuses what is below its promise.
pub fn promises_held()
    ensures { sent_by three (store_at 1) promises_held_row.messages ≡ promises_held_row.answers }
{}

/// The body that a store heard first counts.
pub fn first_body_counts()
    ensures answers { sent_by three (store_at 1) first_body_counts_row.messages ≡ first_body_counts_row.answers }
    ensures known { body_known first_body_counts_row.behind_two a ≡ Some (writing x 1) }
    ensures unknown { body_known first_body_counts_row.behind_two b ≡ None }
{}

/// A committed transaction is awaited by a recovery until it is stable.
pub fn awaited_while_committed()
    ensures { sent_by three (store_at 1) awaited_while_committed_row.messages ≡ awaited_while_committed_row.answers }
{}

/// An accepted record counts on when its transaction is stable.
pub fn accepted_once_stable()
    ensures { sent_by three (store_at 1) accepted_once_stable_row.messages ≡ accepted_once_stable_row.answers }
{}

/// What is neither a reason that a transaction is superseded nor one to wait.
pub fn evidence_bounds()
    ensures { sent_by three (store_at 1) evidence_bounds_row.messages ≡ evidence_bounds_row.answers }
{}

/// One step opens several transactions in the order of their timestamps, each for those that wait for it.
pub fn opened_in_turn()
    ensures answers { sent_by three (store_at 1) opened_in_turn_row.messages ≡ opened_in_turn_row.answers }
    ensures waiting { waiting_at three (store_at 1) b opened_in_turn_row.messages ≡ opened_in_turn_row.waiting }
{}

/// A store makes the writes to keys of its own shard.
pub fn writes_by_shard()
    ensures { map (cells_at conflict_by_shard_row.two_shards 2 writes_by_shard_row.past) writes_by_shard_row.keys ≡ writes_by_shard_row.cells }
{}

/// The last accepted record and the first stable one count.
pub fn last_record_counts()
    ensures { sent_by three (store_at 1) last_record_counts_row.messages ≡ last_record_counts_row.answers }
{}

/// The first answer of a store counts.
pub fn first_answer_counts()
    ensures { emitted_by_node three 1 first_answer_counts_row.acts ≡ first_answer_counts_row.emitted }
{}

/// An answer of a store that isn't one of the transaction's counts for nothing.
pub fn strangers_ignored()
    ensures { emitted_by_node conflict_by_shard_row.two_shards 1 strangers_ignored_row.acts ≡ strangers_ignored_row.emitted }
{}

/// Votes of the electorate alone are fast or lose the fast path; all replicas make a majority.
pub fn smaller_electorate()
    ensures { emitted_by_node smaller_electorate_row.two_of_three 1 smaller_electorate_row.acts ≡ smaller_electorate_row.emitted }
{}

/// A client has one reply.
pub fn closed_clients()
    ensures { emitted_by_node conflict_by_shard_row.two_shards 1 closed_clients_row.acts ≡ closed_clients_row.emitted }
{}

/// The slow path has a Commit round.
pub fn commit_round()
    ensures { emitted_by_node three 1 commit_round_row.acts ≡ commit_round_row.emitted }
{}

/// Draws rise over restarts.
pub fn draws_over_restarts()
    ensures { emitted_by_node three 1 draws_over_restarts_row.acts ≡ draws_over_restarts_row.emitted }
{}

/// A recovery proposes the transaction's own timestamp where it may have been decided fast, also where a vote is greater.
pub fn changed_vote_may_be_fast()
    ensures { emitted_by_node changed_vote_may_be_fast_row.five 3 changed_vote_may_be_fast_row.acts ≡ changed_vote_may_be_fast_row.emitted }
{}

/// Which of several records a recovery adopts.
pub fn record_adopted()
    ensures { emitted_by_node three 3 record_adopted_row.acts ≡ record_adopted_row.emitted }
{}

/// Lost entries stand right in front of a restart that kept so many; a down is followed by downs, lost entries and a restart;
/// messages of lost entries have numbers too, and what was taken in them counts.
pub fn lost_and_down()
    ensures marked { fits marked_well ≡ true ∷ true ∷ true ∷ true ∷ true ∷ true ∷ [] }
    ensures marks_refused { fits marked_badly ≡ false ∷ false ∷ false ∷ false ∷ false ∷ false ∷ false ∷ false ∷ [] }
    ensures down { end_well down_well ≡ true ∷ true ∷ true ∷ true ∷ [] }
    ensures downs_refused { end_well down_badly ≡ false ∷ false ∷ false ∷ false ∷ [] }
    ensures taken { taken ≡ took_both }
    ensures numbers { numbered ≡ Some (message_of 1) ∷ Some (message_of 2) ∷ Some (message_of 3) ∷ None ∷ [] }
{}

/// Each note is about one transaction.
pub fn notes_named()
    ensures { map id_of_note notes_named_row.notes ≡ notes_named_row.ids }
{}
