//! Worked examples of runs: for each one its cluster, its schedule, the notes that it must print, and the replies of the
//! serial run of its bodies in the order of their outcomes. Each is the contract of a function that does nothing.
ghost use Rattle.std.specs.Prelude.{◌≡◌, Some, map, [], ◌∷◌};
ghost use Rattle.acc_message.specs.Items.{notes_of};
ghost use Rattle.acc_txn.specs.Serial.{serial};
ghost use Rattle.acc_safety.specs.Decisions.{Answered, first_outcomes, body_of};
ghost use Rattle.acc_run_laws.specs.Schedules.{skipped_of, waiting};
ghost use Rattle.acc_safety.specs.Safe.{IsSafeRun};
ghost use Rattle.acc_examples.specs.OneUpdate as one_update_row;
ghost use Rattle.acc_examples.specs.LostVote as lost_vote_row;
ghost use Rattle.acc_examples.specs.NoLostVote as no_lost_vote_row;
ghost use Rattle.acc_examples.specs.ConflictHeardFirst as conflict_heard_first_row;
ghost use Rattle.acc_examples.specs.ReadsDoNotConflict as reads_do_not_conflict_row;
ghost use Rattle.acc_examples.specs.FourOfFive as four_of_five_row;
ghost use Rattle.acc_examples.specs.SlowNeedsMajority as slow_needs_majority_row;
ghost use Rattle.acc_examples.specs.PrintedOrder as printed_order_row;
ghost use Rattle.acc_examples.specs.SilentUntilApplied as silent_until_applied_row;
ghost use Rattle.acc_examples.specs.RecoveryAfterRestart as recovery_after_restart_row;
ghost use Rattle.acc_examples.specs.OneUnchangedOfTwo as one_unchanged_of_two_row;
ghost use Rattle.acc_examples.specs.SupersededByAccept as superseded_by_accept_row;
ghost use Rattle.acc_examples.specs.BlockedRecovery as blocked_recovery_row;
ghost use Rattle.acc_examples.specs.NackWithOwnBallot as nack_with_own_ballot_row;
ghost use Rattle.acc_examples.specs.TransferBetweenShards as transfer_between_shards_row;

/// One update at the one node, begun and drained.
pub fn one_update()
    ensures notes { notes_of one_update_row.items ≡ one_update_row.notes }
    ensures serial { serial one_update_row.serially ≡ one_update_row.replies }
    ensures outcomes { map (λ (a : Answered). a.reply) (first_outcomes one_update_row.notes) ≡ one_update_row.replies }
    ensures bodies { map (λ (a : Answered). body_of one_update_row.cluster one_update_row.items a.id) (first_outcomes one_update_row.notes) ≡ map (λ b. Some b) one_update_row.serially }
    ensures safe { IsSafeRun one_update_row.cluster one_update_row.items }
{}

/// An update of two shards. A vote of the second never comes, and without it a fast quorum there is neither reached nor lost.
pub fn lost_vote()
    ensures notes { notes_of lost_vote_row.items ≡ lost_vote_row.notes }
    ensures serial { serial lost_vote_row.serially ≡ lost_vote_row.replies }
    ensures outcomes { map (λ (a : Answered). a.reply) (first_outcomes lost_vote_row.notes) ≡ lost_vote_row.replies }
    ensures bodies { map (λ (a : Answered). body_of lost_vote_row.cluster lost_vote_row.items a.id) (first_outcomes lost_vote_row.notes) ≡ map (λ b. Some b) lost_vote_row.serially }
    ensures safe { IsSafeRun lost_vote_row.cluster lost_vote_row.items }
{}

/// The same update without the loss.
pub fn no_lost_vote()
    ensures notes { notes_of no_lost_vote_row.items ≡ no_lost_vote_row.notes }
    ensures serial { serial no_lost_vote_row.serially ≡ no_lost_vote_row.replies }
    ensures outcomes { map (λ (a : Answered). a.reply) (first_outcomes no_lost_vote_row.notes) ≡ no_lost_vote_row.replies }
    ensures bodies { map (λ (a : Answered). body_of no_lost_vote_row.cluster no_lost_vote_row.items a.id) (first_outcomes no_lost_vote_row.notes) ≡ map (λ b. Some b) no_lost_vote_row.serially }
    ensures safe { IsSafeRun no_lost_vote_row.cluster no_lost_vote_row.items }
{}

/// Two updates of one key that reach a store in reverse order, so that its vote for a isn't a's own timestamp.
pub fn conflict_heard_first()
    ensures notes { notes_of conflict_heard_first_row.items ≡ conflict_heard_first_row.notes }
    ensures serial { serial conflict_heard_first_row.serially ≡ conflict_heard_first_row.replies }
    ensures outcomes { map (λ (a : Answered). a.reply) (first_outcomes conflict_heard_first_row.notes) ≡ conflict_heard_first_row.replies }
    ensures bodies { map (λ (a : Answered). body_of conflict_heard_first_row.cluster conflict_heard_first_row.items a.id) (first_outcomes conflict_heard_first_row.notes) ≡ map (λ b. Some b) conflict_heard_first_row.serially }
    ensures safe { IsSafeRun conflict_heard_first_row.cluster conflict_heard_first_row.items }
{}

/// Two reads of one key do not conflict, so both are decided fast.
pub fn reads_do_not_conflict()
    ensures notes { notes_of reads_do_not_conflict_row.items ≡ reads_do_not_conflict_row.notes }
    ensures serial { serial reads_do_not_conflict_row.serially ≡ reads_do_not_conflict_row.replies }
    ensures outcomes { map (λ (a : Answered). a.reply) (first_outcomes reads_do_not_conflict_row.notes) ≡ reads_do_not_conflict_row.replies }
    ensures bodies { map (λ (a : Answered). body_of reads_do_not_conflict_row.cluster reads_do_not_conflict_row.items a.id) (first_outcomes reads_do_not_conflict_row.notes) ≡ map (λ b. Some b) reads_do_not_conflict_row.serially }
    ensures safe { IsSafeRun reads_do_not_conflict_row.cluster reads_do_not_conflict_row.items }
{}

/// A fast decision on five replicas of which one has not voted.
pub fn four_of_five()
    ensures notes { notes_of four_of_five_row.items ≡ four_of_five_row.notes }
    ensures serial { serial four_of_five_row.serially ≡ four_of_five_row.replies }
    ensures outcomes { map (λ (a : Answered). a.reply) (first_outcomes four_of_five_row.notes) ≡ four_of_five_row.replies }
    ensures bodies { map (λ (a : Answered). body_of four_of_five_row.cluster four_of_five_row.items a.id) (first_outcomes four_of_five_row.notes) ≡ map (λ b. Some b) four_of_five_row.serially }
    ensures safe { IsSafeRun four_of_five_row.cluster four_of_five_row.items }
{}

/// Two votes of five are no majority, so the first slow is passed over.
pub fn slow_needs_majority()
    ensures notes { notes_of slow_needs_majority_row.items ≡ slow_needs_majority_row.notes }
    ensures skips { skipped_of slow_needs_majority_row.items ≡ slow_needs_majority_row.skips }
    ensures serial { serial slow_needs_majority_row.serially ≡ slow_needs_majority_row.replies }
    ensures outcomes { map (λ (a : Answered). a.reply) (first_outcomes slow_needs_majority_row.notes) ≡ slow_needs_majority_row.replies }
    ensures bodies { map (λ (a : Answered). body_of slow_needs_majority_row.cluster slow_needs_majority_row.items a.id) (first_outcomes slow_needs_majority_row.notes) ≡ map (λ b. Some b) slow_needs_majority_row.serially }
    ensures safe { IsSafeRun slow_needs_majority_row.cluster slow_needs_majority_row.items }
{}

/// The timestamp of b is smaller, but a is done first. A serial run has to take them as their outcomes are printed.
pub fn printed_order()
    ensures notes { notes_of printed_order_row.items ≡ printed_order_row.notes }
    ensures serial { serial printed_order_row.serially ≡ printed_order_row.replies }
    ensures outcomes { map (λ (a : Answered). a.reply) (first_outcomes printed_order_row.notes) ≡ printed_order_row.replies }
    ensures bodies { map (λ (a : Answered). body_of printed_order_row.cluster printed_order_row.items a.id) (first_outcomes printed_order_row.notes) ≡ map (λ b. Some b) printed_order_row.serially }
    ensures safe { IsSafeRun printed_order_row.cluster printed_order_row.items }
{}

/// A store can't answer the Stable of b as long as a isn't applied there. It does so when the Apply of a comes.
pub fn silent_until_applied()
    ensures notes { notes_of silent_until_applied_row.items ≡ silent_until_applied_row.notes }
    ensures serial { serial silent_until_applied_row.serially ≡ silent_until_applied_row.replies }
    ensures outcomes { map (λ (a : Answered). a.reply) (first_outcomes silent_until_applied_row.notes) ≡ silent_until_applied_row.replies }
    ensures bodies { map (λ (a : Answered). body_of silent_until_applied_row.cluster silent_until_applied_row.items a.id) (first_outcomes silent_until_applied_row.notes) ≡ map (λ b. Some b) silent_until_applied_row.serially }
    ensures safe { IsSafeRun silent_until_applied_row.cluster silent_until_applied_row.items }
{}

/// The home of a restarts, and another node recovers a. The restart closed the client.
pub fn recovery_after_restart()
    ensures notes { notes_of recovery_after_restart_row.items ≡ recovery_after_restart_row.notes }
    ensures serial { serial recovery_after_restart_row.serially ≡ recovery_after_restart_row.replies }
    ensures outcomes { map (λ (a : Answered). a.reply) (first_outcomes recovery_after_restart_row.notes) ≡ recovery_after_restart_row.replies }
    ensures bodies { map (λ (a : Answered). body_of recovery_after_restart_row.cluster recovery_after_restart_row.items a.id) (first_outcomes recovery_after_restart_row.notes) ≡ map (λ b. Some b) recovery_after_restart_row.serially }
    ensures safe { IsSafeRun recovery_after_restart_row.cluster recovery_after_restart_row.items }
{}

/// One of the two votes that a recovery hears is changed, so nothing was decided fast.
pub fn one_unchanged_of_two()
    ensures notes { notes_of one_unchanged_of_two_row.items ≡ one_unchanged_of_two_row.notes }
    ensures serial { serial one_unchanged_of_two_row.serially ≡ one_unchanged_of_two_row.replies }
    ensures outcomes { map (λ (a : Answered). a.reply) (first_outcomes one_unchanged_of_two_row.notes) ≡ one_unchanged_of_two_row.replies }
    ensures bodies { map (λ (a : Answered). body_of one_unchanged_of_two_row.cluster one_unchanged_of_two_row.items a.id) (first_outcomes one_unchanged_of_two_row.notes) ≡ map (λ b. Some b) one_unchanged_of_two_row.serially }
    ensures safe { IsSafeRun one_unchanged_of_two_row.cluster one_unchanged_of_two_row.items }
{}

/// By the votes that the recovery of a hears, a was possibly decided fast. A store that accepted b without a rules it out.
pub fn superseded_by_accept()
    ensures notes { notes_of superseded_by_accept_row.items ≡ superseded_by_accept_row.notes }
    ensures serial { serial superseded_by_accept_row.serially ≡ superseded_by_accept_row.replies }
    ensures outcomes { map (λ (a : Answered). a.reply) (first_outcomes superseded_by_accept_row.notes) ≡ superseded_by_accept_row.replies }
    ensures bodies { map (λ (a : Answered). body_of superseded_by_accept_row.cluster superseded_by_accept_row.items a.id) (first_outcomes superseded_by_accept_row.notes) ≡ map (λ b. Some b) superseded_by_accept_row.serially }
    ensures safe { IsSafeRun superseded_by_accept_row.cluster superseded_by_accept_row.items }
{}

/// A recovery of b is blocked by a; once a is decided a later one decides b.
pub fn blocked_recovery()
    ensures notes { notes_of blocked_recovery_row.items ≡ blocked_recovery_row.notes }
    ensures serial { serial blocked_recovery_row.serially ≡ blocked_recovery_row.replies }
    ensures outcomes { map (λ (a : Answered). a.reply) (first_outcomes blocked_recovery_row.notes) ≡ blocked_recovery_row.replies }
    ensures bodies { map (λ (a : Answered). body_of blocked_recovery_row.cluster blocked_recovery_row.items a.id) (first_outcomes blocked_recovery_row.notes) ≡ map (λ b. Some b) blocked_recovery_row.serially }
    ensures safe { IsSafeRun blocked_recovery_row.cluster blocked_recovery_row.items }
{}

/// A message of a recovery comes again and is refused. The Nack has the recovery's own ballot, so the recovery goes on.
pub fn nack_with_own_ballot()
    ensures notes { notes_of nack_with_own_ballot_row.items ≡ nack_with_own_ballot_row.notes }
    ensures serial { serial nack_with_own_ballot_row.serially ≡ nack_with_own_ballot_row.replies }
    ensures outcomes { map (λ (a : Answered). a.reply) (first_outcomes nack_with_own_ballot_row.notes) ≡ nack_with_own_ballot_row.replies }
    ensures bodies { map (λ (a : Answered). body_of nack_with_own_ballot_row.cluster nack_with_own_ballot_row.items a.id) (first_outcomes nack_with_own_ballot_row.notes) ≡ map (λ b. Some b) nack_with_own_ballot_row.serially }
    ensures safe { IsSafeRun nack_with_own_ballot_row.cluster nack_with_own_ballot_row.items }
{}

/// A transfer between two shards, and a read of both cells.
pub fn transfer_between_shards()
    ensures notes { notes_of transfer_between_shards_row.items ≡ transfer_between_shards_row.notes }
    ensures serial { serial transfer_between_shards_row.serially ≡ transfer_between_shards_row.replies }
    ensures outcomes { map (λ (a : Answered). a.reply) (first_outcomes transfer_between_shards_row.notes) ≡ transfer_between_shards_row.replies }
    ensures safe { IsSafeRun transfer_between_shards_row.cluster transfer_between_shards_row.items }
{}

/// Where an example ends with a drain, no message waits at its end: each was taken or is one of those that were dropped.
pub fn nothing_waits()
    ensures one_update { waiting one_update_row.items [] ≡ [] }
    ensures lost_vote { waiting lost_vote_row.items (11 ∷ []) ≡ [] }
    ensures no_lost_vote { waiting no_lost_vote_row.items [] ≡ [] }
    ensures conflict_heard_first { waiting conflict_heard_first_row.items [] ≡ [] }
    ensures reads_do_not_conflict { waiting reads_do_not_conflict_row.items [] ≡ [] }
    ensures four_of_five { waiting four_of_five_row.items (4 ∷ []) ≡ [] }
    ensures slow_needs_majority { waiting slow_needs_majority_row.items [] ≡ [] }
    ensures printed_order { waiting printed_order_row.items [] ≡ [] }
    ensures recovery_after_restart { waiting recovery_after_restart_row.items [] ≡ [] }
    ensures one_unchanged_of_two { waiting one_unchanged_of_two_row.items [] ≡ [] }
    ensures superseded_by_accept { waiting superseded_by_accept_row.items [] ≡ [] }
    ensures blocked_recovery { waiting blocked_recovery_row.items (5 ∷ []) ≡ [] }
    ensures nack_with_own_ballot { waiting nack_with_own_ballot_row.items [] ≡ [] }
    ensures transfer_between_shards { waiting transfer_between_shards_row.items [] ≡ [] }
{}
