//! What a report means none of whose lines breaks a rule.
ghost use Rattle.std.specs.Prelude.{◌≡◌, ℕ, true, List};
ghost use Rattle.acc_value.specs.Footprint.{clashes};
ghost use Rattle.acc_topology.specs.Layout.{Layout};
ghost use Rattle.acc_txn.specs.declared.parts.BodyParts.{BodyParts};
ghost use Rattle.acc_txn.specs.Uses.{footprint_of};
ghost use Rattle.acc_message.specs.Shares.{conflict_in};
ghost use Rattle.acc_report_line.specs.declared.line.Line.{Line};
ghost use Rattle.acc_audit.specs.Rules.{KeepsRules};
ghost use Rattle.acc_audit_laws.specs.Meaning.{BeginOnce, LinesAgree, LinesAreSerial, LinesCover, LinesKnow};

/// Where no line breaks a rule, each name is that of a transaction and none begins twice, each transaction has one timestamp and
/// no two the same, each decision names every conflicting transaction that is decided below it, and the outcomes are those of
/// the bodies run one by one.
pub fn a_yes_means()
    ensures known { (names : List (List ℕ)) (bodies : List BodyParts) (lines : List Line) → KeepsRules names bodies lines → LinesKnow names lines }
    ensures once { (names : List (List ℕ)) (bodies : List BodyParts) (lines : List Line) → KeepsRules names bodies lines → BeginOnce lines }
    ensures agree { (names : List (List ℕ)) (bodies : List BodyParts) (lines : List Line) → KeepsRules names bodies lines → LinesAgree lines }
    ensures cover { (names : List (List ℕ)) (bodies : List BodyParts) (lines : List Line) → KeepsRules names bodies lines → LinesCover names bodies lines }
    ensures serial { (names : List (List ℕ)) (bodies : List BodyParts) (lines : List Line) → KeepsRules names bodies lines → LinesAreSerial names bodies lines }
{}

/// Two transactions of which the one uses a key that the other writes conflict in a shard, whatever the shards are; and where two
/// conflict in some shard, there is such a key.
pub fn conflicts_lie_in_shards()
    ensures some { (layout : Layout) (a b : BodyParts) → clashes (footprint_of a) (footprint_of b) ≡ true → (shard : ℕ) × (conflict_in layout shard a b ≡ true) }
    ensures whole { (layout : Layout) (shard : ℕ) (a b : BodyParts) → conflict_in layout shard a b ≡ true → clashes (footprint_of a) (footprint_of b) ≡ true }
{}
