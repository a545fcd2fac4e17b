//! Whether two replies are one.
ghost use Rattle.std.specs.Prelude.{◌≡◌};
ghost use Rattle.acc_audit.specs.Said.{same_reply as is_same_reply, same_verdict as is_same_verdict};

use acc_txn::{Reply, Verdict};

/// Whether the two are one reply.
pub(crate) fn same_reply(a: &Reply, b: &Reply) -> bool
    ensures { result ≡ is_same_reply a.now b.now }
{
    same_verdict(a.verdict, b.verdict) && a.values == b.values
}

fn same_verdict(a: Verdict, b: Verdict) -> bool
    ensures { result ≡ is_same_verdict a b }
{
    match (a, b) {
        (Verdict::Ok, Verdict::Ok) => true,
        (Verdict::Skipped, Verdict::Skipped) => true,
        (Verdict::Overflow, Verdict::Overflow) => true,
        _ => false,
    }
}
