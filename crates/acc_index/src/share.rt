//! The keys of a shard that a transaction uses.
ghost use Rattle.std.specs.Prelude.{◌≡◌, ◌-◌, ◌≤◌, length, take, drop, IfOk};
ghost use Rattle.acc_value.specs.Pairs.{IsRising};

use acc_base::OutOfMemory;
use acc_value::{Footprint, Key};
use std::marker::Model;

/// Keys that stand next to one another in a footprint, as those of one shard do. It shares the footprint and takes no memory
/// of its own. Contracts see the pairs as a plain list, as those of a footprint.
#[derive(Debug, Drop)]
pub struct Share {
    whole: Footprint,
    from: usize,
    to: usize,
}

impl Model for Share {
    ghost use Rattle.std.specs.Prelude.{List, Bool, ◌-◌, ◌≤◌, length, take, drop};
    ghost use Rattle.acc_value.specs.declared.key.Key.{Key};
    ghost use Rattle.acc_value.specs.Pairs.{IsRising};

    ghost Value = { List (Key × Bool) };

    ghost view = { λ s. take (s.to - s.from) (drop s.from s.whole) };

    ghost invariant = { λ s. (s.from ≤ s.to) × (s.to ≤ length s.whole) × IsRising (take (s.to - s.from) (drop s.from s.whole)) };
}

impl Share {
    /// All keys of a footprint.
    pub fn whole(footprint: Footprint) -> Share
        ensures { result ≡ footprint }
    {
        let rising = footprint.pairs();
        let to = rising.len();
        Share {
            whole: footprint,
            from: 0,
            to,
        }
    }

    /// The keys of a footprint from one place up to another.
    pub fn part(footprint: &Footprint, from: usize, to: usize) -> Result<Share, OutOfMemory>
        requires begins { from ≤ to }
        requires ends { to ≤ length footprint.now }
        ensures { IfOk result (λ share. share ≡ take (to - from) (drop from footprint.now)) }
    {
        let _rising = footprint.pairs();
        Ok(Share {
            whole: footprint.copy()?,
            from,
            to,
        })
    }

    /// The keys, rising, each with a flag that tells whether it is written.
    pub fn pairs(&self) -> &[(Key, bool)]
        ensures pairs { result.now ≡ self.now }
        ensures rising { IsRising self.now }
    {
        &self.whole.pairs()[self.from..self.to]
    }
}
