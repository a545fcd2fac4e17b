//! The search in a rising list of pairs.
ghost use Rattle.std.specs.Prelude.{MatchResult};
ghost use Rattle.acc_value.specs.Pairs.{IsRising, HasKeyAt, LacksKeyAt};

use crate::key::Key;

/// Where the pair of a key stands in a rising list, or else where it would stand.
pub fn place_of<T>(pairs: &[(Key, T)], key: &Key) -> Result<usize, usize>
    requires { IsRising pairs.now }
    ensures { MatchResult result (HasKeyAt pairs.now key.now) (LacksKeyAt pairs.now key.now) }
{
    pairs.binary_search_by(|pair| pair.0.cmp(key))
}
