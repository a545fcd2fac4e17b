//! The tests of each stamp of two columns against one stamp.
ghost use Rattle.std.specs.Prelude.{◌≡◌, ◌==◌, ℕ, ◌+◌, ◌≤◌, ◌<◌, false, if◌then◌else◌, length, map, slice_index, slice_index_or};
ghost use Rattle.std.specs.List.{zip, list_any};
ghost use Rattle.acc_lanes.specs.Pairs.{pair_lt, pair_eq};
ghost use Rattle.acc_lanes.specs.Vectors.{HasLanes};

use crate::vectors::{
    LANES, greatest_lane, heights_at, if_equal, if_less, lanes_of, larger, origins_at, splat,
};
use std::simd::prelude::*;

/// Tells of each stamp whether it is smaller than the bound, at its place in `out`.
pub fn below(h: &[u64], origin: &[u32], bound: (u64, u32), out: &mut [bool])
    requires origins { length origin.now ≡ length h.now }
    requires places { length out.old ≡ length h.now }
    ensures { out.new ≡ map (λ s. pair_lt s bound) (zip h.now origin.now) }
{
    let mut at = 0;
    while h.len() - at >= LANES {
        put(out, at, below_lanes(h, origin, at, bound));
        at += LANES;
    }
    for place in at..h.len() {
        out[place] = is_below(h[place], origin[place], bound);
    }
}

/// Whether a stamp is among those of the columns.
pub fn has(h: &[u64], origin: &[u32], stamp: (u64, u32)) -> bool
    requires { length origin.now ≡ length h.now }
    ensures { result ≡ list_any (λ s. pair_eq s stamp) (zip h.now origin.now) }
{
    let mut found = splat(0);
    let mut at = 0;
    while h.len() - at >= LANES {
        found = larger(found, equal_lanes(h, origin, at, stamp));
        at += LANES;
    }
    if greatest_lane(found) == 1 {
        return true;
    }
    for place in at..h.len() {
        if is_stamp(h[place], origin[place], stamp) {
            return true;
        }
    }
    false
}

fn is_below(h: u64, origin: u32, bound: (u64, u32)) -> bool
    ensures { result ≡ pair_lt (h, origin) bound }
{
    h < bound.0 || (h == bound.0 && origin < bound.1)
}

fn is_stamp(h: u64, origin: u32, stamp: (u64, u32)) -> bool
    ensures { result ≡ pair_eq (h, origin) stamp }
{
    h == stamp.0 && origin == stamp.1
}

// 1 where the stamp is smaller than the bound.
#[inline(always)]
fn below_lanes(h: &[u64], origin: &[u32], at: usize, bound: (u64, u32)) -> u64x8
    requires heights { at + LANES ≤ length h.now }
    requires origins { at + LANES ≤ length origin.now }
    ensures { HasLanes result (λ k. if pair_lt (slice_index h.now (at + k), slice_index origin.now (at + k)) bound then 1 else 0) }
{
    let high = heights_at(h, at);
    let (yes, no) = (splat(1), splat(0));
    let tied = if_less(origins_at(origin, at), bound.1 as u64, yes, no);
    if_less(high, bound.0, yes, if_equal(high, bound.0, tied, no))
}

// 1 where the stamp is this one.
#[inline(always)]
fn equal_lanes(h: &[u64], origin: &[u32], at: usize, stamp: (u64, u32)) -> u64x8
    requires heights { at + LANES ≤ length h.now }
    requires origins { at + LANES ≤ length origin.now }
    ensures { HasLanes result (λ k. if pair_eq (slice_index h.now (at + k), slice_index origin.now (at + k)) stamp then 1 else 0) }
{
    let (yes, no) = (splat(1), splat(0));
    let tied = if_equal(origins_at(origin, at), stamp.1 as u64, yes, no);
    if_equal(heights_at(h, at), stamp.0, tied, no)
}

// Writes whether each lane is 1.
#[inline(always)]
fn put(out: &mut [bool], at: usize, flags: u64x8)
    requires { at + LANES ≤ length out.old }
    ensures before { (k : ℕ) → k < at → slice_index_or out.new k false ≡ slice_index_or out.old k false }
    ensures here { (k : ℕ) → k < LANES → slice_index_or out.new (at + k) false ≡ (slice_index flags k == 1) }
{
    let lanes = lanes_of(flags);
    for k in 0..LANES {
        out[at + k] = lanes[k] == 1;
    }
}
