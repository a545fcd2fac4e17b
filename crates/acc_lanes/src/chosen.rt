//! The greatest of the stamps of two columns that a mask chooses.
ghost use Rattle.std.specs.Prelude.{◌≡◌, ◌==◌, ℕ, ◌+◌, ◌≤◌, ◌&&◌, false, [], if◌then◌else◌, length, slice_index, slice_index_or, MatchOption};
ghost use Rattle.std.specs.List.{zip};
ghost use Rattle.acc_lanes.specs.Pairs.{pair_le, chosen};
ghost use Rattle.acc_lanes.specs.Greatest.{IsGreatest};
ghost use Rattle.acc_lanes.specs.Vectors.{HasLanes, greatest_number, heights_chosen, origins_chosen};

use crate::vectors::{
    LANES, flags_at, greatest_lane, heights_at, if_equal, larger, origins_at, splat,
};
use std::simd::prelude::*;

/// The greatest of the stamps at whose places the mask is true.
pub fn greatest(h: &[u64], origin: &[u32], mask: &[bool]) -> Option<(u64, u32)>
    requires origins { length origin.now ≡ length h.now }
    requires places { length mask.now ≡ length h.now }
    ensures { MatchOption result (chosen mask.now (zip h.now origin.now) ≡ []) (IsGreatest pair_le (chosen mask.now (zip h.now origin.now))) }
{
    if !mask.contains(&true) {
        return None;
    }
    let height = greatest_height(h, mask);
    Some((height, greatest_origin(h, origin, mask, height)))
}

// The greatest h of the chosen stamps, or 0.
fn greatest_height(h: &[u64], mask: &[bool]) -> u64
    requires { length mask.now ≡ length h.now }
    ensures { result ≡ greatest_number (heights_chosen mask.now h.now) }
{
    let mut best = splat(0);
    let mut at = 0;
    while h.len() - at >= LANES {
        best = larger(best, height_lanes(h, mask, at));
        at += LANES;
    }
    let mut greatest = greatest_lane(best);
    for place in at..h.len() {
        if mask[place] {
            greatest = greatest.max(h[place]);
        }
    }
    greatest
}

// The greatest origin of the chosen stamps with this h, or 0.
fn greatest_origin(h: &[u64], origin: &[u32], mask: &[bool], height: u64) -> u32
    requires origins { length origin.now ≡ length h.now }
    requires places { length mask.now ≡ length h.now }
    ensures { result ≡ greatest_number (origins_chosen height mask.now h.now origin.now) }
{
    let mut best = splat(0);
    let mut at = 0;
    while h.len() - at >= LANES {
        best = larger(best, origin_lanes(h, origin, mask, at, height));
        at += LANES;
    }
    let mut greatest = greatest_lane(best);
    for place in at..h.len() {
        if mask[place] && h[place] == height {
            greatest = greatest.max(origin[place] as u64);
        }
    }
    greatest as u32
}

// The h of the chosen stamps, and 0 for the others.
#[inline(always)]
fn height_lanes(h: &[u64], mask: &[bool], at: usize) -> u64x8
    requires heights { at + LANES ≤ length h.now }
    requires places { at + LANES ≤ length mask.now }
    ensures { HasLanes result (λ k. if slice_index_or mask.now (at + k) false then slice_index h.now (at + k) else 0) }
{
    if_equal(flags_at(mask, at), 1, heights_at(h, at), splat(0))
}

// The origins of the chosen stamps with this h, and 0 for the others.
#[inline(always)]
fn origin_lanes(h: &[u64], origin: &[u32], mask: &[bool], at: usize, height: u64) -> u64x8
    requires heights { at + LANES ≤ length h.now }
    requires origins { at + LANES ≤ length origin.now }
    requires places { at + LANES ≤ length mask.now }
    ensures { HasLanes result (λ k. if slice_index_or mask.now (at + k) false && (slice_index h.now (at + k) == height) then slice_index origin.now (at + k) else 0) }
{
    let tied = if_equal(heights_at(h, at), height, origins_at(origin, at), splat(0));
    if_equal(flags_at(mask, at), 1, tied, splat(0))
}
