//! Vectors of eight numbers, lane by lane.
ghost use Rattle.std.specs.Prelude.{◌≡◌, ◌==◌, ℕ, ◌+◌, ◌≤◌, ◌<◌, false, max, nat_lt, if◌then◌else◌, length, slice_index, slice_index_or};
ghost use Rattle.acc_lanes.specs.Vectors.{HasLanes, greatest_number};

use std::simd::prelude::*;

/// How many numbers a vector holds.
pub(crate) const LANES: usize = 8;

#[inline(always)]
pub(crate) fn splat(number: u64) -> u64x8
    ensures { HasLanes result (λ _. number) }
{
    u64x8::splat(number)
}

#[inline(always)]
pub(crate) fn heights_at(column: &[u64], at: usize) -> u64x8
    requires { at + LANES ≤ length column.now }
    ensures { HasLanes result (λ k. slice_index column.now (at + k)) }
{
    u64x8::from_slice(&column[at..])
}

#[inline(always)]
pub(crate) fn origins_at(column: &[u32], at: usize) -> u64x8
    requires { at + LANES ≤ length column.now }
    ensures { HasLanes result (λ k. slice_index column.now (at + k)) }
{
    u32x8::from_slice(&column[at..]).cast::<u64>()
}

// 1 where the mask is true.
#[inline(always)]
pub(crate) fn flags_at(mask: &[bool], at: usize) -> u64x8
    requires { at + LANES ≤ length mask.now }
    ensures { HasLanes result (λ k. if slice_index_or mask.now (at + k) false then 1 else 0) }
{
    let m = &mask[at..at + LANES];
    u64x8::from_array([
        m[0] as u64,
        m[1] as u64,
        m[2] as u64,
        m[3] as u64,
        m[4] as u64,
        m[5] as u64,
        m[6] as u64,
        m[7] as u64,
    ])
}

#[inline(always)]
pub(crate) fn if_less(v: u64x8, bound: u64, yes: u64x8, no: u64x8) -> u64x8
    ensures { HasLanes result (λ k. if nat_lt (slice_index v k) bound then slice_index yes k else slice_index no k) }
{
    v.simd_lt(u64x8::splat(bound)).select(yes, no)
}

#[inline(always)]
pub(crate) fn if_equal(v: u64x8, number: u64, yes: u64x8, no: u64x8) -> u64x8
    ensures { HasLanes result (λ k. if slice_index v k == number then slice_index yes k else slice_index no k) }
{
    v.simd_eq(u64x8::splat(number)).select(yes, no)
}

#[inline(always)]
pub(crate) fn larger(a: u64x8, b: u64x8) -> u64x8
    ensures { HasLanes result (λ k. max (slice_index a k) (slice_index b k)) }
{
    a.simd_max(b)
}

#[inline(always)]
pub(crate) fn lanes_of(v: u64x8) -> [u64; 8]
    ensures { result ≡ v }
{
    v.to_array()
}

/// The greatest number of a vector.
#[inline(always)]
pub(crate) fn greatest_lane(v: u64x8) -> u64
    ensures { result ≡ greatest_number v }
{
    let lanes = v.to_array();
    let mut greatest: u64 = 0;
    for lane in lanes.iter() {
        greatest = greatest.max(*lane);
    }
    greatest
}
