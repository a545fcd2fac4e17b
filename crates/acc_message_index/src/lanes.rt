//! Lanes: the messages to actors whose numbers are equal modulo 1024. The actors of a cluster have smaller numbers, so that
//! each has a lane of its own.
ghost use Rattle.std.specs.Prelude.{◌≡◌, ◌%◌, ◌+◌, ◌<◌, [], ◌∷◌, ◌++◌, length, min, IfOk, nat_lt, if◌then◌else◌, slice_set, slice_index, vec_len, vec_capacity};
ghost use Rattle.acc_message_index.specs.Indexed.{AreNowhere};

use acc_base::OutOfMemory;
use std::alloc::Global;

/// How many lanes there are.
pub(crate) const LANES: usize = 1024;

/// The place of no message. Each message stands before it.
pub(crate) const NOWHERE: u32 = u32::MAX;

/// The lane of the messages to an actor.
pub(crate) fn lane_of(actor: u32) -> usize
    ensures { result ≡ actor % 1024 }
{
    actor as usize % LANES
}

/// A place for each of so many lanes, none of which is that of a message.
pub(crate) fn no_places(alloc: Global, lanes: usize) -> Result<Vec<u32>, OutOfMemory>
    ensures { IfOk result (λ places. AreNowhere lanes places.items) }
{
    Ok(vec![in alloc; NOWHERE; lanes]?)
}

// The link of a message leads to a place. Nothing is done for the place of no message.
fn link(links: &mut Vec<u32>, from: u32, to: u32)
    ensures links { links.new.items ≡ (if nat_lt from (length links.old.items) then slice_set links.old.items from to else links.old.items) }
    ensures room { (vec_len links.new ≡ vec_len links.old) × (vec_capacity links.new ≡ vec_capacity links.old) }
{
    if (from as usize) < links.len() {
        links[from as usize] = to;
    }
}

/// Puts a new message, whose number is the count of links, at the end of its lane.
#[inline(always)]
pub(crate) fn join_lane(
    links: &mut Vec<u32>,
    firsts: &mut Vec<u32>,
    lasts: &mut Vec<u32>,
    lane: usize,
)
    requires lanes { (lane < length firsts.old.items) × (lane < length lasts.old.items) }
    requires room { vec_len links.old < vec_capacity links.old }
    requires number { length links.old.items < NOWHERE }
    ensures links { let last = slice_index lasts.old.items lane in let number = length links.old.items in links.new.items ≡ (if nat_lt last number then slice_set links.old.items last number else links.old.items) ++ NOWHERE ∷ [] }
    ensures firsts { firsts.new.items ≡ slice_set firsts.old.items lane (min (slice_index firsts.old.items lane) (length links.old.items)) }
    ensures lasts { lasts.new.items ≡ slice_set lasts.old.items lane (length links.old.items) }
    ensures room { (vec_len links.new ≡ vec_len links.old + 1) × (vec_capacity links.new ≡ vec_capacity links.old) }
{
    let number = links.len() as u32;
    link(links, lasts[lane], number);
    links.push_reserved(NOWHERE);
    firsts[lane] = firsts[lane].min(number);
    lasts[lane] = number;
}
