//! Dealing things to hands.
ghost use Rattle.std.specs.Prelude.{◌≡◌, ◌<◌, ◌∷◌, [], length, IfOk, OnOk};
ghost use Rattle.std.specs.List.Sorted.{IsPermutation};
ghost use Rattle.acc_free.specs.Dealing.{all_in};

use acc_base::OutOfMemory;
use std::alloc::Global;

// The hand for the thing with this number. The first ones go to the first hand, which is then left out for so many rounds.
fn hand_for(number: usize, together: usize, rounds: usize, count: usize) -> usize
    requires { 0 < count }
    ensures { result < count }
{
    if number < together || count == 1 {
        return 0;
    }
    let others = count - 1;
    let place = number - together;
    if place / others < rounds {
        1 + place % others
    } else {
        number % count
    }
}

/// Deals things to so many hands. The first ones go together to the first hand, and the others round and round: for so many rounds to the
/// other hands alone, and then to all.
pub(crate) fn deal<T: Drop>(
    alloc: Global,
    things: Vec<T>,
    together: usize,
    rounds: usize,
    count: usize,
) -> Result<Vec<Vec<T>>, OutOfMemory>
    requires { 0 < count }
    ensures all { IfOk result (λ hands. IsPermutation things.items (all_in hands.items)) }
    ensures count { IfOk result (λ hands. length hands.items ≡ count) }
{
    let mut hands = empty(alloc, count)?;
    let mut rest = things;
    rest.reverse();
    let mut number: usize = 0;
    while let Some(thing) = rest.pop() {
        put(&mut hands, hand_for(number, together, rounds, count), thing)?;
        number = number.wrapping_add(1);
    }
    Ok(hands)
}

// Puts one thing more into a hand.
fn put<T: Drop>(hands: &mut Vec<Vec<T>>, place: usize, thing: T) -> Result<(), OutOfMemory>
    requires { place < length hands.old.items }
    ensures all { OnOk result (IsPermutation (thing ∷ all_in hands.old.items) (all_in hands.new.items)) }
    ensures count { OnOk result (length hands.new.items ≡ length hands.old.items) }
{
    hands[place].push(thing)?;
    Ok(())
}

// So many hands that hold nothing.
fn empty<T: Drop>(alloc: Global, count: usize) -> Result<Vec<Vec<T>>, OutOfMemory>
    ensures all { IfOk result (λ hands. all_in hands.items ≡ []) }
    ensures count { IfOk result (λ hands. length hands.items ≡ count) }
{
    let mut hands = Vec::new(alloc);
    for _ in 0..count {
        hands.push(Vec::new(alloc))?;
    }
    Ok(hands)
}
