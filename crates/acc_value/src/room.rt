//! Room for no more than is held.
ghost use Rattle.std.specs.Prelude.{◌≡◌, ◌≤◌, length, insert, OnOk, OnErr};

use acc_base::{Duplicate, OutOfMemory, SharedSequence};

/// Puts a value at a place, with what stood from there on behind it. The first one and the second one take memory for themselves
/// alone, since most lists keep one or two. Without memory for it the list is as before.
pub(crate) fn insert_pair<T: Duplicate>(
    list: &mut SharedSequence<T>,
    place: usize,
    value: T,
) -> Result<(), OutOfMemory>
    requires { place ≤ length list.old }
    ensures ok { OnOk result (list.new ≡ insert list.old place value) }
    ensures err { OnErr result (list.new ≡ list.old) }
{
    if list.len() == 1 {
        return insert_second(list, place, value);
    }
    if !list.is_empty() {
        return list.insert(place, value);
    }
    let mut alone = Vec::with_capacity(list.allocator(), 1)?;
    alone.push_reserved(value);
    *list = SharedSequence::from_vec(list.allocator(), alone)?;
    Ok(())
}

// Puts a value in front of the only one or behind it.
fn insert_second<T: Duplicate>(
    list: &mut SharedSequence<T>,
    place: usize,
    value: T,
) -> Result<(), OutOfMemory>
    requires one { length list.old ≡ 1 }
    requires place { place ≤ 1 }
    ensures ok { OnOk result (list.new ≡ insert list.old place value) }
    ensures err { OnErr result (list.new ≡ list.old) }
{
    let mut both = Vec::with_capacity(list.allocator(), 2)?;
    both.push(list.as_slice()[0].copy()?)?;
    both.insert(place, value)?;
    *list = SharedSequence::from_vec(list.allocator(), both)?;
    Ok(())
}
