//! Lists that have no room for more than they hold: a body is kept for long, and most of its lists have one element.
ghost use Rattle.std.specs.Prelude.{◌≡◌, [], ◌∷◌, ◌++◌, IfOk, OnOk, OnErr};

use acc_base::{OutOfMemory, Sequence};
use std::alloc::Global;

/// A list of one value, with room for it alone, or for one more where the list goes on.
pub(crate) fn begun<T: Drop>(
    alloc: Global,
    value: T,
    goes_on: bool,
) -> Result<Sequence<T>, OutOfMemory>
    ensures { IfOk result (λ list. list ≡ value ∷ []) }
{
    let room = if goes_on { 2 } else { 1 };
    let mut items = Vec::with_capacity(alloc, room)?;
    items.push_reserved(value);
    Ok(Sequence::from_vec(items))
}

/// Appends a value. The first one takes memory for itself alone. Without memory for it the list is as before.
pub(crate) fn push<T: Drop>(list: &mut Sequence<T>, value: T) -> Result<(), OutOfMemory>
    ensures ok { OnOk result (list.new ≡ list.old ++ value ∷ []) }
    ensures err { OnErr result (list.new ≡ list.old) }
{
    if !list.is_empty() {
        return list.push(value);
    }
    *list = begun(list.allocator(), value, false)?;
    Ok(())
}

/// The same list, without room for more.
pub(crate) fn fitted<T>(list: Sequence<T>) -> Sequence<T>
    ensures { result ≡ list }
{
    let mut items = list.into_vec();
    items.shrink_to_fit();
    Sequence::from_vec(items)
}
