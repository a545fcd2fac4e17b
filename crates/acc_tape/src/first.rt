//! Room that a new tape asks for.
ghost use Rattle.std.specs.Prelude.{◌≡◌, [], IfOk};

use acc_base::OutOfMemory;
use acc_message_index::Posts;
use std::alloc::Global;

/// For so many items, notes and messages a new tape asks for memory at once. That is some 50 MB of addresses: the C library mostly maps
/// blocks of such a size, and what is never touched of a map takes no memory. Where it is refused the lists grow as they are filled.
pub(crate) const FIRST_ROOM: usize = 262_144;

/// An index of no messages, with no room that is promised.
pub(crate) fn first_posts(alloc: Global) -> Result<Posts, OutOfMemory>
    ensures { IfOk result (λ posts. posts ≡ record { sent = []; early = []; room = 0; takings = 0 }) }
{
    let mut posts = Posts::new(alloc)?;
    if posts.reserve(FIRST_ROOM as u64, 0).is_ok() {
        posts.release(FIRST_ROOM as u64, 0);
    }
    Ok(posts)
}
