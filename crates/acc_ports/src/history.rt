//! A list of past values that contracts alone see.
ghost use Rattle.std.specs.Prelude.{◌≡◌, List, [], ◌∷◌, ◌++◌};
ghost use Rattle.std.specs.Borrow.{ftrue};

use std::fmt;
use std::marker::{Model, PhantomData};

/// Past values, oldest first. They stand in contracts and proofs alone: a history takes no memory, and its calls do nothing
/// when the program runs.
#[derive(Drop)]
pub struct History<T> {
    of: PhantomData<T>,
    pub ghost items: { List T },
}

impl<T> Model for History<T> {
    ghost also_owns = { λ _. ftrue };
}

// It owns nothing.
unsafe impl<T: Send> Send for History<T> {}

impl<T> fmt::Debug for History<T> {
    fn fmt<W: fmt::Write>(&self, f: &mut fmt::Formatter<W>) -> fmt::Result {
        write!(f, "History")
    }
}

impl<T> History<T> {
    /// Nothing has happened yet.
    pub fn new() -> History<T>
        ensures { result.items ≡ [] }
    {
        History { of: PhantomData }
    }

    /// This history, with one more value at its end.
    pub fn and(&self, _item: &T) -> History<T>
        ensures { result.items ≡ self.now.items ++ _item.now ∷ [] }
    {
        History { of: PhantomData }
    }
}
