//! The bytes that a write wrote over.
ghost use Rattle.std.specs.Prelude.{◌≡◌, ◌+◌, ◌≤◌, [], length, vec_len, IfOk};
ghost use Rattle.acc_ports.specs.Disk.{overwritten};

use crate::undo::overwrite;
use acc_base::{Bytes, OutOfMemory, Sequence};
use std::alloc::Global;
use std::marker::Model;

/// Bytes that were written over. A single one takes no memory: a journal writes over one byte at a time.
#[derive(Debug, Drop)]
pub(crate) struct Saved {
    is_one: bool,
    one: u8,
    others: Bytes,
}

impl Model for Saved {
    ghost use Rattle.std.specs.Prelude.{List, ℕ, [], ◌∷◌, if◌then◌else◌};

    ghost Value = { List ℕ };

    ghost view = { λ s. if s.is_one then s.one ∷ [] else s.others };
}

impl Saved {
    /// No bytes.
    pub(crate) fn nothing(alloc: Global) -> Saved
        ensures { result ≡ [] }
    {
        Saved {
            is_one: false,
            one: 0,
            others: Sequence::new(alloc),
        }
    }

    /// These bytes.
    pub(crate) fn of(alloc: Global, bytes: &[u8]) -> Result<Saved, OutOfMemory>
        ensures { IfOk result (λ saved. saved ≡ bytes.now) }
    {
        match bytes {
            [] => Ok(Saved::nothing(alloc)),
            [byte] => Ok(Saved {
                is_one: true,
                one: *byte,
                others: Sequence::new(alloc),
            }),
            _ => Ok(Saved {
                is_one: false,
                one: 0,
                others: Sequence::from_slice(alloc, bytes)?,
            }),
        }
    }

    /// Writes them back at a place.
    pub(crate) fn put_back(&self, content: &mut Vec<u8>, at: usize)
        requires { at + length self.now ≤ vec_len content.old }
        ensures { content.new.items ≡ overwritten at self.now content.old.items }
    {
        if self.is_one {
            overwrite(content, at, &[self.one]);
        } else {
            overwrite(content, at, self.others.as_slice());
        }
    }
}
