//! A maker of disks in memory.
ghost use Rattle.std.specs.Prelude.{◌≡◌, [], ◌∷◌, ◌++◌, Some, None, is_none, IsTrue, IfOk, OnOk, OnErr};
ghost use Rattle.std.specs.Option.{option_copied};
ghost use Rattle.acc_ports.specs.Moments.{IsFresh};
ghost use Rattle.acc_ports.specs.MemoryMaker.{listed_for, made};

use crate::{Calls, Disk, DiskMaker, MemDisk};
use acc_base::OutOfMemory;
use std::alloc::Global;
use std::marker::Model;

/// Makes disks in memory, and keeps those that are given back.
#[derive(Debug, Drop)]
pub struct MemMaker {
    alloc: Global,
    listed: Option<(u32, Calls)>,
    given: Vec<(u32, MemDisk)>,
}

impl Model for MemMaker {
    ghost use Rattle.acc_ports.specs.MemoryMaker.{MemoryMaker};

    ghost Value = { MemoryMaker };

    ghost view = { λ m. record { listed = m.listed; given = m.given.items } };
}

impl MemMaker {
    ghost use Rattle.acc_ports.specs.MemoryMaker.{last_content};

    /// Makes strict disks.
    pub fn new(alloc: Global) -> MemMaker
        ensures { result ≡ record { listed = None; given = [] } }
    {
        MemMaker {
            alloc,
            listed: None,
            given: Vec::new(alloc),
        }
    }

    /// Makes disks whose calls of these numbers fail under one number, and disks as those of `new` under any other.
    pub fn listed(alloc: Global, number: u32, fails: Calls) -> MemMaker
        ensures { result ≡ record { listed = Some (number, fails); given = [] } }
    {
        MemMaker {
            alloc,
            listed: Some((number, fails)),
            given: Vec::new(alloc),
        }
    }

    /// The content of the last disk that was given back under a number, or `None` if there is none.
    pub fn content(&self, number: u32) -> Option<&[u8]>
        ensures { option_copied result ≡ last_content number self.now.given }
    {
        let given = self.given.as_slice();
        let mut place = given.len();
        while place > 0 {
            place -= 1;
            let back = &given[place];
            if back.0 == number {
                return Some(back.1.content());
            }
        }
        None
    }
}

impl DiskMaker for MemMaker {
    ghost use Rattle.std.specs.Prelude.{is_none};

    type D = MemDisk;

    ghost strict = { λ m. is_none m.listed };

    ghost given = { λ m. m.given };

    fn make(&mut self, number: u32) -> Result<MemDisk, OutOfMemory>
        ensures fresh { IfOk result (λ disk. IsFresh ⟦<MemDisk as Disk>⟧ disk) }
        ensures strict { IsTrue (is_none self.old.listed) → IfOk result (λ disk. IsTrue (is_none disk.fails)) }
        ensures made { IfOk result (λ disk. disk ≡ made (listed_for number self.old.listed)) }
        ensures same { self.new ≡ self.old }
    {
        match &self.listed {
            Some(listed) if listed.0 == number => MemDisk::listed(self.alloc, listed.1.copy()?),
            _ => MemDisk::new(self.alloc),
        }
    }

    fn back(&mut self, number: u32, disk: MemDisk) -> Result<(), OutOfMemory>
        ensures ok { OnOk result (self.new ≡ record self.old { given = self.old.given ++ (number, disk) ∷ [] }) }
        ensures err { OnErr result (self.new ≡ self.old) }
    {
        self.given.push((number, disk))?;
        Ok(())
    }
}
