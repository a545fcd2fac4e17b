//! Lists of cells.
ghost use Rattle.std.specs.Prelude.{◌≡◌, ◌==◌, [], ◌∷◌, ◌++◌, length, IfOk, OnOk, OnErr};
ghost use Rattle.std.specs.Option.{option_copied};
ghost use Rattle.std.specs.Cmp.{partial_equiv_from_equiv};
ghost use Rattle.std.specs.Cmp.Rules.{comparing};
ghost use Rattle.std.proofs.Common.{rules};
ghost use Rattle.acc_value.specs.Pairs.{IsRising, put};
ghost use Rattle.acc_value.specs.Cells.{cell_of, cells_eq};

use crate::key::Key;
use crate::search::place_of;
use crate::shared_pairs::SharedPairs;
use crate::value::Value;
use acc_base::{Duplicate, OutOfMemory, SharedSequence};
use std::alloc::Global;
use std::marker::Model;

/// A list of cells, whose copies share them. A cell is a value, or null where it is `None`.
pub type Cells = SharedSequence<Option<Value>>;

/// Cells by their keys, in the order of the keys, each key once. Copies share the pairs. Contracts see the pairs as a plain list.
#[derive(Debug, Drop)]
pub struct CellList {
    cells: SharedPairs,
}

impl Model for CellList {
    ghost use Rattle.std.specs.Prelude.{List, Option};
    ghost use Rattle.acc_value.specs.declared.key.Key.{Key};
    ghost use Rattle.acc_value.specs.declared.value.Value.{Value as CellValue};
    ghost use Rattle.acc_value.specs.Pairs.{IsRising};

    ghost Value = { List (Key × Option CellValue) };

    ghost view = { λ l. l.cells };

    ghost invariant = { λ l. IsRising l.cells };
}

impl CellList {
    /// An empty list, which takes no memory yet.
    pub fn new(alloc: Global) -> CellList
        ensures { result ≡ [] }
    {
        CellList {
            cells: SharedPairs::new(alloc),
        }
    }

    /// The pairs, whose keys rise.
    pub fn pairs(&self) -> &[(Key, Option<Value>)]
        ensures pairs { result.now ≡ self.now }
        ensures rising { IsRising self.now }
    {
        self.cells.as_slice()
    }

    /// The allocator of the pairs, for a further list beside this one.
    pub fn allocator(&self) -> Global {
        self.cells.allocator()
    }

    /// How many pairs there are.
    pub fn len(&self) -> usize
        ensures { result ≡ length self.now }
    {
        self.cells.len()
    }

    /// Whether there is no pair.
    pub fn is_empty(&self) -> bool
        ensures { result ≡ (length self.now == 0) }
    {
        self.cells.is_empty()
    }

    /// The cell of a key, which is null too where the list lacks the key.
    pub fn get(&self, key: &Key) -> Option<&Value>
        ensures { option_copied result ≡ cell_of self.now key.now }
    {
        let pairs = self.cells.as_slice();
        match place_of(pairs, key) {
            Ok(place) => pairs[place].1.as_ref(),
            Err(_) => None,
        }
    }

    /// Appends the pair of a key that is greater than those before. Without memory for it the list is as before.
    pub fn push(&mut self, key: Key, cell: Option<Value>) -> Result<(), OutOfMemory>
        requires { IsRising (self.old ++ (key, cell) ∷ []) }
        ensures ok { OnOk result (self.new ≡ self.old ++ (key, cell) ∷ []) }
        ensures err { OnErr result (self.new ≡ self.old) }
    {
        let place = self.cells.len();
        self.cells.insert(place, (key, cell))
    }

    /// Sets the cell of a key. Without memory for a new pair the list is as before.
    pub fn set(&mut self, key: Key, cell: Option<Value>) -> Result<(), OutOfMemory>
        ensures ok { OnOk result (self.new ≡ put self.old key cell) }
        ensures err { OnErr result (self.new ≡ self.old) }
    {
        match place_of(self.cells.as_slice(), &key) {
            Ok(place) => {
                self.cells.set(place, (key, cell))?;
                Ok(())
            }
            Err(place) => {
                self.cells.insert(place, (key, cell))?;
                Ok(())
            }
        }
    }

    /// An equal list, which shares its pairs with this one. It takes no memory of its own.
    pub fn copy(&self) -> Result<CellList, OutOfMemory>
        ensures { IfOk result (λ copy. copy ≡ self.now) }
    {
        Ok(CellList {
            cells: self.cells.copy()?,
        })
    }
}

impl Duplicate for CellList {
    fn copy(&self) -> Result<CellList, OutOfMemory> {
        CellList::copy(self)
    }
}

impl PartialEq for CellList {
    ghost eq = { cells_eq };

    ghost laws = { partial_equiv_from_equiv (Prim.search (comparing, rules) depth 9) };

    fn eq(&self, other: &CellList) -> bool {
        self.cells.as_slice() == other.cells.as_slice()
    }
}

impl Eq for CellList {
    ghost laws = { Prim.search (comparing, rules) depth 9 };
}
