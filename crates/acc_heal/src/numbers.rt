//! A long list of numbers that are mostly small.
ghost use Rattle.std.specs.Prelude.{◌≡◌, [], ◌∷◌, ◌++◌, slice_get, IfOk, OnOk, OnErr};

use acc_base::OutOfMemory;
use std::alloc::Global;
use std::marker::Model;

/// Numbers in the order in which they were appended. Each takes two bytes as long as all of them fit, and four from then on.
#[derive(Debug, Drop)]
pub(crate) struct Numbers {
    form: Form,
}

#[derive(Debug, Drop)]
enum Form {
    Narrow(Vec<u16>),
    Wide(Vec<u32>),
}

impl Model for Numbers {
    ghost use Rattle.std.specs.Prelude.{ℕ, List};
    ghost use Rattle.acc_heal.specs.Numbers.{numbers_of};

    ghost Value = { List ℕ };

    ghost view = { λ n. numbers_of n.form };
}

// The same numbers in four bytes each.
fn widened(numbers: &Vec<u16>) -> Result<Vec<u32>, OutOfMemory>
    ensures { IfOk result (λ wide. wide.items ≡ numbers.now.items) }
{
    let mut wide = Vec::new(*numbers.allocator());
    for number in numbers.as_slice() {
        wide.push(u32::from(*number))?;
    }
    Ok(wide)
}

impl Numbers {
    /// No numbers, which take no memory yet.
    pub(crate) fn new(alloc: Global) -> Numbers
        ensures { result ≡ [] }
    {
        Numbers {
            form: Form::Narrow(Vec::new(alloc)),
        }
    }

    /// The number at a place, if there are so many.
    pub(crate) fn get(&self, place: usize) -> Option<u32>
        ensures { result ≡ slice_get self.now place }
    {
        match &self.form {
            Form::Narrow(numbers) => match numbers.as_slice().get(place) {
                Some(number) => Some(u32::from(*number)),
                None => None,
            },
            Form::Wide(numbers) => numbers.as_slice().get(place).copied(),
        }
    }

    /// Appends a number. Without memory for it the numbers are as before.
    pub(crate) fn push(&mut self, number: u32) -> Result<(), OutOfMemory>
        ensures ok { OnOk result (self.new ≡ self.old ++ number ∷ []) }
        ensures err { OnErr result (self.new ≡ self.old) }
    {
        match &mut self.form {
            Form::Narrow(numbers) => {
                if number <= 65535 {
                    numbers.push(number as u16)?;
                    return Ok(());
                }
                let mut wide = widened(numbers)?;
                wide.push(number)?;
                self.form = Form::Wide(wide);
                Ok(())
            }
            Form::Wide(numbers) => {
                numbers.push(number)?;
                Ok(())
            }
        }
    }
}
