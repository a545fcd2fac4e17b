//! Guesses at the places of names, which have to be tested: no contract says that one is right.
use acc_base::OutOfMemory;
use std::alloc::Global;

/// The most bytes of a name that has a guess.
const MOST_BYTES: usize = 16;

/// Into how many a step goes on. Any two of the small letters and digits differ in their remainders by it.
const WIDTH: usize = 38;

/// What follows a step with a byte.
#[derive(Clone, Copy)]
struct After {
    // The number of the next step, or 0.
    step: u32,
    // The place of the name that ends with the byte, plus 1, or 0.
    end: u32,
}

/// Nothing follows.
const NOTHING: After = After { step: 0, end: 0 };

/// A tree of the names by their bytes. So a name is found in a step for each of its bytes, however many names there are, and no
/// choice of them makes it slower.
#[derive(Drop)]
pub(crate) struct Guesses {
    // What follows each step, by the remainders of bytes. The step at the root has number 0.
    after: Vec<After>,
}

impl Guesses {
    /// No guesses.
    pub(crate) fn new(alloc: Global) -> Guesses {
        Guesses {
            after: Vec::new(alloc),
        }
    }

    /// Where the name may stand.
    pub(crate) fn get(&self, name: &[u8]) -> Option<usize> {
        let mut found = NOTHING;
        for byte in name {
            found = self.after(found.step, *byte);
        }
        if found.end > 0 {
            Some(found.end as usize - 1)
        } else {
            None
        }
    }

    fn after(&self, step: u32, byte: u8) -> After {
        match self.after.get(index(step, byte)) {
            Some(after) => *after,
            None => NOTHING,
        }
    }

    /// Notes where a name stands. A long name gets no guess, and without memory another may get none.
    pub(crate) fn add(&mut self, name: &[u8], place: usize) {
        match self.enter(name, place) {
            Ok(()) | Err(OutOfMemory) => {}
        }
    }

    fn enter(&mut self, name: &[u8], place: usize) -> Result<(), OutOfMemory> {
        if name.len() > MOST_BYTES {
            return Ok(());
        }
        let Some((last, front)) = name.split_last() else {
            return Ok(());
        };
        if self.after.is_empty() {
            self.push()?;
        }
        let mut step = 0;
        for byte in front {
            step = self.go(step, *byte)?;
        }
        self.set_end(step, *last, place);
        Ok(())
    }

    // Appends a step that nothing follows.
    fn push(&mut self) -> Result<(), OutOfMemory> {
        self.after.extend_from_slice(&[NOTHING; WIDTH])?;
        Ok(())
    }

    // The step after this one, which is made where there is none. Past 32 bits there are no more.
    fn go(&mut self, step: u32, byte: u8) -> Result<u32, OutOfMemory> {
        let next = self.after(step, byte).step;
        if next > 0 {
            return Ok(next);
        }
        let Ok(made) = u32::try_from(self.after.len() / WIDTH) else {
            return Ok(0);
        };
        self.push()?;
        if let Some(after) = self.after.get_mut(index(step, byte)) {
            after.step = made;
        }
        Ok(made)
    }

    fn set_end(&mut self, step: u32, byte: u8, place: usize) {
        match (self.after.get_mut(index(step, byte)), u32::try_from(place)) {
            (Some(after), Ok(place)) if place < u32::MAX => after.end = place + 1,
            _ => {}
        }
    }
}

// Where it stands what follows a step with this byte.
fn index(step: u32, byte: u8) -> usize {
    step as usize * WIDTH + byte as usize % WIDTH
}
