//! Sizes that are found before code is written, and asked for while it is.
ghost use Rattle.std.specs.Prelude.{◌≡◌, ◌++◌, ◌∷◌, [], ℕ, List, OnOk};

use gr_base::NoMemory;
use std::alloc::Global;
use std::marker::Model;

/// Sizes in the order in which they are asked for. They are noted from the last to the first.
#[derive(Drop)]
pub struct Sizes {
    noted: Vec<usize>,
}

impl Model for Sizes {
    ghost use Rattle.std.specs.Prelude.{List, ℕ, reverse};

    ghost Value = { List ℕ };

    ghost view = { λ sizes. reverse sizes.noted.items };
}

impl Sizes {
    pub fn new(alloc: Global) -> Sizes
        ensures { result ≡ [] }
    {
        Sizes {
            noted: Vec::new(alloc),
        }
    }

    /// Notes a size before those noted so far.
    pub fn note(&mut self, size: usize) -> Result<(), NoMemory>
        ensures { OnOk result (self.new ≡ size ∷ self.old) }
    {
        Ok(self.noted.push(size)?)
    }

    /// Notes several sizes before those noted so far, in their order.
    pub fn note_all(&mut self, sizes: Sizes) -> Result<(), NoMemory>
        ensures { OnOk result (self.new ≡ sizes ++ self.old) }
    {
        let mut noted = sizes.noted;
        Ok(self.noted.append(&mut noted)?)
    }

    /// The next size; 0 if there is none.
    pub fn ask(&mut self) -> usize
        ensures { (size : ℕ) (rest : List ℕ) → self.old ≡ size ∷ rest → (result ≡ size) × (self.new ≡ rest) }
    {
        self.noted.pop().unwrap_or(0)
    }
}
