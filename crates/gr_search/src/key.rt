//! What matters of a state, as bytes.

ghost use Rattle.std.specs.Prelude.{◌≡◌, ◌++◌, nat_eq, IfOk};
ghost use Rattle.std.specs.Int.{to_le_bytes, w64};
ghost use Rattle.std.specs.Cmp.Lexicographic.{pointwise};
ghost use Rattle.std.specs.Cmp.Rules.{comparing, hashing};
ghost use Rattle.std.specs.Hash as fed;
ghost use Rattle.std.proofs.Common.{rules};

use std::alloc::AllocError;
use std::hash::{Hash, Hasher};
use std::marker::Model;

/// What matters of a state. Two keys are equal where their bytes are.
#[derive(Drop)]
pub struct Key {
    bytes: Vec<u8>,
}

impl Model for Key {
    ghost use Rattle.std.specs.Prelude.{List, ℕ};

    ghost Value = { List ℕ };

    ghost view = { λ key. key.bytes.items };
}

impl Key {
    /// The key with these bytes.
    pub fn new(bytes: Vec<u8>) -> Key
        ensures { result ≡ bytes.items }
    {
        Key { bytes }
    }

    /// The key with a number after it, as eight bytes.
    pub(crate) fn with_number(self, number: u64) -> Result<Key, AllocError>
        ensures { IfOk result (λ key. key ≡ self ++ to_le_bytes w64 number) }
    {
        let mut bytes = self.bytes;
        bytes.extend_from_slice(&number.to_le_bytes())?;
        Ok(Key { bytes })
    }
}

impl PartialEq for Key {
    ghost eq = { pointwise nat_eq };

    ghost laws = { Prim.search (comparing, rules) };

    fn eq(&self, other: &Key) -> bool {
        self.bytes.as_slice() == other.bytes.as_slice()
    }
}

impl Eq for Key {
    ghost laws = { Prim.search (comparing, rules) };
}

impl Hash for Key {
    ghost hash_input = { fed.str };

    ghost respects_eq = { Prim.search (hashing, rules) };

    fn hash<H: Hasher>(&self, state: &mut H) {
        state.write(self.bytes.as_slice());
        state.write_u8(255);
    }
}
