//! What can be written as bytes, and lists of it.

ghost use Rattle.std.specs.Prelude.{◌≡◌, ◌++◌, ◌∷◌, [], List, ℕ, OnOk, option_copied};
ghost use Rattle.gr_keys.specs.Codes.{list_code, option_code};

use gr_base::NoMemory;

/// What can be written as bytes.
pub trait Coded: Sized {
    ghost use Rattle.std.specs.Prelude.{◌≡◌, ◌++◌, List, ℕ, OnOk};

    ghost code: { Self → List ℕ };

    /// Appends its code. Refused, some of it may be there.
    fn write(&self, bytes: &mut Vec<u8>) -> Result<(), NoMemory>
        ensures { OnOk result (bytes.new.items ≡ bytes.old.items ++ code self.now) };
}

/// Appends a byte.
pub fn write_byte(byte: u8, bytes: &mut Vec<u8>) -> Result<(), NoMemory>
    ensures { OnOk result (bytes.new.items ≡ bytes.old.items ++ byte ∷ []) }
{
    bytes.push(byte)?;
    Ok(())
}

/// Appends the code of a list.
pub fn write_list<T: Coded>(items: &[T], bytes: &mut Vec<u8>) -> Result<(), NoMemory>
    ensures { OnOk result (bytes.new.items ≡ bytes.old.items ++ list_code T.code items.now) }
{
    for item in items {
        write_byte(1, bytes)?;
        item.write(bytes)?;
    }
    write_byte(0, bytes)
}

/// Appends the code of what may be there.
pub fn write_option<T: Coded>(item: Option<&T>, bytes: &mut Vec<u8>) -> Result<(), NoMemory>
    ensures { OnOk result (bytes.new.items ≡ bytes.old.items ++ option_code T.code (option_copied item.entry)) }
{
    match item {
        None => write_byte(0, bytes),
        Some(item) => {
            write_byte(1, bytes)?;
            item.write(bytes)
        }
    }
}
