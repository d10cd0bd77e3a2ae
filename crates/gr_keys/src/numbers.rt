//! Numbers as bytes.

ghost use Rattle.std.specs.Prelude.{◌≡◌, ◌++◌, OnOk};
ghost use Rattle.gr_keys.specs.Codes.{number_code, integer_code, bit_code};

use crate::lists::{Coded, write_byte};
use gr_base::NoMemory;

/// Appends the code of a number. Most take one byte.
pub fn write_number(number: u64, bytes: &mut Vec<u8>) -> Result<(), NoMemory>
    ensures { OnOk result (bytes.new.items ≡ bytes.old.items ++ number_code number) }
{
    if number < 254 {
        return write_byte(number as u8, bytes);
    }
    write_byte(255, bytes)?;
    bytes.extend_from_slice(&number.to_le_bytes())?;
    Ok(())
}

/// Appends the code of an `int`.
pub fn write_integer(number: i64, bytes: &mut Vec<u8>) -> Result<(), NoMemory>
    ensures { OnOk result (bytes.new.items ≡ bytes.old.items ++ integer_code number) }
{
    if number < 0 {
        write_byte(1, bytes)?;
        return write_number((number + 1).unsigned_abs(), bytes);
    }
    write_byte(0, bytes)?;
    write_number(number.unsigned_abs(), bytes)
}

/// Appends the code of a truth value.
pub fn write_bit(bit: bool, bytes: &mut Vec<u8>) -> Result<(), NoMemory>
    ensures { OnOk result (bytes.new.items ≡ bytes.old.items ++ bit_code bit) }
{
    write_byte(if bit { 1 } else { 0 }, bytes)
}

impl Coded for u32 {
    ghost use Rattle.gr_keys.specs.Codes.{number_code};

    ghost code = { number_code };

    fn write(&self, bytes: &mut Vec<u8>) -> Result<(), NoMemory> {
        write_number(u64::from(*self), bytes)
    }
}

impl Coded for u8 {
    ghost use Rattle.gr_keys.specs.Codes.{number_code};

    ghost code = { number_code };

    fn write(&self, bytes: &mut Vec<u8>) -> Result<(), NoMemory> {
        write_number(u64::from(*self), bytes)
    }
}
