//! Names and values as bytes.

ghost use Rattle.std.specs.Prelude.{◌≡◌, ◌++◌, OnOk, option_copied};
ghost use Rattle.gr_keys.specs.ValueCodes.{name_code, channel_name_code, value_code};

use crate::lists::{Coded, write_byte, write_list, write_option};
use crate::numbers::{write_bit, write_integer, write_number};
use gr_base::{ChName, GoName, NoMemory, Value};

impl Coded for GoName {
    ghost use Rattle.gr_keys.specs.ValueCodes.{name_code};

    ghost code = { name_code };

    fn write(&self, bytes: &mut Vec<u8>) -> Result<(), NoMemory> {
        write_list(self.counts(), bytes)
    }
}

impl Coded for ChName {
    ghost use Rattle.gr_keys.specs.ValueCodes.{channel_name_code};

    ghost code = { channel_name_code };

    fn write(&self, bytes: &mut Vec<u8>) -> Result<(), NoMemory> {
        self.go.write(bytes)?;
        write_number(u64::from(self.n), bytes)
    }
}

impl Coded for Value {
    ghost use Rattle.gr_keys.specs.ValueCodes.{value_code};

    ghost code = { value_code };

    fn write(&self, bytes: &mut Vec<u8>) -> Result<(), NoMemory> {
        match self {
            Value::Int(number) => {
                write_byte(0, bytes)?;
                write_integer(*number, bytes)
            }
            Value::Bool(bit) => {
                write_byte(1, bytes)?;
                write_bit(*bit, bytes)
            }
            Value::Unit => write_byte(2, bytes),
            Value::Chan(name) => {
                write_byte(3, bytes)?;
                write_option(name.as_ref(), bytes)
            }
        }
    }
}

impl Coded for Option<Value> {
    ghost use Rattle.gr_keys.specs.ValueCodes.{cell_code};

    ghost code = { cell_code };

    fn write(&self, bytes: &mut Vec<u8>) -> Result<(), NoMemory> {
        write_option(self.as_ref(), bytes)
    }
}
