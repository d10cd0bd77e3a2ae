//! A value as a line of text.

ghost use Rattle.std.specs.Prelude.{◌≡◌, ◌++◌, false, codes, OnOk, OnErr};
ghost use Rattle.serde_json.specs.View.{view};
ghost use Rattle.serde_json.specs.Written.{compact_text, has_float};

use gr_base::NoMemory;
use serde_json::Value;
use std::alloc::Global;

/// Appends the text of a value without spaces, and a newline. An error leaves the text as it was.
pub fn write_line(alloc: Global, text: &mut Vec<u8>, value: &Value) -> Result<(), NoMemory>
    ensures ok { OnOk result (has_float (view value.now) ≡ false
        → text.new.items ≡ text.old.items ++ (compact_text (view value.now) ++ codes "\n")) }
    ensures err { OnErr result (text.new.items ≡ text.old.items) }
{
    let mut written = value.to_string(alloc)?;
    written.push('\n')?;
    text.extend_from_slice(written.as_bytes())?;
    Ok(())
}
