//! JSON of names, numbers and texts.

ghost use Rattle.std.specs.Prelude.{◌≡◌, IfOk};
ghost use Rattle.serde_json.specs.View.{view};
ghost use Rattle.gr_json.specs.Parts.{text as text_data, perhaps as perhaps_data, list as list_data};

use gr_base::{
    ChName, GoName, Kind, NoMemory, StepId, Value as Held, print_ch, print_go, print_kind,
    print_step, print_value,
};
use serde_json::Value;
use std::alloc::Global;

/// What can be told as JSON.
pub trait Told {
    ghost use Rattle.std.specs.Prelude.{◌≡◌, IfOk};
    ghost use Rattle.serde_json.specs.Data.{Data};
    ghost use Rattle.serde_json.specs.View.{view};

    ghost told: { Self → Data };

    /// The JSON value. The one error is out of memory.
    fn value(&self, alloc: Global) -> Result<Value, NoMemory>
        ensures { IfOk result (λ value. view value ≡ told self.now) };
}

/// Bytes as a text. Where they are no UTF-8, U+FFFD stands.
pub(crate) fn text(alloc: Global, bytes: &[u8]) -> Result<Value, NoMemory>
    ensures { IfOk result (λ value. view value ≡ text_data bytes.now) }
{
    let text = String::from_utf8_lossy(alloc, bytes)?;
    Ok(Value::String(text))
}

/// What is there, or null.
pub fn perhaps<T: Told>(alloc: Global, item: &Option<T>) -> Result<Value, NoMemory>
    ensures { IfOk result (λ value. view value ≡ perhaps_data T.told item.now) }
{
    match item {
        Some(item) => item.value(alloc),
        None => Ok(Value::Null),
    }
}

/// The values of these, in their order.
pub fn list<T: Told>(alloc: Global, items: &[T]) -> Result<Value, NoMemory>
    ensures { IfOk result (λ value. view value ≡ list_data T.told items.now) }
{
    let mut values = Vec::with_capacity(alloc, items.len())?;
    for item in items {
        let value = item.value(alloc)?;
        values.push_reserved(value);
    }
    Ok(Value::Array(values))
}

impl Told for Vec<u8> {
    ghost use Rattle.gr_json.specs.Parts.{text as text_data};

    ghost told = { λ bytes. text_data bytes.items };

    fn value(&self, alloc: Global) -> Result<Value, NoMemory> {
        text(alloc, self.as_slice())
    }
}

impl Told for GoName {
    ghost use Rattle.gr_json.specs.Parts.{go_data};

    ghost told = { go_data };

    fn value(&self, alloc: Global) -> Result<Value, NoMemory> {
        let mut name = Vec::new(alloc);
        print_go(&mut name, self)?;
        text(alloc, name.as_slice())
    }
}

impl Told for ChName {
    ghost use Rattle.gr_json.specs.Parts.{channel_data};

    ghost told = { channel_data };

    fn value(&self, alloc: Global) -> Result<Value, NoMemory> {
        let mut name = Vec::new(alloc);
        print_ch(&mut name, self)?;
        text(alloc, name.as_slice())
    }
}

impl Told for StepId {
    ghost use Rattle.gr_json.specs.Parts.{step_data};

    ghost told = { step_data };

    fn value(&self, alloc: Global) -> Result<Value, NoMemory> {
        let mut name = Vec::new(alloc);
        print_step(&mut name, self)?;
        text(alloc, name.as_slice())
    }
}

impl Told for Held {
    ghost use Rattle.gr_json.specs.Parts.{value_data};

    ghost told = { value_data };

    fn value(&self, alloc: Global) -> Result<Value, NoMemory> {
        let mut digits = Vec::new(alloc);
        print_value(&mut digits, self)?;
        text(alloc, digits.as_slice())
    }
}

impl Told for Kind {
    ghost use Rattle.gr_json.specs.Parts.{kind_data};

    ghost told = { kind_data };

    fn value(&self, alloc: Global) -> Result<Value, NoMemory> {
        let mut words = Vec::new(alloc);
        print_kind(&mut words, *self)?;
        text(alloc, words.as_slice())
    }
}

impl Told for u32 {
    ghost use Rattle.gr_json.specs.Parts.{count};

    ghost told = { count };

    fn value(&self, _alloc: Global) -> Result<Value, NoMemory> {
        Ok(Value::from(*self))
    }
}

impl Told for usize {
    ghost use Rattle.gr_json.specs.Parts.{count};

    ghost told = { count };

    fn value(&self, _alloc: Global) -> Result<Value, NoMemory> {
        Ok(Value::from(*self))
    }
}
