//! Values of programs.

ghost use Rattle.std.specs.Prelude.{◌≡◌, IfOk, OnErr};
ghost use Rattle.gr_base.specs.Values.{IsNamed};

use crate::memory::NoMemory;
use crate::names::ChName;
use std::alloc::Global;

/// A value that a variable holds or a channel carries.
#[derive(PartialEq, Eq, Drop)]
pub enum Value {
    /// A value of type `int`.
    Int(i64),
    Bool(bool),
    /// The one value of `struct{}`.
    Unit,
    /// A channel, or nil.
    Chan(Option<ChName>),
}

impl Value {
    /// A copy of the value. It takes no memory, and only the copy of a channel's name can be refused.
    pub fn copy(&self, alloc: Global) -> Result<Value, NoMemory>
        ensures ok { IfOk result (λ value. value ≡ self.now) }
        ensures needed { OnErr result (IsNamed self.now) }
    {
        match self {
            Value::Int(n) => Ok(Value::Int(*n)),
            Value::Bool(b) => Ok(Value::Bool(*b)),
            Value::Unit => Ok(Value::Unit),
            Value::Chan(None) => Ok(Value::Chan(None)),
            Value::Chan(Some(name)) => Ok(Value::Chan(Some(name.copy(alloc)?))),
        }
    }
}
