//! Values that are only looked at.
ghost use Rattle.std.specs.Prelude.{◌≡◌, IfOk, OnErr};
ghost use Rattle.gr_base.specs.Values.{IsNamed};
ghost use Rattle.gr_program.specs.TypeViews.{literal_of};
ghost use Rattle.gr_rules.specs.Operands as operands;
ghost use Rattle.gr_eval.specs.Views.{value_of, scalar_value};

use gr_base::{ChName, NoMemory, Value};
use gr_program::Literal;
use std::alloc::Global;

/// A number or a truth value: what operators give.
#[derive(Clone, Copy)]
pub enum Scalar {
    Int(i64),
    Bool(bool),
}

impl Scalar {
    /// The scalar as a value.
    pub fn to_value(self) -> Value
        ensures { result ≡ scalar_value self }
    {
        match self {
            Scalar::Int(n) => Value::Int(n),
            Scalar::Bool(b) => Value::Bool(b),
        }
    }

    /// The scalar as a value that is looked at.
    pub fn to_seen<'a>(self) -> Seen<'a>
        ensures { value_of result ≡ scalar_value self }
    {
        match self {
            Scalar::Int(n) => Seen::Int(n),
            Scalar::Bool(b) => Seen::Bool(b),
        }
    }
}

/// A value whose name, where it is a channel, is lent.
#[derive(Clone, Copy)]
pub enum Seen<'a> {
    Int(i64),
    Bool(bool),
    Unit,
    /// The channel nil.
    Nil,
    Channel(&'a ChName),
}

impl<'a> Seen<'a> {
    /// The value, looked at.
    pub fn of(value: &'a Value) -> Seen<'a>
        ensures { value_of result ≡ value.now }
    {
        match value {
            Value::Int(n) => Seen::Int(*n),
            Value::Bool(b) => Seen::Bool(*b),
            Value::Unit => Seen::Unit,
            Value::Chan(None) => Seen::Nil,
            Value::Chan(Some(name)) => Seen::Channel(name),
        }
    }

    /// The value of the literal.
    pub fn of_literal(literal: Literal) -> Seen<'a>
        ensures { value_of result ≡ operands.value_of (literal_of literal) }
    {
        match literal {
            Literal::Number(n) => Seen::Int(n),
            Literal::Truth(b) => Seen::Bool(b),
            Literal::Empty => Seen::Unit,
            Literal::Nil => Seen::Nil,
        }
    }

    /// The value with a name of its own.
    pub fn to_value(self, alloc: Global) -> Result<Value, NoMemory>
        ensures ok { IfOk result (λ v. v ≡ value_of self.entry) }
        ensures needed { OnErr result (IsNamed (value_of self.entry)) }
    {
        match self {
            Seen::Int(n) => Ok(Value::Int(n)),
            Seen::Bool(b) => Ok(Value::Bool(b)),
            Seen::Unit => Ok(Value::Unit),
            Seen::Nil => Ok(Value::Chan(None)),
            Seen::Channel(name) => Ok(Value::Chan(Some(name.copy(alloc)?))),
        }
    }
}
