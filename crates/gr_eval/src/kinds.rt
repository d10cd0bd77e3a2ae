//! Values of one kind.
ghost use Rattle.std.specs.Prelude.{◌≡◌, ◌≢◌};
ghost use Rattle.gr_rules.specs.Outcomes.{gives, wrong};
ghost use Rattle.gr_rules.specs.Deeds as rules;

use gr_base::{ChName, Value};

/// The number that the value is.
pub fn as_int(value: Value) -> i64
    requires { rules.as_int value ≢ wrong }
    ensures { rules.as_int value ≡ gives result }
{
    match value {
        Value::Int(n) => n,
        _ => unreachable!(),
    }
}

/// The truth value that the value is.
pub fn as_truth(value: Value) -> bool
    requires { rules.as_truth value ≢ wrong }
    ensures { rules.as_truth value ≡ gives result }
{
    match value {
        Value::Bool(b) => b,
        _ => unreachable!(),
    }
}

/// The channel that the value is, or nil.
pub fn as_channel(value: Value) -> Option<ChName>
    requires { rules.as_channel value ≢ wrong }
    ensures { rules.as_channel value ≡ gives result }
{
    match value {
        Value::Chan(channel) => channel,
        _ => unreachable!(),
    }
}
