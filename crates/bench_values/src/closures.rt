//! The closures that descriptions may name.
ghost use Rattle.std.specs.Prelude.{◌≡◌, IfErr, codes, is_ok};
ghost use Rattle.bench_values.specs.Modifiers.{Accepts, AnswersNumber, IsHalf};

use crate::value::Value;

/// A number halved, a bool negated, all else as it is.
pub fn half(value: Value) -> Value
    ensures { IsHalf value result }
{
    match value {
        Value::Number(number) => Value::Number(number / 2),
        Value::Bool(truth) => Value::Bool(!truth),
        other => other,
    }
}

/// The value, if it is light; else a fault.
pub fn accept(light: bool, value: Value) -> Result<Value, &'static str>
    ensures value { Accepts value result }
    ensures decided { is_ok result ≡ light }
    ensures fault { IfErr result (λ told. told.now ≡ codes "too big") }
{
    if light { Ok(value) } else { Err("too big") }
}

/// A number as a value; without one the fault.
pub fn give(number: Option<u64>, fault: &'static str) -> Result<Value, &'static str>
    ensures number { AnswersNumber number result }
    ensures fault { IfErr result (λ told. told.now ≡ fault.now) }
{
    match number {
        Some(number) => Ok(Value::Number(number)),
        None => Err(fault),
    }
}
