//! The values that described parsers give.
ghost use Rattle.std.specs.Prelude.{◌≡◌, IfOk, []};
ghost use Rattle.bench_values.specs.Modifiers.{IsTupleOf, ToldOption, ToldPair, ToldQuadruple};
ghost use Rattle.bench_values.specs.Modifiers.{ToldQueue, ToldTriple};
ghost use Rattle.bench_values.specs.declared.value.Value.TheVariants as value;

use crate::refused::Refused;
use std::alloc::{AllocError, Global};
use std::collections::VecDeque;

/// What a described parser answers: the values of all parsers, as one type.
#[derive(Clone, Drop)]
pub enum Value {
    /// Of a switch.
    Bool(bool),
    /// Of a flag, an argument or a word that is a number; and of a count.
    Number(u64),
    /// Of an argument that is a number with a sign.
    Integer(i64),
    /// Of an argument or a word that is a text.
    Text(String),
    /// What isn't there.
    Absent,
    /// What may not be there, and is.
    Present(Box<Value>),
    /// The values of a repeat.
    List(Vec<Value>),
    /// The values of a product.
    Tuple(Vec<Value>),
    /// What no clone is made of.
    Refused(Refused),
}

/// What is told as a [`Value`].
pub trait Told: Sized {
    ghost use Rattle.bench_values.specs.declared.value.Value.{Value};

    /// Which value it is told as.
    ghost told: { Self → Value → Type 0 };

    /// It as a value; refused only for want of memory.
    fn into_value(self, alloc: Global) -> Result<Value, AllocError>
        ensures { IfOk result (told self) };
}

impl Told for bool {
    ghost told = { λ x v. v ≡ value.Bool x };

    fn into_value(self, _alloc: Global) -> Result<Value, AllocError> {
        Ok(Value::Bool(self))
    }
}

impl Told for u64 {
    ghost told = { λ x v. v ≡ value.Number x };

    fn into_value(self, _alloc: Global) -> Result<Value, AllocError> {
        Ok(Value::Number(self))
    }
}

impl Told for usize {
    ghost told = { λ x v. v ≡ value.Number x };

    fn into_value(self, _alloc: Global) -> Result<Value, AllocError> {
        Ok(Value::Number(self as u64))
    }
}

impl Told for i64 {
    ghost told = { λ x v. v ≡ value.Integer x };

    fn into_value(self, _alloc: Global) -> Result<Value, AllocError> {
        Ok(Value::Integer(self))
    }
}

impl Told for String {
    ghost told = { λ x v. v ≡ value.Text x };

    fn into_value(self, _alloc: Global) -> Result<Value, AllocError> {
        Ok(Value::Text(self))
    }
}

/// No values, as a tuple.
impl Told for () {
    ghost told = { λ _ v. IsTupleOf [] v };

    fn into_value(self, alloc: Global) -> Result<Value, AllocError> {
        Ok(Value::Tuple(Vec::new(alloc)))
    }
}

impl Told for Vec<Value> {
    ghost told = { λ x v. v ≡ value.List x };

    fn into_value(self, _alloc: Global) -> Result<Value, AllocError> {
        Ok(Value::List(self))
    }
}

impl Told for Option<Value> {
    ghost told = { ToldOption };

    fn into_value(self, alloc: Global) -> Result<Value, AllocError> {
        match self {
            Some(value) => Ok(Value::Present(Box::new(alloc, value)?)),
            None => Ok(Value::Absent),
        }
    }
}

impl Told for VecDeque<Value> {
    ghost told = { ToldQueue };

    fn into_value(self, _alloc: Global) -> Result<Value, AllocError> {
        Ok(Value::List(Vec::from(self)))
    }
}

impl Told for (Value, Value) {
    ghost told = { ToldPair };

    fn into_value(self, alloc: Global) -> Result<Value, AllocError> {
        let (a, b) = self;
        Ok(Value::Tuple(vec![in alloc; a, b]?))
    }
}

impl Told for (Value, (Value, Value)) {
    ghost told = { ToldTriple };

    fn into_value(self, alloc: Global) -> Result<Value, AllocError> {
        let (a, (b, c)) = self;
        Ok(Value::Tuple(vec![in alloc; a, b, c]?))
    }
}

impl Told for (Value, (Value, (Value, Value))) {
    ghost told = { ToldQuadruple };

    fn into_value(self, alloc: Global) -> Result<Value, AllocError> {
        let (a, (b, (c, d))) = self;
        Ok(Value::Tuple(vec![in alloc; a, b, c, d]?))
    }
}

impl Value {
    /// Appends it as text; refused only for want of memory.
    #[cycle(print)]
    pub fn print(&self, out: &mut String) -> Result<(), AllocError> {
        match self {
            Value::Bool(truth) => write!(out, "{truth}"),
            Value::Number(number) => write!(out, "{number}"),
            Value::Integer(number) => write!(out, "i{number}"),
            Value::Text(text) => write!(out, "'{text}'"),
            Value::Absent => out.push_str("None"),
            Value::Present(value) => {
                out.push_str("Some(")?;
                value.print(out)?;
                out.push(')')
            }
            Value::List(values) => {
                out.push('[')?;
                print_all(values.as_slice(), out)?;
                out.push(']')
            }
            Value::Tuple(values) => {
                out.push('(')?;
                print_all(values.as_slice(), out)?;
                out.push(')')
            }
            Value::Refused(_) => out.push_str("refused"),
        }
    }

    /// Its weight: a number itself, without its sign; 1 or 0 of a bool; the bytes of a text; and
    /// the sum of what is inside.
    #[cycle(weight)]
    pub fn weight(&self) -> u64 {
        match self {
            Value::Bool(truth) => u64::from(*truth),
            Value::Number(number) => *number,
            Value::Integer(number) => number.unsigned_abs(),
            Value::Text(text) => text.len() as u64,
            Value::Absent | Value::Refused(_) => 0,
            Value::Present(value) => value.weight(),
            Value::List(values) | Value::Tuple(values) => weight_of_all(values.as_slice()),
        }
    }
}

/// Appends values, with commas between them.
#[cycle(print)]
fn print_all(values: &[Value], out: &mut String) -> Result<(), AllocError> {
    let mut first = true;
    for value in values {
        if !first {
            out.push(',')?;
        }
        first = false;
        value.print(out)?;
    }
    Ok(())
}

/// The weights of values together.
#[cycle(weight)]
fn weight_of_all(values: &[Value]) -> u64 {
    let mut sum = 0u64;
    for value in values {
        sum = sum.saturating_add(value.weight());
    }
    sum
}
