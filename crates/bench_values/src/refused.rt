//! What memory is never had for: it is read off no text, and cloned nowhere.
use crate::value::{Told, Value};
use bpaf_text::{FromText, TextFault};
use std::alloc::{AllocError, Global};

/// A value that no clone is made of, and that no text is read as: memory is wanted each time.
#[derive(Drop)]
pub struct Refused;

impl Clone for Refused {
    ghost is_clone = { λ _ _. ⊥ };

    fn clone(&self) -> Result<Refused, AllocError> {
        Err(AllocError)
    }
}

/// Want of memory, whatever the text.
impl FromText for Refused {
    ghost means = { λ _ _. ⊥ };

    fn from_text(_alloc: Global, _text: &str) -> Result<Refused, TextFault> {
        Err(TextFault::Memory)
    }
}

impl Told for Refused {
    ghost use Rattle.std.specs.Prelude.{◌≡◌};
    ghost use Rattle.bench_values.specs.declared.value.Value.TheVariants as value;

    ghost told = { λ x v. v ≡ value.Refused x };

    fn into_value(self, _alloc: Global) -> Result<Value, AllocError> {
        Ok(Value::Refused(self))
    }
}
