//! Types of one's own that are read from a word, or filled from a list of values.
ghost use Rattle.std.specs.Prelude.{codes};

use bpaf::{FromList, FromText, TextFault};
use std::alloc::{AllocError, Global};

/// How much is told.
#[derive(Clone, Copy, Debug)]
pub enum Level {
    Low,
    High,
}

/// The words `low` and `high`.
impl FromText for Level {
    ghost use Rattle.std.specs.Prelude.{◌≡◌};
    ghost use Rattle.example_guide.specs.declared.types.Level.TheVariants.{Low, High};

    ghost means = { λ text level.
        elim level [ Low ↦ text ≡ codes "low" | High ↦ text ≡ codes "high" ] };

    fn from_text(alloc: Global, text: &str) -> Result<Level, TextFault> {
        match text {
            "low" => Ok(Level::Low),
            "high" => Ok(Level::High),
            _ => Err(TextFault::Fault(String::from_str(alloc, "neither low nor high")?)),
        }
    }
}

/// The numbers of a line, in order.
#[derive(Drop)]
pub struct Numbers(pub Vec<u64>);

/// The numbers as they come.
impl FromList<u64> for Numbers {
    ghost use Rattle.std.specs.Prelude.{◌≡◌, IfOk};

    ghost fills = { λ items numbers. numbers.0.items ≡ items };

    fn from_list(items: Vec<u64>) -> Result<Numbers, AllocError>
        ensures { IfOk result (λ numbers. numbers.0.items ≡ items.items) }
    {
        Ok(Numbers(items))
    }
}
