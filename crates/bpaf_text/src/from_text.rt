//! The types that are read off a text.
ghost use Rattle.std.specs.Prelude.{◌≡◌, ℕ, List, MatchResult, Ok, IsErr, ⊤, string_bytes};
ghost use Rattle.bpaf_text.specs.declared.fault.TextFault.TheVariants.{Fault, Memory};
ghost use Rattle.std.specs.Int.{w8, w16, w32, w64, w128};
ghost use Rattle.bpaf_text.specs.Meaning.{ReadsText};
ghost use Rattle.bpaf_text.specs.Meaning.{SpellsUnsigned, SpellsSigned, SpellsBool, SpellsChar};

use crate::fault::TextFault;
use bpaf_doc::Text;
use std::alloc::Global;

/// A type whose values are read from words of the command line.
///
/// It stands for bpaf's bound `FromStr` (`from_os_str.rs`), and says more: `means` is the relation
/// between a text and the values that it stands for, and `from_text` gives one of them, or a fault
/// only where the text has none. So an implementation can refuse no text that has a value.
///
/// A type of your own states in `means` what its words are, and matches on the text:
///
/// ```text
/// impl FromText for Level {
///     ghost means = { λ text level.
///         elim level [ Low ↦ text ≡ codes "low" | High ↦ text ≡ codes "high" ] };
///
///     fn from_text(alloc: Global, text: &str) -> Result<Level, TextFault> {
///         match text {
///             "low" => Ok(Level::Low),
///             "high" => Ok(Level::High),
///             _ => Err(TextFault::Fault(String::from_str(alloc, "neither low nor high")?)),
///         }
///     }
/// }
/// ```
pub trait FromText: Sized {
    /// Which values a text means.
    ghost means: { List ℕ → Self → Type 0 };

    /// A value that the text means; `Fault` where it means none, `Memory` where memory ran out.
    fn from_text(alloc: Global, text: &str) -> Result<Self, TextFault>
        ensures { ReadsText means text.now result };
}

/// What a user reads of a text that is no number of the wanted type.
const NO_NUMBER: &str = "not a whole number in range";

/// What was parsed; of a text that couldn't be, these words for the user.
fn parsed_or<T: Drop, E: Drop>(
    alloc: Global,
    parsed: Result<T, E>,
    words: &str,
) -> Result<T, TextFault>
    ensures { MatchResult result (λ value. parsed ≡ Ok value) (λ fault.
        elim fault [
          | Fault message ↦ IsErr parsed × (string_bytes message ≡ words.now)
          | Memory ↦ ⊤
        ]) }
{
    match parsed {
        Ok(value) => Ok(value),
        Err(_) => Err(TextFault::Fault(String::from_str(alloc, words)?)),
    }
}

/// An optional `+` and one or more digits, in the range of the type.
impl FromText for u8 {
    ghost means = { SpellsUnsigned 8 };

    fn from_text(alloc: Global, text: &str) -> Result<u8, TextFault> {
        parsed_or(alloc, text.parse::<u8>(), NO_NUMBER)
    }
}

/// An optional `+` and one or more digits, in the range of the type.
impl FromText for u16 {
    ghost means = { SpellsUnsigned 16 };

    fn from_text(alloc: Global, text: &str) -> Result<u16, TextFault> {
        parsed_or(alloc, text.parse::<u16>(), NO_NUMBER)
    }
}

/// An optional `+` and one or more digits, in the range of the type.
impl FromText for u32 {
    ghost means = { SpellsUnsigned 32 };

    fn from_text(alloc: Global, text: &str) -> Result<u32, TextFault> {
        parsed_or(alloc, text.parse::<u32>(), NO_NUMBER)
    }
}

/// An optional `+` and one or more digits, in the range of the type.
impl FromText for u64 {
    ghost means = { SpellsUnsigned 64 };

    fn from_text(alloc: Global, text: &str) -> Result<u64, TextFault> {
        parsed_or(alloc, text.parse::<u64>(), NO_NUMBER)
    }
}

/// An optional `+` and one or more digits, in the range of the type.
impl FromText for u128 {
    ghost means = { SpellsUnsigned 128 };

    fn from_text(alloc: Global, text: &str) -> Result<u128, TextFault> {
        parsed_or(alloc, text.parse::<u128>(), NO_NUMBER)
    }
}

/// An optional `+` and one or more digits, in the range of the type.
impl FromText for usize {
    ghost means = { SpellsUnsigned 64 };

    fn from_text(alloc: Global, text: &str) -> Result<usize, TextFault> {
        parsed_or(alloc, text.parse::<usize>(), NO_NUMBER)
    }
}

/// An optional `+` or `-` and one or more digits, in the range of the type.
impl FromText for i8 {
    ghost means = { SpellsSigned w8 };

    fn from_text(alloc: Global, text: &str) -> Result<i8, TextFault> {
        parsed_or(alloc, text.parse::<i8>(), NO_NUMBER)
    }
}

/// An optional `+` or `-` and one or more digits, in the range of the type.
impl FromText for i16 {
    ghost means = { SpellsSigned w16 };

    fn from_text(alloc: Global, text: &str) -> Result<i16, TextFault> {
        parsed_or(alloc, text.parse::<i16>(), NO_NUMBER)
    }
}

/// An optional `+` or `-` and one or more digits, in the range of the type.
impl FromText for i32 {
    ghost means = { SpellsSigned w32 };

    fn from_text(alloc: Global, text: &str) -> Result<i32, TextFault> {
        parsed_or(alloc, text.parse::<i32>(), NO_NUMBER)
    }
}

/// An optional `+` or `-` and one or more digits, in the range of the type.
impl FromText for i64 {
    ghost means = { SpellsSigned w64 };

    fn from_text(alloc: Global, text: &str) -> Result<i64, TextFault> {
        parsed_or(alloc, text.parse::<i64>(), NO_NUMBER)
    }
}

/// An optional `+` or `-` and one or more digits, in the range of the type.
impl FromText for i128 {
    ghost means = { SpellsSigned w128 };

    fn from_text(alloc: Global, text: &str) -> Result<i128, TextFault> {
        parsed_or(alloc, text.parse::<i128>(), NO_NUMBER)
    }
}

/// An optional `+` or `-` and one or more digits, in the range of the type.
impl FromText for isize {
    ghost means = { SpellsSigned w64 };

    fn from_text(alloc: Global, text: &str) -> Result<isize, TextFault> {
        parsed_or(alloc, text.parse::<isize>(), NO_NUMBER)
    }
}

/// The word `true` or the word `false`, in these letters alone.
impl FromText for bool {
    ghost means = { SpellsBool };

    fn from_text(alloc: Global, text: &str) -> Result<bool, TextFault> {
        parsed_or(alloc, text.parse::<bool>(), "neither true nor false")
    }
}

/// One character and nothing else.
impl FromText for char {
    ghost means = { SpellsChar };

    fn from_text(alloc: Global, text: &str) -> Result<char, TextFault> {
        parsed_or(alloc, text.parse::<char>(), "not one character")
    }
}

/// Any text, as it stands. It has no fault.
impl FromText for String {
    ghost means = { λ text value. string_bytes value ≡ text };

    fn from_text(alloc: Global, text: &str) -> Result<String, TextFault> {
        Ok(String::from_str(alloc, text)?)
    }
}

/// Any text, as it stands; one of at most 23 bytes takes no memory. It has no fault.
impl FromText for Text {
    ghost means = { λ text value. value ≡ text };

    fn from_text(alloc: Global, text: &str) -> Result<Text, TextFault> {
        Ok(Text::new(alloc, text)?)
    }
}
