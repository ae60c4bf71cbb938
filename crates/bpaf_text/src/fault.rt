//! Why a text gives no value.
use std::alloc::AllocError;

/// Why reading a text gave no value.
#[derive(Debug, Drop)]
pub enum TextFault {
    /// The text has no value of the type, with words for the user.
    Fault(String),
    /// Memory ran out, which says nothing of the text.
    Memory,
}

impl From<AllocError> for TextFault {
    ghost use Rattle.std.specs.Prelude.{◌≡◌};
    ghost use Rattle.bpaf_text.specs.declared.fault.TextFault.TheVariants.{Memory};

    ghost from_gives = { λ _ fault. fault ≡ Memory };

    fn from(_: AllocError) -> TextFault {
        TextFault::Memory
    }
}
