//! Defaults as a help page shows them.
ghost use Rattle.std.specs.{Prelude.IfOk, Prelude.◌≡◌, Fn.FnReturnsAt};
ghost use Rattle.bpaf_doc.specs.Print.{text_pieces};
ghost use Rattle.bpaf_doc.specs.Default.{IsDefault, IsFormatted, default_text};

use crate::doc::Doc;
use std::alloc::{AllocError, Global};
use std::fmt::{Debug, Display};

/// The text of a default, as it is shown; refused only for want of memory.
fn shown_default(alloc: Global, value: &str) -> Result<Doc, AllocError>
    ensures { IfOk result (λ doc. doc ≡ text_pieces (default_text value.now)) }
{
    let text = format!(in alloc; "[default: {value}]")?;
    Doc::from_text(alloc, text.as_str())
}

/// The text of a default, as Display prints it; refused only for want of memory.
pub fn displayed<T: Display>(alloc: Global, value: &T) -> Result<Doc, AllocError>
    ensures { IfOk result (IsDefault (T.output value.now)) }
{
    let text = value.to_string(alloc)?;
    shown_default(alloc, text.as_str())
}

/// The text of a default, as Debug prints it; refused only for want of memory.
pub fn debugged<T: Debug>(alloc: Global, value: &T) -> Result<Doc, AllocError>
    ensures { IfOk result (IsDefault (T.debug_output value.now)) }
{
    let text = format!(in alloc; "{value:?}")?;
    shown_default(alloc, text.as_str())
}

/// The text of a default, as a closure writes it; refused only for want of memory.
pub fn formatted<T, F: Fn(&T) -> Result<String, AllocError>>(
    alloc: Global,
    format: &F,
    value: &T,
) -> Result<Doc, AllocError>
    requires callable { F.IsAlwaysCallable format.now }
    ensures { IfOk result (IsFormatted (FnReturnsAt F.Fn format.now) value.now) }
{
    let text = format(value)?;
    Ok(shown_default(alloc, text.as_str())?)
}
