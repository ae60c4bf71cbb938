//! The parsers of one option (bpaf's module `params`).
pub use crate::leaves::any::ParseAny;
pub use crate::leaves::literal::ParseLiteral;
pub use crate::leaves::positional::ParsePositional;
pub use bpaf_core::ParseCommand;
pub use bpaf_text::{NamedArg, ParseArgument, ParseFlag};
