//! The parser types (bpaf's module `parsers`).
pub use crate::adjacent::ParseAdjacent;
pub use crate::cargo::CargoHelper;
pub use crate::choices::ParseChoice;
pub use crate::leaves::any::ParseAny;
pub use crate::leaves::appname::ParseAppname;
pub use crate::leaves::literal::ParseLiteral;
pub use crate::leaves::positional::ParsePositional;
pub use crate::leaves::pure::{ParseFail, ParsePure, ParsePureWith};
pub use crate::product::ParseCon;
pub use bpaf_core::{
    CommandNames, ParseCollect, ParseCommand, ParseCount, ParseFallback, ParseFallbackWith,
    ParseGroupHelp, ParseGuard, ParseHide, ParseLast, ParseMany, ParseMap, ParseOptional,
    ParseOrElse, ParseSome, ParseUsage, ParseWith, ParseWithGroupHelp,
};
pub use bpaf_text::{NamedArg, ParseArgument, ParseFlag};
