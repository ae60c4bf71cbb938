//! What texts are made of (bpaf's module `doc`).
pub use bpaf_doc::{Doc, Help, MetaInfo, Style};
