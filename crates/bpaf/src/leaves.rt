//! Parsers with no parser inside: those that look at no item, and words by themselves.
pub mod any;
pub mod appname;
pub mod literal;
mod look;
pub mod positional;
pub mod pure;
