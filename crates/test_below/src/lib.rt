//! The rows of what stands below the parsers, as tests: documents, help pages, values and keys;
//! lines, states and refusals.
//!
//! It stands on `bpaf_messages`, `bpaf_keys`, `test_support` and what is below them, so the
//! gate runs it while the layers above are proved. Nothing stands on this crate: one with tests is
//! proved twice. docs/ROWS.md names each row and its test.
#![tactic(auto)]

#[cfg(test)]
mod calls;
#[cfg(test)]
mod documents;
#[cfg(test)]
mod failures;
#[cfg(test)]
mod help_pages;
#[cfg(test)]
mod lines;
#[cfg(test)]
mod messages;
#[cfg(test)]
mod sources;
#[cfg(test)]
mod trees;
#[cfg(test)]
mod values;
