//! The rows of what stands above `bpaf`, as tests: of flat records their values, and which options
//! are none; how runs of records and programs end over two writers; of batteries, and of the
//! program `bpaf_demo`. Rows of programs stand in `test_programs`.
//!
//! It stands on `bpaf_program`, `bpaf_record`, `bpaf_batteries`, `bpaf`, `example_demo` and
//! `test_support`. Nothing stands on this crate: one with tests is proved twice. docs/ROWS.md names
//! each row and its test.
#![tactic(auto)]

#[cfg(test)]
mod batteries;
#[cfg(test)]
mod command_ends;
#[cfg(test)]
mod demo;
#[cfg(test)]
mod ends;
#[cfg(test)]
mod not_flat;
#[cfg(test)]
mod numbers;
#[cfg(test)]
mod record_rows;
