//! The rows of programs with commands and named parts, as tests: their values, and which options
//! are no program.
//!
//! It stands on `bpaf_program`, `bpaf_record`, `bpaf` and `test_support`. Nothing stands on this
//! crate: one with tests is proved twice. docs/ROWS.md names each row and its test.
#![tactic(auto)]

#[cfg(test)]
mod known_rows;
#[cfg(test)]
mod last_rows;
#[cfg(test)]
mod not_programs;
#[cfg(test)]
mod part_rows;
#[cfg(test)]
mod program_rows;
#[cfg(test)]
mod variable_rows;
