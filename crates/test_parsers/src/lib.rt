//! The worked rows that the bench can't say, as tests of parsers as their users write them.
//!
//! A row of a parser that can be described stands in the data of `bench`, where it costs no proof.
//! Here stand each form of `construct!`, types and closures of a caller's own, which no described
//! parser reaches, texts that a parser shows, what a run is asked for beside its value, and the
//! laws. Nothing stands on this crate: one with tests is proved twice. docs/ROWS.md names each row
//! and its test.
#![tactic(auto)]

#[cfg(test)]
mod asked;
#[cfg(test)]
mod choices;
#[cfg(test)]
mod combinators;
#[cfg(test)]
mod commands;
#[cfg(test)]
mod counting;
#[cfg(test)]
mod defaults;
#[cfg(test)]
mod forms;
#[cfg(test)]
mod groups;
#[cfg(test)]
mod items;
#[cfg(test)]
mod large;
#[cfg(test)]
mod laws;
#[cfg(test)]
mod names;
#[cfg(test)]
mod numbers;
#[cfg(test)]
mod pages;
#[cfg(test)]
mod shared;
#[cfg(test)]
mod texts;
#[cfg(test)]
mod wrappers;
