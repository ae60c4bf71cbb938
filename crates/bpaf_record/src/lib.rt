//! Flat records and programs with commands: whether options are one, and a run of which each answer
//! is exact.
//!
//! It stands on all crates below and on `bpaf_exact`, whose definitions its contracts cite. For
//! the layers above:
//!
//! - [`ProgramField`] is written for the parsers that may stand in a program: flags, arguments and
//!   positional words, choices, `map`, `parse`, `guard`, `optional`, the repeats, both fallbacks,
//!   `hide`, `hide_usage`, `custom_usage`, `group_help`, `pure`, products, and commands;
//!   [`ProgramFields`] for the fields of a product. Each says of what it is made (`grammar`), by
//!   which definitions tell what it is to a program (`program_form`, specs/Program.antt) and what
//!   its values say (`says`). By the law of that form what it answers and takes depends on what is
//!   its own alone (proofs/FormLaws.antt). A parser that has no [`ProgramField`] stands in no
//!   program: the compiler tells.
//! - [`FlatField`] and [`FlatFields`], marks without members, are written for those that may stand
//!   in a flat record: all but commands, `hide` and `pure`. What such a type is to a flat record
//!   may be told by its value alone: an adjacent argument or a positional word with `strict` is a
//!   field of a program, and of no flat record (`wide`).
//! - Its premise is `agrees`: whether a closure of `parse`, `guard` or `fallback_with` accepts
//!   depends on the pieces alone, round groups and commands on what is present. `map` and
//!   constructors need none, nor do kept values and `from_text`.
//! - [`Record::is_record`] tells, without memory, whether options are a flat record, exactly as
//!   `is_flat_record` says (specs/Record.antt): at most one repeat or default in a field, choices
//!   not empty and without `take_last`, positional words last, no `strict`, `non_strict`, `catch`,
//!   `adjacent` or name in the environment, nothing round a product and none inside a field, and no
//!   name shared with another field, help or version.
//! - [`CommandLine::is_program`] tells, without memory, whether options are a program: a flat
//!   record, or named fields and parts and then words or commands (`is_whole_program`,
//!   specs/Record.antt). [`CommandLine::run_program`] runs such options as `run_inner` does, and
//!   each answer is exact (`AnswersAsProgram`): a value comes only where it is one of the program
//!   on the words' line, and where the program has a value there no other answer comes, but for
//!   want of memory.
//! - Its clause `fields` says of each value what its fields say, each of the pieces of the line
//!   that are its own, whatever the others are, and which command's word stands there
//!   (`TellsOfWords`): each step of the grammar says so by what the parsers inside say (`says`).
//!   Lemmas of proofs/Answered.antt tell it of the words.
//! - [`Record::run_record`] is that run of a flat record, of which it says more (`AnswersByFields`,
//!   specs/Record.antt): where each field has a value no other answer than one of the record's
//!   comes, but for want of memory, and where one has none no value does. The line of each value is
//!   whole (`HasWholeLine`): a key of nobody or a value behind a flag's key is refused, and no
//!   positional field gets a value that belongs to a key. A flag, an argument without `take_last`
//!   and a choice with all its keys stand there once at most, unless they are repeated, and there
//!   are no more words than positional fields, unless one of these is.
//!
//! bpaf has no such calls.
#![tactic(auto)]

mod choices;
mod closures;
mod command_line;
mod commands;
mod defaults;
mod field;
mod four;
mod keys;
mod leaves;
mod part;
mod product;
mod record;
mod repeats;
mod shown;
mod usual;
mod words;

pub use command_line::CommandLine;
pub use field::{FlatField, FlatFields, ProgramField, ProgramFields};
pub use keys::KeyTest;
pub use part::{Kind, ProgramPart};
pub use record::Record;
pub use words::WordTest;
