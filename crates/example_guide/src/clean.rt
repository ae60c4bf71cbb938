//! A program with commands, of which it is proved that it removes nothing unless its key in front
//! of the commands was spelled and the command's word stands there.
ghost use Rattle.std.specs.Prelude.{◌≡◌, [], ◌∷◌, true, IfOk, codes, map, string_bytes};
ghost use Rattle.bpaf_record.specs.Record.{WasCalled, WasSpelled};
ghost use Rattle.example_guide.specs.{Clean.IsRemoval, Clean.cleaning_known, Remove.force_names};

use bpaf::{Args, ParseFailure, Parser, construct, key, positional, short_key};
use bpaf_program::plain_command;
use bpaf_record::CommandLine;
use std::alloc::Global;

/// A task, and whether it is forced.
#[derive(Debug, Drop)]
pub struct Cleaning {
    pub force: bool,
    pub task: Task,
}

/// What is to be done.
#[derive(Debug, Drop)]
pub enum Task {
    /// All files are listed.
    List { long: bool },
    /// These files are removed.
    Remove { files: Vec<String> },
}

/// The task that the words give, as `list -l`, or `remove FILE`, with `-f` wherever it stands. It
/// is forced only where one of the words before the first `--` spells `-f` or `--force`, and files
/// are removed only where one is `remove`.
pub fn read_cleaning(alloc: Global, words: &[String]) -> Result<Cleaning, ParseFailure>
    ensures forced { IfOk result (λ cleaning.
        cleaning.force ≡ true → WasSpelled cleaning_known force_names (map string_bytes words.now)) }
    ensures called { IfOk result (λ cleaning. IsRemoval cleaning.task
        → WasCalled cleaning_known (codes "remove" ∷ []) (map string_bytes words.now)) }
{
    let long = short_key(alloc, 'l').switch();
    let list = plain_command(alloc, "list", construct!(Task::List { long }));
    let files = positional::<String>("FILE").many();
    let remove = plain_command(alloc, "remove", construct!(Task::Remove { files }));
    let task = construct!([list, remove]);
    let force = key(alloc, 'f', "force").switch();
    let options = construct!(Cleaning { force, task }).into_options(alloc);
    options.run_program(Args::from(words).set_name("clean"))
}
