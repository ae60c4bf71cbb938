//! The options of the program.
ghost use Rattle.std.specs.Prelude.{◌≤◌, length, map, string_bytes};
ghost use Rattle.bpaf_program.specs.KnownParser.{IsKnownParser};
ghost use Rattle.example_notes.specs.Notes.{AnswersNotes, add_command, list_command, name_command};
ghost use Rattle.example_notes.specs.Notes.{notes_parser};

use bpaf::params::{ParseArgument, ParsePositional};
use bpaf::parsers::{ParseCommand, ParseFallback, ParseMany};
use bpaf::{Args, ParseFailure, ParseTuple2, Parser, construct, key, positional};
use bpaf_program::{KnownOptions, KnownProgram, plain_command};
use bpaf_record::CommandLine;
use std::alloc::Global;

/// What the program is asked for.
#[derive(Drop)]
pub struct Notes {
    pub verbose: bool,
    pub dir: Option<String>,
    pub task: Task,
}

/// What is to be done with notes.
#[derive(Drop)]
pub enum Task {
    /// A note with these tags and words is added.
    Add {
        tags: Vec<String>,
        texts: Vec<String>,
    },
    /// So many notes are listed.
    List {
        max: u64,
    },
    /// A tag is added or removed.
    Tag(Tag),
}

/// What is to be done with a tag of this name.
#[derive(Drop)]
pub enum Tag {
    Add { name: String },
    Remove { name: String },
}

/// What is known of the program: of what its parser is made, and that this is a program.
#[derive(Drop)]
struct NotesProgram {}

impl KnownProgram<Notes> for NotesProgram {
    ghost use Rattle.std.specs.Prelude.{refl};

    ghost grammar = { notes_parser };

    ghost whole = { λ variables. refl };
}

/// Tags, each behind its key, and words.
type Texts = (Vec<String>, Vec<String>);

type AddTexts = ParseTuple2<
    Vec<String>,
    Vec<String>,
    ParseMany<ParseArgument<String>>,
    ParseMany<ParsePositional<String>>,
>;

type AddCommand = ParseCommand<Texts, AddTexts>;

type ListCommand = ParseCommand<u64, ParseFallback<ParseArgument<u64>, u64>>;

type NameCommand = ParseCommand<String, ParsePositional<String>>;

/// `add [-t TAG].. [TEXT]..`.
fn add(alloc: Global) -> AddCommand
    ensures { IsKnownParser add_command
        (⟦<AddCommand as Parser<Texts>>⟧.grammar result) }
{
    let tags = key(alloc, 't', "tag").argument::<String>("TAG").many();
    let texts = positional::<String>("TEXT").many();
    plain_command(alloc, "add", construct!(tags, texts))
}

/// `list [-n NUM]`.
fn list(alloc: Global) -> ListCommand
    ensures { IsKnownParser list_command
        (⟦<ListCommand as Parser<u64>>⟧.grammar result) }
{
    let max = key(alloc, 'n', "max").argument::<u64>("NUM").fallback(10);
    plain_command(alloc, "list", max)
}

/// This word and `NAME`.
fn named(alloc: Global, word: &str) -> NameCommand
    requires { length word.now ≤ 23 }
    ensures { IsKnownParser (name_command word.now)
        (⟦<NameCommand as Parser<String>>⟧.grammar result) }
{
    plain_command(alloc, word, positional::<String>("NAME"))
}

/// What the words ask for; refused where they ask for nothing, or for want of memory. The options
/// are a program with commands, so each answer is exact.
pub fn read_notes(alloc: Global, words: &[String]) -> Result<Notes, ParseFailure>
    ensures { AnswersNotes (map string_bytes words.now) result }
{
    let add_tag = named(alloc, "add").map(|name| Tag::Add { name });
    let remove_tag = named(alloc, "remove").map(|name| Tag::Remove { name });
    let tag = plain_command(alloc, "tag", construct!([add_tag, remove_tag])).map(Task::Tag);
    let list = list(alloc).map(|max| Task::List { max });
    let add = add(alloc).map(|(tags, texts)| Task::Add { tags, texts });
    let others = construct!([list, tag]);
    let task = construct!([add, others]);
    let verbose = key(alloc, 'v', "verbose").switch();
    let dir = key(alloc, 'd', "dir").argument::<String>("DIR").optional();
    let notes = construct!(Notes { verbose, dir, task });
    let notes = KnownOptions {
        options: notes.into_options(alloc),
        program: NotesProgram {},
    };
    notes.run_program(Args::from(words).set_name("notes"))
}
