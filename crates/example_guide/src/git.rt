//! A program with commands, each in a function of its own that answers its parser.
use bpaf::params::{ParseArgument, ParseFlag, ParsePositional};
use bpaf::parsers::{ParseCommand, ParseOptional};
use bpaf::{Args, ParseFailure, ParseTuple2, Parser, construct, positional, short_key};
use bpaf_program::plain_command;
use std::alloc::Global;

/// A command, and whether each step of it is told.
#[derive(Debug, Drop)]
pub struct Git {
    pub verbose: bool,
    pub command: Command,
}

/// A command, with its options and words.
#[derive(Debug, Drop)]
pub enum Command {
    Clone { url: String, dir: Option<String> },
    Commit { all: bool, message: String },
    Remote(Remote),
}

/// A command of the command `remote`.
#[derive(Debug, Drop)]
pub enum Remote {
    Add { name: String, url: String },
    Remove { name: String },
}

type Word = ParsePositional<String>;

type CloneWords = ParseTuple2<String, Option<String>, Word, ParseOptional<Word>>;

type CommitOptions = ParseTuple2<bool, String, ParseFlag<bool>, ParseArgument<String>>;

type AddWords = ParseTuple2<String, String, Word, Word>;

/// `clone URL [DIR]`.
fn clone(alloc: Global) -> ParseCommand<(String, Option<String>), CloneWords> {
    let url = positional::<String>("URL");
    let dir = positional::<String>("DIR").optional();
    plain_command(alloc, "clone", construct!(url, dir))
}

/// `commit [-a] -m MSG`.
fn commit(alloc: Global) -> ParseCommand<(bool, String), CommitOptions> {
    let all = short_key(alloc, 'a').switch();
    let message = short_key(alloc, 'm').argument::<String>("MSG");
    plain_command(alloc, "commit", construct!(all, message))
}

/// `add NAME URL`, a command of `remote`.
fn add(alloc: Global) -> ParseCommand<(String, String), AddWords> {
    let name = positional::<String>("NAME");
    let url = positional::<String>("URL");
    plain_command(alloc, "add", construct!(name, url))
}

/// `remove NAME`, a command of `remote`.
fn remove(alloc: Global) -> ParseCommand<String, Word> {
    plain_command(alloc, "remove", positional::<String>("NAME"))
}

/// The command that the words give, as `-v clone URL`; refused where they give none, or for want of
/// memory.
pub fn read_git(alloc: Global, words: &[String]) -> Result<Git, ParseFailure> {
    let add = add(alloc).map(|(name, url)| Remote::Add { name, url });
    let remove = remove(alloc).map(|name| Remote::Remove { name });
    let remote = plain_command(alloc, "remote", construct!([add, remove])).map(Command::Remote);
    let clone = clone(alloc).map(|(url, dir)| Command::Clone { url, dir });
    let commit = commit(alloc).map(|(all, message)| Command::Commit { all, message });
    let command = construct!([clone, commit, remote]);
    let verbose = short_key(alloc, 'v').switch();
    let git = construct!(Git { verbose, command });
    git.run_once(alloc, Args::from(words).set_name("git"))
}
