//! Usual shapes of command lines.
use bpaf::params::{ParseFlag, ParsePositional};
use bpaf::{Args, ParseFailure, ParseTuple2, Parser, construct, long_key, positional, short_key};
use bpaf_program::plain_command;
use bpaf_record::CommandLine;
use std::alloc::Global;

/// A command of the command `remote`.
#[derive(Debug, Drop)]
pub enum Remote {
    Add(String, String),
    Remove(String),
}

/// A switch in front of the command `remote`, which has commands.
pub fn read_remote(alloc: Global, words: &[&str]) -> Result<(bool, Remote), ParseFailure> {
    let name = positional::<String>("NAME");
    let url = positional::<String>("URL");
    let add = plain_command(alloc, "add", construct!(Remote::Add(name, url)));
    let name = positional::<String>("NAME");
    let remove = plain_command(alloc, "remove", construct!(Remote::Remove(name)));
    let remote = plain_command(alloc, "remote", construct!([add, remove]));
    let verbose = short_key(alloc, 'v').switch();
    let options = construct!(verbose, remote).into_options(alloc);
    options.run_once(Args::from(words))
}

/// A place: a name, perhaps with a branch.
pub type Place = (String, Option<String>);

/// A word that needs the one before it.
pub fn read_place(alloc: Global, words: &[&str]) -> Result<Option<Place>, ParseFailure> {
    let remote = positional::<String>("REMOTE");
    let branch = positional::<String>("BRANCH").optional();
    let place = construct!(remote, branch).optional();
    place.run_once(alloc, Args::from(words))
}

/// A pattern and the files where it is looked for.
pub type Search = (String, Vec<String>);

/// A word unless there is a key.
pub fn read_search(alloc: Global, words: &[&str]) -> Result<Search, ParseFailure> {
    let pattern = short_key(alloc, 'e').argument::<String>("PATTERN");
    let files = positional::<String>("FILE").many();
    let by_key = construct!(pattern, files);
    let pattern = positional::<String>("PATTERN");
    let files = positional::<String>("FILE").many();
    let by_word = construct!(pattern, files);
    let search = construct!([by_key, by_word]);
    search.run_once(alloc, Args::from(words))
}

/// A name and its password.
pub type Login = (String, String);

/// Two options that go together, or neither.
pub fn read_login(alloc: Global, words: &[&str]) -> Result<Option<Login>, ParseFailure> {
    let user = long_key(alloc, "user").argument::<String>("USER");
    let password = long_key(alloc, "password").argument::<String>("TEXT");
    let login = construct!(user, password).optional();
    login.into_options(alloc).run_program(Args::from(words))
}

/// Two options of which one bounds the other.
pub fn read_range(alloc: Global, words: &[&str]) -> Result<(u64, u64), ParseFailure> {
    let from = long_key(alloc, "from").argument::<u64>("N");
    let to = long_key(alloc, "to").argument::<u64>("N");
    let range = construct!(from, to).guard(|it| it.0 <= it.1, "`--from` is above `--to`");
    range.into_options(alloc).run_program(Args::from(words))
}

/// Whether all files are chosen, or the names of those that are.
pub type Chosen = (bool, Vec<String>);

/// Two options that exclude one another.
pub fn read_chosen(alloc: Global, words: &[&str]) -> Result<Chosen, ParseFailure> {
    let all = long_key(alloc, "all").switch();
    let only = long_key(alloc, "only").argument::<String>("NAME").many();
    let chosen = construct!(all, only).guard(
        |it| !it.0 || it.1.is_empty(),
        "`--all` excludes `--only`",
    );
    chosen.into_options(alloc).run_program(Args::from(words))
}

/// Where a server is.
#[derive(Debug, Drop)]
pub enum Server {
    Remote(String, Option<u64>),
    Local(String, String),
}

/// One of two groups of options.
pub fn read_server(alloc: Global, words: &[&str]) -> Result<Server, ParseFailure> {
    let host = long_key(alloc, "host").argument::<String>("HOST");
    let port = long_key(alloc, "port").argument::<u64>("N").optional();
    let remote = construct!(Server::Remote(host, port));
    let socket = long_key(alloc, "socket").argument::<String>("PATH");
    let owner = long_key(alloc, "owner").argument::<String>("USER");
    let local = construct!(Server::Local(socket, owner));
    let server = construct!([remote, local]);
    server.into_options(alloc).run_program(Args::from(words))
}

/// What is done with a list.
#[derive(Clone, Debug, Drop)]
pub enum Action {
    Show,
    Add(u64),
}

/// A command, or an option in its place.
pub fn read_action(alloc: Global, words: &[&str]) -> Result<Action, ParseFailure> {
    let show = long_key(alloc, "show").req_flag(Action::Show);
    let number = positional::<u64>("NUMBER");
    let add = plain_command(alloc, "add", construct!(Action::Add(number)));
    let action = construct!([show, add]);
    action.into_options(alloc).run_program(Args::from(words))
}

/// A command's value, or what stands for it where no command is called.
pub fn read_level(alloc: Global, words: &[&str]) -> Result<u64, ParseFailure> {
    let level = plain_command(alloc, "set", positional::<u64>("LEVEL")).fallback(3);
    level.into_options(alloc).run_program(Args::from(words))
}

/// A switch and a word, whose parser a function answers.
fn switch_and_word(
    alloc: Global,
) -> ParseTuple2<bool, String, ParseFlag<bool>, ParsePositional<String>> {
    let all = short_key(alloc, 'a').switch();
    let word = positional::<String>("WORD");
    construct!(all, word)
}

/// What these read.
pub fn read_pair(alloc: Global, words: &[&str]) -> Result<(bool, String), ParseFailure> {
    switch_and_word(alloc).run_once(alloc, Args::from(words))
}
