//! A program with commands, each in a function of its own that answers its parser: the constructor
//! of its fields is a type, so the parser's type has a name.
use bpaf::params::{ParseArgument, ParseFlag, ParsePositional};
use bpaf::parsers::{ParseCommand, ParseCon, ParseMany};
use bpaf::{
    Args, Constructor, Fields1, Fields2, ParseFailure, Parser, construct, positional, short_key,
};
use bpaf_program::plain_command;
use std::alloc::Global;

/// What is to be done.
#[derive(Debug, Drop)]
pub enum Task {
    /// A task with these tags is added.
    Add { tags: Vec<String>, text: String },
    /// The tasks are listed, all of them or those that are open.
    List { all: bool },
}

/// Makes a task to be added.
#[derive(Drop)]
struct MakeAdd {}

impl Constructor<(Vec<String>, String), Task> for MakeAdd {
    fn make(&self, (tags, text): (Vec<String>, String)) -> Task {
        Task::Add { tags, text }
    }
}

/// Makes a list.
#[derive(Drop)]
struct MakeList {}

impl Constructor<bool, Task> for MakeList {
    fn make(&self, all: bool) -> Task {
        Task::List { all }
    }
}

type AddFields = Fields2<ParseMany<ParseArgument<String>>, ParsePositional<String>>;

type AddCommand = ParseCommand<Task, ParseCon<(Vec<String>, String), AddFields, MakeAdd>>;

type ListCommand = ParseCommand<Task, ParseCon<bool, Fields1<ParseFlag<bool>>, MakeList>>;

/// `add [-t TAG].. TEXT`.
fn add(alloc: Global) -> AddCommand {
    let tags = short_key(alloc, 't').argument::<String>("TAG").many();
    let text = positional::<String>("TEXT");
    plain_command(alloc, "add", construct!(MakeAdd {}; tags, text))
}

/// `list [-a]`.
fn list(alloc: Global) -> ListCommand {
    let all = short_key(alloc, 'a').switch();
    plain_command(alloc, "list", construct!(MakeList {}; all))
}

/// The task that the words give, as `add -t home TEXT`; refused where they give none, or for want
/// of memory.
pub fn read_task(alloc: Global, words: &[String]) -> Result<Task, ParseFailure> {
    let task = construct!([add(add(alloc)), list(list(alloc))]);
    task.run_once(alloc, Args::from(words).set_name("tasks"))
}
