//! Commands without help or texts of their own.
ghost use Rattle.std.specs.Prelude.{◌≤◌, length};
ghost use Rattle.bpaf_program.specs.Fields.{IsPlainCommand};

use bpaf::parsers::ParseCommand;
use bpaf::{Info, OptionParser};
use std::alloc::Global;
use std::marker::PhantomData;

/// The command of this name over a parser, as `parser.into_options(alloc).into_command(name)`. It
/// takes no memory, so the name has at most 23 bytes. Nothing is asked of the parser, so that
/// nothing has to be found of it.
///
/// ```text
/// plain_command(alloc, "list", construct!(Task::List { max })).help("Lists the tasks")
/// ```
pub fn plain_command<T, P>(alloc: Global, name: &str, parser: P) -> ParseCommand<T, P>
    requires { length name.now ≤ 23 }
    ensures { IsPlainCommand name.now parser result }
{
    let options = OptionParser {
        inner: parser,
        info: Info::new(),
        alloc,
        of: PhantomData,
    };
    options.into_command(name)
}
