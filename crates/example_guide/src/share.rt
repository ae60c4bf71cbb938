//! What is shared and by whom, with guards on texts, of which it is proved that each answer is
//! exact.
ghost use Rattle.std.specs.Prelude.{map, string_bytes};
ghost use Rattle.example_guide.specs.Share.{AnswersShare, share_parser};

use bpaf::{Args, ParseFailure, Parser, construct, key, positional};
use bpaf_program::{KnownOptions, KnownProgram, plain_command};
use bpaf_record::CommandLine;
use std::alloc::Global;

/// A file that is shared, and by whom.
#[derive(Debug, Drop)]
pub struct Share {
    pub user: String,
    pub file: String,
}

/// What is known of the program: of what its parser is made, and that this is a program.
#[derive(Drop)]
struct ShareProgram {}

impl KnownProgram<Share> for ShareProgram {
    ghost use Rattle.std.specs.Prelude.{refl};

    ghost grammar = { share_parser };

    ghost whole = { λ variables. refl };
}

/// What the words share, as `-u ann add FILE`; neither name may be empty. Each answer is exact: a
/// file is shared only where the words share it, and where they share one, no refusal comes, but
/// for want of memory.
pub fn read_share(alloc: Global, words: &[String]) -> Result<Share, ParseFailure>
    ensures { AnswersShare (map string_bytes words.now) result }
{
    let user = key(alloc, 'u', "user").argument::<String>("NAME");
    let user = user.guard(|name| !name.as_str().is_empty(), "no name");
    let add = plain_command(alloc, "add", positional::<String>("FILE"));
    let file = add.guard(|file| !file.as_str().is_empty(), "no file");
    let share = construct!(Share { user, file });
    let share = KnownOptions {
        options: share.into_options(alloc),
        program: ShareProgram {},
    };
    share.run_program(Args::from(words).set_name("share"))
}
