//! Who logs in, by a name and a password or by neither, of which it is proved that both were
//! spelled.
ghost use Rattle.std.specs.Prelude.{IfOk, map, string_bytes};
ghost use Rattle.example_guide.specs.Login.{AnswersLogin, IsByBoth, login_parser};

use bpaf::{Args, ParseFailure, Parser, construct, key};
use bpaf_program::{KnownOptions, KnownProgram};
use bpaf_record::CommandLine;
use std::alloc::Global;

/// A name and its password.
#[derive(Debug, Drop)]
pub struct Login {
    pub user: String,
    pub password: String,
}

/// What is known of the program: of what its parser is made, and that this is a program.
#[derive(Drop)]
struct LoginProgram {}

impl KnownProgram<Option<Login>> for LoginProgram {
    ghost use Rattle.std.specs.Prelude.{refl};

    ghost grammar = { login_parser };

    ghost whole = { λ variables. refl };
}

/// Who logs in by the words, as `-u ann -p x`, if someone does. Each answer is exact, and someone
/// does only where one of the words before the first `--` spells the key of the name, and one that
/// of the password.
pub fn read_login(alloc: Global, words: &[String]) -> Result<Option<Login>, ParseFailure>
    ensures exact { AnswersLogin (map string_bytes words.now) result }
    ensures by_both { IfOk result (IsByBoth (map string_bytes words.now)) }
{
    let user = key(alloc, 'u', "user").argument::<String>("NAME");
    let password = key(alloc, 'p', "password").argument::<String>("TEXT");
    let login = construct!(Login { user, password }).optional();
    let login = KnownOptions {
        options: login.into_options(alloc),
        program: LoginProgram {},
    };
    login.run_program(Args::from(words).set_name("login"))
}
