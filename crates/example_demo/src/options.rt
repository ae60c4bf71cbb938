//! The options of the program.
ghost use Rattle.std.specs.Prelude.{IfOk, map, string_bytes};
ghost use Rattle.std.specs.Result.{IfErr};
ghost use Rattle.example_demo.specs.Running.{AnswersOptionsExactly, IsDealtOptions, record_of};
ghost use Rattle.example_demo.specs.Running.{ShowsHelpAsked};

use bpaf::{Args, ParseFailure, Parser, construct, key, positional};
use bpaf_program::{KnownOptions, KnownProgram};
use bpaf_record::CommandLine;
use std::alloc::Global;

/// What the program is asked for.
#[derive(Drop)]
pub struct Options {
    pub verbose: bool,
    pub num: u64,
    pub files: Vec<String>,
}

/// What is known of the program: of what its parser is made, and that this is a program.
#[derive(Drop)]
struct DemoProgram {}

impl KnownProgram<Options> for DemoProgram {
    ghost use Rattle.std.specs.Prelude.{refl};

    ghost grammar = { record_of };

    ghost whole = { λ variables. refl };
}

/// The options that the words give; refused where they give none, or for want of memory. Help is
/// answered as a refusal that shows it, and only where the words ask for it.
///
/// The options are a program, so each answer is exact: options come only where they are the
/// program's value on the words, and where it has one no refusal comes, but for want of memory.
pub fn read_options(alloc: Global, words: &[String]) -> Result<Options, ParseFailure>
    ensures dealt { IfOk result (λ v. IsDealtOptions (map string_bytes words.now) v) }
    ensures asked { IfErr result (λ f. ShowsHelpAsked (map string_bytes words.now) f) }
    ensures exact { AnswersOptionsExactly (map string_bytes words.now) result }
{
    let verbose = key(alloc, 'v', "verbose").switch().help("Print more");
    let num = key(alloc, 'n', "num").argument::<u64>("NUM").take_last();
    let num = num.help("A number");
    let files = positional::<String>("FILE").help("Files to read").many();
    let options = construct!(Options {
        verbose,
        num,
        files
    });
    let options = KnownOptions {
        options: options.into_options(alloc),
        program: DemoProgram {},
    };
    options.run_program(Args::from(words).set_name("bpaf_demo"))
}
