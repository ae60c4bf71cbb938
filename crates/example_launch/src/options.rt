//! The words of a launcher, and those that it passes on.
ghost use Rattle.std.specs.Prelude.{◌≡◌, IfOk, codes, false, map, string_bytes};
ghost use Rattle.std.specs.Result.{IfErr};
ghost use Rattle.bpaf_program.specs.OfCommands.{IsWord, NonStrict, Strict, helped_switch};
ghost use Rattle.example_launch.specs.Running.{IsLaunchOf, dry_run_names, verbose_names};
ghost use Rattle.example_launch.specs.Running.{AnswersLaunch, ShowsHelpAsked, launcher};

use bpaf::params::{ParseFlag, ParsePositional};
use bpaf::parsers::ParseMany;
use bpaf::{Args, ParseFailure, Parser, construct, key, long_key, positional};
use bpaf_program::{KnownOptions, KnownProgram};
use bpaf_record::CommandLine;
use std::alloc::Global;

/// What is to be started, and how.
#[derive(Drop)]
pub struct Launch {
    /// Whether more is to be told.
    pub verbose: bool,
    /// Whether nothing is to be started.
    pub dry_run: bool,
    /// The program.
    pub name: String,
    /// The words that are passed on to it.
    pub words: Vec<String>,
}

/// What is known of the program: of what its parser is made, and that this is a program.
#[derive(Drop)]
struct LaunchProgram {}

impl KnownProgram<Launch> for LaunchProgram {
    ghost use Rattle.std.specs.Prelude.{refl};

    ghost grammar = { launcher };

    ghost whole = { λ variables. refl };
}

/// The launch that the words ask for; refused where they ask for none, or for want of memory. The
/// options are a program, so each answer is exact; so what is passed on are all words behind the
/// first `--`. Help is answered as a refusal that shows it, and only where the words ask for it.
pub fn read_launch(alloc: Global, words: &[String]) -> Result<Launch, ParseFailure>
    ensures exact { AnswersLaunch (map string_bytes words.now) result }
    ensures launch { IfOk result (λ launch. IsLaunchOf (map string_bytes words.now) launch) }
    ensures asked { IfErr result (λ f. ShowsHelpAsked (map string_bytes words.now) f) }
{
    let verbose = verbose(alloc);
    let dry_run = dry_run(alloc);
    let name = name();
    let passed = passed();
    let launch = construct!(Launch {
        verbose,
        dry_run,
        name,
        words(passed)
    });
    let launch = KnownOptions {
        options: launch.into_options(alloc),
        program: LaunchProgram {},
    };
    launch.run_program(Args::from(words).set_name("launch"))
}

/// The switch, `-v` or `--verbose`.
fn verbose(alloc: Global) -> ParseFlag<bool>
    ensures { result ≡ helped_switch verbose_names (codes "Print more") }
{
    key(alloc, 'v', "verbose").switch().help("Print more")
}

/// The switch `--dry-run`.
fn dry_run(alloc: Global) -> ParseFlag<bool>
    ensures { result ≡ helped_switch dry_run_names (codes "Start nothing") }
{
    long_key(alloc, "dry-run").switch().help("Start nothing")
}

/// The program, a word before `--`.
fn name() -> ParsePositional<String>
    ensures { IsWord NonStrict (codes "NAME") (codes "Program to start") result }
{
    positional::<String>("NAME")
        .non_strict()
        .help("Program to start")
}

/// The words behind `--`.
fn passed() -> ParseMany<ParsePositional<String>>
    ensures word { IsWord Strict (codes "WORD") (codes "Words to pass on") result.inner }
    ensures catch { result.catch ≡ false }
{
    let word = positional::<String>("WORD").strict();
    word.help("Words to pass on").many()
}
