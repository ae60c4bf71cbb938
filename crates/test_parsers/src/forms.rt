//! Every form of `construct!`, as a program writes it.
ghost use Rattle.std.specs.Prelude.{Ok};

use bpaf::params::ParseArgument;
use bpaf::parsers::ParseOrElse;
use bpaf::{Args, Parser, State, construct, evaluate, positional, pure, short};
use std::alloc::{AllocError, Global};
use std::test::Fail;
use test_support::{num, prints, value, verbose};

/// How much is told.
#[derive(Clone, Debug, Drop)]
enum Telling {
    Quiet,
    Normal,
}

/// A switch, a number and a level.
#[derive(Debug, Drop)]
struct Settings {
    verbose: bool,
    num: u64,
    level: Telling,
}

/// Two words.
#[derive(Debug, Drop)]
struct Pair {
    a: String,
    b: String,
}

/// A struct with one numbered field.
#[derive(Debug, Drop)]
struct Single(u64);

/// A variant with names, and one with numbers.
#[derive(Debug, Drop)]
enum Command {
    Build { verbose: bool, num: u64 },
    Run(u64, bool),
}

/// A struct without fields, by name and by number, and a variant of each kind.
#[derive(Clone, Debug, Drop)]
struct Named {}

#[derive(Clone, Debug, Drop)]
struct Unnamed();

#[derive(Clone, Debug, Drop)]
enum Nothing {
    Named {},
    Unnamed(),
}

/// Two switches, named in their places.
fn in_place(alloc: Global, words: &[&str]) -> Result<Option<(bool, bool)>, AllocError> {
    let parser = construct!(
        a(short(alloc, 'a')?.switch()),
        b(short(alloc, 'b')?.switch()),
    );
    value(alloc, parser, words)
}

/// A field that a function answers, and one of a function that may be refused memory.
fn answered<F: FnOnce(Global) -> Result<P, AllocError>, P: Parser<u64> + Drop>(
    alloc: Global,
    num: F,
    words: &[&str],
) -> Result<Option<(bool, u64)>, AllocError>
    requires called { F.IsAlwaysCallable num }
    requires evaluated { (made : _) → F.post num alloc (Ok made) → P.can_eval made }
{
    let switch = verbose(alloc)?;
    let verbose = move || switch;
    value(alloc, construct!(verbose(), num(num(alloc)?)), words)
}

#[test]
fn fields_are_named_in_place(rt: HostRuntime) -> Result<(), Fail> {
    let a = rt.alloc();
    // fields_named_in_place_absent
    prints(a, in_place(a, &[]), "Some((false, false))")?;
    // fields_named_in_place_present
    prints(a, in_place(a, &["-a", "-b"]), "Some((true, true))")?;
    // a field of a function
    prints(a, answered(a, num, &["-n", "3"]), "Some((false, 3))")
}

/// Two words by the names of their fields.
fn two_words(alloc: Global, words: &[&str]) -> Result<Option<Pair>, AllocError> {
    let a = positional::<String>("A");
    let b = positional::<String>("B");
    value(alloc, construct!(Pair { a, b }), words)
}

/// A struct by the names of its fields.
fn named_fields(alloc: Global, words: &[&str]) -> Result<Option<Settings>, AllocError> {
    let level = short(alloc, 'q')?.flag(Telling::Quiet, Telling::Normal);
    let record = construct!(Settings {
        verbose(verbose(alloc)?),
        num(num(alloc)?),
        level,
    });
    value(alloc, record, words)
}

/// A variant by the names of its fields, one by their numbers, with a leading `::`, a struct by a
/// path that begins with `self`, and one field by itself.
fn product(
    alloc: Global,
    words: &[&str],
) -> Result<Option<(Command, Command, Single, u64)>, AllocError> {
    let verbose = pure(true);
    let num = positional::<u64>("A");
    let b = pure(false);
    let parser = construct!(
        build(construct!(Command::Build { verbose, num })),
        run(construct!(::Command::Run(a(positional::<u64>("B")), b,))),
        single(construct!(self::Single(c(pure(7))))),
        alone(construct!(d(positional::<u64>("D")),)),
    );
    value(alloc, parser, words)
}

/// Values without fields, each kept.
fn without_fields(
    alloc: Global,
    words: &[&str],
) -> Result<Option<(Named, Unnamed, Nothing, Nothing)>, AllocError> {
    let a = construct!(Named {});
    let b = construct!(Unnamed());
    let c = construct!(Nothing::Named {});
    let d = construct!(::Nothing::Unnamed());
    value(alloc, construct!(a, b, c, d), words)
}

#[test]
fn values_are_made_by_name_and_number(rt: HostRuntime) -> Result<(), Fail> {
    let a = rt.alloc();
    // positionals_round_marker
    let words = two_words(a, &["x", "--", "-y"]);
    prints(a, words, "Some(Pair { a: \"x\", b: \"-y\" })")?;
    // values of other forms
    let settings = "Some(Settings { verbose: true, num: 3, level: Normal })";
    prints(a, named_fields(a, &["-n", "3", "-v"]), settings)?;
    let product_of = "Some((Build { verbose: true, num: 3 }, Run(4, false), Single(7), 5))";
    prints(a, product(a, &["3", "4", "5"]), product_of)?;
    let nothing = "Some((Named, Unnamed, Named, Unnamed))";
    prints(a, without_fields(a, &[]), nothing)?;
    prints(a, without_fields(a, &["x"]), "None")
}

/// A number behind a short name.
fn num_of(alloc: Global, name: char) -> Result<ParseArgument<u64>, AllocError> {
    Ok(short(alloc, name)?.argument("NUM"))
}

/// Three branches: a variable, what a function answers, and an expression, which is one branch by
/// itself.
fn branches(alloc: Global, words: &[&str]) -> Result<Option<u64>, AllocError> {
    let a = num_of(alloc, 'a')?;
    let word = positional::<u64>("B");
    let b = move || word;
    let d = pure(4);
    value(alloc, construct!([a, b(), c(construct!([d]))]), words)
}

#[test]
fn branches_of_each_form(rt: HostRuntime) -> Result<(), Fail> {
    let a = rt.alloc();
    prints(a, branches(a, &["-a", "1"]), "Some(1)")?;
    prints(a, branches(a, &["2"]), "Some(2)")?;
    prints(a, branches(a, &[]), "Some(4)")
}

/// A number behind one of two keys.
fn one_of_two(
    alloc: Global,
) -> Result<ParseOrElse<ParseArgument<u64>, ParseArgument<u64>>, AllocError> {
    let a = num_of(alloc, 'a')?;
    Ok(construct!([a, b(num_of(alloc, 'b')?)]))
}

/// What the choice answers on a state, and which place is then in conflict with which.
fn conflict_in(
    alloc: Global,
    state: &mut State,
) -> Result<(Option<u64>, Option<(usize, usize)>), AllocError> {
    let answer = evaluate(&one_of_two(alloc)?, state).ok();
    Ok((answer, state.conflict()))
}

/// The same on the state of words.
fn conflict(
    alloc: Global,
    words: &[&str],
) -> Result<(Option<u64>, Option<(usize, usize)>), AllocError> {
    match State::construct(alloc, Args::from(words), &[], &['a', 'b']) {
        Ok(mut state) => {
            let found = conflict_in(alloc, &mut state);
            drop(state);
            found
        }
        Err(refused) => {
            drop(refused);
            Ok((None, None))
        }
    }
}

#[test]
fn other_branch_is_in_conflict(rt: HostRuntime) -> Result<(), Fail> {
    let a = rt.alloc();
    // conflict_of_a_choice
    let answer = conflict(a, &["-a", "12", "-b", "3"]);
    prints(a, answer, "(Some(12), Some((2, 0)))")
}
