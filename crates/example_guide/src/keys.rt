//! One parser of each kind. None holds a closure, so each has a type that a function may answer.
ghost use Rattle.bpaf_laws.specs.{Leaves.FlagOutcome, Reading.IsKept};

use crate::types::Level;
use bpaf::params::{ParseArgument, ParseFlag, ParsePositional};
use bpaf::parsers::{
    ParseChoice, ParseCollect, ParseCount, ParseFallback, ParseLast, ParseMany, ParseOptional,
    ParseOrElse, ParseSome,
};
use bpaf::{Error, Parser, State, choice, construct, env, key, long_key, positional, short_key};
use std::alloc::{AllocError, Global};
use std::collections::BTreeSet;

/// `-v`, `--verbose`: true or false.
pub fn verbose(alloc: Global) -> ParseFlag<bool> {
    key(alloc, 'v', "verbose").switch()
}

/// `-q`: one value or the other.
pub fn quiet(alloc: Global) -> ParseFlag<Level> {
    short_key(alloc, 'q').flag(Level::Low, Level::High)
}

/// What a flag of levels answers is one of the two that it keeps: clones of levels equal them.
pub fn level(flag: &ParseFlag<Level>, state: &mut State) -> Result<Level, Error>
    ensures { FlagOutcome IsKept flag.now.named flag.now.present flag.now.absent state.old
        result state.new }
{
    flag.eval(state)
}

/// `--accept`, which must stand there.
pub fn accept(alloc: Global) -> ParseFlag<()> {
    long_key(alloc, "accept").req_flag(())
}

/// `-n 3`, `-n3`, `--num=3`.
pub fn num(alloc: Global) -> ParseArgument<u64> {
    key(alloc, 'n', "num").argument::<u64>("NUM")
}

/// `-s 3`, else the variable `SIZE` of the environment.
pub fn size(alloc: Global) -> Result<ParseArgument<u32>, AllocError> {
    Ok(short_key(alloc, 's').env("SIZE")?.argument::<u32>("NUM"))
}

/// The variable `HOME` of the environment.
pub fn home(alloc: Global) -> Result<ParseArgument<String>, AllocError> {
    Ok(env(alloc, "HOME")?.argument::<String>("DIR"))
}

/// A switch with a help.
pub fn tall(alloc: Global) -> ParseFlag<bool> {
    short_key(alloc, 't').switch().help("Print a tall page")
}

/// A word by itself.
pub fn file() -> ParsePositional<String> {
    positional::<String>("FILE")
}

/// Some(3), or None where there is no `-n`.
pub fn maybe(alloc: Global) -> ParseOptional<ParseArgument<u64>> {
    num(alloc).optional()
}

/// The number, or 7 where there is no `-n`.
pub fn seven(alloc: Global) -> ParseFallback<ParseArgument<u64>, u64> {
    num(alloc).fallback(7)
}

/// All numbers; none where there is no `-n`.
pub fn nums(alloc: Global) -> ParseMany<ParseArgument<u64>> {
    num(alloc).many()
}

/// The files, one at least.
pub fn files() -> ParseSome<'static, ParsePositional<String>> {
    file().some("name a file")
}

/// The numbers in order, each once.
pub fn ordered(alloc: Global) -> ParseCollect<ParseArgument<u64>, BTreeSet<u64>, u64> {
    num(alloc).collect::<BTreeSet<u64>>()
}

/// 3 for `-vvv`, 0 where there is none.
pub fn volume(alloc: Global) -> ParseCount<ParseFlag<()>, ()> {
    short_key(alloc, 'v').req_flag(()).count()
}

/// The last number.
pub fn latest(alloc: Global) -> ParseLast<ParseArgument<u64>> {
    num(alloc).last()
}

/// One of two lengths.
pub fn distance(alloc: Global) -> ParseOrElse<ParseArgument<u64>, ParseArgument<u64>> {
    let meters = long_key(alloc, "meters").argument::<u64>("NUM");
    construct!([
        meters,
        miles(long_key(alloc, "miles").argument::<u64>("NUM"))
    ])
}

/// One of any number of parsers of one type.
pub fn color(alloc: Global) -> Result<ParseChoice<ParseFlag<u8>>, AllocError> {
    let red = long_key(alloc, "red").req_flag(0);
    let blue = long_key(alloc, "blue").req_flag(1);
    Ok(choice(vec![in alloc; red, blue]?))
}
