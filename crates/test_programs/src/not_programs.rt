//! Which options are no program with commands. What runs as one is one.
use crate::program_rows::word;
use bpaf::params::{ParseArgument, ParseFlag};
use bpaf::parsers::ParseCommand;
use bpaf::{ParseTuple2, Parser, choice, construct, positional, short};
use bpaf_record::{CommandLine, ProgramField};
use std::alloc::{AllocError, Global};
use std::test::Fail;
use test_support::{number, switch};

/// A command over a switch.
type Opening = ParseCommand<bool, ParseFlag<bool>>;

/// A group of two numbers.
type Group = ParseTuple2<u64, u64, ParseArgument<u64>, ParseArgument<u64>>;

/// Words of commands, each with the name of the switch inside.
type Called<'a> = &'a [(&'a str, char)];

/// Whether a parser with the usual keys for help and version is a program.
fn is_whole<T: Drop, P: ProgramField<T> + Drop>(
    alloc: Global,
    parser: P,
) -> Result<bool, AllocError> {
    Ok(parser.to_options(alloc)?.is_program())
}

/// A command of this word over the switch of this name.
fn open(alloc: Global, word: &str, key: char) -> Result<Opening, AllocError> {
    switch(alloc, key)?.to_options(alloc)?.command(word)
}

/// The command `add` over the switch `-f`.
fn add(alloc: Global) -> Result<Opening, AllocError> {
    open(alloc, "add", 'f')
}

/// Whether a command is a program.
fn is_opening_whole(alloc: Global, parser: Opening) -> Result<bool, AllocError> {
    is_whole(alloc, parser)
}

/// Of commands, whether one is: of words that are none of commands, with a key inside that is named
/// as its own help or version, with such further names, and of an adjacent one.
fn is_one_opening(alloc: Global) -> Result<bool, AllocError> {
    for (word, key) in [
        // no_program_word_with_dash
        ("-v", 'f'),
        ("-", 'f'),
        ("", 'f'),
        // no_program_key_of_own_help_or_version
        ("add", 'h'),
        ("add", 'V'),
    ] {
        if is_opening_whole(alloc, open(alloc, word, key)?)? {
            return Ok(true);
        }
    }
    Ok(
        // no_program_further_name_with_dash
        is_opening_whole(alloc, add(alloc)?.short('-')?)?
            || is_opening_whole(alloc, add(alloc)?.long("--all")?)?
            || is_opening_whole(alloc, add(alloc)?.long("")?)?
            // no_program_adjacent_command
            || is_opening_whole(alloc, add(alloc)?.adjacent())?,
    )
}

/// Whether a choice of these commands is one.
fn is_choice_whole(alloc: Global, called: Called<'_>) -> Result<bool, AllocError> {
    let mut commands = Vec::new(alloc);
    for (word, key) in called {
        commands.push(open(alloc, word, *key)?)?;
    }
    is_whole(alloc, choice(commands))
}

/// Whether a choice of two commands is one.
fn is_either_whole(alloc: Global, first: Opening, second: Opening) -> Result<bool, AllocError> {
    is_whole(alloc, construct!([first, second]))
}

/// Whether a choice of a flag of this name and two commands is one.
fn is_beside_whole(
    alloc: Global,
    key: char,
    first: Opening,
    second: Opening,
) -> Result<bool, AllocError> {
    let flag = short(alloc, key)?.req_flag(true);
    is_whole(alloc, construct!([flag, first, second]))
}

/// Of choices of commands of one word, whether one is.
fn is_one_choice(alloc: Global) -> Result<bool, AllocError> {
    Ok(
        // no_program_shared_word
        is_choice_whole(alloc, &[("rm", 'f'), ("add", 'g'), ("rm", 'k')])?
            || is_either_whole(alloc, add(alloc)?.short('r')?, open(alloc, "r", 'g')?)?
            || is_beside_whole(alloc, 'v', add(alloc)?, open(alloc, "add", 'g')?)?,
    )
}

/// Whether two fields are one.
fn are_whole<A: Drop, B: Drop, P: ProgramField<A> + Drop, Q: ProgramField<B> + Drop>(
    alloc: Global,
    first: P,
    second: Q,
) -> Result<bool, AllocError> {
    is_whole(alloc, construct!(first, second))
}

/// Whether a switch of this name and a command `remote` over `add` are one.
fn are_nested_whole(alloc: Global, key: char) -> Result<bool, AllocError> {
    let remote = add(alloc)?.to_options(alloc)?.command("remote")?;
    are_whole(alloc, switch(alloc, key)?, remote)
}

/// Of products, whether one is: with a command that isn't last, behind a word, and with names that
/// aren't apart.
fn is_one_product(alloc: Global) -> Result<bool, AllocError> {
    Ok(
        // no_program_command_first
        are_whole(alloc, add(alloc)?, switch(alloc, 'v')?)?
            // no_program_field_behind_a_word
            || are_whole(alloc, word(), switch(alloc, 'v')?)?
            // no_program_word_before_command
            || are_whole(alloc, word(), add(alloc)?)?
            // no_program_shared_name
            || are_whole(alloc, switch(alloc, 'f')?, add(alloc)?)?
            || are_whole(alloc, switch(alloc, 'h')?, add(alloc)?)?
            || are_nested_whole(alloc, 'f')?,
    )
}

/// Whether a product of two fields is one as a field before a command, or with a closure round it.
fn are_round_whole<A: Drop, B: Drop, P: ProgramField<A> + Drop, Q: ProgramField<B> + Drop>(
    alloc: Global,
    first: P,
    second: Q,
    inside: bool,
) -> Result<bool, AllocError> {
    let product = construct!(first, second);
    if inside {
        are_whole(alloc, product, add(alloc)?)
    } else {
        is_whole(alloc, product.map(|value| value))
    }
}

/// Of products that stand where none may, whether one is: with a word, before a command; and with a
/// closure round it.
fn is_one_inside(alloc: Global) -> Result<bool, AllocError> {
    Ok(
        // no_program_product_before_command
        are_round_whole(alloc, switch(alloc, 'v')?, word(), true)?
            // no_program_product_with_closure
            || are_round_whole(alloc, switch(alloc, 'q')?, word(), false)?,
    )
}

/// Whether a choice of two parsers is one.
fn is_either_one_whole<T: Drop, P: ProgramField<T> + Drop, Q: ProgramField<T> + Drop>(
    alloc: Global,
    first: P,
    second: Q,
) -> Result<bool, AllocError> {
    is_whole(alloc, construct!([first, second]))
}

/// A group of two numbers.
fn group(alloc: Global, first: char, second: char) -> Result<Group, AllocError> {
    let first = number(alloc, first)?;
    let second = number(alloc, second)?;
    Ok(construct!(first, second))
}

/// Of choices that mix what is none of one kind, whether one is: of groups that share a name, of a
/// number and a word, and of a group and a product that ends in a command.
fn is_one_mixed(alloc: Global) -> Result<bool, AllocError> {
    let far = positional::<u64>("FAR");
    let low = number(alloc, 'c')?;
    let jump = number(alloc, 'n')?.to_options(alloc)?.command("jump")?;
    Ok(
        // no_program_part_shared_name
        is_either_one_whole(alloc, group(alloc, 'a', 'b')?, group(alloc, 'a', 'c')?)?
            // no_program_choice_with_a_word
            || is_either_one_whole(alloc, number(alloc, 'a')?, far)?
            // no_program_choice_with_a_command
            || is_either_one_whole(alloc, group(alloc, 'a', 'b')?, construct!(low, jump))?,
    )
}

/// Whether two fields that may be left out together are one, or where one of them catches.
fn are_optional_whole<A: Drop, B: Drop, P: ProgramField<A> + Drop, Q: ProgramField<B> + Drop>(
    alloc: Global,
    first: P,
    second: Q,
    catch: bool,
) -> Result<bool, AllocError> {
    let both = construct!(first, second).optional();
    is_whole(alloc, if catch { both.catch() } else { both })
}

/// Of what may be left out or is repeated where that is none, whether one is.
fn is_one_wrapped(alloc: Global) -> Result<bool, AllocError> {
    Ok(
        // no_program_catch
        is_whole(alloc, add(alloc)?.optional().catch())?
            || is_whole(alloc, add(alloc)?.many().catch())?
            || are_optional_whole(alloc, number(alloc, 'a')?, number(alloc, 'b')?, true)?
            // no_program_optional_word
            || are_optional_whole(alloc, number(alloc, 'a')?, word(), false)?
            // no_program_optional_product_with_a_command
            || are_optional_whole(alloc, switch(alloc, 'v')?, add(alloc)?, false)?
            // no_program_repeated_twice
            || is_whole(alloc, word().optional().many())?
            // no_program_optional_repeat_of_commands
            || is_whole(alloc, add(alloc)?.many().optional())?,
    )
}

/// Of all these, whether one is.
fn is_one_whole(alloc: Global) -> Result<bool, AllocError> {
    Ok(
        is_one_opening(alloc)?
            || is_one_choice(alloc)?
            || is_one_product(alloc)?
            || is_one_inside(alloc)?
            || is_one_mixed(alloc)?
            || is_one_wrapped(alloc)?,
    )
}

#[test]
fn what_is_no_program_is_told(rt: HostRuntime) -> Result<(), Fail> {
    assert!(rt; !is_one_whole(rt.alloc())?);
    Ok(())
}
