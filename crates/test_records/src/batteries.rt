//! The batteries on worked lines.
use bpaf::{Doc, Parser, construct, key, long, positional, short};
use bpaf_batteries::{
    cargo_helper, get_usage, toggle_flag, verbose_and_quiet_by_number, verbose_by_slice,
};
use std::alloc::{AllocError, Global};
use std::fmt::{self, Debug};
use std::test::Fail;
use test_support::{num, reads, walk};

/// Levels of verbosity.
#[derive(Clone, Copy)]
enum Level {
    Error,
    Warning,
    Info,
    Debug,
    Trace,
}

/// As a derived one prints it, by one write.
impl Debug for Level {
    fn fmt<W: fmt::Write>(&self, f: &mut fmt::Formatter<W>) -> fmt::Result {
        f.write_str(match self {
            Level::Error => "Error",
            Level::Warning => "Warning",
            Level::Info => "Info",
            Level::Debug => "Debug",
            Level::Trace => "Trace",
        })
    }
}

/// What a toggle selects.
#[derive(Debug, Clone, Copy)]
enum Select {
    Banana,
    NoBanana,
}

#[test]
fn a_level_stays_within_its_bounds(rt: HostRuntime) -> Result<(), Fail> {
    let a = rt.alloc();
    let most = verbose_and_quiet_by_number(a, isize::MAX, 0, isize::MAX)?;
    // verbosity_at_greatest_number
    walk(a, most, "-v | ok 9223372036854775807")?;
    let least = verbose_and_quiet_by_number(a, isize::MIN, isize::MIN, 0)?;
    // verbosity_at_least_number
    walk(a, least, "-q | ok -9223372036854775808")
}

/// The items of five levels.
const LEVELS: &str = "
# verbosity_without_words
 | ok Info
# verbosity_less
-q | ok Warning
# verbosity_least
-qqq | ok Error
# verbosity_below_least
-qqqq | ok Error
# verbosity_more_and_less
-vvvvq | ok Trace
";

#[test]
fn a_level_picks_its_item(rt: HostRuntime) -> Result<(), Fail> {
    let a = rt.alloc();
    let levels = [
        Level::Error,
        Level::Warning,
        Level::Info,
        Level::Debug,
        Level::Trace,
    ];
    walk(a, verbose_by_slice(a, 2, levels)?, LEVELS)?;
    // verbosity_offset_past_slice
    walk(a, verbose_by_slice(a, usize::MAX, ['A', 'B'])?, " | ok 'B'")
}

/// What two keys select.
const SELECTED: &str = "
# last_toggle_counts
--banana --no-banana --banana --banana | ok Some(Banana)
# toggle_without_words
 | ok None
# the second key
--banana --no-banana | ok Some(NoBanana)
";

#[test]
fn the_last_toggle_counts(rt: HostRuntime) -> Result<(), Fail> {
    let a = rt.alloc();
    let one = long(a, "banana")?;
    let other = long(a, "no-banana")?;
    let selected = toggle_flag(one, Select::Banana, other, Select::NoBanana);
    walk(a, selected, SELECTED)
}

/// A number, perhaps behind the name of a subcommand.
const BEHIND_A_NAME: &str = "
# cargo_name_skipped
asm -n 3 | ok 3
# cargo_name_absent
-n 3 | ok 3
# another word
x -n 3 | refused
";

#[test]
fn a_word_in_front_is_passed_over(rt: HostRuntime) -> Result<(), Fail> {
    let a = rt.alloc();
    walk(a, cargo_helper(a, "asm", num(a)?)?, BEHIND_A_NAME)
}

/// The help page of a parser, or `None`.
fn page<T: Drop, P: Parser<T> + Drop>(alloc: Global, parser: P) -> Result<String, AllocError>
    requires { P.can_eval parser }
{
    match get_usage(parser.to_options(alloc)?)? {
        Some(page) => Ok(page),
        None => String::from_str(alloc, "None"),
    }
}

/// The help page of a word.
fn help_of_word(alloc: Global) -> Result<String, AllocError> {
    let help = Doc::from_text(alloc, "File to process")?;
    page(alloc, positional::<String>("FILE").help(help))
}

/// The help page of a word.
const PAGE: &str = "Usage: FILE\n\n\
    Available positional items:\n    \
    FILE        File to process\n\n\
    Available options:\n    \
    -h, --help  Prints help information\n";

/// None, since the switch is named as the key for help.
fn help_of_switch(alloc: Global) -> Result<String, AllocError> {
    page(alloc, long(alloc, "help")?.switch())
}

/// The help page of a key with a help.
fn help_of_key(alloc: Global) -> Result<String, AllocError> {
    page(
        alloc,
        key(alloc, 'v', "verbose").switch().help("Print more"),
    )
}

/// The help page of a key with a help.
const KEY_PAGE: &str = "Usage: [--verbose]\n\n\
    Available options:\n    \
    -v, --verbose  Print more\n    \
    -h, --help     Prints help information\n";

/// The help page of a level.
fn help_of_level(alloc: Global) -> Result<String, AllocError> {
    page(alloc, verbose_and_quiet_by_number(alloc, 0, 0, 1)?)
}

/// The help page of a level.
const LEVEL_PAGE: &str = "Usage: [--verbose]... [--quiet]...\n\n\
    Available options:\n    \
    -v, --verbose  Increase output verbosity, can be used several times\n    \
    -q, --quiet    Decrease output verbosity, can be used several times\n    \
    -h, --help     Prints help information\n";

#[test]
fn usage_is_told_where_help_is_shown(rt: HostRuntime) -> Result<(), Fail> {
    let a = rt.alloc();
    // usage_of_positional
    reads(help_of_word(a), PAGE)?;
    // usage_of_taken_help_name
    reads(help_of_switch(a), "None")?;
    reads(help_of_key(a), KEY_PAGE)?;
    // usage_of_verbosity
    reads(help_of_level(a), LEVEL_PAGE)
}

/// Whether no key stands behind a word in what a parser shows.
fn is_in_order<T: Drop, P: Parser<T> + Drop>(alloc: Global, parser: P) -> Result<bool, AllocError>
    requires { P.can_eval parser }
{
    parser.to_options(alloc)?.check_invariants(false)
}

/// Whether it is so of a word and then a switch.
fn word_first(alloc: Global) -> Result<bool, AllocError> {
    let word = positional::<String>("FILE");
    let switch = short(alloc, 'v')?.switch();
    is_in_order(alloc, construct!(word, switch))
}

/// Whether it is so of a switch and then a word.
fn switch_first(alloc: Global) -> Result<bool, AllocError> {
    let word = positional::<String>("FILE");
    let switch = short(alloc, 'v')?.switch();
    is_in_order(alloc, construct!(switch, word))
}

#[test]
fn words_stand_behind_keys(rt: HostRuntime) -> Result<(), Fail> {
    let a = rt.alloc();
    // invariants_positional_first
    assert!(rt; !word_first(a)?);
    // invariants_positional_last
    assert!(rt; switch_first(a)?);
    Ok(())
}
