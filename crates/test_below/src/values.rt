//! Values of texts, and keys.
ghost use Rattle.std.specs.Prelude.{◌≡◌, codes};
ghost use Rattle.bpaf_text.specs.Meaning.{ReadsText};

use bpaf_doc::{Doc, Item, ShortLong};
use bpaf_text::{
    FromList, FromText, NamedArg, ParseArgument, ParseFlag, TextFault, env, key, long, long_key,
    short, short_key,
};
use std::alloc::{AllocError, Global};
use std::collections::{BTreeSet, VecDeque};
use std::fmt::Debug;
use std::process::Abort;
use std::test::Fail;
use test_support::reads;

const NO_NUMBER: &str = "not a whole number in range";

// Asserts that the text gives the value.
fn expect_value<T: FromText + PartialEq + Debug + Drop>(
    rt: &impl Abort,
    alloc: Global,
    text: &str,
    value: T,
) {
    assert_eq!(rt; T::from_text(alloc, text).ok(), Some(value));
}

// Asserts that the text is a fault with these words.
fn expect_fault<T: FromText + Drop>(rt: &impl Abort, alloc: Global, text: &str, words: &str) {
    match T::from_text(alloc, text) {
        Err(TextFault::Fault(message)) => assert_eq!(rt; message.as_str(), words),
        _ => panic!(rt; "no fault at {text}"),
    }
}

#[test]
fn unsigned_numbers_are_read(rt: HostRuntime) {
    let alloc = rt.alloc();
    // plus_before_number_of_eight_bits
    expect_value::<u8>(&rt, alloc, "+5", 5);
    // number_past_its_type
    expect_fault::<u8>(&rt, alloc, "256", NO_NUMBER);
    // other numbers
    expect_value::<u16>(&rt, alloc, "65535", 65535);
    expect_value::<u32>(&rt, alloc, "0007", 7);
    expect_value::<u64>(&rt, alloc, "18446744073709551615", u64::MAX);
    // minus_zero_unsigned_text
    // sign_alone_text
    // empty_text_is_no_number
    // two_signs_text
    for text in ["18446744073709551616", "-0", "+", "", "+-5"] {
        expect_fault::<u64>(&rt, alloc, text, NO_NUMBER);
    }
    // the greatest of all
    expect_value::<u128>(
        &rt,
        alloc,
        "340282366920938463463374607431768211455",
        u128::MAX,
    );
    expect_value::<usize>(&rt, alloc, "12", 12);
}

#[test]
fn signed_numbers_are_read(rt: HostRuntime) {
    let alloc = rt.alloc();
    // least_number_of_eight_bits
    expect_value::<i8>(&rt, alloc, "-128", -128);
    // minus_zero_of_eight_bits
    expect_value::<i8>(&rt, alloc, "-0", 0);
    // other numbers
    expect_fault::<i8>(&rt, alloc, "128", NO_NUMBER);
    expect_value::<i16>(&rt, alloc, "+32767", 32767);
    expect_value::<i32>(&rt, alloc, "-2147483648", i32::MIN);
    expect_value::<i64>(&rt, alloc, "-7", -7);
    expect_value::<i128>(
        &rt,
        alloc,
        "-170141183460469231731687303715884105728",
        i128::MIN,
    );
    expect_value::<isize>(&rt, alloc, "12", 12);
}

#[test]
fn other_values_are_read(rt: HostRuntime) -> Result<(), Fail> {
    let alloc = rt.alloc();
    expect_value::<bool>(&rt, alloc, "true", true);
    expect_value::<bool>(&rt, alloc, "false", false);
    // bool_in_capitals
    expect_fault::<bool>(&rt, alloc, "True", "neither true nor false");
    // one_character
    expect_value::<char>(&rt, alloc, "é", 'é');
    // two_characters
    expect_fault::<char>(&rt, alloc, "ab", "not one character");
    // texts
    expect_value::<String>(&rt, alloc, " -a=b\n", String::from_str(alloc, " -a=b\n")?);
    expect_value::<String>(&rt, alloc, "", String::new(alloc));
    Ok(())
}

// A caller's own type of two words.
#[derive(Clone, Copy, Debug, PartialEq, Eq)]
enum Level {
    Low,
    High,
}

impl FromText for Level {
    ghost use Rattle.test_below.specs.declared.values.Level.TheVariants.{Low, High};

    ghost means = { λ text level.
        elim level [ Low ↦ text ≡ codes "low" | High ↦ text ≡ codes "high" ] };

    fn from_text(alloc: Global, text: &str) -> Result<Level, TextFault> {
        match text {
            "low" => Ok(Level::Low),
            "high" => Ok(Level::High),
            _ => Err(TextFault::Fault(String::from_str(alloc, "neither low nor high")?)),
        }
    }
}

#[test]
fn a_type_of_the_callers_own_is_read(rt: HostRuntime) {
    let alloc = rt.alloc();
    expect_value(&rt, alloc, "low", Level::Low);
    expect_value(&rt, alloc, "high", Level::High);
    expect_fault::<Level>(&rt, alloc, "lower", "neither low nor high");
}

// A key with two names of each kind and a help, as it is printed.
const SIZE: &str = "NamedArg { shorts: ['s', 'n'], \
    longs: [\"size\", \"number\"], \
    envs: [\"SIZE\", \"WIDTH\"], \
    help: Some(Doc { pieces: [Piece { text: \"how wide\", \
    style: Text, detail: false }] }) }";

// The same as the key of a flag, with a text as its help.
const LEAF: &str = "{ named: NamedArg { shorts: ['s', 'n'], \
    longs: [\"size\", \"number\"], \
    envs: [\"SIZE\", \"WIDTH\"], \
    help: Some(Doc { pieces: [Piece { text: \"how wide\", \
    style: Text, detail: false }] }) }, help: Some(Help { kept: Text(\"how tall\") }) }";

// The same as the key of an argument, with a document as its help.
const DOC_LEAF: &str = "{ named: NamedArg { shorts: ['s', 'n'], \
    longs: [\"size\", \"number\"], \
    envs: [\"SIZE\", \"WIDTH\"], \
    help: Some(Doc { pieces: [Piece { text: \"how wide\", \
    style: Text, detail: false }] }) }, help: Some(Help { kept: Doc(Doc { pieces: [] }) }) }";

// The key that `SIZE` prints.
fn size(alloc: Global) -> Result<NamedArg, AllocError> {
    let named = env(alloc, "SIZE")?
        .short('s')?
        .long("size")?
        .short('n')?
        .long("number")?;
    with_help(alloc, named.env("WIDTH")?)
}

// The key with a help.
fn with_help(alloc: Global, named: NamedArg) -> Result<NamedArg, AllocError> {
    let help = Doc::from_text(alloc, "how wide")?;
    Ok(named.help(help))
}

// How a key is printed.
fn printed(alloc: Global, named: NamedArg) -> Result<String, AllocError> {
    format!(in alloc; "{named:?}")
}

// How the copy of a key is printed.
fn copy_printed(alloc: Global, named: &NamedArg) -> Result<String, AllocError> {
    printed(alloc, named.copy()?)
}

// The names by which a key is shown.
fn names_printed(alloc: Global, name: &ShortLong) -> Result<String, AllocError> {
    match name {
        ShortLong::Short(short) => format!(in alloc; "{short}"),
        ShortLong::Long(long) => format!(in alloc; "{long}"),
        ShortLong::Both(short, long) => format!(in alloc; "{short} and {long}"),
    }
}

// What a key shows: its names, all short ones, of an argument its metavar, its variable, its help.
fn item_printed(alloc: Global, item: &Option<Item>) -> Result<String, AllocError> {
    match item {
        Some(
            Item::Flag {
                name,
                shorts,
                env,
                help,
            },
        ) => {
            let names = names_printed(alloc, name)?;
            format!(in alloc; "flag {names} {shorts:?} {env:?} {help:?}")
        }
        Some(
            Item::Argument {
                name,
                shorts,
                metavar,
                env,
                help,
            },
        ) => {
            let names = names_printed(alloc, name)?;
            format!(in alloc; "argument {names} {shorts:?} {metavar} {env:?} {help:?}")
        }
        _ => String::from_str(alloc, "another item"),
    }
}

// What a key shows as a flag.
fn flag_item_printed(alloc: Global, named: &NamedArg) -> Result<String, AllocError> {
    item_printed(alloc, &named.flag_item(alloc)?)
}

// What the key of a flag shows.
fn helped_item_printed(alloc: Global, flag: &ParseFlag<u32>) -> Result<String, AllocError> {
    item_printed(alloc, &flag.named.flag_item(alloc)?)
}

// What the key of an argument shows.
fn argument_item_printed(
    alloc: Global,
    argument: &ParseArgument<u32>,
) -> Result<String, AllocError> {
    item_printed(
        alloc,
        &argument.named.argument_item(alloc, argument.metavar)?,
    )
}

// What the copy of a flag holds.
fn flag_copy_printed(alloc: Global, flag: &ParseFlag<u32>) -> Result<String, AllocError> {
    let copy = flag.copy()?;
    format!(in alloc; "{:?} {:?} {:?}", copy.present, copy.absent, copy.named)
}

// What the copy of an argument holds.
fn argument_copy_printed(
    alloc: Global,
    argument: &ParseArgument<u32>,
) -> Result<String, AllocError> {
    let copy = argument.copy()?;
    format!(in alloc; "{} {} {:?}", copy.metavar.0, copy.adjacent, copy.named)
}

// What the key of `SIZE` tells: its copy, or that of the flag or the argument that it becomes, or
// what it shows as either.
fn size_tells(alloc: Global, what: &str) -> Result<String, AllocError> {
    let named = size(alloc)?;
    match what {
        "flag" => flag_copy_printed(alloc, &named.flag(3, 4).help("how tall")),
        "argument" => { argument_copy_printed(alloc, &named.argument("NUM").help(Doc::new(alloc))) }
        "flag item" => flag_item_printed(alloc, &named),
        "helped item" => helped_item_printed(alloc, &named.flag(3, 4).help("how\ntall")),
        "argument item" => argument_item_printed(alloc, &named.argument("NUM")),
        _ => copy_printed(alloc, &named),
    }
}

// What a key of one name tells, or the key of `SIZE`.
fn tells(alloc: Global, what: &str) -> Result<String, AllocError> {
    match what {
        "short" => printed(alloc, short(alloc, 'v')?),
        "long" => printed(alloc, long(alloc, "all")?),
        "short key" => printed(alloc, short_key(alloc, 'v')),
        "long key" => printed(alloc, long_key(alloc, "all")),
        "both" => printed(alloc, key(alloc, 'v', "all")),
        _ => size_tells(alloc, what),
    }
}

// What keys tell, in two parts.
const TOLD: &[(&str, &str, &str)] = &[
    (
        "short",
        "NamedArg { shorts: ['v'], ",
        "longs: [], envs: [], help: None }",
    ),
    (
        "long",
        "NamedArg { shorts: [], longs: [\"all\"], ",
        "envs: [], help: None }",
    ),
    (
        "short key",
        "NamedArg { shorts: ['v'], ",
        "longs: [], envs: [], help: None }",
    ),
    (
        "long key",
        "NamedArg { shorts: [], longs: [\"all\"], ",
        "envs: [], help: None }",
    ),
    (
        "both",
        "NamedArg { shorts: ['v'], longs: [\"all\"], ",
        "envs: [], help: None }",
    ),
    ("key", "", SIZE),
    ("flag", "3 Some(4) LeafKey ", LEAF),
    ("argument", "NUM false LeafKey ", DOC_LEAF),
    (
        "flag item",
        "flag s and size ['s', 'n'] Some(\"SIZE\") Some(Doc { pieces: [Piece { text: ",
        "\"how wide\", style: Text, detail: false }] })",
    ),
    (
        "helped item",
        "flag s and size ['s', 'n'] Some(\"SIZE\") Some(Doc { pieces: [Piece { text: ",
        "\"how tall\", style: Text, detail: false }] })",
    ),
    (
        "argument item",
        "argument s and size ['s', 'n'] NUM Some(\"SIZE\") Some(Doc { pieces: [Piece { text: ",
        "\"how wide\", style: Text, detail: false }] })",
    ),
];

// What a list holds that is filled from three values.
fn filled<C: FromList<u32> + Debug + Drop>(alloc: Global) -> Result<String, AllocError> {
    let list = C::from_list(vec![in alloc; 3, 1, 3]?)?;
    format!(in alloc; "{list:?}")
}

#[test]
fn keys_are_built_and_copied(rt: HostRuntime) -> Result<(), Fail> {
    for (what, begins, ends) in TOLD {
        let told = tells(rt.alloc(), *what)?;
        if told.as_str().strip_prefix(*begins) != Some(*ends) {
            return Err(Fail::new(told));
        }
    }
    Ok(())
}

#[test]
fn lists_are_filled(rt: HostRuntime) -> Result<(), Fail> {
    reads(filled::<Vec<u32>>(rt.alloc()), "[3, 1, 3]")?;
    reads(filled::<VecDeque<u32>>(rt.alloc()), "[3, 1, 3]")?;
    reads(filled::<BTreeSet<u32>>(rt.alloc()), "{1, 3}")
}
