//! With ample memory no line is too long for an answer, and no parser too deep.
use bpaf::parsers::ParseCommand;
use bpaf::{Parser, positional, short};
use std::alloc::{AllocError, Global};
use std::collections::VecDeque;
use std::test::Fail;
use test_support::{answers, num, reads, value, verbose};

/// A line of one word so many times.
fn repeated(
    alloc: Global,
    word: &'static str,
    number: usize,
) -> Result<Vec<&'static str>, AllocError> {
    let mut words = Vec::new(alloc);
    for _ in 0..number {
        words.push(word)?;
    }
    Ok(words)
}

/// How many of so many words are read.
fn words_read(alloc: Global, number: usize) -> Result<Option<usize>, AllocError> {
    let words = repeated(alloc, "w", number)?;
    let files = positional::<String>("FILE").count();
    value(alloc, files, words.as_slice())
}

#[test]
fn a_hundred_thousand_words_are_read(rt: HostRuntime) -> Result<(), Fail> {
    // count_of_a_hundred_thousand_words
    assert_eq!(rt; words_read(rt.alloc(), 100_000)?, Some(100_000));
    Ok(())
}

/// How many of so many numbers are collected.
fn numbers_collected(alloc: Global, number: usize) -> Result<Option<usize>, AllocError> {
    let words = repeated(alloc, "-n3", number)?;
    let numbers = num(alloc)?.collect::<VecDeque<u64>>();
    let numbers = value(alloc, numbers, words.as_slice())?;
    Ok(numbers.map(|numbers| numbers.len()))
}

#[test]
fn a_thousand_values_are_collected(rt: HostRuntime) -> Result<(), Fail> {
    // collection_of_a_thousand_values
    assert_eq!(rt; numbers_collected(rt.alloc(), 1_000)?, Some(1_000));
    Ok(())
}

/// How often a flag stands in one word of so many letters.
fn letters_read(alloc: Global, number: usize) -> Result<Option<usize>, AllocError> {
    let mut word = String::from_str(alloc, "-")?;
    for _ in 0..number {
        word.push('v')?;
    }
    let flags = short(alloc, 'v')?.req_flag(()).count();
    value(alloc, flags, &[word.as_str()])
}

#[test]
fn ten_thousand_letters_are_read(rt: HostRuntime) -> Result<(), Fail> {
    // ten_thousand_letters_in_one_word
    assert_eq!(rt; letters_read(rt.alloc(), 10_000)?, Some(10_000));
    Ok(())
}

/// A command `a` over a parser.
fn deeper<T: Drop, P: Parser<T> + Drop>(
    alloc: Global,
    parser: P,
) -> Result<ParseCommand<T, P>, AllocError> {
    parser.to_options(alloc)?.command("a")
}

/// Three commands in one another over a parser.
type Three<T, P> = ParseCommand<T, ParseCommand<T, ParseCommand<T, P>>>;

/// Five of them.
type Five<T, P> = ParseCommand<T, ParseCommand<T, Three<T, P>>>;

/// Five commands `a` in one another over a parser.
fn five_deeper<T: Drop, P: Parser<T> + Drop>(
    alloc: Global,
    parser: P,
) -> Result<Five<T, P>, AllocError> {
    let three = deeper(alloc, deeper(alloc, deeper(alloc, parser)?)?)?;
    deeper(alloc, deeper(alloc, three)?)
}

/// What ten commands in one another answer to their words, and to help behind them.
fn ten_commands(alloc: Global) -> Result<String, AllocError> {
    let five = five_deeper(alloc, verbose(alloc)?)?;
    let full = ["a", "a", "a", "a", "a", "a", "a", "a", "a", "a", "-v"];
    answers(alloc, five_deeper(alloc, five)?, &[&full, &full[1..]])
}

#[test]
fn ten_commands_deep_is_read(rt: HostRuntime) -> Result<(), Fail> {
    let wanted =
        "ok true\nerr expected `COMMAND ...`, got `-v`. Pass `--help` for usage information\n";
    reads(ten_commands(rt.alloc()), wanted)
}
