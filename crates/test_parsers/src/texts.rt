//! The messages of refusals, where a row needs a text or a metavar that no description has.
use bpaf::{Parser, Text, construct, fail, long, positional, short};
use std::alloc::{AllocError, Global};
use std::cell::Cell;
use std::test::Fail;
use test_support::{answers, num, reads, verbose, walk};

/// A switch that must be set, any number of times.
fn must_be_set(alloc: Global) -> Result<(), Fail> {
    let set = verbose(alloc)?.guard(|set| *set, "must be set").many();
    // many_asks_guard_once_more
    walk(alloc, set, "-v | err check failed: must be set")
}

/// What a flag answers, and a refusal in the author's words.
const ACCEPTED: &str = "
# fail_in_choice
 | err You must accept
# flag_before_fail_in_choice
--accept | ok ()
";

/// A flag, or that refusal, as fields that are named.
fn must_accept(alloc: Global) -> Result<(), Fail> {
    let accepted = construct!([
        accept(long(alloc, "accept")?.req_flag(())),
        refusal(fail::<()>("You must accept")),
    ]);
    walk(alloc, accepted, ACCEPTED)
}

#[test]
fn authors_say_why(rt: HostRuntime) -> Result<(), Fail> {
    must_be_set(rt.alloc())?;
    must_accept(rt.alloc())
}

/// Numbers of which a check accepts the first alone.
fn first_alone(alloc: Global, words: &[&str]) -> Result<String, AllocError> {
    let later = Cell::new(false);
    let first = num(alloc)?.guard(|_| !later.replace(true), "no").many();
    answers(alloc, first, &[words])
}

#[test]
fn check_that_changes_tells_the_word(rt: HostRuntime) -> Result<(), Fail> {
    // many_of_changing_guard
    let found = first_alone(rt.alloc(), &["-n", "1", "-n", "2"]);
    reads(found, "err `2`: no\n")
}

/// Words that are kept as texts, behind one behind a key.
fn kept_as_texts(alloc: Global, words: &[&str]) -> Result<String, AllocError> {
    let key = short(alloc, 'e')?.argument::<Text>("TEXT");
    let files = positional::<Text>("WORD").many();
    answers(alloc, construct!(key, files), &[words])
}

#[test]
fn words_are_kept_as_texts(rt: HostRuntime) -> Result<(), Fail> {
    // words_as_texts
    let kept = kept_as_texts(rt.alloc(), &["a", "-e", "x"]);
    reads(kept, "ok (\"x\", [\"a\"])\n")?;
    // an empty text and a long one
    let kept = kept_as_texts(rt.alloc(), &["-e", "", "a word of more than 23 bytes"]);
    reads(kept, "ok (\"\", [\"a word of more than 23 bytes\"])\n")
}
