//! What a caller gives to a parser: closures over what they hold, texts to keep, values of types of
//! its own and what these fill.
use crate::shared::file;
use bpaf::params::ParsePositional;
use bpaf::{Doc, FromList, Help, Parser, fail, positional, pure_with};
use std::alloc::{AllocError, Global};
use std::collections::BTreeSet;
use std::test::Fail;
use test_support::{num, prints, value};

/// Twice the number, where that is below a limit and isn't refused; else the limit.
fn doubled(
    alloc: Global,
    limit: u64,
    refused: u64,
    words: &[&str],
) -> Result<Option<u64>, AllocError> {
    let parser = num(alloc)?
        .map(move |n| n.saturating_add(n))
        .guard(move |n| *n < limit, "too much")
        .parse(move |n| if n == refused { Err("refused") } else { Ok(n) })
        .fallback_with(move || Ok::<u64, &str>(limit));
    value(alloc, parser, words)
}

/// The answer of a closure, where a refusal comes before it.
fn answered(alloc: Global, number: u64) -> Result<Option<u64>, AllocError> {
    let closure = pure_with(move || Ok::<u64, &str>(number));
    value(alloc, fail::<u64>("never").or_else(closure), &[])
}

#[test]
fn closures_hold_what_they_need(rt: HostRuntime) -> Result<(), Fail> {
    let a = rt.alloc();
    prints(a, doubled(a, 100, 8, &["-n3"]), "Some(6)")?;
    prints(a, doubled(a, 100, 8, &["-n", "50"]), "None")?;
    prints(a, doubled(a, 100, 8, &["-n", "4"]), "None")?;
    prints(a, doubled(a, 100, 8, &["-n", "x"]), "None")?;
    prints(a, doubled(a, 100, 8, &[]), "Some(100)")?;
    prints(a, answered(a, 6), "Some(6)")
}

/// A file, or one by the name `none`.
fn or_none(alloc: Global, words: &[&str]) -> Result<Option<String>, AllocError> {
    let none = String::from_str(alloc, "none")?;
    value(alloc, file().fallback(none), words)
}

/// A word with a help.
fn helped(alloc: Global) -> Result<ParsePositional<String>, AllocError> {
    let help = Doc::from_text(alloc, "File to process")?;
    Ok(file().help(help))
}

/// The help of a copy.
fn copied_help(alloc: Global) -> Result<Option<Doc>, AllocError> {
    Help::doc_of(alloc, &helped(alloc)?.copy()?.help)
}

/// How Rust's Debug prints it.
const HELP: &str = "Some(Doc { pieces: [Piece { text: \"File to process\", \
    style: Text, detail: false }] })";

#[test]
fn texts_are_kept(rt: HostRuntime) -> Result<(), Fail> {
    let a = rt.alloc();
    prints(a, or_none(a, &[]), "Some(\"none\")")?;
    prints(a, or_none(a, &["x"]), "Some(\"x\")")?;
    prints(a, copied_help(a), HELP)
}

/// The greatest of all.
#[derive(Debug, Drop)]
struct Greatest(Option<u64>);

impl FromList<u64> for Greatest {
    ghost use Rattle.std.specs.Prelude.{IfOk, ⊤};

    ghost fills = { λ items greatest. ⊤ };

    fn from_list(items: Vec<u64>) -> Result<Greatest, AllocError>
        ensures { IfOk result (λ greatest. ⊤) }
    {
        Ok(Greatest(items.iter().copied().max()))
    }
}

/// What three numbers fill.
fn filled<C: FromList<u64> + Drop>(alloc: Global) -> Result<Option<C>, AllocError> {
    let numbers = positional::<u64>("NUM").collect::<C>();
    value(alloc, numbers, &["2", "1", "2"])
}

#[test]
fn collections_are_filled(rt: HostRuntime) -> Result<(), Fail> {
    let a = rt.alloc();
    prints(a, filled::<BTreeSet<u64>>(a), "Some({1, 2})")?;
    prints(a, filled::<Greatest>(a), "Some(Greatest(Some(2)))")
}
