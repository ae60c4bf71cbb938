//! The texts of failures, missing items, and refusals for want of memory.
use bpaf_doc::{Doc, Item, Text};
use bpaf_keys::{ExtraParams, Info};
use bpaf_line::{Error, Message, MissingItem, MissingItems, ParseFailure};
use std::alloc::{AllocError, Global};
use std::test::Fail;
use test_support::{prints, reads};

/// A document of one text.
fn document(alloc: Global, text: &str) -> Result<Doc, AllocError> {
    let mut doc = Doc::new(alloc);
    doc.literal(text)?;
    Ok(doc)
}

/// A text that was asked for, in full or not.
fn asked(alloc: Global, text: &str, full: bool) -> Result<ParseFailure, AllocError> {
    Ok(ParseFailure::Stdout(document(alloc, text)?, full))
}

/// A message.
fn told(alloc: Global, text: &str) -> Result<ParseFailure, AllocError> {
    Ok(ParseFailure::Stderr(document(alloc, text)?))
}

/// What copies of a failure tell on standard output and on standard error, and its status.
fn texts(
    failure: Result<ParseFailure, AllocError>,
) -> Result<(Option<String>, Option<String>, i32), AllocError> {
    let failure = failure?;
    let asked = failure.copy()?.unwrap_stdout()?;
    let told = failure.copy()?.unwrap_stderr()?;
    Ok((asked, told, failure.exit_code()))
}

#[test]
fn failures_give_their_texts(rt: HostRuntime) -> Result<(), Fail> {
    let a = rt.alloc();
    prints(
        a,
        texts(asked(a, "help", true)),
        "(Some(\"help\"), None, 0)",
    )?;
    prints(a, texts(asked(a, "", false)), "(Some(\"\"), None, 0)")?;
    prints(a, texts(told(a, "no")), "(None, Some(\"no\"), 1)")?;
    prints(
        a,
        texts(Ok(ParseFailure::from(AllocError))),
        "(None, None, 1)",
    )
}

/// That a copy of a positional item is missing.
fn missing(alloc: Global, metavar: &str) -> Result<Error, AllocError> {
    let item = Item::Positional {
        metavar: Text::new(alloc, metavar)?,
        help: None,
    };
    let missed = MissingItem {
        item,
        position: 1,
        scope: 1..3,
    };
    let items = MissingItems::one(alloc, missed)?;
    Ok(Error(Message::Missing(items.copy()?)))
}

/// What two refusals miss together.
fn missing_both(alloc: Global) -> Result<Error, AllocError> {
    Ok(missing(alloc, "FILE")?.combine_with(missing(alloc, "DIR")?))
}

/// An item that was looked for in vain: its metavar, from where and in which scope.
fn push_missed(missed: &MissingItem, out: &mut String) -> Result<(), AllocError> {
    let position = missed.position;
    let scope = missed.scope.start..missed.scope.end;
    match &missed.item {
        Item::Positional {
            metavar,
            help: None,
        } => write!(out, "{metavar} from {position} in {scope:?};"),
        _ => out.push_str("another item;"),
    }
}

/// What a refusal misses.
fn missed_by(alloc: Global, error: &Error) -> Result<String, AllocError> {
    let mut out = String::new(alloc);
    let Message::Missing(items) = &error.0 else {
        return String::from_str(alloc, "another refusal");
    };
    for missed in items.as_slice() {
        push_missed(missed, &mut out)?;
    }
    Ok(out)
}

/// What two refusals together miss, in order.
fn missed_by_both(alloc: Global) -> Result<String, AllocError> {
    let both = missing_both(alloc)?;
    missed_by(alloc, &both)
}

#[test]
fn missing_items_are_joined(rt: HostRuntime) -> Result<(), Fail> {
    reads(
        missed_by_both(rt.alloc()),
        "FILE from 1 in 1..3;DIR from 1 in 1..3;",
    )
}

/// How many values a list holds: a parser of a caller's own may push with `?`.
fn pushed(alloc: Global) -> Result<usize, Error> {
    let mut values = Vec::new(alloc);
    values.push(7u8)?;
    Ok(values.len())
}

/// Whether a refusal is one for want of memory.
fn is_memory(error: Error) -> bool {
    error.is_memory()
}

#[test]
fn want_of_memory_is_known(rt: HostRuntime) -> Result<(), Fail> {
    assert!(rt; is_memory(Error::from(AllocError)));
    assert!(rt; is_memory(Error(Message::from(AllocError))));
    assert!(rt; !is_memory(Error(Message::Unconsumed(3))));
    assert_eq!(rt; pushed(rt.alloc()).ok(), Some(1));
    Ok(())
}

/// What a run knows, field by field.
fn known(alloc: Global, info: &Info) -> Result<String, AllocError> {
    let mut out = String::new(alloc);
    for text in [
        &info.version,
        &info.descr,
        &info.header,
        &info.footer,
        &info.usage,
    ] {
        write!(out, "{text:?} ")?;
    }
    for key in [&info.help_arg, &info.version_arg] {
        write!(out, "{key:?} ")?;
    }
    let (usage, numbers) = (info.help_if_no_args, info.numbers);
    write!(out, "{usage} {} {numbers}", info.max_width)?;
    Ok(out)
}

/// A copy of what a run knows, where nothing is set.
fn copy_known(alloc: Global) -> Result<String, AllocError> {
    let copy = Info::new().copy()?;
    known(alloc, &copy)
}

#[test]
fn keys_of_a_run_are_copied(rt: HostRuntime) -> Result<(), Fail> {
    let a = rt.alloc();
    reads(
        copy_known(a),
        "None None None None None None None false 100 false",
    )?;
    prints(a, ExtraParams::Help(true).copy(), "Help(true)")
}
