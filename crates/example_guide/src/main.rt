//! The programs of docs/GUIDE.md and docs/FACTS.md: a parser, a value and a collection of a caller's
//! own, a backup, a remover, a `head`, an archiver, a dimmer, programs with commands, one of them
//! with guards on texts, a login, and a row of a test. `main` runs them.
//!
//! It stands on `bpaf`, `bpaf_record` and `bpaf_program`, and its definitions also cite those of
//! the crates below. It has no contract for a layer above: it is the top.
//!
//! ```text
//! example_guide -s 3 --level=high --no-color -n 1 -n 2
//! ```
#![tactic(auto)]

mod archive;
mod backup;
mod clean;
mod closures;
mod commands;
mod dim;
mod git;
mod head;
mod keys;
mod login;
mod options;
mod remove;
mod row;
mod share;
mod sum;
mod tasks;
mod toggle;
mod types;

use bpaf::ParseFailure;
use bpaf_program::{end, words};
use options::{Options, read_options};
use std::alloc::{AllocError, Global};
use std::collections::BTreeMap;
use std::env::VarError;
use std::fmt::Debug;
use std::process::ExitCode;
use std::{env, io};

fn main(rt: HostRuntime) -> io::Result<ExitCode> {
    let mut out = rt.stdout();
    let mut err = rt.stderr();
    let variables = environment(&rt)?;
    match end(asked(&rt, &variables), &mut out, &mut err) {
        Ok(options) => {
            show_all(&rt, options.size)?;
            Ok(ExitCode::SUCCESS)
        }
        Err(status) => Ok(ExitCode::from(status)),
    }
}

/// The options that the process is called with.
fn asked(rt: &HostRuntime, variables: &BTreeMap<String, String>) -> Result<Options, ParseFailure> {
    let words = words(rt)?;
    read_options(rt.alloc(), words.as_slice(), variables)
}

/// The variables of the environment by their names.
fn environment(rt: &HostRuntime) -> io::Result<BTreeMap<String, String>> {
    let entries = match env::vars(rt) {
        Ok(entries) => entries,
        Err(VarError::OutOfMemory) => return Err(io::Error::from(AllocError)),
        Err(_) => return Err(io::Error::from(io::ErrorKind::InvalidData)),
    };
    let mut variables = BTreeMap::new(rt.alloc());
    for (name, value) in entries {
        variables.insert(name, value)?;
    }
    Ok(variables)
}

/// Tells the size, and what each program reads off words of its own.
fn show_all(rt: &HostRuntime, size: u128) -> io::Result<()> {
    println!(rt; "size: {size}")?;
    show_backup(rt)?;
    show_removal(rt)?;
    show_head(rt)?;
    show_archive(rt)?;
    show_dimming(rt)?;
    show_cleaning(rt)?;
    show_share(rt)?;
    show_login(rt)?;
    tell(rt, "row", row::read_seconds(rt.alloc(), &["-s", "5"]))?;
    tell(
        rt,
        "sum",
        sum::read_sum(rt.alloc(), &["-n", "-2", "-5", "3"]),
    )?;
    tell(rt, "color", toggle::read_color(rt.alloc(), &["--no-color"]))?;
    show_commit(rt)?;
    show_task(rt)
}

/// Words as a process has them.
fn words_of(alloc: Global, words: &[&str]) -> Result<Vec<String>, AllocError> {
    let mut owned = Vec::new(alloc);
    for word in words {
        owned.push(String::from_str(alloc, word)?)?;
    }
    Ok(owned)
}

/// Tells a value that words gave, or that they gave none; want of memory is neither.
fn tell<T: Debug + Drop>(
    rt: &HostRuntime,
    name: &str,
    answer: Result<T, ParseFailure>,
) -> io::Result<()> {
    match answer {
        Ok(value) => println!(rt; "{name}: {value:?}"),
        Err(ParseFailure::Memory) => Err(io::Error::from(AllocError)),
        Err(_) => println!(rt; "{name}: none"),
    }
}

/// Tells that a program ended with status 0; one that didn't has told why, and ends the guide.
fn tell_end(rt: &HostRuntime, name: &str, status: u8) -> io::Result<()> {
    if status == 0 {
        println!(rt; "{name}: status 0")
    } else {
        Err(io::Error::from(io::ErrorKind::Other))
    }
}

/// Tells what a backup reads off words of its own.
fn show_backup(rt: &HostRuntime) -> io::Result<()> {
    let words = ["-j4", "a", "--depth=2", "-k1", "-v", "b", "-s", "5", "c"];
    tell(rt, "backup", backup::read_backup(rt.alloc(), &words))
}

/// Runs the remover on words of its own.
fn show_removal(rt: &HostRuntime) -> io::Result<()> {
    let words = words_of(rt.alloc(), &["a", "-f"])?;
    let status = remove::run(rt.alloc(), &words, &mut rt.stdout(), &mut rt.stderr());
    tell_end(rt, "removal", status)
}

/// Runs the `head` on words of its own.
fn show_head(rt: &HostRuntime) -> io::Result<()> {
    let words = words_of(rt.alloc(), &["--bytes=5", "a"])?;
    let status = head::run(rt.alloc(), &words, &mut rt.stdout(), &mut rt.stderr());
    tell_end(rt, "head", status)
}

/// Tells what an archiver reads off words of its own.
fn show_archive(rt: &HostRuntime) -> io::Result<()> {
    let words = words_of(rt.alloc(), &["-avv", "-oa.tar", "--root=b"])?;
    tell(rt, "archive", archive::read_archive(rt.alloc(), &words))
}

/// Tells what a dimmer reads off words of its own.
fn show_dimming(rt: &HostRuntime) -> io::Result<()> {
    let words = words_of(rt.alloc(), &["--percent=40", "-l3"])?;
    tell(rt, "dimming", dim::read_dimming(rt.alloc(), &words))
}

/// Tells what the program with commands reads off words of its own.
fn show_cleaning(rt: &HostRuntime) -> io::Result<()> {
    let words = words_of(rt.alloc(), &["remove", "-f", "a"])?;
    tell(rt, "cleaning", clean::read_cleaning(rt.alloc(), &words))
}

/// Tells what is shared by words of its own, of which two have an empty name.
fn show_share(rt: &HostRuntime) -> io::Result<()> {
    for (user, file) in [("ann", "a"), ("", "a"), ("ann", "")] {
        let words = words_of(rt.alloc(), &["add", file, "-u", user])?;
        tell(rt, "share", share::read_share(rt.alloc(), &words))?;
    }
    Ok(())
}

/// Tells who logs in by words of its own, of which the last ones lack the password.
fn show_login(rt: &HostRuntime) -> io::Result<()> {
    let words = words_of(rt.alloc(), &["-px", "-u", "ann"])?;
    tell(rt, "login", login::read_login(rt.alloc(), &words))?;
    let words = words_of(rt.alloc(), &[])?;
    tell(rt, "login", login::read_login(rt.alloc(), &words))?;
    let words = words_of(rt.alloc(), &["-u", "ann"])?;
    tell(rt, "login", login::read_login(rt.alloc(), &words))
}

/// Tells what the list of tasks reads off words of its own.
fn show_task(rt: &HostRuntime) -> io::Result<()> {
    let words = words_of(rt.alloc(), &["add", "-thome", "buy"])?;
    tell(rt, "task", tasks::read_task(rt.alloc(), &words))
}

/// Tells what `git` reads off words of its own.
fn show_commit(rt: &HostRuntime) -> io::Result<()> {
    let words = words_of(rt.alloc(), &["commit", "-mdone"])?;
    tell(rt, "git", git::read_git(rt.alloc(), &words))
}
