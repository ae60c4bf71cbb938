//! The code of docs/GUIDE.md that is no program by itself: each call of its lists, files and
//! standard input, a message of the program's own, and usual shapes of command lines. `main` prints
//! what each reads off words of its own.
//!
//! It stands on `bpaf`, `bpaf_batteries` and `bpaf_program`. It has no contract for a layer above:
//! it is the top.
#![tactic(auto)]

mod batteries;
mod files;
mod first;
mod items;
mod joined;
mod limits;
mod often;
mod points;
mod ranges;
mod repeats;
mod shapes;
mod shown;
mod values;

use bpaf::{ParseFailure, Parser};
use std::fmt::Debug;
use std::io;

fn main(rt: HostRuntime) -> io::Result<()> {
    tell_first(&rt)?;
    tell_joined(&rt)?;
    tell_values(&rt)?;
    tell_others(&rt)?;
    tell_repeats(&rt)?;
    tell_ranges(&rt)?;
    tell_shown(&rt)?;
    tell_shapes(&rt)?;
    tell_often(&rt)?;
    tell_batteries(&rt)?;
    show_files(&rt, &["-n1", "two.txt", "one.txt"])?;
    show_files(&rt, &["-n", "2"])
}

/// Tells a value that words gave, or the message that they gave.
fn tell<T: Debug + Drop>(
    rt: &HostRuntime,
    name: &str,
    answer: Result<T, ParseFailure>,
) -> io::Result<()> {
    match answer {
        Ok(value) => println!(rt; "{name}: {value:?}"),
        Err(failure) => match failure.unwrap_stderr() {
            Ok(Some(message)) => println!(rt; "{name}: {message}"),
            _ => println!(rt; "{name}: no message"),
        },
    }
}

/// Tells what the first record reads, with a run over two writers and two options that exclude
/// each other.
fn tell_first(rt: &HostRuntime) -> io::Result<()> {
    let alloc = rt.alloc();
    let words = ["a", "-vn3", "b"];
    tell(rt, "first", first::read_options(alloc, &words))?;
    tell(rt, "described", first::read_described(alloc, &["-v"]))?;
    let options = first::number(alloc).into_options(alloc);
    match first::run_over(&options, &["-n", "3"], &mut rt.stdout(), &mut rt.stderr()) {
        Ok(num) => println!(rt; "over writers: {num}")?,
        Err(status) => println!(rt; "over writers: status {status}")?,
    }
    tell(rt, "limits", limits::read_limits(alloc, &["-c", "3"]))?;
    tell(rt, "limits", limits::read_limits(alloc, &["-c3", "-n4"]))?;
    tell(rt, "items", items::read_items(alloc, &["7", "+v"]))
}

/// Tells what records and choices read.
fn tell_joined(rt: &HostRuntime) -> io::Result<()> {
    let (alloc, words) = (rt.alloc(), ["-n3", "-v"]);
    tell(rt, "tuple", joined::tuple(alloc, &words))?;
    tell(rt, "record", joined::record(alloc, &words))?;
    tell(rt, "numbered", joined::by_number(alloc, &words))?;
    tell(rt, "made", joined::made(alloc, &words))?;
    tell(rt, "alone", joined::alone(alloc, &["-v"]))?;
    tell(rt, "nothing", joined::without_fields(alloc, &[]))?;
    tell(rt, "length", joined::length(alloc, &["--meters=4"]))?;
    tell(rt, "colour", joined::colour(alloc, &["--blue"]))
}

/// Tells what is made of values.
fn tell_values(rt: &HostRuntime) -> io::Result<()> {
    let (alloc, words) = (rt.alloc(), ["-n", "3"]);
    tell(rt, "map", values::mapped(alloc, &words))?;
    tell(rt, "parse", values::parsed(alloc, &words))?;
    tell(rt, "parse", values::parsed(alloc, &["-n", "30"]))?;
    tell(rt, "guard", values::guarded(alloc, &words))?;
    tell(rt, "guard", values::guarded(alloc, &["-n", "30"]))
}

/// Tells what stands for values that are left out.
fn tell_others(rt: &HostRuntime) -> io::Result<()> {
    let (alloc, words) = (rt.alloc(), ["-n", "3"]);
    tell(rt, "optional", values::optional(alloc, &words))?;
    tell(rt, "optional", values::optional(alloc, &[]))?;
    tell(rt, "catch", values::readable(alloc, &["-n", "3"]))?;
    tell(rt, "fallback", values::or_seven(alloc, &[]))?;
    tell(rt, "fallback_with", values::or_default(alloc, &[]))?;
    tell(rt, "pure", values::kept(alloc, &[]))?;
    tell(rt, "pure_with", values::answered(alloc, &[]))?;
    tell(rt, "fail", values::refused(alloc, &[]))
}

/// Tells what types of one's own read.
fn tell_ranges(rt: &HostRuntime) -> io::Result<()> {
    let alloc = rt.alloc();
    tell(rt, "cut", ranges::read_cut(alloc, &["-f1,3-5,7-"]))?;
    tell(
        rt,
        "cut",
        ranges::read_cut(alloc, &["-f=-3", "--color=never"]),
    )?;
    tell(rt, "cut", ranges::read_cut(alloc, &["-f1,,2"]))?;
    tell(rt, "cut", ranges::read_cut(alloc, &["-f1", "--color=red"]))
}

/// Tells what repeats read.
fn tell_repeats(rt: &HostRuntime) -> io::Result<()> {
    let (alloc, words) = (rt.alloc(), ["-n", "4", "-n3", "-n4"]);
    tell(rt, "many", repeats::all(alloc, &words))?;
    tell(rt, "some", repeats::some(alloc, &["a", "b"]))?;
    tell(rt, "some", repeats::some(alloc, &[]))?;
    tell(rt, "collect", repeats::ordered(alloc, &words))?;
    tell(rt, "count", repeats::counted(alloc, &["-vvv"]))?;
    tell(rt, "last", repeats::last(alloc, &words))?;
    tell(
        rt,
        "take_last",
        repeats::last_alone(alloc, &["-n", "x", "-n", "4"]),
    )
}

/// Tells that what is shown changes no value.
fn tell_shown(rt: &HostRuntime) -> io::Result<()> {
    let (alloc, words) = (rt.alloc(), ["-n", "3"]);
    tell(rt, "hide", shown::hidden(alloc, &words))?;
    tell(rt, "hide_usage", shown::without_usage(alloc, &words))?;
    tell(rt, "custom_usage", shown::with_usage(alloc, &words))?;
    tell(rt, "group_help", shown::grouped(alloc, &["3"]))?;
    tell(rt, "with_group_help", shown::titled(alloc, &["3"]))
}

/// Tells what options read that need or exclude one another.
fn tell_exclusive(rt: &HostRuntime) -> io::Result<()> {
    let alloc = rt.alloc();
    let login = ["--user", "ann", "--password", "x"];
    tell(rt, "login", shapes::read_login(alloc, &login))?;
    tell(rt, "login", shapes::read_login(alloc, &login[..2]))?;
    tell(rt, "login", shapes::read_login(alloc, &[]))?;
    let range = ["--to", "5", "--from", "3"];
    tell(rt, "range", shapes::read_range(alloc, &range))?;
    let range = ["--from", "5", "--to", "3"];
    tell(rt, "range", shapes::read_range(alloc, &range))?;
    let chosen = ["--only", "a", "--all"];
    tell(rt, "chosen", shapes::read_chosen(alloc, &chosen[..2]))?;
    tell(rt, "chosen", shapes::read_chosen(alloc, &chosen))?;
    let server = ["--host", "h", "--owner", "ann", "--socket", "s"];
    tell(rt, "server", shapes::read_server(alloc, &server[..2]))?;
    tell(rt, "server", shapes::read_server(alloc, &server[2..]))?;
    tell(rt, "server", shapes::read_server(alloc, &server))
}

/// Tells what is read where a command may be left out.
fn tell_commands(rt: &HostRuntime) -> io::Result<()> {
    let alloc = rt.alloc();
    tell(rt, "action", shapes::read_action(alloc, &["--show"]))?;
    tell(rt, "action", shapes::read_action(alloc, &["add", "1"]))?;
    tell(
        rt,
        "action",
        shapes::read_action(alloc, &["add", "1", "--show"]),
    )?;
    tell(rt, "set", shapes::read_level(alloc, &["set", "5"]))?;
    tell(rt, "set", shapes::read_level(alloc, &[]))
}

/// Tells what usual shapes read.
fn tell_shapes(rt: &HostRuntime) -> io::Result<()> {
    let alloc = rt.alloc();
    let words = ["remote", "add", "origin", "url", "-v"];
    tell(rt, "remote", shapes::read_remote(alloc, &words))?;
    tell(
        rt,
        "remote",
        shapes::read_remote(alloc, &["remote", "remove", "origin"]),
    )?;
    tell(rt, "place", shapes::read_place(alloc, &[]))?;
    tell(rt, "place", shapes::read_place(alloc, &["origin", "main"]))?;
    tell(rt, "search", shapes::read_search(alloc, &["x", "a", "b"]))?;
    tell(rt, "search", shapes::read_search(alloc, &["a", "-e", "x"]))?;
    tell_exclusive(rt)?;
    tell_commands(rt)?;
    tell(rt, "pair", shapes::read_pair(alloc, &["-a", "b"]))?;
    let words = ["--point", "1", "2", "-v", "--point", "3", "4"];
    tell(rt, "points", points::read_points(alloc, &words))?;
    tell(
        rt,
        "points",
        points::read_points(alloc, &["--point", "1", "-v", "2"]),
    )
}

/// Tells what programs often read.
fn tell_often(rt: &HostRuntime) -> io::Result<()> {
    let alloc = rt.alloc();
    tell(rt, "aliased", often::aliased(alloc, &["--colour=red"]))?;
    let words = ["-Da=1", "-D", "b=2"];
    tell(rt, "settings", often::settings(alloc, &words))?;
    tell(rt, "settings", often::settings(alloc, &["-D", "a"]))?;
    tell(rt, "defaulted", often::defaulted(alloc, &[]))?;
    tell(rt, "helped", often::helped(alloc, &[]))?;
    tell(rt, "passed", often::passed(alloc, &["--", "-x", "y"]))
}

/// Tells what batteries read.
fn tell_batteries(rt: &HostRuntime) -> io::Result<()> {
    let alloc = rt.alloc();
    tell(rt, "level", batteries::told(alloc, &[]))?;
    tell(rt, "level", batteries::told(alloc, &["-v"]))?;
    tell(
        rt,
        "level number",
        batteries::level_number(alloc, &["-vv", "-q"]),
    )?;
    tell(
        rt,
        "coloured",
        batteries::coloured(alloc, &["--no-color", "--color"]),
    )?;
    tell(rt, "helped", batteries::helped(alloc, &["asm", "-n", "3"]))?;
    let holds = batteries::is_in_order(alloc)?;
    println!(rt; "in order: {holds}")?;
    match batteries::usage(alloc)? {
        Some(page) => println!(rt; "{page}"),
        None => println!(rt; "no page"),
    }
}

/// Shows the first lines of what these words name.
fn show_files(rt: &HostRuntime, words: &[&str]) -> io::Result<()> {
    match files::read_options(rt.alloc(), words) {
        Ok(options) => files::show_all(rt, &options),
        Err(_) => Err(io::Error::from(io::ErrorKind::InvalidData)),
    }
}
