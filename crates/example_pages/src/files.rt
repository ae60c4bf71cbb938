//! The first lines of files, or of standard input where none is named.
use bpaf::{Args, ParseFailure, Parser, construct, positional, short_key};
use std::alloc::Global;
use std::io::{BufRead, BufReader};
use std::{fs, io};

/// How many lines of which files are shown.
#[derive(Drop)]
pub struct Options {
    pub num: usize,
    pub files: Vec<String>,
}

/// The options that the words give.
pub fn read_options(alloc: Global, words: &[&str]) -> Result<Options, ParseFailure> {
    let num = short_key(alloc, 'n').argument::<usize>("NUM").fallback(10);
    let files = positional::<String>("FILE").many();
    construct!(Options { num, files }).run_once(alloc, Args::from(words))
}

/// Shows the first lines of each file, or of standard input.
pub fn show_all(rt: &HostRuntime, options: &Options) -> io::Result<()> {
    if options.files.is_empty() {
        return show(rt, BufReader::new(rt.alloc(), rt.reader())?, options.num);
    }
    for name in &options.files {
        let file = fs::open(rt, name.as_str())?;
        show(rt, BufReader::new(rt.alloc(), file)?, options.num)?;
    }
    Ok(())
}

/// Shows the first lines of a reader.
fn show<R: BufRead + Drop>(rt: &HostRuntime, reader: R, num: usize) -> io::Result<()> {
    for line in reader.lines(rt.alloc()).take(num) {
        let line = line?;
        println!(rt; "{line}")?;
    }
    Ok(())
}
