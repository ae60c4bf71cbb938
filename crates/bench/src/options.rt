//! The options of the bench itself.
use bench_rows::Options;
use bpaf::{Args, ParseFailure, Parser, construct, long_key, positional};
use std::alloc::Global;

/// The options that the words give; refused where they give none, or for want of memory.
pub fn read_options(alloc: Global, words: &[String]) -> Result<Options, ParseFailure> {
    let all = long_key(alloc, "all").switch().help("Print every answer");
    let beginnings = long_key(alloc, "beginnings")
        .argument::<u64>("N")
        .help("Run the first N beginnings of each row too")
        .fallback(0);
    let files = positional::<String>("FILE")
        .help("Files of parsers and rows")
        .many();
    let options = construct!(Options {
        all,
        beginnings,
        files
    });
    options.run_once(alloc, Args::from(words).set_name("bench"))
}
