//! What an archiver is told, of which is known, option by option, what it says of the words.
ghost use Rattle.std.specs.Prelude.{IfOk, map, string_bytes};
ghost use Rattle.example_guide.specs.Archive.{HasSpelled, WasToldBy};

use bpaf::{Args, ParseFailure, Parser, construct, key};
use bpaf_record::Record;
use std::alloc::Global;

/// What an archiver is told.
#[derive(Debug, Drop)]
pub struct Archive {
    pub agreed: bool,
    pub out: String,
    pub root: String,
    pub level: Option<u128>,
    pub jobs: u64,
    pub without: Vec<String>,
    pub verbose: usize,
    pub quiet: bool,
}

/// The archive that the words tell. What it has was spelled, and what was spelled it has.
pub fn read_archive(alloc: Global, words: &[String]) -> Result<Archive, ParseFailure>
    ensures told { IfOk result (WasToldBy (map string_bytes words.now)) }
    ensures spelled { IfOk result (HasSpelled (map string_bytes words.now)) }
{
    let agreed = key(alloc, 'a', "agree").req_flag(true);
    let out = key(alloc, 'o', "out").argument::<String>("FILE");
    let root = key(alloc, 'r', "root").argument::<String>("DIR").last();
    let level = key(alloc, 'l', "level").argument::<u64>("N");
    let level = level.map(|n| u128::from(n)).optional();
    let jobs = key(alloc, 'j', "jobs").argument::<u64>("N").fallback(1);
    let without = key(alloc, 'x', "without").argument::<String>("NAME").many();
    let verbose = key(alloc, 'v', "verbose").req_flag(()).count();
    let quiet = key(alloc, 'q', "quiet").switch();
    let archive = construct!(Archive {
        agreed,
        out,
        root,
        level,
        jobs,
        without,
        verbose,
        quiet
    });
    let options = archive.into_options(alloc);
    options.run_record(Args::from(words))
}
