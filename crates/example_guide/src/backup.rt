//! A record of ten fields, of which it is known which lines it accepts.
use bpaf::{Args, ParseFailure, Parser, construct, key, positional};
use bpaf_record::Record;
use std::alloc::Global;

/// What a backup is told.
#[derive(Debug, Drop)]
pub struct Backup {
    pub force: bool,
    pub update: bool,
    pub dry_run: bool,
    pub verbose: bool,
    pub jobs: u64,
    pub depth: u64,
    pub keep: u64,
    pub sizes: Vec<u64>,
    pub from: String,
    pub to: Vec<String>,
}

/// What the words tell a backup; None where its parser is no flat record.
pub fn read_backup(alloc: Global, words: &[&str]) -> Result<Option<Backup>, ParseFailure> {
    let force = key(alloc, 'f', "force").switch();
    let update = key(alloc, 'u', "update").switch();
    let dry_run = key(alloc, 'd', "dry-run").switch();
    let verbose = key(alloc, 'v', "verbose").switch();
    let jobs = key(alloc, 'j', "jobs").argument::<u64>("NUM");
    let depth = key(alloc, 'D', "depth").argument::<u64>("NUM");
    let keep = key(alloc, 'k', "keep").argument::<u64>("NUM");
    let sizes = key(alloc, 's', "size").argument::<u64>("NUM").many();
    let from = positional::<String>("FROM");
    let to = positional::<String>("TO").many();
    let backup = construct!(Backup {
        force,
        update,
        dry_run,
        verbose,
        jobs,
        depth,
        keep,
        sizes,
        from,
        to
    });
    backup.into_options(alloc).record_value(Args::from(words))
}
