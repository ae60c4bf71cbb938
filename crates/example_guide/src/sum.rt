//! A sum, of which negative terms are plain words.
use bpaf::{Args, ParseFailure, Parser, construct, positional, short_key};
use std::alloc::Global;

/// What is summed up.
#[derive(Debug, Drop)]
pub struct Sum {
    pub times: i64,
    pub terms: Vec<i64>,
}

/// The sum that the words tell, as `-n -2 -5 3`.
pub fn read_sum(alloc: Global, words: &[&str]) -> Result<Sum, ParseFailure> {
    let times = short_key(alloc, 'n').argument::<i64>("TIMES");
    let terms = positional::<i64>("TERM").many();
    let options = construct!(Sum { times, terms }).into_options(alloc);
    options.numbers_as_words().run_once(Args::from(words))
}
