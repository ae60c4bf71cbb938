//! Points, each an adjacent group.
use crate::first::verbose;
use bpaf::{Args, ParseFailure, Parser, construct, long_key, positional};
use std::alloc::Global;

/// A point, behind its key.
pub type Point = ((), u64, u64);

/// A switch and any number of points.
pub fn read_points(alloc: Global, words: &[&str]) -> Result<(bool, Vec<Point>), ParseFailure> {
    let verbose = verbose(alloc);
    let key = long_key(alloc, "point").req_flag(());
    let x = positional::<u64>("X");
    let y = positional::<u64>("Y");
    let Ok(point) = construct!(key, x, y).adjacent(alloc) else {
        return Err(ParseFailure::Memory);
    };
    let points = point.many();
    let options = construct!(verbose, points).into_options(alloc);
    options.run_once(Args::from(words))
}
