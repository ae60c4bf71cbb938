//! A program to count instructions with: it parses a line again and again.
//!
//! ```text
//! bench_speed WORK SIZE REPEATS
//! ```
//!
//! It stands on `bpaf` alone. WORK names a parser and its line ([`Work`]), SIZE is how many words
//! of the line there are of the kind that it is about, and REPEATS how often the parser is built
//! and run. What it prints is the sum over all answers, so that no run can be left out.
//! docs/SPEED.md says how it is counted, and what was counted.
#![tactic(auto)]

mod parsers;
mod work;

use std::process::ExitCode;
use std::{env, io};
use work::Work;

fn main(rt: HostRuntime) -> io::Result<ExitCode> {
    let mut words = env::args(&rt)?.skip(1);
    let work = words.next().and_then(|name| Work::named(name.as_str()));
    let size = words
        .next()
        .and_then(|text| text.as_str().parse::<u32>().ok());
    let repeats = words
        .next()
        .and_then(|text| text.as_str().parse::<u32>().ok());
    let (Some(work), Some(size), Some(repeats)) = (work, size, repeats) else {
        eprintln!(rt;
            "usage: bench_speed record|choice|branch|switches|joined|keys|numbers|last SIZE REPEATS"
        )?;
        return Ok(ExitCode::from(1));
    };
    let line = work.line(rt.alloc(), size)?;
    let mut sum = 0u64;
    for _ in 0..repeats {
        sum = sum.wrapping_add(work.run(rt.alloc(), line.as_slice()));
    }
    println!(rt; "{sum}")?;
    Ok(ExitCode::from(0))
}
