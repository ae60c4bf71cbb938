//! The files of the bench, one after another, and its status.
use crate::bench::{Bench, Counts};
use crate::options::Options;
use bench_values::Described;
use std::alloc::Global;
use std::io::{BufRead, BufReader, BufWriter, Write};
use std::{fs, io};

/// Reads lines to their end, as those of a file of this name. One that can't be read, or isn't
/// UTF-8, ends them.
fn run_lines<P: Described, R: BufRead + Drop, W: Write>(
    alloc: Global,
    bench: &mut Bench<P>,
    name: &str,
    reader: R,
    out: &mut W,
) -> io::Result<()> {
    bench.begin(name)?;
    for line in reader.lines(alloc) {
        match line {
            Ok(line) => bench.line(line.as_str(), out)?,
            Err(error) => {
                let fault = format!(in alloc; "the line can't be read: {error}")?;
                bench.next_line();
                return bench.fault(fault.as_str(), out);
            }
        }
    }
    bench.end(out)
}

/// Reads files, one after the other; one that can't be opened is a fault.
fn run_files<P: Described, W: Write>(
    rt: &HostRuntime,
    bench: &mut Bench<P>,
    names: &[String],
    out: &mut W,
) -> io::Result<()> {
    let alloc = rt.alloc();
    for name in names {
        match fs::open(rt, name.as_str()) {
            Ok(file) => {
                let file = BufReader::new(alloc, file)?;
                run_lines(alloc, bench, name.as_str(), file, out)?;
            }
            Err(error) => {
                bench.begin(name.as_str())?;
                let fault = format!(in alloc; "the file can't be read: {error}")?;
                bench.fault(fault.as_str(), out)?;
            }
        }
    }
    Ok(())
}

/// The status of a run: 2 where something wasn't what it should be, else 1 where a row differs,
/// else 0.
fn status(counts: Counts) -> u8 {
    if counts.faults > 0 {
        2
    } else if counts.differ > 0 {
        1
    } else {
        0
    }
}

/// Runs the rows of the files, or of standard input where none is named, and answers the status.
pub fn run_bench<P: Described>(rt: &HostRuntime, options: &Options) -> io::Result<u8> {
    let alloc = rt.alloc();
    let mut out = BufWriter::new(alloc, io::writer(rt))?;
    let mut bench: Bench<P> = Bench::new(alloc, options.all, options.beginnings);
    let files = options.files.as_slice();
    if files.is_empty() {
        let input = BufReader::new(alloc, rt.reader())?;
        run_lines(alloc, &mut bench, "standard input", input, &mut out)?;
    }
    run_files(rt, &mut bench, files, &mut out)?;
    bench.sum(&mut out)?;
    out.flush()?;
    Ok(status(bench.counts()))
}
