//! The rows of a file, read line by line, and what they come to.
use crate::answer::{Surroundings, answer, is_answer, is_wanted, run_beginnings};
use crate::words::{is_separated, quoted, quoted_words, separated_words};
use bench_values::{Described, Description, Place, Value, read_options};
use bpaf_core::OptionParser;
use std::alloc::{AllocError, Global};
use std::collections::BTreeMap;
use std::io;
use std::io::Write;

/// The parser of the rows that come.
#[derive(Drop)]
enum Standing<P> {
    /// No description stands above them.
    Missing,
    /// The description above them isn't one of a parser.
    Refused,
    /// This one.
    Made(OptionParser<Value, P>),
}

/// How a line ends: each has one end, and each end but the first is counted.
#[derive(Clone, Copy)]
pub enum LineEnd {
    /// It is no row.
    Read,
    /// A row that was run; no other answer is wanted.
    Run,
    /// A row that was run, and whose answer isn't the wanted one.
    Differs,
    /// A row that wasn't run, since the description above it isn't one of a parser.
    Skipped,
    /// It isn't what it should be, and that was told.
    Fault,
}

/// How many lines there were.
#[derive(Clone, Copy)]
pub struct Counts {
    /// Rows that were run.
    pub rows: u64,
    /// Of these those whose answer isn't the wanted one.
    pub differ: u64,
    /// Rows that weren't run, since the description above them isn't one of a parser.
    pub skipped: u64,
    /// Lines and files that aren't what they should be.
    pub faults: u64,
    /// Beginnings of rows that were run.
    pub beginnings: u64,
}

impl Counts {
    /// Counts a line, up to the greatest number.
    fn add(&mut self, end: LineEnd) {
        let run = matches!(end, LineEnd::Run | LineEnd::Differs);
        self.rows = self.rows.saturating_add(u64::from(run));
        let differs = matches!(end, LineEnd::Differs);
        self.differ = self.differ.saturating_add(u64::from(differs));
        let skipped = matches!(end, LineEnd::Skipped);
        self.skipped = self.skipped.saturating_add(u64::from(skipped));
        let faulty = matches!(end, LineEnd::Fault);
        self.faults = self.faults.saturating_add(u64::from(faulty));
    }
}

/// A run over files of descriptions and rows, of which it holds a description and a line.
#[derive(Drop)]
pub struct Bench<P> {
    alloc: Global,
    all: bool,
    beginnings: u64,
    file: String,
    line: u64,
    description: Description,
    parser: Standing<P>,
    name: Option<String>,
    variables: BTreeMap<String, String>,
    counts: Counts,
}

/// What words are run with.
fn surroundings<'a>(
    name: &'a Option<String>,
    variables: &'a BTreeMap<String, String>,
) -> Surroundings<'a> {
    let name = match name {
        Some(name) => Some(name.as_str()),
        None => None,
    };
    Surroundings { name, variables }
}

/// The words of a row; nothing where a quote isn't closed.
fn words_of(alloc: Global, text: &str) -> Result<Option<Vec<String>>, AllocError> {
    if is_separated(text) {
        Ok(Some(separated_words(alloc, text)?))
    } else {
        quoted_words(alloc, text)
    }
}

impl<P: Described> Bench<P> {
    /// A run that has read nothing; `all` is whether every answer is printed, and `beginnings` how
    /// many beginnings of each row are run too.
    pub fn new(alloc: Global, all: bool, beginnings: u64) -> Bench<P> {
        Bench {
            alloc,
            all,
            beginnings,
            file: String::new(alloc),
            line: 0,
            description: Description::new(alloc),
            parser: Standing::Missing,
            name: None,
            variables: BTreeMap::new(alloc),
            counts: Counts {
                rows: 0,
                differ: 0,
                skipped: 0,
                faults: 0,
                beginnings: 0,
            },
        }
    }

    /// How many rows there were.
    pub fn counts(&self) -> Counts {
        self.counts
    }

    /// Begins a file of this name: no parser stands, and neither the program's name nor a variable
    /// is set.
    pub fn begin(&mut self, file: &str) -> Result<(), AllocError> {
        self.file = String::from_str(self.alloc, file)?;
        self.line = 0;
        self.description = Description::new(self.alloc);
        self.parser = Standing::Missing;
        self.name = None;
        self.variables = BTreeMap::new(self.alloc);
        Ok(())
    }

    /// Ends the file.
    pub fn end<W: Write>(&mut self, out: &mut W) -> io::Result<()> {
        if self.description.is_open() {
            self.fault("the file ends where a parenthesis is open", out)?;
        }
        Ok(())
    }

    /// Goes to the next line of the file.
    pub fn next_line(&mut self) {
        self.line = self.line.saturating_add(1);
    }

    /// Tells and counts a fault of this line, or of the file where no line was reached.
    pub fn fault<W: Write>(&mut self, fault: &str, out: &mut W) -> io::Result<()> {
        let end = self.tell(fault, out)?;
        self.counts.add(end);
        Ok(())
    }

    /// Reads and counts a line.
    pub fn line<W: Write>(&mut self, line: &str, out: &mut W) -> io::Result<()> {
        self.next_line();
        let end = self.read(line, out)?;
        self.counts.add(end);
        Ok(())
    }

    /// Tells a fault of this line, or of the file where no line was reached.
    fn tell<W: Write>(&self, fault: &str, out: &mut W) -> io::Result<LineEnd> {
        let file = self.file.as_str();
        match self.line {
            0 => writeln!(out, "{file}: {fault}")?,
            line => writeln!(out, "{file}:{line}: {fault}")?,
        }
        Ok(LineEnd::Fault)
    }

    /// Reads a line.
    fn read<W: Write>(&mut self, line: &str, out: &mut W) -> io::Result<LineEnd> {
        if self.description.is_open() {
            return self.describe(1, line, line, out);
        }
        if line.starts_with('#') && !line.contains('\t') && !is_separated(line) {
            return self.heading(line, out);
        }
        if line.is_empty() {
            return self.copy(line, out);
        }
        self.row(line, out)
    }

    /// Prints a line that is no row, where every answer is printed.
    fn copy<W: Write>(&self, line: &str, out: &mut W) -> io::Result<LineEnd> {
        if self.all {
            writeln!(out, "{line}")?;
        }
        Ok(LineEnd::Read)
    }

    /// Reads a line that begins with `#` and is no row: a comment, a variable, the program's name
    /// or a description.
    fn heading<W: Write>(&mut self, line: &str, out: &mut W) -> io::Result<LineEnd> {
        if line.starts_with("##") {
            return self.copy(line, out);
        }
        if let Some(setting) = line.strip_prefix("#env ") {
            self.copy(line, out)?;
            return self.set(setting, out);
        }
        if let Some(name) = line.strip_prefix("#name ") {
            self.copy(line, out)?;
            self.name = Some(String::from_str(self.alloc, name)?);
            return Ok(LineEnd::Read);
        }
        self.description = Description::new(self.alloc);
        self.describe(2, line.strip_prefix('#').unwrap_or(""), line, out)
    }

    /// Sets a variable of the environment.
    fn set<W: Write>(&mut self, setting: &str, out: &mut W) -> io::Result<LineEnd> {
        let Some((name, value)) = setting.split_once('=') else {
            return self.tell("a variable is set as `#env NAME=VALUE`", out);
        };
        let name = String::from_str(self.alloc, name)?;
        let value = String::from_str(self.alloc, value)?;
        self.variables.insert(name, value)?;
        Ok(LineEnd::Read)
    }

    /// Reads a line of a description, whose text begins at this column, and makes the parser where
    /// it is whole.
    fn describe<W: Write>(
        &mut self,
        column: u64,
        text: &str,
        line: &str,
        out: &mut W,
    ) -> io::Result<LineEnd> {
        self.copy(line, out)?;
        let place = Place {
            line: self.line,
            column,
        };
        self.parser = Standing::Refused;
        self.description.push_line(place, text)?;
        if self.description.is_open() {
            return Ok(LineEnd::Read);
        }
        if self.description.tokens().is_empty() {
            return self.tell("no parser is described", out);
        }
        match read_options(self.alloc, &self.description) {
            Ok(parser) => {
                self.parser = Standing::Made(parser);
                Ok(LineEnd::Read)
            }
            Err(fault) => {
                fault.tell(self.file.as_str(), out)?;
                Ok(if fault.is_deep() {
                    LineEnd::Read
                } else {
                    LineEnd::Fault
                })
            }
        }
    }

    /// Reads a row: words, and behind a tab the wanted answer.
    fn row<W: Write>(&mut self, line: &str, out: &mut W) -> io::Result<LineEnd> {
        let (text, wanted) = match line.split_once('\t') {
            Some((text, wanted)) => (text, Some(wanted)),
            None => (line, None),
        };
        let Some(words) = words_of(self.alloc, text)? else {
            return self.tell("a quote isn't closed", out);
        };
        let wanted = wanted.filter(|wanted| !wanted.is_empty());
        if !wanted.is_none_or(is_answer) {
            return self.tell(
                "an answer begins with `ok`, `err`, `out` or `full`, or is `memory`",
                out,
            );
        }
        let got = match &self.parser {
            Standing::Missing => return self.tell("no parser stands above this row", out),
            Standing::Refused => return Ok(LineEnd::Skipped),
            Standing::Made(parser) => {
                let words = words.as_slice();
                let most = self.beginnings;
                let with = surroundings(&self.name, &self.variables);
                let ran = run_beginnings(self.alloc, parser, with, words, most)?;
                self.counts.beginnings = self.counts.beginnings.saturating_add(ran);
                let with = surroundings(&self.name, &self.variables);
                answer(self.alloc, parser, with, words)?
            }
        };
        if self.all || wanted.is_none() {
            writeln!(out, "{text}\t{got}")?;
        }
        match wanted {
            Some(wanted) => self.compare(words.as_slice(), wanted, got.as_str(), out),
            None => Ok(LineEnd::Run),
        }
    }

    /// Compares the answer of a row with the wanted one, and prints the row where they differ.
    fn compare<W: Write>(
        &self,
        words: &[String],
        wanted: &str,
        got: &str,
        out: &mut W,
    ) -> io::Result<LineEnd> {
        if is_wanted(wanted, got) {
            return Ok(LineEnd::Run);
        }
        self.differ(words, wanted, got, out)?;
        if got == "memory" {
            self.again(words, out)?;
        }
        Ok(LineEnd::Differs)
    }

    /// Prints a row whose answer isn't the wanted one.
    fn differ<W: Write>(
        &self,
        words: &[String],
        wanted: &str,
        got: &str,
        out: &mut W,
    ) -> io::Result<()> {
        let (file, line) = (self.file.as_str(), self.line);
        let parser = self.description.text()?;
        let words = quoted(self.alloc, words)?;
        writeln!(
            out,
            "{file}:{line}: {parser}\n    words   {words}\n    wanted  {wanted}\n    got     {got}"
        )
    }

    /// Runs the same parser once more, behind a run for which there was no memory, and prints its
    /// answer.
    fn again<W: Write>(&self, words: &[String], out: &mut W) -> io::Result<()> {
        if let Standing::Made(parser) = &self.parser {
            let with = surroundings(&self.name, &self.variables);
            let got = answer(self.alloc, parser, with, words)?;
            writeln!(out, "    again   {got}")?;
        }
        Ok(())
    }

    /// Prints how many rows there were.
    pub fn sum<W: Write>(&self, out: &mut W) -> io::Result<()> {
        let Counts {
            rows,
            differ,
            skipped,
            faults: _,
            beginnings,
        } = self.counts;
        write!(out, "{rows} rows, {differ} differ")?;
        if skipped > 0 {
            write!(out, ", {skipped} skipped")?;
        }
        if beginnings > 0 {
            write!(out, ", {beginnings} beginnings")?;
        }
        writeln!(out, "")
    }
}
