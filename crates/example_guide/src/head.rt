//! What a `head` tells: each file, as by bytes only where `-c` or `--bytes` was spelled, which is
//! proved from its words to its bytes.
ghost use Rattle.std.specs.Prelude.{if◌then◌else◌, is_some, ◌≡◌, IfOk, IsSome, codes, map, string_bytes};
ghost use Rattle.std.specs.Result.{IfErr};
ghost use Rattle.bpaf.specs.Asked.{IfShown};
ghost use Rattle.bpaf_program.specs.Ending.{OrPage, RunsTo, wrote};
ghost use Rattle.bpaf_record.specs.Record.{WasSpelled};
ghost use Rattle.example_guide.specs.Head.{IsHeadPage, IsHeadText, bytes_names, head_known};

use bpaf::{Args, ParseFailure, Parser, construct, key, positional};
use bpaf_program::{Sink, print, push_lines};
use bpaf_record::Record;
use std::alloc::Global;

/// What a `head` is asked for.
#[derive(Drop)]
pub struct Head {
    pub bytes: Option<u64>,
    pub files: Vec<String>,
}

/// What the words ask for. Bytes are counted only where one of the words before the first `--`
/// spells `-c` or `--bytes`.
pub fn read_head(alloc: Global, words: &[String]) -> Result<Head, ParseFailure>
    ensures by_bytes { IfOk result (λ head. IsSome head.bytes
        → WasSpelled head_known bytes_names (map string_bytes words.now)) }
    ensures page { IfErr result (IfShown (IsHeadPage (map string_bytes words.now))) }
{
    let bytes = key(alloc, 'c', "bytes").argument::<u64>("N").optional();
    let files = positional::<String>("FILE").many();
    let options = construct!(Head { bytes, files }).into_options(alloc);
    options.run_record(Args::from(words))
}

/// Runs the program on its words and gives its status. Its files are printed a line each, as
/// `by bytes: FILE` only where `-c` or `--bytes` was spelled, else as `by lines: FILE`.
pub fn run<S: Sink, E: Sink>(alloc: Global, words: &[String], out: &mut S, err: &mut E) -> u8
    ensures { RunsTo (OrPage (IsHeadText (map string_bytes words.now))
        (IsHeadPage (map string_bytes words.now))) (wrote S.known out.old out.new) (wrote E.known err.old err.new) result }
{
    print(lines_of(alloc, words), out, err)
}

/// The lines that the words ask for; refused where they ask for none.
fn lines_of(alloc: Global, words: &[String]) -> Result<String, ParseFailure>
    ensures lines { IfOk result (λ text.
        IsHeadText (map string_bytes words.now) (string_bytes text)) }
    ensures page { IfErr result (IfShown (IsHeadPage (map string_bytes words.now))) }
{
    let head = read_head(alloc, words)?;
    let mut text = String::new(alloc);
    push_lines(&mut text, told(head.bytes), head.files.as_slice())?;
    Ok(text)
}

/// What is told of each file.
fn told(bytes: Option<u64>) -> &'static str
    ensures { result.now ≡ (if is_some bytes then codes "by bytes: " else codes "by lines: ") }
{
    match bytes {
        Some(_) => "by bytes: ",
        None => "by lines: ",
    }
}
