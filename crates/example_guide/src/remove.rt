//! A remover, of which it is proved, from its words to its bytes, that it tells of no file as
//! removed unless its key was spelled.
ghost use Rattle.std.specs.Prelude.{if◌then◌else◌, ◌≡◌, true, IfOk, codes, map, string_bytes};
ghost use Rattle.std.specs.Result.{IfErr};
ghost use Rattle.bpaf.specs.Asked.{IfShown};
ghost use Rattle.bpaf_program.specs.Ending.{OrPage, RunsTo, wrote};
ghost use Rattle.bpaf_program.specs.KnownParser.{HasOtherTexts};
ghost use Rattle.bpaf_record.specs.Record.{WasSpelled};
ghost use Rattle.example_guide.specs.Remove.{IsRemovalPage, IsRemovalText, force_names};
ghost use Rattle.example_guide.specs.Remove.{removal_known};

use bpaf::{Args, OptionParser, ParseFailure, Parser, construct, key, positional, short_key};
use bpaf_program::{Sink, print, push_lines};
use bpaf_record::Record;
use std::alloc::{AllocError, Global};

/// What a removal is told.
#[derive(Drop)]
pub struct Removal {
    pub depth: Option<u64>,
    pub force: bool,
    pub files: Vec<String>,
}

/// The removal that the words tell. It is forced only where one of the words before the first `--`
/// spells `-f` or `--force`, alone or among joined letters.
pub fn read_removal(alloc: Global, words: &[String]) -> Result<Removal, ParseFailure>
    ensures forced { IfOk result (λ removal. removal.force ≡ true
        → WasSpelled removal_known force_names (map string_bytes words.now)) }
    ensures page { IfErr result (IfShown (IsRemovalPage (map string_bytes words.now))) }
{
    let depth = short_key(alloc, 'd').argument::<u64>("N").optional();
    let force = key(alloc, 'f', "force").switch();
    let files = positional::<String>("FILE").many();
    let options = construct!(Removal {
        depth,
        force,
        files
    })
    .into_options(alloc);
    let options = with_texts(options)?;
    options.run_record(Args::from(words).set_name("remove"))
}

/// The same options with the texts of the remover's help page.
fn with_texts<T, P: Drop>(options: OptionParser<T, P>) -> Result<OptionParser<T, P>, AllocError>
    ensures inner { IfOk result (λ told. told.inner ≡ options.inner) }
    ensures info { IfOk result (λ told. HasOtherTexts options.info told.info) }
{
    options
        .version_str("1.2")?
        .descr_str("Removes files")?
        .header_str("Without --force they are told, and kept")?
        .footer_str("See also: ls")
}

/// Runs the remover on its words and gives its status. Its files are printed a line each, as
/// `removed: FILE` only where `-f` or `--force` was spelled, else as `kept: FILE`.
pub fn run<S: Sink, E: Sink>(alloc: Global, words: &[String], out: &mut S, err: &mut E) -> u8
    ensures { RunsTo (OrPage (IsRemovalText (map string_bytes words.now))
        (IsRemovalPage (map string_bytes words.now))) (wrote S.known out.old out.new) (wrote E.known err.old err.new) result }
{
    print(lines_of(alloc, words), out, err)
}

/// The lines of the removal that the words tell; refused where they tell none.
fn lines_of(alloc: Global, words: &[String]) -> Result<String, ParseFailure>
    ensures lines { IfOk result (λ text.
        IsRemovalText (map string_bytes words.now) (string_bytes text)) }
    ensures page { IfErr result (IfShown (IsRemovalPage (map string_bytes words.now))) }
{
    let removal = read_removal(alloc, words)?;
    let mut text = String::new(alloc);
    push_lines(&mut text, told(removal.force), removal.files.as_slice())?;
    Ok(text)
}

/// What is told of each file.
fn told(force: bool) -> &'static str
    ensures { result.now ≡ (if force then codes "removed: " else codes "kept: ") }
{
    if force { "removed: " } else { "kept: " }
}
