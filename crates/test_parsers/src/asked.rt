//! What a run is asked for beside its value.
use bpaf_core::{ExtraParams, Info, Parser};
use bpaf_doc::Doc;
use bpaf_line::{Error, ParseFailure, State};
use bpaf_words::Args;
use std::alloc::{AllocError, Global};
use std::test::Fail;
use test_support::{prints, verbose};

/// A run with a version.
fn versioned(alloc: Global) -> Result<Info, AllocError> {
    let version = Doc::from_text(alloc, "1.2")?;
    let mut info = Info::new();
    info.version = Some(version);
    Ok(info)
}

/// What words ask for; None where they don't.
fn asked(
    alloc: Global,
    info: Result<Info, AllocError>,
    words: &[&str],
) -> Result<Option<ExtraParams>, AllocError> {
    let info = info?;
    match State::construct(alloc, Args::from(words), &['h', 'V'], &[]) {
        Ok(mut state) => {
            let extra = info.eval(&mut state);
            drop(state);
            known(extra)
        }
        Err(refused) => {
            drop(refused);
            Ok(None)
        }
    }
}

/// What was asked for, unless that is refused; want of memory stays that.
fn known(extra: Result<ExtraParams, Error>) -> Result<Option<ExtraParams>, AllocError> {
    match extra {
        Ok(extra) => Ok(Some(extra)),
        Err(error) => {
            let memory = error.is_memory();
            drop(error);
            if memory { Err(AllocError) } else { Ok(None) }
        }
    }
}

/// How Rust's Debug prints a version.
const VERSION: &str =
    "Some(Version(Doc { pieces: [Piece { text: \"1.2\", style: Text, detail: false }] }))";

#[test]
fn keys_of_a_run_are_read(rt: HostRuntime) -> Result<(), Fail> {
    let a = rt.alloc();
    // help_asked_of_info
    let one = "Some(Help(false))";
    prints(a, asked(a, Ok(Info::new()), &["x", "-h"]), one)?;
    // help_asked_of_info_twice
    let two = "Some(Help(true))";
    prints(a, asked(a, Ok(Info::new()), &["--help", "-h"]), two)?;
    // version_asked_of_info_without_one
    prints(a, asked(a, Ok(Info::new()), &["--version"]), "None")?;
    // version_asked_of_info
    prints(a, asked(a, versioned(a), &["--version", "x"]), VERSION)?;
    // help before the version
    prints(a, asked(a, versioned(a), &["-Vh"]), one)
}

/// The texts that a switch tells on standard output, where it is asked for help and where not.
fn outputs(alloc: Global) -> Result<(Option<String>, Option<String>), AllocError> {
    let options = verbose(alloc)?.to_options(alloc)?;
    // help_by_unwrap_stdout
    let help = output(options.run_inner(Args::from(&["--help"])))?;
    Ok((help, output(options.run_inner(Args::from(&["x"])))?))
}

/// The text on standard output.
fn output(answer: Result<bool, ParseFailure>) -> Result<Option<String>, AllocError> {
    match answer {
        Ok(_) => Ok(None),
        Err(failure) => failure.unwrap_stdout(),
    }
}

/// What these are: the page, and nothing.
const OUTPUTS: &str = "(Some(\"Usage: [-v]\\n\\nAvailable options:\\n    -v\\n    \
    -h, --help  Prints help information\\n\"), None)";

#[test]
fn help_goes_to_standard_output(rt: HostRuntime) -> Result<(), Fail> {
    let a = rt.alloc();
    prints(a, outputs(a), OUTPUTS)
}
