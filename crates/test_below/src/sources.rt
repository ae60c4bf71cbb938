//! What lends the words of a run, and a word that is split by itself.
ghost use Rattle.std.specs.Prelude.{◌≢◌, codes};

use crate::calls::played;
use bpaf_words::{Args, SplitFault, split_word};
use std::alloc::{AllocError, Global};
use std::collections::BTreeMap;
use std::test::Fail;
use test_support::{prints, reads};

/// What a run was given beside its words.
fn given(alloc: Global, args: Args<'_>) -> Result<String, AllocError> {
    played(
        alloc,
        args,
        false,
        "/",
        "env NUM, env num, depth, path, items",
    )
}

/// The answers of a line of owned words, with a name and with `NUM=5` in the environment.
fn owned(alloc: Global, words: &[String]) -> Result<String, AllocError> {
    let mut variables = BTreeMap::new(alloc);
    variables.insert(
        String::from_str(alloc, "NUM")?,
        String::from_str(alloc, "5")?,
    )?;
    let args = Args::from(words).set_name("app").set_env(&variables);
    given(alloc, args)
}

/// The same, of a slice and of an array, the latter without a name and an environment.
fn both_owned(alloc: Global) -> Result<(String, String), AllocError> {
    let words = [String::from_str(alloc, "x")?];
    let slice = owned(alloc, &words)?;
    Ok((slice, given(alloc, Args::from(&words))?))
}

/// The answers of a line of lent words.
fn lent(alloc: Global) -> Result<String, AllocError> {
    given(alloc, Args::from(&["x", "y"]))
}

#[test]
fn words_name_and_environment_are_lent(rt: HostRuntime) -> Result<(), Fail> {
    let a = rt.alloc();
    let wanted = r#"("Some(\"5\");None;1;[\"app\"];0 x,;", "None;None;0;[];0 x,;")"#;
    prints(a, both_owned(a), wanted)?;
    reads(lent(a), "None;None;0;[];0 x,1 y,;")
}

/// How many items a word spells that isn't `--`, or the number of its ambiguous character.
fn split(alloc: Global, word: &str, flags: &[char], arguments: &[char]) -> Result<usize, usize>
    requires { word.now ≢ codes "--" }
{
    let mut items = Vec::new(alloc);
    match split_word(alloc, word, flags, arguments, false, &mut items) {
        Ok(()) => Ok(items.len()),
        Err(SplitFault::Ambiguous(number)) => Err(number),
        Err(SplitFault::Memory) => Err(0),
    }
}

#[test]
fn a_word_is_split_alone(rt: HostRuntime) {
    assert_eq!(rt; split(rt.alloc(), "-n=3", &[], &[]), Ok(2));
    assert_eq!(rt; split(rt.alloc(), "-ab", &['a', 'b'], &['b']), Err(2));
}
