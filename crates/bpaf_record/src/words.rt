//! The words of commands, and whether they are apart.
ghost use Rattle.std.specs.Prelude.{◌≡◌, ◌++◌, not, bytes_eq, encode_utf8, map, Bool, ℕ, List};
ghost use Rattle.std.specs.List.{list_all};
ghost use Rattle.bpaf_laws.specs.Command.{opening_words};
ghost use Rattle.bpaf_exact.specs.ProgramForm.{is_dashed};
ghost use Rattle.bpaf_grammar.specs.Grammar.{command_words};

use crate::field::ProgramField;
use bpaf::Text;
use bpaf::parsers::CommandNames;
use std::marker::PhantomData;

/// A test of the word of a command.
pub trait WordTest {
    /// Whether this word passes.
    ghost accepts: { Self → List ℕ → Bool };

    /// Whether the word passes. It takes no memory.
    fn test(&self, word: &str) -> bool
        ensures { result ≡ accepts self.now word.now };
}

/// The test for any word but this one.
#[derive(Drop)]
pub(crate) struct OtherThan<'a> {
    pub word: &'a str,
}

impl WordTest for OtherThan<'_> {
    ghost accepts = { λ t other. not (bytes_eq t.word.now other) };

    fn test(&self, word: &str) -> bool {
        self.word != word
    }
}

/// The test for no word of the commands of another parser.
#[derive(Drop)]
pub(crate) struct NoWordOf<'a, T, P> {
    pub other: &'a P,
    pub value: PhantomData<T>,
}

impl<T, P: ProgramField<T>> WordTest for NoWordOf<'_, T, P> {
    ghost accepts = { λ t word. list_all (λ other. not (bytes_eq word other))
        (command_words (P.grammar t.other.now)) };

    fn test(&self, word: &str) -> bool {
        self.other.all_words(&OtherThan { word })
    }
}

/// The test for a plain word: not empty, and not one that begins with a dash.
#[derive(Drop)]
pub(crate) struct Plain {}

impl WordTest for Plain {
    ghost accepts = { λ t word. not (is_dashed word) };

    fn test(&self, word: &str) -> bool {
        match word.as_bytes() {
            [] => false,
            [first, ..] => *first != b'-',
        }
    }
}

/// Whether the word of this character passes a test.
fn short_passes<W: WordTest>(name: char, test: &W) -> bool
    ensures { result ≡ W.accepts test.now (encode_utf8 name) }
{
    let mut bytes = [0u8; 4];
    test.test(name.encode_utf8(&mut bytes))
}

/// Whether all these names pass a test.
fn longs_pass<W: WordTest>(longs: &[Text], test: &W) -> bool
    ensures { result ≡ list_all (W.accepts test.now) longs.now }
{
    longs.iter().all(|name| test.test(name.as_str()))
}

/// Whether the words of all these characters pass a test.
fn shorts_pass<W: WordTest>(shorts: &[char], test: &W) -> bool
    ensures { result ≡ list_all (W.accepts test.now) (map encode_utf8 shorts.now) }
{
    match shorts {
        [] => true,
        [first, rest @ ..] => {
            let here = short_passes(*first, test);
            let behind = shorts_pass(rest, test);
            here && behind
        }
    }
}

/// Whether all words of these names but the first pass a test.
#[tactic(auto, using(crate::proofs::Parts::all_joined))]
fn others_pass<W: WordTest>(names: &CommandNames, test: &W) -> bool
    ensures { result ≡ list_all (W.accepts test.now)
        (names.now.longs ++ map encode_utf8 names.now.shorts) }
{
    let longs = longs_pass(names.longs(), test);
    let shorts = shorts_pass(names.shorts(), test);
    longs && shorts
}

/// Whether the words of these names pass a test.
pub(crate) fn names_pass<W: WordTest>(names: &CommandNames, test: &W) -> bool
    ensures { result ≡ list_all (W.accepts test.now) (opening_words names.now) }
{
    let name = test.test(names.name());
    let others = others_pass(names, test);
    name && others
}
