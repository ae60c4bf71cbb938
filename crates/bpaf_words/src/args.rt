//! What a run is given.
ghost use Rattle.std.specs.Prelude.{◌≡◌, ◌<◌, Some, length, slice_get, List, ℕ, map, option_map};
ghost use Rattle.bpaf_words.specs.Arguments.{words_in, words_of, given_name, env_of, entries_of};
ghost use Rattle.std.specs.{Prelude.[], Prelude.string_bytes, Option.option_map_or};
ghost use Rattle.bpaf_words.specs.Arguments.{AreWords};

use std::collections::BTreeMap;

/// The words, lent as one of two kinds of slice.
#[derive(Clone, Copy)]
pub enum Words<'a> {
    /// Lent texts.
    Strs(&'a [&'a str]),
    /// Owned texts.
    Strings(&'a [String]),
}

impl<'a> Words<'a> {
    /// How many words there are.
    pub fn len(self) -> usize
        ensures { result ≡ length (words_in self.entry) }
    {
        match self {
            Words::Strs(words) => words.len(),
            Words::Strings(words) => words.len(),
        }
    }

    /// The word at a place.
    pub fn at(self, index: usize) -> &'a str
        requires { index < length (words_in self) }
        ensures { slice_get (words_in self.entry) index ≡ Some result.now }
    {
        match self {
            Words::Strs(words) => words[index],
            Words::Strings(words) => words[index].as_str(),
        }
    }
}

/// What a run is given: words, perhaps a name, perhaps an environment, all lent.
#[derive(Clone, Copy)]
pub struct Args<'a> {
    pub(crate) words: Words<'a>,
    pub(crate) name: Option<&'a str>,
    pub(crate) env: Option<&'a BTreeMap<String, String>>,
}

/// A kind of word of which `Args` lends a slice.
pub trait LentWord<'a>: Sized {
    /// Its bytes.
    ghost text: { Self → List ℕ };

    /// The words of a slice.
    fn lend(words: &'a [Self]) -> Words<'a>
        ensures { words_in result ≡ map text words.now };
}

impl<'a> LentWord<'a> for &'a str {
    ghost text = { λ w. w.now };

    fn lend(words: &'a [&'a str]) -> Words<'a> {
        Words::Strs(words)
    }
}

impl<'a> LentWord<'a> for String {
    ghost text = { λ w. string_bytes w };

    fn lend(words: &'a [String]) -> Words<'a> {
        Words::Strings(words)
    }
}

impl<'a, T: LentWord<'a>, const N: usize> From<&'a [T; N]> for Args<'a> {
    ghost from_gives = { λ words args. AreWords (map T.text words.now) args };

    fn from(words: &'a [T; N]) -> Args<'a> {
        Args {
            words: T::lend(&words[..]),
            name: None,
            env: None,
        }
    }
}

impl<'a> From<&'a [&'a str]> for Args<'a> {
    ghost from_gives = { λ words args. AreWords (map (λ w. w.now) words.now) args };

    fn from(words: &'a [&'a str]) -> Args<'a> {
        Args {
            words: Words::Strs(words),
            name: None,
            env: None,
        }
    }
}

impl<'a> From<&'a [String]> for Args<'a> {
    ghost from_gives = { λ words args. AreWords (map string_bytes words.now) args };

    fn from(words: &'a [String]) -> Args<'a> {
        Args {
            words: Words::Strings(words),
            name: None,
            env: None,
        }
    }
}

impl<'a> Args<'a> {
    /// The words.
    pub fn words(self) -> Words<'a>
        ensures { words_in result ≡ words_of self.entry }
    {
        self.words
    }

    /// The set name, where there is one.
    pub fn name(self) -> Option<&'a str>
        ensures { option_map (λ name. name.now) result ≡ given_name self.entry }
    {
        self.name
    }

    /// The environment, where there is one.
    pub fn env(self) -> Option<&'a BTreeMap<String, String>>
        ensures { option_map_or (λ e. entries_of e.now) result [] ≡ env_of self.entry }
    {
        self.env
    }

    /// The same, with this name in place of the one that it has (bpaf's `Args::set_name`). It takes
    /// no memory.
    pub fn set_name(self, name: &'a str) -> Args<'a>
        ensures words { words_of result ≡ words_of self.entry }
        ensures name { given_name result ≡ Some name.now }
        ensures env { env_of result ≡ env_of self.entry }
    {
        Args {
            name: Some(name),
            ..self
        }
    }

    /// The same, with this environment in place of the one that it has. It takes no memory; bpaf
    /// reads the process's own.
    pub fn set_env(self, env: &'a BTreeMap<String, String>) -> Args<'a>
        ensures words { words_of result ≡ words_of self.entry }
        ensures name { given_name result ≡ given_name self.entry }
        ensures env { env_of result ≡ entries_of env.now }
    {
        Args {
            env: Some(env),
            ..self
        }
    }
}
