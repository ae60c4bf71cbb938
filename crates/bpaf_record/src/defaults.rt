//! Fields that may be missing, and commands that may be left out.
ghost use Rattle.std.specs.Prelude.{true};
ghost use Rattle.bpaf_grammar.specs.Grammar.{optional};

use crate::field::{FlatField, ProgramField};
use crate::keys::KeyTest;
use crate::part::ProgramPart;
use crate::words::WordTest;
use bpaf::parsers::{ParseFallback, ParseFallbackWith, ParseOptional};
use std::fmt::Display;

/// With `catch` it is nothing to a program.
impl<T: Drop, P: ProgramField<T>> ProgramField<Option<T>> for ParseOptional<P> {
    #[tactic(auto, using(crate::proofs::Parts::optional_part_is))]
    fn part(&self) -> ProgramPart {
        self.inner.part().completed().only_if(!self.catch)
    }

    fn all_keys<N: KeyTest>(&self, test: &N) -> bool {
        self.inner.all_keys(test)
    }

    fn all_words<W: WordTest>(&self, _test: &W) -> bool {
        true
    }
}

impl<T: Drop, P: FlatField<T>> FlatField<Option<T>> for ParseOptional<P> {}

impl<T: Clone, P: ProgramField<T>> ProgramField<T> for ParseFallback<P, T> {
    #[tactic(auto, using(crate::proofs::Parts::fallback_part_is))]
    fn part(&self) -> ProgramPart {
        self.inner.part().completed()
    }

    fn all_keys<N: KeyTest>(&self, test: &N) -> bool {
        self.inner.all_keys(test)
    }

    fn all_words<W: WordTest>(&self, _test: &W) -> bool {
        true
    }
}

impl<T: Clone, P: FlatField<T>> FlatField<T> for ParseFallback<P, T> {}

/// The closure must not refuse where it may give a value.
impl<T, E: Display + Drop, P: ProgramField<T>, F: Fn() -> Result<T, E>> ProgramField<T>
    for ParseFallbackWith<T, P, F, E> {
    #[tactic(auto, using(crate::proofs::Parts::fallback_part_is))]
    fn part(&self) -> ProgramPart {
        self.inner.part().completed()
    }

    fn all_keys<N: KeyTest>(&self, test: &N) -> bool {
        self.inner.all_keys(test)
    }

    fn all_words<W: WordTest>(&self, _test: &W) -> bool {
        true
    }
}

impl<T, E: Display + Drop, P: FlatField<T>, F> FlatField<T> for ParseFallbackWith<T, P, F, E> {}
