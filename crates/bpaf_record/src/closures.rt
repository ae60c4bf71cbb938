//! Fields and commands whose value a closure makes or checks.
ghost use Rattle.bpaf_grammar.specs.Grammar.{closed};

use crate::field::{FlatField, ProgramField};
use crate::keys::KeyTest;
use crate::part::ProgramPart;
use crate::words::WordTest;
use bpaf::parsers::{ParseGuard, ParseMap, ParseWith};
use std::fmt::Display;

/// A closure that never refuses needs no premise.
impl<T, R, P: ProgramField<T>, F: Fn(T) -> R> ProgramField<R> for ParseMap<T, P, F, R> {
    #[tactic(auto, using(crate::proofs::Parts::closed_part_is))]
    fn part(&self) -> ProgramPart {
        self.inner.part().closed()
    }

    fn all_keys<N: KeyTest>(&self, test: &N) -> bool {
        self.inner.all_keys(test)
    }

    fn all_words<W: WordTest>(&self, test: &W) -> bool {
        self.inner.all_words(test)
    }
}

impl<T, R, P: FlatField<T>, F> FlatField<R> for ParseMap<T, P, F, R> {}

/// Whether the closure accepts has to depend on the pieces alone, or round commands on what is
/// present.
impl<T, R, E: Display + Drop, P: ProgramField<T>, F: Fn(T) -> Result<R, E>> ProgramField<R>
    for ParseWith<T, P, F, E, R> {
    #[tactic(auto, using(crate::proofs::Parts::closed_part_is))]
    fn part(&self) -> ProgramPart {
        self.inner.part().closed()
    }

    fn all_keys<N: KeyTest>(&self, test: &N) -> bool {
        self.inner.all_keys(test)
    }

    fn all_words<W: WordTest>(&self, test: &W) -> bool {
        self.inner.all_words(test)
    }
}

impl<T, R, E: Display + Drop, P: FlatField<T>, F> FlatField<R> for ParseWith<T, P, F, E, R> {}

/// Whether the check is true has to depend on the pieces alone, or round commands on what is
/// present.
impl<'m, T: Drop, P: ProgramField<T>, F: Fn(&T) -> bool> ProgramField<T> for ParseGuard<'m, P, F> {
    #[tactic(auto, using(crate::proofs::Parts::closed_part_is))]
    fn part(&self) -> ProgramPart {
        self.inner.part().closed()
    }

    fn all_keys<N: KeyTest>(&self, test: &N) -> bool {
        self.inner.all_keys(test)
    }

    fn all_words<W: WordTest>(&self, test: &W) -> bool {
        self.inner.all_words(test)
    }
}

impl<'m, T: Drop, P: FlatField<T>, F> FlatField<T> for ParseGuard<'m, P, F> {}
