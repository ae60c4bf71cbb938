//! Fields that may be given again and again.
ghost use Rattle.std.specs.Prelude.{true};

use crate::field::{FlatField, ProgramField};
use crate::keys::KeyTest;
use crate::part::ProgramPart;
use crate::words::WordTest;
use bpaf::FromList;
use bpaf::parsers::{ParseCollect, ParseCount, ParseLast, ParseMany, ParseSome};

/// With `catch` it is nothing to a program.
impl<T: Drop, P: ProgramField<T>> ProgramField<Vec<T>> for ParseMany<P> {
    #[tactic(auto, using(crate::proofs::Parts::repeat_part_is))]
    fn part(&self) -> ProgramPart {
        self.inner.part().completed().only_if(!self.catch)
    }

    fn all_keys<N: KeyTest>(&self, test: &N) -> bool {
        self.inner.all_keys(test)
    }

    fn all_words<W: WordTest>(&self, _test: &W) -> bool {
        true
    }
}

impl<T: Drop, P: FlatField<T>> FlatField<Vec<T>> for ParseMany<P> {}

/// As `many`.
impl<'m, T: Drop, P: ProgramField<T>> ProgramField<Vec<T>> for ParseSome<'m, P> {
    #[tactic(auto, using(crate::proofs::Parts::repeat_part_is))]
    fn part(&self) -> ProgramPart {
        self.inner.part().completed().only_if(!self.catch)
    }

    fn all_keys<N: KeyTest>(&self, test: &N) -> bool {
        self.inner.all_keys(test)
    }

    fn all_words<W: WordTest>(&self, _test: &W) -> bool {
        true
    }
}

impl<'m, T: Drop, P: FlatField<T>> FlatField<Vec<T>> for ParseSome<'m, P> {}

/// As `many`.
impl<T: Drop, C: FromList<T> + Drop, P: ProgramField<T>> ProgramField<C> for ParseCollect<P, C, T> {
    #[tactic(auto, using(crate::proofs::Parts::repeat_part_is))]
    fn part(&self) -> ProgramPart {
        self.inner.part().completed().only_if(!self.catch)
    }

    fn all_keys<N: KeyTest>(&self, test: &N) -> bool {
        self.inner.all_keys(test)
    }

    fn all_words<W: WordTest>(&self, _test: &W) -> bool {
        true
    }
}

impl<T: Drop, C: FromList<T> + Drop, P: FlatField<T>> FlatField<C> for ParseCollect<P, C, T> {}

impl<T: Drop, P: ProgramField<T>> ProgramField<usize> for ParseCount<P, T> {
    #[tactic(auto, using(crate::proofs::Parts::listed_part_is))]
    fn part(&self) -> ProgramPart {
        self.inner.part().completed()
    }

    fn all_keys<N: KeyTest>(&self, test: &N) -> bool {
        self.inner.all_keys(test)
    }

    fn all_words<W: WordTest>(&self, _test: &W) -> bool {
        true
    }
}

impl<T: Drop, P: FlatField<T>> FlatField<usize> for ParseCount<P, T> {}

impl<T: Drop, P: ProgramField<T>> ProgramField<T> for ParseLast<P> {
    #[tactic(auto, using(crate::proofs::Parts::last_part_is))]
    fn part(&self) -> ProgramPart {
        self.inner.part().completed()
    }

    fn all_keys<N: KeyTest>(&self, test: &N) -> bool {
        self.inner.all_keys(test)
    }

    fn all_words<W: WordTest>(&self, _test: &W) -> bool {
        true
    }
}

impl<T: Drop, P: FlatField<T>> FlatField<T> for ParseLast<P> {}
