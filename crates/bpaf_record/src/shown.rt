//! What changes only what is shown: a field stays what it is inside, as does a command or a choice
//! of such. A product with such a look round it may stand in a program, but is no flat record.
ghost use Rattle.bpaf_grammar.specs.Grammar.{dressed};

use crate::field::{FlatField, ProgramField};
use crate::keys::KeyTest;
use crate::part::ProgramPart;
use crate::words::WordTest;
use bpaf::parsers::{ParseGroupHelp, ParseHide, ParseUsage};

impl<T, P: ProgramField<T>> ProgramField<T> for ParseUsage<P> {
    #[tactic(auto, using(crate::proofs::Parts::dressed_part_is))]
    fn part(&self) -> ProgramPart {
        self.inner.part().dressed()
    }

    fn all_keys<N: KeyTest>(&self, test: &N) -> bool {
        self.inner.all_keys(test)
    }

    fn all_words<W: WordTest>(&self, test: &W) -> bool {
        self.inner.all_words(test)
    }
}

impl<T, P: FlatField<T>> FlatField<T> for ParseUsage<P> {}

impl<T, P: ProgramField<T>> ProgramField<T> for ParseGroupHelp<P> {
    #[tactic(auto, using(crate::proofs::Parts::dressed_part_is))]
    fn part(&self) -> ProgramPart {
        self.inner.part().dressed()
    }

    fn all_keys<N: KeyTest>(&self, test: &N) -> bool {
        self.inner.all_keys(test)
    }

    fn all_words<W: WordTest>(&self, test: &W) -> bool {
        self.inner.all_words(test)
    }
}

impl<T, P: FlatField<T>> FlatField<T> for ParseGroupHelp<P> {}

/// A hidden parser may stand in a program, with the values that it has, but in no flat record: its
/// short names aren't known in joined words.
impl<T, P: ProgramField<T>> ProgramField<T> for ParseHide<P> {
    #[tactic(auto, using(crate::proofs::Parts::dressed_part_is))]
    fn part(&self) -> ProgramPart {
        self.inner.part().dressed()
    }

    fn all_keys<N: KeyTest>(&self, test: &N) -> bool {
        self.inner.all_keys(test)
    }

    fn all_words<W: WordTest>(&self, test: &W) -> bool {
        self.inner.all_words(test)
    }
}
