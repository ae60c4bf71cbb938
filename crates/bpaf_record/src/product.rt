//! Products of fields.
ghost use Rattle.std.specs.Prelude.{true};

use crate::field::{FlatField, FlatFields, ProgramField, ProgramFields};
use crate::keys::{ApartFromFields, KeyTest, NoKey};
use crate::part::ProgramPart;
use crate::words::WordTest;
use bpaf::parsers::ParseCon;
use bpaf::{Both, Constructor, Last};
use std::marker::PhantomData;

impl<T: Drop, A: ProgramField<T>> ProgramFields<T> for Last<A> {
    #[tactic(auto, using(crate::proofs::Parts::alone_part_is))]
    fn fields_part(&self) -> ProgramPart {
        self.last.part().field().last()
    }

    fn all_keys<N: KeyTest>(&self, test: &N) -> bool {
        self.last.all_keys(test)
    }
}

impl<T: Drop, A: FlatField<T>> FlatFields<T> for Last<A> {}

/// Where a named field stands behind a positional one, a positional one before commands, or two
/// share a name, they are nothing.
impl<T: Drop, V, A: ProgramField<T>, R: ProgramFields<V>> ProgramFields<(T, V)> for Both<A, R> {
    fn fields_part(&self) -> ProgramPart {
        let apart = self.first.all_keys(&ApartFromFields {
            others: &self.rest,
            values: PhantomData::<V>,
        });
        let no_key_behind = self.rest.all_keys(&NoKey {});
        let rest = self.rest.fields_part();
        self.first.part().field().then(rest, apart, no_key_behind)
    }

    #[tactic(auto, using(crate::proofs::Parts::all_joined))]
    fn all_keys<N: KeyTest>(&self, test: &N) -> bool {
        let first = self.first.all_keys(test);
        let rest = self.rest.all_keys(test);
        first && rest
    }
}

impl<T: Drop, V, A: FlatField<T>, R: FlatFields<V>> FlatFields<(T, V)> for Both<A, R> {}

impl<V, T, P: ProgramFields<V>, M: Constructor<V, T>> ProgramField<T> for ParseCon<V, P, M> {
    #[tactic(auto, using(crate::proofs::Parts::con_part_is))]
    fn part(&self) -> ProgramPart {
        self.fields.fields_part().made()
    }

    fn all_keys<N: KeyTest>(&self, test: &N) -> bool {
        self.fields.all_keys(test)
    }

    fn all_words<W: WordTest>(&self, _test: &W) -> bool {
        true
    }
}

impl<V, T, P: FlatFields<V>, M> FlatField<T> for ParseCon<V, P, M> {}
