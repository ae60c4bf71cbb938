//! Choices of fields, and of commands.
ghost use Rattle.std.specs.Prelude.{◌≡◌, ◌≤◌, flat_map, length, take, true};
ghost use Rattle.std.specs.List.{list_all};
ghost use Rattle.bpaf_exact.specs.Flat.{Variables};
ghost use Rattle.bpaf_grammar.specs.Grammar.{choices_of, command_words, keys_of, only};
ghost use Rattle.bpaf_record.specs.{Program.program_form, Part.form_part};

use crate::field::{FlatField, ProgramField};
use crate::keys::{ApartFromField, KeyTest};
use crate::part::ProgramPart;
use crate::words::{NoWordOf, WordTest};
use bpaf::parsers::{ParseChoice, ParseOrElse};
use std::marker::PhantomData;

/// Of named parts, whose names are apart, and of commands, whose words are.
impl<T: Drop, A: ProgramField<T>, B: ProgramField<T>> ProgramField<T> for ParseOrElse<A, B> {
    fn part(&self) -> ProgramPart {
        let keys_apart = self.this.all_keys(&ApartFromField {
            other: &self.that,
            value: PhantomData::<T>,
        });
        let words_apart = self.this.all_words(&NoWordOf {
            other: &self.that,
            value: PhantomData::<T>,
        });
        self.this
            .part()
            .or_else(self.that.part(), keys_apart, words_apart)
    }

    #[tactic(auto, using(crate::proofs::Parts::all_joined))]
    fn all_keys<N: KeyTest>(&self, test: &N) -> bool {
        let this = self.this.all_keys(test);
        let that = self.that.all_keys(test);
        this && that
    }

    #[tactic(auto, using(crate::proofs::Parts::all_joined))]
    fn all_words<W: WordTest>(&self, test: &W) -> bool {
        let this = self.this.all_words(test);
        let that = self.that.all_words(test);
        this && that
    }
}

impl<T: Drop, A: FlatField<T>, B: FlatField<T>> FlatField<T> for ParseOrElse<A, B> {}

/// Whether each key of each of these parsers passes a test.
#[tactic(auto, using(crate::proofs::Parts::all_joined))]
fn all_keys_of<T, P: ProgramField<T>, N: KeyTest>(parsers: &[P], test: &N) -> bool
    ensures { result ≡ list_all (N.accepts test.now)
        (flat_map (λ p. keys_of (P.grammar p) (N.deep test.now)) parsers.now) }
{
    match parsers {
        [] => true,
        [first, rest @ ..] => {
            let here = first.all_keys(test);
            let behind = all_keys_of::<T, P, N>(rest, test);
            here && behind
        }
    }
}

/// Whether each word of the commands of each of these parsers passes a test.
#[tactic(auto, using(crate::proofs::Parts::all_joined))]
fn all_words_of<T, P: ProgramField<T>, W: WordTest>(parsers: &[P], test: &W) -> bool
    ensures { result ≡ list_all (W.accepts test.now)
        (flat_map (λ p. command_words (P.grammar p)) parsers.now) }
{
    match parsers {
        [] => true,
        [first, rest @ ..] => {
            let here = first.all_words(test);
            let behind = all_words_of::<T, P, W>(rest, test);
            here && behind
        }
    }
}

/// The choice of the first of these parsers, which is this, with all others.
fn join_rest<T, P: ProgramField<T>>(parsers: &[P], first: ProgramPart) -> ProgramPart
    requires some { 1 ≤ length parsers.now }
    requires first { (variables : Variables) → first
        ≡ form_part (program_form (choices_of P.grammar (take 1 parsers.now)) variables) }
    ensures { (variables : Variables) → result
        ≡ form_part (program_form (choices_of P.grammar parsers.now) variables) }
{
    let mut part = first;
    for index in 1..parsers.len() {
        let parser = &parsers[index];
        let keys = ApartFromField {
            other: parser,
            value: PhantomData::<T>,
        };
        let words = NoWordOf {
            other: parser,
            value: PhantomData::<T>,
        };
        let keys_apart = all_keys_of::<T, P, _>(&parsers[..index], &keys);
        let words_apart = all_words_of::<T, P, _>(&parsers[..index], &words);
        part = part.or_else(parser.part(), keys_apart, words_apart);
    }
    part
}

/// The choice of these parsers; of none it is nothing.
#[tactic(auto, using(crate::proofs::Parts::first_is))]
fn join_all<T, P: ProgramField<T>>(parsers: &[P]) -> ProgramPart
    ensures { (variables : Variables) →
        result ≡ form_part (program_form (choices_of P.grammar parsers.now) variables) }
{
    match parsers {
        [] => ProgramPart::NoPart,
        [first, ..] => join_rest(parsers, first.part()),
    }
}

/// Of named parts, whose names are apart; or of commands, whose words are. A choice of none is
/// nothing.
impl<T: Drop, P: ProgramField<T> + Drop> ProgramField<T> for ParseChoice<P> {
    #[tactic(auto, using(crate::proofs::Parts::only_part_is))]
    fn part(&self) -> ProgramPart {
        join_all(self.parsers.as_slice()).only()
    }

    #[tactic(auto, using(crate::proofs::Parts::choices_keys))]
    fn all_keys<N: KeyTest>(&self, test: &N) -> bool {
        all_keys_of::<T, P, N>(self.parsers.as_slice(), test)
    }

    #[tactic(auto, using(crate::proofs::Parts::choices_words))]
    fn all_words<W: WordTest>(&self, test: &W) -> bool {
        all_words_of::<T, P, W>(self.parsers.as_slice(), test)
    }
}

impl<T: Drop, P: FlatField<T> + Drop> FlatField<T> for ParseChoice<P> {}
