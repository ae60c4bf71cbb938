//! Flags, arguments and words as fields.
ghost use Rattle.std.specs.Prelude.{[], false, true};

use crate::field::{FlatField, ProgramField};
use crate::keys::KeyTest;
use crate::part::{Kind, ProgramPart};
use crate::words::WordTest;
use bpaf::parsers::{ParseArgument, ParseFlag, ParsePure};
use bpaf::{FromText, ParsePositional, Position};

/// With a name in the environment it may stand in a program, but in no flat record.
impl<T: Clone> ProgramField<T> for ParseFlag<T> {
    fn part(&self) -> ProgramPart {
        let kind = Kind::Named;
        match (self.named.envs(), &self.absent) {
            ([_, ..], _) => ProgramPart::Single { wide: true, kind },
            ([], Some(_)) => ProgramPart::Single { wide: false, kind },
            ([], None) => ProgramPart::Alternative { wide: false },
        }
    }

    #[tactic(auto, using(crate::proofs::Parts::and_true))]
    fn all_keys<N: KeyTest>(&self, test: &N) -> bool {
        test.test(self.named.key())
    }

    fn all_words<W: WordTest>(&self, _test: &W) -> bool {
        true
    }
}

impl<T: Clone> FlatField<T> for ParseFlag<T> {}

/// With a name in the environment, or with `adjacent`, it may stand in a program, but in no flat
/// record. With such a name or `take_last` it is a field by itself, and no alternative of a choice.
impl<T: FromText> ProgramField<T> for ParseArgument<T> {
    fn part(&self) -> ProgramPart {
        let kind = Kind::Named;
        let wide = self.adjacent;
        match (self.named.envs(), self.last) {
            ([_, ..], _) => ProgramPart::Single { wide: true, kind },
            ([], false) => ProgramPart::Alternative { wide },
            ([], true) => ProgramPart::Single { wide, kind },
        }
    }

    #[tactic(auto, using(crate::proofs::Parts::and_true))]
    fn all_keys<N: KeyTest>(&self, test: &N) -> bool {
        test.test(self.named.key())
    }

    fn all_words<W: WordTest>(&self, _test: &W) -> bool {
        true
    }
}

impl<T: FromText> FlatField<T> for ParseArgument<T> {}

/// With `strict` or `non_strict` it may stand in a program, but in no flat record. A repeat or a
/// default of it with `non_strict` leaves words behind `--` to the fields after it.
impl<T: FromText> ProgramField<T> for ParsePositional<T> {
    fn part(&self) -> ProgramPart {
        ProgramPart::Single {
            wide: !matches!(self.position, Position::Unrestricted),
            kind: Kind::Word,
        }
    }

    fn all_keys<N: KeyTest>(&self, _test: &N) -> bool {
        true
    }

    fn all_words<W: WordTest>(&self, _test: &W) -> bool {
        true
    }
}

impl<T: FromText> FlatField<T> for ParsePositional<T> {}

/// A kept value may stand in a program, as a field that takes no piece, but in no flat record.
impl<T: Clone> ProgramField<T> for ParsePure<T> {
    fn part(&self) -> ProgramPart {
        ProgramPart::Complete {
            wide: true,
            kind: Kind::Named,
        }
    }

    fn all_keys<N: KeyTest>(&self, _test: &N) -> bool {
        true
    }

    fn all_words<W: WordTest>(&self, _test: &W) -> bool {
        true
    }
}
