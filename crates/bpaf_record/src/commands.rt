//! Commands of a program.
ghost use Rattle.std.specs.Prelude.{◌&&◌, true};
ghost use Rattle.bpaf_grammar.specs.Grammar.{command};
ghost use Rattle.bpaf_record.specs.{Program.are_unusual};

use crate::field::ProgramField;
use crate::keys::KeyTest;
use crate::part::ProgramPart;
use crate::usual::are_unusual;
use crate::words::{Plain, WordTest, names_pass};
use bpaf::parsers::ParseCommand;

/// A plain command over a program whose own keys are apart from those of its help and version. Its
/// words aren't empty, and none begins with a dash. An adjacent command is nothing to a program.
impl<T: Drop, P: ProgramField<T>> ProgramField<T> for ParseCommand<T, P> {
    #[tactic(auto, using(crate::proofs::Parts::command_part_is))]
    fn part(&self) -> ProgramPart {
        let plain = names_pass(&self.names, &Plain {});
        let unusual = are_unusual::<T, P>(&self.inner, &self.info);
        self.inner
            .part()
            .command(!self.adjacent && unusual && plain)
    }

    #[tactic(auto, using(crate::proofs::Parts::keys_entered))]
    fn all_keys<N: KeyTest>(&self, test: &N) -> bool {
        if test.is_deep() {
            self.inner.all_keys(test)
        } else {
            true
        }
    }

    fn all_words<W: WordTest>(&self, test: &W) -> bool {
        names_pass(&self.names, test)
    }
}
