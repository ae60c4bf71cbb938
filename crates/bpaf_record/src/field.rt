//! The traits of the parsers that may stand in a program, and of those that may in a flat record.
ghost use Rattle.std.specs.{Prelude.◌≡◌, List.list_all};
ghost use Rattle.bpaf_exact.specs.{Flat.Variables};
ghost use Rattle.bpaf_grammar.specs.Grammar.{command_words, keys_of};
ghost use Rattle.bpaf_record.specs.{Program.program_form, Part.form_part};

use crate::keys::KeyTest;
use crate::part::ProgramPart;
use crate::words::WordTest;
use bpaf::{Fields, Parser};

/// A parser that may be a field of a program, a command, or a program itself. Its grammar tells
/// what it is to one (`program_form`), its keys and the words of its commands, and what its value
/// says of the pieces that are its own (`says`), or of the cells of its scope where it ends in
/// commands (`cells_say`). By the law of its form, `law_of`, what it answers and takes depends on
/// what is its own alone.
pub trait ProgramField<T>: Parser<T> {
    /// What it is to a program, which is the same in each environment. It takes no memory.
    fn part(&self) -> ProgramPart
        ensures { (variables : Variables) → result ≡ form_part
            (program_form (Self.Parser.grammar self.now) variables) };

    /// Whether each of its keys passes a test, which may ask for those inside its commands too. It
    /// takes no memory.
    fn all_keys<N: KeyTest>(&self, test: &N) -> bool
        ensures { result ≡ list_all (N.accepts test.now)
            (keys_of (Self.Parser.grammar self.now) (N.deep test.now)) };

    /// Whether each word of its commands passes a test. It takes no memory.
    fn all_words<W: WordTest>(&self, test: &W) -> bool
        ensures { result ≡ list_all (W.accepts test.now)
            (command_words (Self.Parser.grammar self.now)) };
}

/// The mark of a parser that may be a field of a flat record, or a flat record itself. It has no
/// members: what such a parser is it says as a [`ProgramField`].
pub trait FlatField<T> {}

/// The fields of a program.
pub trait ProgramFields<V>: Fields<V> {
    /// What they are to a program, which is the same in each environment. It takes no memory.
    fn fields_part(&self) -> ProgramPart
        ensures { (variables : Variables) → result ≡ form_part
            (program_form (Self.Fields.grammar self.now) variables) };

    /// Whether each of their keys passes a test, which may ask for those inside commands too. It
    /// takes no memory.
    fn all_keys<N: KeyTest>(&self, test: &N) -> bool
        ensures { result ≡ list_all (N.accepts test.now)
            (keys_of (Self.Fields.grammar self.now) (N.deep test.now)) };
}

/// The mark of the fields of a flat record.
pub trait FlatFields<V> {}
