//! A row of a test: a program, and words that are lent.
ghost use Rattle.std.specs.Prelude.{◌≡◌, false, true};
ghost use Rattle.bpaf_words.specs.Arguments.{given_of};
ghost use Rattle.bpaf_grammar.specs.Words.{names_of};
ghost use Rattle.bpaf_grammar.specs.Grammar.{keys_of};
ghost use Rattle.bpaf_record.specs.Program.{agrees_of, program_form};
ghost use Rattle.bpaf_record.specs.Record.{IsProgramValueOf, is_whole_program, IsValueOrWant};

use bpaf::{Args, OptionParser, ParseFailure, Parser, short_key};
use bpaf_program::see_texts;
use bpaf_record::{CommandLine, ProgramField};
use std::alloc::Global;

/// What a program answers to a row's words: where it has a value there, one of its values, or want
/// of memory.
pub fn answer_row<T: Drop, P: ProgramField<T>>(
    options: &OptionParser<T, P>,
    args: Args<'_>,
) -> Result<T, ParseFailure>
    requires can { P.can_eval options.now.inner }
    requires agrees { agrees_of (P.grammar options.now.inner) }
    requires program { is_whole_program (program_form (P.grammar options.now.inner) (given_of args).env)
        (keys_of (P.grammar options.now.inner) false) options.now.info ≡ true }
    ensures { let form = program_form (P.grammar options.now.inner) (given_of args.entry).env in
        let known = names_of (P.grammar options.now.inner) options.now.info in
        let is_value = IsProgramValueOf known form (given_of args.entry) in
        (value : T) → is_value value → IsValueOrWant is_value result }
{
    see_texts(args);
    options.run_program(args)
}

/// The seconds that the words of a row tell.
pub fn read_seconds(alloc: Global, words: &[&str]) -> Result<u64, ParseFailure> {
    let seconds = short_key(alloc, 's').argument::<u64>("NUM");
    answer_row(&seconds.into_options(alloc), Args::from(words))
}
