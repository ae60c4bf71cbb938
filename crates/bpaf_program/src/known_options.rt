//! A run of options whose parser is the one that a program knows, in whatever functions it is made.
ghost use Rattle.bpaf_grammar.specs.Words.{Answers, AnswersSpared, Deals, Refuses, names_of};
ghost use Rattle.std.specs.Prelude.{◌≡◌, false, true};
ghost use Rattle.bpaf_exact.specs.{Flat.Variables, ProgramForm.is_program};
ghost use Rattle.bpaf_grammar.specs.Grammar.{Grammar};
ghost use Rattle.bpaf_record.specs.Program.{program_form};
ghost use Rattle.bpaf_record.specs.Record.{AnswersAsProgram, TellsOfWords};
ghost use Rattle.bpaf.specs.{Asked.IfShown};
ghost use Rattle.bpaf_program.specs.KnownParser.{IsKnownParser, IsPageOf};

use bpaf::{Args, OptionParser, ParseFailure, Parser};
use bpaf_record::CommandLine;

/// What a program knows of the parser that it makes: of what it is made, and that this is a
/// program.
pub trait KnownProgram<T> {
    /// Of what it is made.
    ghost grammar: { Grammar T };

    /// That is a program, in each environment. Where the grammar computes to one, `refl` says so.
    ghost whole: { (variables : Variables) → is_program (program_form grammar variables) ≡ true };
}

/// Options whose parser is the one that a program knows, whatever functions it is made in. They may
/// run only where the parser is known to be made as the program's grammar says (`IsKnownParser`),
/// so a program with another grammar isn't proved. Then each answer of their `run_program` is
/// exact, for the values that the grammar has on the words' line. Nothing is asked of what a parser
/// tells of itself, and what was made before may be any parser to the function that it is handed
/// to.
///
/// `is_program` is true, since the grammar is proved to be a program ([`KnownProgram`]). All that a
/// run says is said of the grammar: what its fields say (clause `fields`), that a value is dealt
/// out of the words (`dealt`), and that a page that is shown is one that the words ask for, the
/// program's own or a command's, where no help is shown for an empty line (`named`).
///
/// ```text
/// let notes = KnownOptions { options: notes.to_options(alloc)?, program: NotesProgram {} };
/// notes.run_program(Args::from(words))
/// ```
#[derive(Drop)]
pub struct KnownOptions<T, P, K> {
    /// The options.
    pub options: OptionParser<T, P>,
    /// What the program knows of their parser.
    pub program: K,
}

impl<T: Drop, P: Parser<T>, K: KnownProgram<T>> CommandLine<T> for KnownOptions<T, P, K> {
    ghost is_whole = { λ p variables. true };

    fn is_program(&self) -> bool {
        true
    }

    ghost can_run = { λ p. P.can_eval p.options.inner
        × IsKnownParser K.grammar (P.grammar p.options.inner) };

    ghost agrees = { λ p. Unit {0} };

    ghost answers = { λ p. Answers (P.grammar p.options.inner) p.options.info };

    ghost refuses = { λ p given f. Refuses (P.grammar p.options.inner) p.options.info given f
        × (p.options.info.help_if_no_args ≡ false
        → IfShown (IsPageOf K.grammar (λ info. info ≡ p.options.info) given) f) };

    ghost deals = { λ p given v. Deals (P.grammar p.options.inner) p.options.info given v
        × Deals K.grammar p.options.info given v };

    ghost tells = { λ p. TellsOfWords (names_of K.grammar p.options.info) K.grammar };

    ghost answers_spared = { λ p. AnswersSpared (P.grammar p.options.inner) p.options.info };

    ghost answers_as_program = { λ p given. AnswersAsProgram T
        (names_of K.grammar p.options.info) (program_form K.grammar given.env) given };

    fn run_program(&self, args: Args<'_>) -> Result<T, ParseFailure> {
        self.options.run_inner(args)
    }
}
