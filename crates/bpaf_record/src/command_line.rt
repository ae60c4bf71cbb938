//! Whether options are a program, perhaps with commands, and the run of one.
ghost use Rattle.bpaf_record.specs.Record.{is_whole_program, AnswersAsProgram, TellsOfWords};
ghost use Rattle.bpaf_grammar.specs.Words.{Answers, AnswersSpared, Deals, Refuses, names_of};
ghost use Rattle.bpaf_grammar.specs.Grammar.{keys_of};
ghost use Rattle.bpaf_record.specs.Program.{agrees_of, program_form};
ghost use Rattle.bpaf_record.specs.Record.{NoneUnless, ProgramRan};
ghost use Rattle.std.specs.Prelude.{◌≡◌, Result, false, true, Bool, IfOk};
ghost use Rattle.std.specs.Result.{IfErr};
ghost use Rattle.bpaf_words.specs.Arguments.{given_of, Given};
ghost use Rattle.bpaf_line.specs.declared.failure.ParseFailure.{ParseFailure};
ghost use Rattle.bpaf.specs.Run.{IsNotMemoryFailure};
ghost use Rattle.bpaf_exact.specs.Flat.{Variables};

use crate::field::ProgramField;
use crate::usual::are_unusual;
use bpaf::{Args, OptionParser, ParseFailure};

/// Options of a whole command line, which are a program where `is_program` says so.
pub trait CommandLine<T> {
    /// Whether they are a program, where the environment has some variables.
    ghost is_whole: { Self → Variables → Bool };

    /// Whether they are a program: a flat record, or named fields and then words or commands, each
    /// command over a program again. A field may be hidden, a kept value, a key with names in the
    /// environment, an adjacent argument, a positional word with `strict` or `non_strict`; or a
    /// named part: a product or a choice of named fields, with closures, `optional`, defaults or
    /// repeats round it, in one another. In the last place may stand a product with positional
    /// words or one that ends in commands, whose fields count as those of the product that it
    /// stands in.
    ///
    /// Commands may stand under one `optional`, default or repeat, with closures round them, and in
    /// a choice with named parts; their words aren't empty, and none begins with a dash. Nothing
    /// has `catch`. No field shares a name with another of its product, with one inside its
    /// commands, or with the keys of help and version of the run that it stands in; no two commands
    /// of a choice share a word, and no two parts of one a name. It takes no memory.
    fn is_program(&self) -> bool
        ensures { (variables : Variables) → result ≡ is_whole self.now variables };

    /// Whether they may run: their closures may be called on every value.
    ghost can_run: { Self → Type 0 };

    /// The premise of exactness: whether their closures accept depends on what is present alone.
    ghost agrees: { Self → Type 0 };

    /// What a run may answer to words, by its table.
    ghost answers: { Self → Given → Result T ParseFailure → Type 0 };

    /// Which refusals have one of the twelve names, or are handed on.
    ghost refuses: { Self → Given → ParseFailure → Type 0 };

    /// Which values are dealt out of words.
    ghost deals: { Self → Given → T → Type 0 };

    /// What a value says of words: each named field of its own pieces, and the command of the rest.
    ghost tells: { Self → Given → T → Type 0 };

    /// What a run may answer to words where the parser wanted no memory.
    ghost answers_spared: { Self → Given → Result T ParseFailure → Type 0 };

    /// What a run of a program answers to words.
    ghost answers_as_program: { Self → Given → Result T ParseFailure → Type 0 };

    /// The value that the words give, as `run_inner`, and exactly. The program's values are read
    /// off the words' line by itself: take away the pieces that begin with a name of a field in
    /// front of the commands, wherever they stand; the first thing left is the word of a command,
    /// and what stands behind it is the line of that command's program.
    ///
    /// - Ok(v) comes only where v is a value of the program there.
    /// - Where the program has a value, the answer is one of its values, or want of memory.
    ///
    /// The clause `exact` says it of the answer, `each_exact` of every answer that the table of a
    /// run allows; `fields` is what each named field says of the words, whatever the command is,
    /// and which command's word stands there. The other clauses are those of `run_inner`.
    ///
    /// ```text
    /// if !options.is_program() {
    ///     return Err(refused);
    /// }
    /// options.run_program(args)
    /// ```
    fn run_program(&self, args: Args<'_>) -> Result<T, ParseFailure>
        requires can { can_run self.now }
        requires program { is_whole self.now (given_of args).env ≡ true }
        ensures outcome { answers self.now (given_of args.entry) result }
        ensures named { IfErr result (refuses self.now (given_of args.entry)) }
        ensures dealt { IfOk result (deals self.now (given_of args.entry)) }
        ensures memory_is_never_caught { IsNotMemoryFailure result →
            answers_spared self.now (given_of args.entry) result }
        ensures fields { agrees self.now →
            IfOk result (tells self.now (given_of args.entry)) }
        ensures exact { agrees self.now →
            answers_as_program self.now (given_of args.entry) result }
        ensures each_exact { agrees self.now → (r : Result T ParseFailure)
            → answers self.now (given_of args.entry) r
            → answers_as_program self.now (given_of args.entry) r };

    /// The same where these options are a program, by `is_program`; None where they are none.
    /// A caller proves nothing of them, so a check costs less than one of `run_program` where they
    /// have many fields.
    ///
    /// ```text
    /// match options.program_value(args)? {
    ///     Some(value) => Ok(value),
    ///     None => Err(refused),
    /// }
    /// ```
    final fn program_value(&self, args: Args<'_>) -> Result<Option<T>, ParseFailure>
        requires { can_run self.now }
        ensures { NoneUnless (is_whole self.now (given_of args.entry).env)
            (ProgramRan (agrees self.now) (answers self.now (given_of args.entry))
            (answers_spared self.now (given_of args.entry))
            (answers_as_program self.now (given_of args.entry))
            (refuses self.now (given_of args.entry)) (deals self.now (given_of args.entry))
            (tells self.now (given_of args.entry))) result }
    {
        if self.is_program() {
            Ok(Some(self.run_program(args)?))
        } else {
            Ok(None)
        }
    }
}

impl<T: Drop, P: ProgramField<T>> CommandLine<T> for OptionParser<T, P> {
    ghost is_whole = { λ p variables. is_whole_program (program_form (P.grammar p.inner) variables)
        (keys_of (P.grammar p.inner) false) p.info };

    #[tactic(auto, using(crate::proofs::Parts::program_part_is))]
    fn is_program(&self) -> bool {
        let program = self.inner.part().is_program();
        let unusual = are_unusual::<T, P>(&self.inner, &self.info);
        program && unusual
    }

    ghost can_run = { λ p. P.can_eval p.inner };

    ghost agrees = { λ p. agrees_of (P.grammar p.inner) };

    ghost answers = { λ p. Answers (P.grammar p.inner) p.info };

    ghost refuses = { λ p. Refuses (P.grammar p.inner) p.info };

    ghost deals = { λ p. Deals (P.grammar p.inner) p.info };

    ghost tells = { λ p.
        TellsOfWords (names_of (P.grammar p.inner) p.info) (P.grammar p.inner) };

    ghost answers_spared = { λ p. AnswersSpared (P.grammar p.inner) p.info };

    ghost answers_as_program = { λ p given. AnswersAsProgram T
        (names_of (P.grammar p.inner) p.info)
        (program_form (P.grammar p.inner) given.env) given };

    fn run_program(&self, args: Args<'_>) -> Result<T, ParseFailure> {
        self.run_inner(args)
    }
}
