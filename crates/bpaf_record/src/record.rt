//! Whether options are a flat record, and the run of one.
ghost use Rattle.bpaf_grammar.specs.{Grammar.keys_of, Words.names_of};
ghost use Rattle.std.specs.Prelude.{◌≡◌, Result, false, true, Bool, IfOk};
ghost use Rattle.std.specs.Result.{IfErr};
ghost use Rattle.bpaf_words.specs.Arguments.{given_of, Given};
ghost use Rattle.bpaf_record.specs.Record.{is_flat_record, AnswersByFields, NoneUnless, ProgramRan};
ghost use Rattle.bpaf_record.specs.Program.{program_form};
ghost use Rattle.bpaf_line.specs.declared.failure.ParseFailure.{ParseFailure};
ghost use Rattle.bpaf.specs.Run.{IsNotMemoryFailure};
ghost use Rattle.bpaf_exact.specs.Flat.{Variables};

use crate::command_line::CommandLine;
use crate::field::{FlatField, ProgramField};
use crate::usual::are_unusual;
use bpaf::{Args, OptionParser, ParseFailure};

/// Options that are a flat record, where `is_record` says so.
pub trait Record<T>: CommandLine<T> {
    /// Whether they are a flat record, where the environment has some variables.
    ghost is_flat: { Self → Variables → Bool };

    /// Whether they are a flat record: one flat field, or a product of such with the positional
    /// ones last, none of which shares a name with another or with the keys of help and version.
    /// The names of version count also where no version is set. It takes no memory.
    fn is_record(&self) -> bool
        ensures { (variables : Variables) → result ≡ is_flat self.now variables };

    /// What a run of a flat record answers to words, told field by field.
    ghost answers_by_fields: { Self → Given → Result T ParseFailure → Type 0 };

    /// The value that the words give, as `run_inner`, and exactly. A flat record is a program, and
    /// its values are those that [`CommandLine::run_program`] tells, in the same clauses: they are
    /// read off the words' line by itself, which is cut into pieces, and each field has its portion
    /// of them.
    ///
    /// The clause `by_fields` says more of every answer that the table of a run allows:
    ///
    /// - Ok(v) comes only on a line that is whole: each key on it is one of the record's; behind
    ///   each argument's key stands its value, and no positional field gets that one; an attached
    ///   value stands nowhere else; and what is left to positional fields are words by themselves.
    ///   A flag, an argument without `take_last` and a choice with all its keys stand there once at
    ///   most, unless they are repeated; and there are no more words than positional fields, unless
    ///   one of them is.
    /// - Where each field has a value on its portion, the answer is the constructor's on such
    ///   values, or want of memory.
    /// - Where a field has none, as for an occurrence or a word too many or one that can't be read,
    ///   no Ok is answered.
    ///
    /// ```text
    /// if !options.is_record() {
    ///     return Err(refused);
    /// }
    /// options.run_record(args)
    /// ```
    fn run_record(&self, args: Args<'_>) -> Result<T, ParseFailure>
        requires can { Self.can_run self.now }
        requires record { is_flat self.now (given_of args).env ≡ true }
        ensures outcome { Self.answers self.now (given_of args.entry) result }
        ensures named { IfErr result (Self.refuses self.now (given_of args.entry)) }
        ensures dealt { IfOk result (Self.deals self.now (given_of args.entry)) }
        ensures memory_is_never_caught { IsNotMemoryFailure result →
            Self.answers_spared self.now (given_of args.entry) result }
        ensures fields { Self.agrees self.now →
            IfOk result (Self.tells self.now (given_of args.entry)) }
        ensures exact { Self.agrees self.now →
            Self.answers_as_program self.now (given_of args.entry) result }
        ensures each_exact { Self.agrees self.now → (r : Result T ParseFailure)
            → Self.answers self.now (given_of args.entry) r
            → Self.answers_as_program self.now (given_of args.entry) r }
        ensures by_fields { Self.agrees self.now → (r : Result T ParseFailure)
            → Self.answers self.now (given_of args.entry) r
            → answers_by_fields self.now (given_of args.entry) r };

    /// The same where these options are a flat record, by `is_record`; None where they are none.
    /// A caller proves nothing of them, as with [`CommandLine::program_value`].
    final fn record_value(&self, args: Args<'_>) -> Result<Option<T>, ParseFailure>
        requires { Self.can_run self.now }
        ensures { NoneUnless (is_flat self.now (given_of args.entry).env)
            (λ r. (ProgramRan (Self.agrees self.now) (Self.answers self.now (given_of args.entry))
            (Self.answers_spared self.now (given_of args.entry))
            (Self.answers_as_program self.now (given_of args.entry))
            (Self.refuses self.now (given_of args.entry))
            (Self.deals self.now (given_of args.entry))
            (Self.tells self.now (given_of args.entry)) r)
            × (Self.agrees self.now → answers_by_fields self.now (given_of args.entry) r)) result }
    {
        if self.is_record() {
            Ok(Some(self.run_record(args)?))
        } else {
            Ok(None)
        }
    }
}

impl<T: Drop, P: ProgramField<T> + FlatField<T>> Record<T> for OptionParser<T, P> {
    ghost is_flat = { λ p variables. is_flat_record
        (program_form (P.grammar p.inner) variables) (keys_of (P.grammar p.inner) false) p.info };

    #[tactic(auto, using(crate::proofs::Parts::record_part_is))]
    fn is_record(&self) -> bool {
        let flat = self.inner.part().is_record();
        let unusual = are_unusual::<T, P>(&self.inner, &self.info);
        flat && unusual
    }

    ghost answers_by_fields = { λ p given. AnswersByFields T
        (names_of (P.grammar p.inner) p.info) (P.grammar p.inner) given };

    #[tactic(auto, using(crate::proofs::Running::flat_is_whole))]
    fn run_record(&self, args: Args<'_>) -> Result<T, ParseFailure> {
        self.run_program(args)
    }
}
