//! A run of a program's options, with its end.
ghost use Rattle.bpaf_grammar.specs.Grammar.{outcome_of, reads_of, describes_of, shorts_of};
ghost use Rattle.std.specs.{Prelude.◌≡◌, Prelude.IfOk, Prelude.true, Prelude.Result, Result.IfErr};
ghost use Rattle.bpaf_words.specs.Arguments.{given_of, Given};
ghost use Rattle.bpaf.specs.Run.{IsNotMemoryFailure, RunsWords, IsDealtOut, known_names};
ghost use Rattle.bpaf.specs.Refusals.{IsOneOfTwelve};
ghost use Rattle.bpaf_laws.specs.Laws.{WithoutMemory};
ghost use Rattle.bpaf_program.specs.Ending.{Ends, wrote};
ghost use Rattle.bpaf_line.specs.declared.failure.ParseFailure.{ParseFailure};

use crate::ending::end;
use crate::sink::Sink;
use bpaf::{Args, OptionParser, ParseFailure, Parser};
use bpaf_record::{CommandLine, Record};

/// Options that a program runs over its words.
pub trait Program<T> {
    /// Whether they may run: their closures may be called on every value.
    ghost can_run: { Self → Type 0 };

    /// What a run may answer to words.
    ghost answers: { Self → Given → Result T ParseFailure → Type 0 };

    /// The value that the words give, with nothing written; or the status with which the program is
    /// to end (bpaf's `OptionParser::run`, which ends the process).
    ///
    /// Status 0: the text that was asked for stands on `out`, and nothing new on `err`. Status 1:
    /// on `out` is nothing, or after a failed write a beginning of that text; on `err` stands
    /// `Error: `, the message and a line break, or a beginning of that where a write failed. Want
    /// of memory prints `Error: out of memory`. No write follows one that failed.
    ///
    /// ```text
    /// let options = options.run(Args::from(words), out, err)?;
    /// ```
    fn run<S: Sink, E: Sink>(&self, args: Args<'_>, out: &mut S, err: &mut E) -> Result<T, u8>
        requires { can_run self.now }
        ensures { Ends (answers self.now (given_of args.entry)) (wrote S.known out.old out.new)
            (wrote E.known err.old err.new) result };
}

impl<T: Drop, P: Parser<T>> Program<T> for OptionParser<T, P> {
    ghost can_run = { λ p. P.can_eval p.inner };

    ghost answers = { λ p given r.
        let known = known_names p.info (shorts_of (P.grammar p.inner)) in
        RunsWords T (outcome_of (P.grammar p.inner)) (describes_of (P.grammar p.inner)) p.info known
        given r
        × (IfErr r (IsOneOfTwelve (outcome_of (P.grammar p.inner))
        (describes_of (P.grammar p.inner)) p.info known given)
        × (IfOk r (IsDealtOut T (reads_of (P.grammar p.inner)) known given)
        × (IsNotMemoryFailure r → RunsWords T (WithoutMemory (outcome_of (P.grammar p.inner)))
        (describes_of (P.grammar p.inner))
        p.info known given r))) };

    fn run<S: Sink, E: Sink>(&self, args: Args<'_>, out: &mut S, err: &mut E) -> Result<T, u8> {
        end(self.run_inner(args), out, err)
    }
}

/// The value that the words give a flat record, as [`Program::run`], and exactly.
///
/// Where each field of the record has a value on its portion of the words' line, only want of
/// memory keeps the value from coming: the status is 1, and on `err` stands
/// `Error: out of memory`, or a beginning of that where a write failed.
///
/// ```text
/// let options = run_record(&options, Args::from(words), out, err)?;
/// ```
pub fn run_record<T: Drop, R: Record<T>, S: Sink, E: Sink>(
    options: &R,
    args: Args<'_>,
    out: &mut S,
    err: &mut E,
) -> Result<T, u8>
    requires can { R.can_run options.now }
    requires record { R.is_flat options.now (given_of args).env ≡ true }
    ensures { Ends (λ r. R.answers options.now (given_of args.entry) r
        × (IfErr r (R.refuses options.now (given_of args.entry))
        × (IfOk r (R.deals options.now (given_of args.entry))
        × ((IsNotMemoryFailure r → R.answers_spared options.now (given_of args.entry) r)
        × ((R.agrees options.now → IfOk r (R.tells options.now (given_of args.entry)))
        × ((R.agrees options.now → R.answers_as_program options.now (given_of args.entry) r)
        × (R.agrees options.now → R.answers_by_fields options.now (given_of args.entry) r)))))))
        (wrote S.known out.old out.new) (wrote E.known err.old err.new) result }
{
    end(options.run_record(args), out, err)
}

/// The value that the words give a program with commands, as [`Program::run`], and exactly.
///
/// Where the program has a value on the words' line, only want of memory keeps a value from coming:
/// the status is 1, and on `err` stands `Error: out of memory`, or a beginning of that where a
/// write failed.
///
/// ```text
/// let options = run_program(&options, Args::from(words), out, err)?;
/// ```
pub fn run_program<T: Drop, R: CommandLine<T>, S: Sink, E: Sink>(
    options: &R,
    args: Args<'_>,
    out: &mut S,
    err: &mut E,
) -> Result<T, u8>
    requires can { R.can_run options.now }
    requires program { R.is_whole options.now (given_of args).env ≡ true }
    ensures { Ends (λ r. R.answers options.now (given_of args.entry) r
        × (IfErr r (R.refuses options.now (given_of args.entry))
        × (IfOk r (R.deals options.now (given_of args.entry))
        × ((IsNotMemoryFailure r → R.answers_spared options.now (given_of args.entry) r)
        × ((R.agrees options.now → IfOk r (R.tells options.now (given_of args.entry)))
        × (R.agrees options.now → R.answers_as_program options.now (given_of args.entry) r))))))
        (wrote S.known out.old out.new) (wrote E.known err.old err.new) result }
{
    end(options.run_program(args), out, err)
}
