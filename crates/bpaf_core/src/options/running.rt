//! A run over words: their line is read, and the parser runs over it.
ghost use Rattle.std.specs.{Prelude.IfOk, Result.IfErr};
ghost use Rattle.bpaf_words.specs.{Arguments.given_of, Arguments.words_in, Splitting.ReadsLine};
ghost use Rattle.bpaf_grammar.specs.{Run.IsNotMemoryFailure, Run.Starts};
ghost use Rattle.bpaf_grammar.specs.Words.{Answers, AnswersSpared, Deals, Refuses, names_of};

use crate::options::OptionParser;
use crate::parser::Parser;
use crate::run::Run;
use bpaf_line::{Message, ParseFailure, State};
use bpaf_messages::tell_fault;
use bpaf_words::{Args, Front, Line, LineFault, Words};
use std::alloc::{AllocError, Global};
use std::marker::PhantomData;

impl<T: Drop, P: Parser<T>> OptionParser<T, P> {
    /// Runs the parser over words (bpaf's `run_inner`).
    ///
    /// Ok(v) comes only where v is dealt out of the words: read off all items of their line but the
    /// first `--`, each used once. The parser is unchanged, and may run again.
    ///
    /// Each refusal has one of twelve names (specs/Refusals.antt): want of memory; a word of
    /// letters with two readings; help or the version, which is shown; no item of those that a
    /// parser looks for; a key without its value; a word on the wrong side of `--`; a text that
    /// means no value; a value that a check refused; no value of what looks at no item, or of a
    /// repeat that wants one; an item that another excludes; a key once more than it may stand; an
    /// item that no parser took. So has one that a run inside the parser ended with, on this line;
    /// of a command's `CommandNamesItsOwn` says in which run.
    ///
    /// Where the parser wants memory, the answer is want of memory. No parser catches it inside
    /// (`MemoryIsNeverCaught`).
    ///
    /// ```text
    /// let options = construct!(verbose, num).to_options(alloc)?;
    /// options.run_inner(Args::from(&["-v", "-n", "3"]))           Ok((true, 3))
    /// options.run_inner(Args::from(&["-v", "-n", "3", "x"]))      refused: `x` is not expected ..
    /// ```
    pub fn run_inner(&self, args: Args<'_>) -> Result<T, ParseFailure>
        requires { P.can_eval self.now.inner }
        ensures outcome { Answers (P.grammar self.now.inner) self.now.info
            (given_of args.entry) result }
        ensures named { IfErr result (Refuses (P.grammar self.now.inner) self.now.info
            (given_of args.entry)) }
        ensures dealt { IfOk result (Deals (P.grammar self.now.inner) self.now.info
            (given_of args.entry)) }
        ensures memory_is_never_caught { IsNotMemoryFailure result →
            AnswersSpared (P.grammar self.now.inner) self.now.info (given_of args.entry) result }
    {
        match self.construct(args) {
            Ok(mut state) => {
                let run = Run {
                    inner: &self.inner,
                    info: &self.info,
                    alloc: self.alloc,
                    of: PhantomData,
                };
                run.run_from(&mut state)
            }
            Err(message) => Err(tell_fault(self.alloc, args, message)),
        }
    }

    /// The state at the beginning of the words' line.
    fn construct(&self, args: Args<'_>) -> Result<State, Message>
        requires { P.can_eval self.now.inner }
        ensures { Starts (names_of (P.grammar self.now.inner) self.now.info)
            (given_of args.entry) result }
    {
        let line = self.line(args.words())?;
        Ok(State::of_line(self.alloc, args, line)?)
    }

    /// The line of the words: by the known short names, where a word is joined letters; else it is
    /// the same whatever names are known, and the parser isn't asked for them.
    fn line(&self, words: Words<'_>) -> Result<Line, LineFault>
        requires { P.can_eval self.now.inner }
        ensures { ReadsLine (names_of (P.grammar self.now.inner) self.now.info)
            (words_in words.entry) result }
    {
        let front = Front::new(self.alloc, words, self.info.numbers)?;
        if front.is_whole(words) {
            return Ok(front.line(self.alloc, words)?);
        }
        let meta = self.inner.meta(self.alloc)?;
        let (flags, arguments) = self.info.known_shorts(self.alloc, &meta)?;
        front.line_by(self.alloc, words, &flags, &arguments)
    }
}

impl<T: Drop, P: Parser<T> + Drop> OptionParser<T, P> {
    /// Runs the parser over words and drops it: [`OptionParser::run_inner`] for a parser that runs
    /// once. bpaf has no such call.
    ///
    /// The options are handed over, so a function may end in this call also where they borrow.
    ///
    /// ```text
    /// construct!(Options { verbose, num }).to_options(alloc)?.run_once(Args::from(words))
    /// ```
    pub fn run_once(self, args: Args<'_>) -> Result<T, ParseFailure>
        requires { P.can_eval self.inner }
        ensures outcome { Answers (P.grammar self.inner) self.info (given_of args.entry) result }
        ensures named { IfErr result (Refuses (P.grammar self.inner) self.info
            (given_of args.entry)) }
        ensures dealt { IfOk result (Deals (P.grammar self.inner) self.info (given_of args.entry)) }
        ensures memory_is_never_caught { IsNotMemoryFailure result →
            AnswersSpared (P.grammar self.inner) self.info (given_of args.entry) result }
    {
        self.run_inner(args)
    }
}
