//! A run of a parser from a state on: its value where nothing is left; else help, the version, or
//! the message.
ghost use Rattle.bpaf_grammar.specs.Ending.{EndsRefused, EndsRun, PassesOrTells, ShowsHelp, Tells};
ghost use Rattle.bpaf_grammar.specs.Grammar.{outcome_of, describes_of};
ghost use Rattle.bpaf_line.specs.Failure.{is_shown};
ghost use Rattle.bpaf_grammar.specs.Run.{Runs};
ghost use Rattle.std.specs.Prelude.{◌≡◌, ◌&&◌, not};

use crate::parser::Parser;
use bpaf_keys::{ExtraParams, Info, version_page};
use bpaf_line::{Message, ParseFailure, State};
use bpaf_messages::{leftover, render};
use std::alloc::Global;
use std::marker::PhantomData;

/// A parser that is run, and what a run of it knows beside it: that of the outermost parser, or of
/// a command.
#[derive(Drop)]
pub(crate) struct Run<'p, T, P> {
    /// What reads the value.
    pub inner: &'p P,
    /// The keys of help and of the version, and the texts of the page.
    pub info: &'p Info,
    /// From where memory is taken.
    pub alloc: Global,
    /// The type of the value.
    pub of: PhantomData<T>,
}

impl<T: Drop, P: Parser<T>> Run<'_, T, P> {
    /// A run from a state on.
    pub(crate) fn run_from(&self, state: &mut State) -> Result<T, ParseFailure>
        requires { P.can_eval self.now.inner.now }
        ensures { Runs T (outcome_of (P.grammar self.now.inner.now))
            (EndsRun (describes_of (P.grammar self.now.inner.now)) self.now.info.now)
            state.old result state.new }
    {
        let usage = self.info.wants_usage(state);
        match self.inner.eval(state) {
            Ok(value) => {
                let Some(message) = leftover(state) else {
                    return Ok(value);
                };
                drop(value);
                Err(self.tell(message, state))
            }
            Err(error) => Err(self.end_refused(usage, error.0, state)),
        }
    }

    /// How a run ends whose parser refused; with `usage` the help page is shown in place of a
    /// message.
    #[tactic(auto, using(crate::proofs::Running::memory_ends, crate::proofs::Running::others_end, crate::proofs::Running::usage_ends))]
    fn end_refused(&self, usage: bool, message: Message, state: &mut State) -> ParseFailure
        requires { P.can_eval self.now.inner.now }
        ensures { EndsRefused (describes_of (P.grammar self.now.inner.now)) self.now.info.now usage
            message state.old result state.new }
    {
        if message.is_memory() {
            drop(message);
            return ParseFailure::Memory;
        }
        if stands_in(usage, &message) {
            drop(message);
            return self.help(state, false);
        }
        self.answer(message, state)
    }

    /// The answer of an inner run as it is, and the text of any other message.
    fn answer(&self, message: Message, state: &mut State) -> ParseFailure
        requires { P.can_eval self.now.inner.now }
        ensures { PassesOrTells (describes_of (P.grammar self.now.inner.now)) self.now.info.now
            message state.old result state.new }
    {
        match message.into_answer() {
            Ok(failure) => failure,
            Err(message) => self.tell(message, state),
        }
    }

    /// The help page or the version, where the words ask for it; else the text of the message.
    fn tell(&self, message: Message, state: &mut State) -> ParseFailure
        requires { P.can_eval self.now.inner.now }
        ensures { Tells (describes_of (P.grammar self.now.inner.now)) self.now.info.now message
            state.old result state.new }
    {
        match self.info.look(state) {
            Ok(ExtraParams::Help(full)) => {
                drop(message);
                self.help(state, full)
            }
            Ok(ExtraParams::Version(version)) => {
                drop(message);
                version_page(self.alloc, &version)
            }
            Err(error) => {
                if error.is_memory() {
                    drop(message);
                    return ParseFailure::Memory;
                }
                drop(error);
                render(message, state)
            }
        }
    }

    /// The help page at the path of a state, in full or not; or want of memory for it.
    fn help(&self, state: &State, full: bool) -> ParseFailure
        requires { P.can_eval self.now.inner.now }
        ensures { ShowsHelp (describes_of (P.grammar self.now.inner.now)) self.now.info.now full
            state.now result }
    {
        let Ok(meta) = self.inner.meta(self.alloc) else {
            return ParseFailure::Memory;
        };
        match self.info.page(self.alloc, state.path(), &meta) {
            Ok(doc) => ParseFailure::Stdout(doc, full),
            Err(_) => ParseFailure::Memory,
        }
    }
}

/// Whether help, where it is wanted, stands in for a message: for each but one that shows
/// something. It takes no memory.
fn stands_in(usage: bool, message: &Message) -> bool
    ensures { result ≡ (usage && not (is_shown message.now)) }
{
    usage && !message.is_shown()
}
