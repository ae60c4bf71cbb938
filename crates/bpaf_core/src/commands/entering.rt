//! What a command answers: its word is taken, and what runs inside it ends before or at the end of
//! its scope.
ghost use Rattle.bpaf_grammar.specs.Grammar.{command, outcome_of, describes_of};
ghost use Rattle.bpaf_grammar.specs.Command.{Enters, RunsInside, IsMissingPart};
ghost use Rattle.bpaf_grammar.specs.Ending.{EndsRun};
ghost use Rattle.std.specs.Prelude.{◌≡◌, ◌<◌, IfOk};
ghost use Rattle.bpaf_doc.specs.Shape.{part_of};
ghost use Rattle.bpaf_laws.specs.Command.{CommandPart};
ghost use Rattle.bpaf_core.specs.Help.{shown_help};

use crate::commands::ParseCommand;
use crate::parser::Parser;
use crate::run::Run;
use bpaf_doc::{Doc, Item, Meta, Text};
use bpaf_line::{Error, ParseFailure, State};
use std::alloc::{AllocError, Global};
use std::marker::PhantomData;

impl<T: Drop, P: Parser<T>> ParseCommand<T, P> {
    /// The help that is shown beside its name; refused only for want of memory.
    fn shown_help(&self) -> Result<Option<Doc>, AllocError>
        ensures { IfOk result (λ help. help ≡ shown_help self.now) }
    {
        match &self.help {
            Some(help) => Ok(Some(help.copy()?)),
            None => self.info.short_descr(),
        }
    }

    /// What it shows; refused only for want of memory.
    fn item(&self, alloc: Global) -> Result<Item, AllocError>
        requires { P.can_eval self.now.inner }
        ensures { IfOk result (λ item. CommandPart self.now.names (shown_help self.now)
            (describes_of (P.grammar self.now.inner)) (part_of item)) }
    {
        Ok(Item::Command {
            name: Text::new(alloc, self.names.name())?,
            short: self.names.first_short(),
            help: self.shown_help()?,
            meta: Box::new(alloc, self.inner.meta(alloc)?)?,
        })
    }

    /// The error of a missing word, or want of memory for it.
    fn missing(&self, state: &State) -> Error
        requires { P.can_eval self.now.inner }
        ensures { IsMissingPart (CommandPart self.now.names (shown_help self.now)
            (describes_of (P.grammar self.now.inner))) state.now result.0 }
    {
        match self.item(state.alloc()) {
            Ok(item) => match state.missing(Some(item)) {
                Ok(error) => error,
                Err(refused) => Error::from(refused),
            },
            Err(refused) => Error::from(refused),
        }
    }

    /// Takes its word, makes the scope run from it to its old end, and puts the name on the path.
    /// Refused where the word isn't there, and for want of memory.
    fn enter(&self, state: &mut State) -> Result<(), Error>
        requires { P.can_eval self.now.inner }
        ensures { Enters self.now.names (CommandPart self.now.names (shown_help self.now)
            (describes_of (P.grammar self.now.inner))) state.old result state.new }
    {
        if !self.names.open(state) {
            return Err(self.missing(state));
        }
        state.push_path(self.names.name())?;
        Ok(())
    }

    /// The run over all that is in scope; of an adjacent command the attempts behind its word,
    /// which stands where the scope begins.
    #[tactic(auto, using(crate::proofs::Commanding::runs_plain))]
    fn run_inside(&self, state: &mut State) -> Result<T, ParseFailure>
        requires can { P.can_eval self.now.inner }
        requires word { state.old.start < state.old.end }
        ensures { RunsInside self.now.adjacent T (outcome_of (P.grammar self.now.inner))
            (EndsRun (describes_of (P.grammar self.now.inner)) self.now.info)
            state.old result state.new }
    {
        let run = Run {
            inner: &self.inner,
            info: &self.info,
            alloc: self.alloc,
            of: PhantomData,
        };
        if self.adjacent {
            run.run_adjacent(state)
        } else {
            run.run_from(state)
        }
    }
}

/// The value of the inner run over the items behind the command's word; Ok only where that leaves
/// nothing present in scope.
///
/// Where the first present item in scope isn't its word, its item is missing. A refusal of the
/// inner run is ParseFailure, which nothing but `catch` catches, and has its name in that run: it
/// is the message of the inner parser behind the word, or a page of that parser with its own texts.
/// Want of memory stays that. An adjacent command runs over the unbroken
/// stretch of present items behind its word, or over a part of it, and leaves what follows to
/// others.
impl<T: Drop, P: Parser<T>> Parser<T> for ParseCommand<T, P> {
    ghost can_eval = { λ p. P.can_eval p.inner };

    ghost grammar = { λ p. command p.adjacent p.names p.info (shown_help p) (P.grammar p.inner) };

    fn eval(&self, state: &mut State) -> Result<T, Error> {
        self.enter(state)?;
        match self.run_inside(state) {
            Ok(value) => Ok(value),
            Err(failure) => Err(Error(failure.into_message())),
        }
    }

    fn meta(&self, alloc: Global) -> Result<Meta, AllocError> {
        Ok(Meta::Item(self.item(alloc)?))
    }
}
