//! Parsers that look at no item: a value, a closure's value, a refusal.
ghost use Rattle.bpaf_grammar.specs.Leaves.{closure_answer, refusal};
ghost use Rattle.bpaf_grammar.specs.Grammar.{kept, own};
ghost use Rattle.std.specs.{Prelude.◌≡◌, Prelude.Ok};
ghost use Rattle.bpaf_doc.specs.Shape.{Skip};

use bpaf_core::{Parser, given_by};
use bpaf_doc::{Meta, Text};
use bpaf_line::{Error, Message, State};
use std::alloc::{AllocError, Global};
use std::fmt::Display;
use std::marker::PhantomData;

/// A kept value (bpaf's `ParsePure`, in `structs.rs`).
#[derive(Drop)]
pub struct ParsePure<T> {
    /// The value that is cloned when it is given out.
    pub value: T,
}

/// A parser that looks at no item and always answers this value (bpaf's `pure`); it is cloned when
/// it is given out.
///
/// ```text
/// let level = pure(Level::Normal);
/// construct!(Options { verbose, level })
/// ```
pub fn pure<T>(value: T) -> ParsePure<T>
    ensures { result.value ≡ value }
{
    ParsePure { value }
}

/// A clone of the kept value, refused only for want of memory. No place is current then.
impl<T: Clone> Parser<T> for ParsePure<T> {
    ghost can_eval = { λ p. Unit {0} };

    ghost grammar = { λ p. kept T.is_clone p.value };

    fn eval(&self, state: &mut State) -> Result<T, Error> {
        state.set_current(None);
        Ok(self.value.clone()?)
    }

    fn meta(&self, _alloc: Global) -> Result<Meta, AllocError> {
        Ok(Meta::Skip)
    }
}

/// A closure's answer (bpaf's `ParsePureWith`, in `structs.rs`).
#[derive(Drop)]
pub struct ParsePureWith<T, F, E> {
    /// The closure.
    pub f: F,
    /// The type of its value.
    pub of: PhantomData<T>,
    /// The type of its fault.
    pub err: PhantomData<E>,
}

/// A parser that looks at no item and answers what the closure does (bpaf's `pure_with`).
///
/// ```text
/// let started = pure_with(|| read_clock());
/// construct!(Options { verbose, started })
/// ```
pub fn pure_with<T, F: Fn() -> Result<T, E>, E: Display>(f: F) -> ParsePureWith<T, F, E>
    requires { F.IsAlwaysCallable f }
    ensures { result.f ≡ f }
{
    ParsePureWith {
        f,
        of: PhantomData,
        err: PhantomData,
    }
}

/// The closure's value; its fault is refused with PureFailed, and so is want of memory for the text
/// of that. Nothing changes, the current place neither: a check round it names the word before it.
impl<T, F: Fn() -> Result<T, E>, E: Display + Drop> Parser<T> for ParsePureWith<T, F, E> {
    ghost can_eval = { λ p. F.IsAlwaysCallable p.f };

    ghost grammar = { λ p. own (closure_answer (λ r. F.post p.f r) E.output) };

    fn eval(&self, state: &mut State) -> Result<T, Error> {
        given_by(state.alloc(), &self.f)
    }

    fn meta(&self, _alloc: Global) -> Result<Meta, AllocError> {
        Ok(Meta::Skip)
    }
}

/// A refusal (bpaf's `ParseFail`, in `structs.rs`).
#[derive(Drop)]
pub struct ParseFail<T> {
    /// Why every line is refused.
    pub message: &'static str,
    /// The type of the value that never comes.
    pub of: PhantomData<T>,
}

/// A parser that looks at no item and always refuses, with this message (bpaf's `fail`).
///
/// ```text
/// fail::<()>("the license must be accepted with --accept")
/// ```
pub fn fail<T>(message: &'static str) -> ParseFail<T>
    ensures { result.message ≡ message.entry }
{
    ParseFail {
        message,
        of: PhantomData,
    }
}

/// Refused with ParseFail, or for want of memory for the message. No place is current then.
impl<T> Parser<T> for ParseFail<T> {
    ghost can_eval = { λ p. Unit {0} };

    ghost grammar = { λ p. own (refusal p.message.now) };

    fn eval(&self, state: &mut State) -> Result<T, Error> {
        state.set_current(None);
        let message = Text::new(state.alloc(), self.message)?;
        Err(Error(Message::ParseFail(message)))
    }

    fn meta(&self, _alloc: Global) -> Result<Meta, AllocError> {
        Ok(Meta::Skip)
    }
}
