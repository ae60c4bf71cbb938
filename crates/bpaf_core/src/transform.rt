//! What closures make of a parser's value, and the checks that they do.
ghost use Rattle.bpaf_grammar.specs.Grammar.{mapped, parsed, guarded, closed};
ghost use Rattle.std.specs.{Prelude.Ok, Prelude.◌≡◌, Prelude.◌⊎◌, Fn.FnReturnsAt};

use crate::parser::Parser;
use bpaf_doc::{Meta, Text};
use bpaf_line::{Error, Message, State};
use std::alloc::{AllocError, Global};
use std::fmt::Display;
use std::marker::PhantomData;

/// A closure's value on the inner value (bpaf's `ParseMap`, in `structs.rs`).
#[derive(Drop)]
pub struct ParseMap<T, P, F, R> {
    pub inner: P,
    pub map_fn: F,
    pub inner_res: PhantomData<T>,
    pub res: PhantomData<R>,
}

/// The state stays as the inner parser left it, and what that refuses is refused.
impl<T, R, P: Parser<T>, F: Fn(T) -> R> Parser<R> for ParseMap<T, P, F, R> {
    ghost can_eval = { λ p. P.can_eval p.inner × F.IsAlwaysCallable p.map_fn };

    ghost grammar = { λ p. closed (mapped (λ x y. F.post p.map_fn x y)) (P.grammar p.inner) };

    fn eval(&self, state: &mut State) -> Result<R, Error> {
        let value = self.inner.eval(state)?;
        Ok((self.map_fn)(value))
    }

    fn meta(&self, alloc: Global) -> Result<Meta, AllocError> {
        self.inner.meta(alloc)
    }
}

/// A closure's value on the inner value, or its fault (bpaf's `ParseWith`, in `structs.rs`).
#[derive(Drop)]
pub struct ParseWith<T, P, F, E, R> {
    pub inner: P,
    pub parse_fn: F,
    pub inner_res: PhantomData<T>,
    pub err: PhantomData<E>,
    pub res: PhantomData<R>,
}

/// The state stays as the inner parser left it. Beside what that refuses it refuses the closure's
/// fault, with ParseFailed, which names the current place; or for want of memory.
impl<T, R, E: Display + Drop, P: Parser<T>, F: Fn(T) -> Result<R, E>> Parser<R>
    for ParseWith<T, P, F, E, R> {
    ghost can_eval = { λ p. P.can_eval p.inner × F.IsAlwaysCallable p.parse_fn };

    ghost grammar = { λ p.
        closed (parsed (λ x y. F.post p.parse_fn x y) E.output) (P.grammar p.inner) };

    fn eval(&self, state: &mut State) -> Result<R, Error> {
        let value = self.inner.eval(state)?;
        match (self.parse_fn)(value) {
            Ok(value) => Ok(value),
            Err(fault) => {
                let text = Text::from(fault.to_string(state.alloc())?);
                Err(Error(Message::ParseFailed(state.current(), text)))
            }
        }
    }

    fn meta(&self, alloc: Global) -> Result<Meta, AllocError> {
        self.inner.meta(alloc)
    }
}

/// The refusal of a value of which a check is false: GuardFailed with the message, which names the
/// current place; or want of memory, for the message.
fn guard_failed(state: &State, message: &str) -> Error
    ensures { (result.0 ≡ Message.GuardFailed state.now.current message.now)
        ⊎ (result.0 ≡ Message.Memory) }
{
    match Text::new(state.alloc(), message) {
        Ok(message) => Error(Message::GuardFailed(state.current(), message)),
        Err(_) => Error(Message::Memory),
    }
}

/// The inner value, where a check is true of it (bpaf's `ParseGuard`, in `structs.rs`).
#[derive(Drop)]
pub struct ParseGuard<'m, P, F> {
    pub inner: P,
    pub check: F,
    pub message: &'m str,
}

/// The state stays as the inner parser left it. Beside what that refuses it refuses a value of
/// which the check is false, with GuardFailed, which names the current place; or for want of
/// memory.
impl<'m, T: Drop, P: Parser<T>, F: Fn(&T) -> bool> Parser<T> for ParseGuard<'m, P, F> {
    ghost can_eval = { λ p. P.can_eval p.inner × F.IsAlwaysCallable p.check };

    ghost grammar = { λ p.
        closed (guarded (FnReturnsAt F.Fn p.check) p.message.now) (P.grammar p.inner) };

    fn eval(&self, state: &mut State) -> Result<T, Error> {
        let value = self.inner.eval(state)?;
        if (self.check)(&value) {
            Ok(value)
        } else {
            Err(guard_failed(state, self.message))
        }
    }

    fn meta(&self, alloc: Global) -> Result<Meta, AllocError> {
        self.inner.meta(alloc)
    }
}
