//! The parsers of one item.
use crate::one_text::OneText;
use bench_values::{AsValue, Refused, Value, give};
use bpaf::params::{ParseArgument, ParseFlag, ParsePositional};
use bpaf::parsers::{ParseAppname, ParseFail, ParseLiteral, ParsePure, ParsePureWith};
use bpaf::{Error, Meta, Parser, State};
use std::alloc::{AllocError, Global};
use std::marker::PhantomData;

/// A closure's answer, which looks at no word: a number, or without one a fault.
#[derive(Drop)]
pub struct Answer {
    /// The number.
    pub number: Option<u64>,
}

impl Parser<Value> for Answer {
    ghost use Rattle.bpaf_grammar.specs.{Grammar.own, Leaves.closure_answer};
    ghost use Rattle.bench_values.specs.Modifiers.{AnswersNumber, untold};

    ghost can_eval = { λ p. Unit {0} };

    ghost grammar = { λ p. own (closure_answer {E = Unit {0}} (AnswersNumber p.number) untold) };

    fn eval(&self, state: &mut State) -> Result<Value, Error> {
        let number = self.number;
        let parser = ParsePureWith {
            f: || give(number, "no"),
            of: PhantomData,
            err: PhantomData,
        };
        parser.eval(state)
    }

    fn meta(&self, _alloc: Global) -> Result<Meta, AllocError> {
        Ok(Meta::Skip)
    }
}

/// A parser without inner parsers.
#[derive(Drop)]
pub enum Leaf {
    /// A switch.
    Switch(AsValue<bool, ParseFlag<bool>>),
    /// A flag of two numbers, or a required one.
    Flag(AsValue<u64, ParseFlag<u64>>),
    /// An argument that is a number.
    Number(AsValue<u64, ParseArgument<u64>>),
    /// An argument that is a number with a sign.
    Integer(AsValue<i64, ParseArgument<i64>>),
    /// An argument that is a text.
    Text(AsValue<String, ParseArgument<String>>),
    /// An argument whose text is read as nothing, since memory is wanted for it.
    Unread(AsValue<Refused, ParseArgument<Refused>>),
    /// A word that is a number.
    NumberWord(AsValue<u64, ParsePositional<u64>>),
    /// A word that is a text.
    Word(AsValue<String, ParsePositional<String>>),
    /// An item of one text.
    Literal(AsValue<(), ParseLiteral>),
    /// An item that a check of its text accepts.
    Any(OneText),
    /// The name by which the program is called.
    Appname(AsValue<String, ParseAppname>),
    /// A kept value.
    Pure(ParsePure<Value>),
    /// A closure's answer.
    PureWith(Answer),
    /// A refusal.
    Fail(ParseFail<Value>),
}

impl Parser<Value> for Leaf {
    ghost use Rattle.bench_rows.specs.declared.leaf.Leaf.TheVariants as leaf;

    ghost can_eval = { λ p. Unit {0} };

    ghost grammar = { elim [
      | leaf.Switch p ↦ ⟦<AsValue<bool, ParseFlag<bool>> as Parser<Value>>⟧.grammar p
      | leaf.Flag p ↦ ⟦<AsValue<u64, ParseFlag<u64>> as Parser<Value>>⟧.grammar p
      | leaf.Number p ↦ ⟦<AsValue<u64, ParseArgument<u64>> as Parser<Value>>⟧.grammar p
      | leaf.Integer p ↦ ⟦<AsValue<i64, ParseArgument<i64>> as Parser<Value>>⟧.grammar p
      | leaf.Text p ↦ ⟦<AsValue<String, ParseArgument<String>> as Parser<Value>>⟧.grammar p
      | leaf.Unread p ↦ ⟦<AsValue<Refused, ParseArgument<Refused>> as Parser<Value>>⟧.grammar p
      | leaf.NumberWord p ↦ ⟦<AsValue<u64, ParsePositional<u64>> as Parser<Value>>⟧.grammar p
      | leaf.Word p ↦ ⟦<AsValue<String, ParsePositional<String>> as Parser<Value>>⟧.grammar p
      | leaf.Literal p ↦ ⟦<AsValue<(), ParseLiteral> as Parser<Value>>⟧.grammar p
      | leaf.Any p ↦ ⟦<OneText as Parser<Value>>⟧.grammar p
      | leaf.Appname p ↦ ⟦<AsValue<String, ParseAppname> as Parser<Value>>⟧.grammar p
      | leaf.Pure p ↦ ⟦<ParsePure<Value> as Parser<Value>>⟧.grammar p
      | leaf.PureWith p ↦ ⟦<Answer as Parser<Value>>⟧.grammar p
      | leaf.Fail p ↦ ⟦<ParseFail<Value> as Parser<Value>>⟧.grammar p
    ] };

    fn eval(&self, state: &mut State) -> Result<Value, Error> {
        match self {
            Leaf::Switch(p) => p.eval(state),
            Leaf::Flag(p) => p.eval(state),
            Leaf::Number(p) => p.eval(state),
            Leaf::Integer(p) => p.eval(state),
            Leaf::Text(p) => p.eval(state),
            Leaf::Unread(p) => p.eval(state),
            Leaf::NumberWord(p) => p.eval(state),
            Leaf::Word(p) => p.eval(state),
            Leaf::Literal(p) => p.eval(state),
            Leaf::Any(p) => p.eval(state),
            Leaf::Appname(p) => p.eval(state),
            Leaf::Pure(p) => p.eval(state),
            Leaf::PureWith(p) => p.eval(state),
            Leaf::Fail(p) => p.eval(state),
        }
    }

    fn meta(&self, alloc: Global) -> Result<Meta, AllocError> {
        match self {
            Leaf::Switch(p) => p.meta(alloc),
            Leaf::Flag(p) => p.meta(alloc),
            Leaf::Number(p) => p.meta(alloc),
            Leaf::Integer(p) => p.meta(alloc),
            Leaf::Text(p) => p.meta(alloc),
            Leaf::Unread(p) => p.meta(alloc),
            Leaf::NumberWord(p) => p.meta(alloc),
            Leaf::Word(p) => p.meta(alloc),
            Leaf::Literal(p) => p.meta(alloc),
            Leaf::Any(p) => p.meta(alloc),
            Leaf::Appname(p) => p.meta(alloc),
            Leaf::Pure(p) => p.meta(alloc),
            Leaf::PureWith(p) => p.meta(alloc),
            Leaf::Fail(p) => p.meta(alloc),
        }
    }
}
