//! The combinators over one described parser.
ghost use Rattle.bpaf_laws.specs.Combinators.{HideOutcome, FallbackOutcome, GivesClone};
ghost use Rattle.bpaf_laws.specs.Combinators.{OptionalDescribes, CollectOutcome, CountOutcome};
ghost use Rattle.bpaf_laws.specs.Combinators.{LastOutcome, ManyDescribes, ManyOutcome};
ghost use Rattle.bpaf_laws.specs.Combinators.{SomeDescribes, SomeOutcome, TurnOutcome};
ghost use Rattle.bench_values.specs.Modifiers.{Checks, IsHalf, ToldOption, ToldQueue};
ghost use Rattle.bench_values.specs.Modifiers.{AcceptOutcome, FillsQueue, GivesNumber};
ghost use Rattle.bench_values.specs.Modifiers.{over_grammar, ToldCount, ToldList, need_one};
ghost use Rattle.bpaf_grammar.specs.{Grammar.outcome_of, Grammar.describes_of, Own.MadeOutcome};
ghost use Rattle.std.specs.Prelude.{IfOk, true};
ghost use Rattle.bpaf_doc.specs.Shape.{shape_of};
ghost use Rattle.bpaf_laws.specs.Combinators.{GuardOutcome, MapOutcome};
ghost use Rattle.bench_values.specs.Modifiers.{number_of, too_much};

use crate::as_value::tell;
use crate::closures::{accept, give, half};
use crate::kind::Modifier;
use crate::lent::Lent;
use crate::value::Value;
use bpaf_core::{
    ParseCollect, ParseCount, ParseFallback, ParseFallbackWith, ParseGuard, ParseHide, ParseLast,
    ParseMany, ParseMap, ParseOptional, ParseSome, ParseWith, Parser,
};
use bpaf_doc::Meta;
use bpaf_line::{Error, State};
use std::alloc::{AllocError, Global};
use std::collections::VecDeque;
use std::marker::PhantomData;

/// The value of a parser, or nothing.
fn optional<P: Parser<Value>>(inner: &P, catch: bool, state: &mut State) -> Result<Value, Error>
    requires { P.can_eval inner.now }
    ensures { MadeOutcome (TurnOutcome (outcome_of (P.grammar inner.now)) catch true) ToldOption
        state.old result state.new }
{
    let inner = Lent { inner };
    tell::<Option<Value>, ParseOptional<Lent<'_, P>>>(ParseOptional { inner, catch }, state)
}

/// The values of a parser.
fn many<P: Parser<Value>>(inner: &P, catch: bool, state: &mut State) -> Result<Value, Error>
    requires { P.can_eval inner.now }
    ensures { MadeOutcome (ManyOutcome (outcome_of (P.grammar inner.now)) catch) ToldList
        state.old result state.new }
{
    let inner = Lent { inner };
    tell::<Vec<Value>, ParseMany<Lent<'_, P>>>(ParseMany { inner, catch }, state)
}

/// The values of a parser, one at least.
fn some<P: Parser<Value>>(inner: &P, catch: bool, state: &mut State) -> Result<Value, Error>
    requires { P.can_eval inner.now }
    ensures { MadeOutcome (SomeOutcome (outcome_of (P.grammar inner.now)) catch need_one) ToldList
        state.old result state.new }
{
    let parser = ParseSome {
        inner: Lent { inner },
        message: "need one",
        catch,
    };
    tell::<Vec<Value>, ParseSome<'static, Lent<'_, P>>>(parser, state)
}

/// The values of a parser, in a queue.
fn queue<P: Parser<Value>>(inner: &P, catch: bool, state: &mut State) -> Result<Value, Error>
    requires { P.can_eval inner.now }
    ensures { MadeOutcome (CollectOutcome (outcome_of (P.grammar inner.now)) catch FillsQueue)
        ToldQueue
        state.old result state.new }
{
    let parser: ParseCollect<Lent<'_, P>, VecDeque<Value>, Value> = ParseCollect {
        inner: Lent { inner },
        catch,
        collection: PhantomData,
        inner_res: PhantomData,
    };
    tell(parser, state)
}

/// The number of a parser's values.
fn count<P: Parser<Value>>(inner: &P, state: &mut State) -> Result<Value, Error>
    requires { P.can_eval inner.now }
    ensures { MadeOutcome (CountOutcome (outcome_of (P.grammar inner.now))) ToldCount
        state.old result state.new }
{
    let parser: ParseCount<Lent<'_, P>, Value> = ParseCount {
        inner: Lent { inner },
        inner_res: PhantomData,
    };
    tell(parser, state)
}

/// The last value of a parser.
fn last<P: Parser<Value>>(inner: &P, state: &mut State) -> Result<Value, Error>
    requires { P.can_eval inner.now }
    ensures { LastOutcome (outcome_of (P.grammar inner.now)) state.old result state.new }
{
    let inner = Lent { inner };
    let parser: ParseLast<Lent<'_, P>> = ParseLast { inner };
    parser.eval(state)
}

/// The value of a parser, changed.
fn mapped<P: Parser<Value>>(inner: &P, state: &mut State) -> Result<Value, Error>
    requires { P.can_eval inner.now }
    ensures { MapOutcome (outcome_of (P.grammar inner.now)) IsHalf state.old result state.new }
{
    let parser = ParseMap {
        inner: Lent { inner },
        map_fn: |value| half(value),
        inner_res: PhantomData,
        res: PhantomData,
    };
    parser.eval(state)
}

/// The value of a parser, if its weight is below the limit.
fn guarded<P: Parser<Value>>(inner: &P, limit: u64, state: &mut State) -> Result<Value, Error>
    requires { P.can_eval inner.now }
    ensures { GuardOutcome (outcome_of (P.grammar inner.now)) Checks too_much state.old result
        state.new }
{
    let parser = ParseGuard {
        inner: Lent { inner },
        check: |value: &Value| value.weight() < limit,
        message: "too much",
    };
    parser.eval(state)
}

/// The value of a parser, if its weight is below the limit; else a fault.
fn parsed<P: Parser<Value>>(inner: &P, limit: u64, state: &mut State) -> Result<Value, Error>
    requires { P.can_eval inner.now }
    ensures { AcceptOutcome (outcome_of (P.grammar inner.now)) state.old result state.new }
{
    let parser = ParseWith {
        inner: Lent { inner },
        parse_fn: |value: Value| accept(value.weight() < limit, value),
        inner_res: PhantomData,
        err: PhantomData,
        res: PhantomData,
    };
    parser.eval(state)
}

/// The value of a parser, or a number.
fn fallback<P: Parser<Value>>(inner: &P, number: u64, state: &mut State) -> Result<Value, Error>
    requires { P.can_eval inner.now }
    ensures { FallbackOutcome (outcome_of (P.grammar inner.now))
        (GivesClone ⟦<Value as Clone>⟧.is_clone (number_of number)) state.old result state.new }
{
    let inner = Lent { inner };
    let value = Value::Number(number);
    let parser: ParseFallback<Lent<'_, P>, Value> = ParseFallback {
        inner,
        value,
        shown: None,
    };
    parser.eval(state)
}

/// The value of a parser, or a closure's answer.
fn fallback_with<P: Parser<Value>>(
    inner: &P,
    number: Option<u64>,
    state: &mut State,
) -> Result<Value, Error>
    requires { P.can_eval inner.now }
    ensures { FallbackOutcome (outcome_of (P.grammar inner.now)) (GivesNumber number)
        state.old result state.new }
{
    let parser = ParseFallbackWith {
        inner: Lent { inner },
        fallback: || give(number, "none"),
        shown: None,
        inner_res: PhantomData,
        err: PhantomData,
    };
    parser.eval(state)
}

/// The value of a parser; where it is missing, no item is named.
fn hidden<P: Parser<Value>>(inner: &P, state: &mut State) -> Result<Value, Error>
    requires { P.can_eval inner.now }
    ensures { HideOutcome (outcome_of (P.grammar inner.now)) state.old result state.new }
{
    let inner = Lent { inner };
    let parser: ParseHide<Lent<'_, P>> = ParseHide { inner };
    parser.eval(state)
}

/// What a modifier makes of a parser's answer.
pub fn modified<P: Parser<Value>>(
    modifier: Modifier,
    inner: &P,
    state: &mut State,
) -> Result<Value, Error>
    requires { P.can_eval inner.now }
    ensures { outcome_of (over_grammar ⟦<Value as Clone>⟧.is_clone modifier
        (P.grammar inner.now)) state.old result state.new }
{
    match modifier {
        Modifier::Same => inner.eval(state),
        Modifier::Optional(catch) => optional(inner, catch, state),
        Modifier::Many(catch) => many(inner, catch, state),
        Modifier::Some(catch) => some(inner, catch, state),
        Modifier::Collect(catch) => queue(inner, catch, state),
        Modifier::Count => count(inner, state),
        Modifier::Last => last(inner, state),
        Modifier::Map => mapped(inner, state),
        Modifier::Guard(limit) => guarded(inner, limit, state),
        Modifier::Parse(limit) => parsed(inner, limit, state),
        Modifier::Fallback(number) => fallback(inner, number, state),
        Modifier::FallbackWith(number) => fallback_with(inner, number, state),
        Modifier::Hide => hidden(inner, state),
    }
}

/// What an optional value shows.
fn optional_meta<P: Parser<Value>>(inner: &P, alloc: Global) -> Result<Meta, AllocError>
    requires { P.can_eval inner.now }
    ensures { IfOk result (λ meta. OptionalDescribes (describes_of (P.grammar inner.now))
        (shape_of meta)) }
{
    let inner = Lent { inner };
    let parser: ParseOptional<Lent<'_, P>> = ParseOptional {
        inner,
        catch: false,
    };
    <ParseOptional<Lent<'_, P>> as Parser<Option<Value>>>::meta(&parser, alloc)
}

/// What a repeat shows.
fn many_meta<P: Parser<Value>>(inner: &P, alloc: Global) -> Result<Meta, AllocError>
    requires { P.can_eval inner.now }
    ensures { IfOk result (λ meta. ManyDescribes (describes_of (P.grammar inner.now))
        (shape_of meta)) }
{
    let inner = Lent { inner };
    let parser: ParseMany<Lent<'_, P>> = ParseMany {
        inner,
        catch: false,
    };
    <ParseMany<Lent<'_, P>> as Parser<Vec<Value>>>::meta(&parser, alloc)
}

/// What a repeat shows that has one value at least.
fn some_meta<P: Parser<Value>>(inner: &P, alloc: Global) -> Result<Meta, AllocError>
    requires { P.can_eval inner.now }
    ensures { IfOk result (λ meta. SomeDescribes (describes_of (P.grammar inner.now))
        (shape_of meta)) }
{
    let inner = Lent { inner };
    let parser: ParseLast<Lent<'_, P>> = ParseLast { inner };
    <ParseLast<Lent<'_, P>> as Parser<Value>>::meta(&parser, alloc)
}

/// What a modifier makes of what a parser shows.
pub fn modified_meta<P: Parser<Value>>(
    modifier: Modifier,
    inner: &P,
    alloc: Global,
) -> Result<Meta, AllocError>
    requires { P.can_eval inner.now }
    ensures { IfOk result (λ meta. describes_of (over_grammar ⟦<Value as Clone>⟧.is_clone modifier
        (P.grammar inner.now)) (shape_of meta)) }
{
    match modifier {
        Modifier::Same | Modifier::Map | Modifier::Guard(_) | Modifier::Parse(_) => {
            inner.meta(alloc)
        }
        Modifier::Optional(_) | Modifier::Fallback(_) | Modifier::FallbackWith(_) => {
            optional_meta(inner, alloc)
        }
        Modifier::Many(_) | Modifier::Collect(_) | Modifier::Count => many_meta(inner, alloc),
        Modifier::Some(_) | Modifier::Last => some_meta(inner, alloc),
        Modifier::Hide => Ok(Meta::Skip),
    }
}
