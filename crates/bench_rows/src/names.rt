//! Which leaf a token of a description means.
use crate::leaf::{Answer, Leaf};
use crate::one_text::OneText;
use bench_values::{AsValue, Keyed, Refused, Value};
use bpaf::{NamedArg, appname, fail, literal, positional, pure};
use std::alloc::{AllocError, Global};
use std::marker::PhantomData;

/// A parser whose value is told as one of a described parser.
pub fn as_value<T, P>(inner: P) -> AsValue<T, P> {
    AsValue {
        inner,
        of: PhantomData,
    }
}

/// A leaf of one token.
pub fn bare_leaf(token: &str) -> Option<Leaf> {
    match token {
        "pn" | "positional" => Some(Leaf::NumberWord(as_value(positional::<u64>("N")))),
        "pns" | "positional_strict" => {
            Some(Leaf::NumberWord(as_value(positional::<u64>("N").strict())))
        }
        "pnn" | "positional_non_strict" => {
            Some(Leaf::NumberWord(as_value(positional::<u64>("N").non_strict())))
        }
        "ps" | "positional_text" => Some(Leaf::Word(as_value(positional::<String>("S")))),
        "pss" | "positional_text_strict" => {
            Some(Leaf::Word(as_value(positional::<String>("S").strict())))
        }
        "psn" | "positional_text_non_strict" => {
            Some(Leaf::Word(as_value(positional::<String>("S").non_strict())))
        }
        "appname" => Some(Leaf::Appname(as_value(appname()))),
        "fail" => Some(Leaf::Fail(fail::<Value>("no"))),
        "purer" | "pure_refused" => Some(Leaf::Pure(pure(Value::Refused(Refused)))),
        "pwerr" | "pure_with_fault" => Some(Leaf::PureWith(Answer { number: None })),
        _ => None,
    }
}

/// A leaf of a key; the number is that of a required flag.
pub fn keyed_leaf(keyed: Keyed, key: NamedArg, number: u64) -> Leaf {
    match keyed {
        Keyed::Switch => Leaf::Switch(as_value(key.switch())),
        Keyed::Flag => Leaf::Flag(as_value(key.flag(1u64, 0u64))),
        Keyed::RequiredFlag => Leaf::Flag(as_value(key.req_flag(number))),
        Keyed::Number => Leaf::Number(as_value(key.argument::<u64>("NUM"))),
        Keyed::AdjacentNumber => { Leaf::Number(as_value(key.argument::<u64>("NUM").adjacent())) }
        Keyed::LastNumber => Leaf::Number(as_value(key.argument::<u64>("NUM").take_last())),
        Keyed::LastAdjacentNumber => {
            Leaf::Number(as_value(key.argument::<u64>("NUM").take_last().adjacent()))
        }
        Keyed::Integer => Leaf::Integer(as_value(key.argument::<i64>("INT"))),
        Keyed::Text => Leaf::Text(as_value(key.argument::<String>("STR"))),
        Keyed::Unread => Leaf::Unread(as_value(key.argument::<Refused>("NUM"))),
    }
}

/// A leaf of a token that stands before a number (`is_numbered`), and that number.
pub fn numbered_leaf(token: &str, number: u64) -> Leaf {
    match token {
        "pure" => Leaf::Pure(pure(Value::Number(number))),
        _ => Leaf::PureWith(Answer {
            number: Some(number),
        }),
    }
}

/// A leaf of a token that stands before a text (`is_texted`), and that text; refused only for want
/// of memory.
pub fn texted_leaf(alloc: Global, token: &str, text: &str) -> Result<Leaf, AllocError> {
    match token {
        "lit" | "literal" => Ok(Leaf::Literal(as_value(literal(alloc, text)?))),
        "lita" | "literal_anywhere" => {
            Ok(Leaf::Literal(as_value(literal(alloc, text)?.anywhere())))
        }
        "any" => Ok(Leaf::Any(OneText::new(alloc, text, false)?)),
        _ => Ok(Leaf::Any(OneText::new(alloc, text, true)?)),
    }
}
