//! The parsers that one text makes.
ghost use Rattle.std.specs.Prelude.{None, Option, String, string_bytes};
ghost use Rattle.std.specs.declared.alloc.Global.{Global};
ghost use Rattle.bpaf_doc.specs.Shape.{Any};
ghost use Rattle.bpaf_laws.specs.Leaves.{AnyOutcome};
ghost use Rattle.bench_values.specs.declared.value.Value.{Value};
ghost use Rattle.bench_rows.specs.Levels.{AcceptsText};

use bench_values::Value;
use bpaf::parsers::ParseAny;
use bpaf::{Doc, Error, Item, Meta, Parser, State, Style};
use std::alloc::{AllocError, Global};
use std::marker::PhantomData;

/// The text as a value, if it is the wanted one.
fn accept_text(text: String, wanted: &str) -> Option<Value>
    ensures { AcceptsText wanted.now (string_bytes text) result }
{
    if text.as_str() == wanted {
        Some(Value::Text(text))
    } else {
        None
    }
}

/// An item that a check of its text accepts: that of one text alone.
#[derive(Drop)]
pub struct OneText {
    /// The text.
    pub text: String,
    /// What stands for it where it is shown.
    pub metavar: Doc,
    /// Whether later items are looked at.
    pub anywhere: bool,
}

impl OneText {
    /// That of this text; refused only for want of memory.
    pub fn new(alloc: Global, text: &str, anywhere: bool) -> Result<OneText, AllocError> {
        Ok(OneText {
            text: String::from_str(alloc, text)?,
            metavar: Doc::from_pieces(alloc, &[("ANY", Style::Metavar)])?,
            anywhere,
        })
    }

    /// What `any` makes of a check that accepts the text alone.
    fn eval_by<F: Fn(String) -> Option<Value> + Drop>(
        &self,
        check: F,
        state: &mut State,
    ) -> Result<Value, Error>
        requires callable { F.IsAlwaysCallable check }
        requires accepts { (text : String Global) (found : Option Value) → F.post check text found
            → AcceptsText (string_bytes self.now.text) (string_bytes text) found }
        ensures { AnyOutcome (AcceptsText (string_bytes self.now.text))
            (Any self.now.metavar None self.now.anywhere) self.now.anywhere
            state.old result state.new }
    {
        let parser = ParseAny {
            metavar: self.metavar.copy()?,
            help: None,
            check,
            anywhere: self.anywhere,
            from: PhantomData,
            of: PhantomData,
        };
        parser.eval(state)
    }
}

impl Parser<Value> for OneText {
    ghost use Rattle.std.specs.Prelude.{None, string_bytes};
    ghost use Rattle.bpaf_grammar.specs.{Grammar.own, Leaves.any_item};
    ghost use Rattle.bench_rows.specs.Levels.{AcceptsText};

    ghost can_eval = { λ p. Unit {0} };

    ghost grammar = { λ p.
        own (any_item (AcceptsText (string_bytes p.text)) p.metavar None p.anywhere) };

    fn eval(&self, state: &mut State) -> Result<Value, Error> {
        let wanted = self.text.as_str();
        self.eval_by(|text| accept_text(text, wanted), state)
    }

    fn meta(&self, _alloc: Global) -> Result<Meta, AllocError> {
        Ok(Meta::Item(Item::Any {
            metavar: self.metavar.copy()?,
            help: None,
            anywhere: self.anywhere,
        }))
    }
}
