//! Adjacent groups of described parsers.
ghost use Rattle.std.specs.Prelude.{All, IfOk};
ghost use Rattle.bpaf_doc.specs.Shape.{shape_of};
ghost use Rattle.bpaf_grammar.specs.Grammar.{describes_of, outcome_of};
ghost use Rattle.bpaf_laws.specs.Adjacent.{GroupDescribes};
ghost use Rattle.bench_rows.specs.Levels.{GroupedOutcome, together_grammar, tuple_grammar};

use crate::several::{Three, ThreeFields, Two, TwoFields, product_meta, three_fields, two_fields};
use bench_values::{Told, Value, tell};
use bpaf::parsers::ParseCon;
use bpaf::{AdjacentError, ByClosure, Error, Fields, Meta, Parser, State, fail};
use std::alloc::{AllocError, Global};
use std::marker::PhantomData;

/// The values of an adjacent group of fields, as one; a refusal where they show no item first.
fn grouped<V, F>(fields: F, state: &mut State) -> Result<Value, Error>
where
    V: Told + Drop,
    F: Fields<V> + Drop,
    requires { F.can_eval fields }
    ensures { GroupedOutcome V.told (F.grammar fields) state.old result state.new }
{
    let product = ParseCon {
        fields,
        make: ByClosure {
            closure: |values: V| values,
        },
        values: PhantomData,
    };
    match product.adjacent(state.alloc()) {
        Ok(group) => tell(group, state),
        Err(AdjacentError::NoFirstItem) => fail::<Value>("no first item").eval(state),
        Err(AdjacentError::Memory) => Err(Error::from(AllocError)),
    }
}

/// The values of an adjacent group of two or three parsers; a refusal where the first of them shows
/// no item first.
pub fn group<P: Parser<Value>>(parsers: &[P], state: &mut State) -> Result<Value, Error>
    requires { All P.can_eval parsers.now }
    ensures { outcome_of (together_grammar P.grammar parsers.now) state.old result state.new }
{
    match parsers {
        [a, b] => grouped::<Two, TwoFields<'_, P>>(two_fields(a, b), state),
        [a, b, c] => grouped::<Three, ThreeFields<'_, P>>(three_fields(a, b, c), state),
        _ => fail::<Value>("wrong number of parsers").eval(state),
    }
}

/// What a group shows: its product, as what stands together.
fn joined_meta<P: Parser<Value>>(parsers: &[P], alloc: Global) -> Result<Meta, AllocError>
    requires { All P.can_eval parsers.now }
    ensures { IfOk result (λ meta. GroupDescribes
        (describes_of (tuple_grammar P.grammar parsers.now)) (shape_of meta)) }
{
    let within = product_meta(parsers, alloc)?;
    Ok(Meta::Adjacent(Box::new(alloc, within)?))
}

/// What a group of two or three shows; another number shows nothing.
pub fn group_meta<P: Parser<Value>>(parsers: &[P], alloc: Global) -> Result<Meta, AllocError>
    requires { All P.can_eval parsers.now }
    ensures { IfOk result (λ meta.
        describes_of (together_grammar P.grammar parsers.now) (shape_of meta)) }
{
    match parsers {
        [_, _] => joined_meta(parsers, alloc),
        [_, _, _] => joined_meta(parsers, alloc),
        _ => fail::<Value>("wrong number of parsers").meta(alloc),
    }
}
