//! Products and choices of several described parsers.
ghost use Rattle.std.specs.Prelude.{◌≡◌, All, IfOk};
ghost use Rattle.bpaf_doc.specs.Shape.{shape_of};
ghost use Rattle.bpaf_grammar.specs.Grammar.{choices_of, describes_of, outcome_of};
ghost use Rattle.bpaf_laws.specs.Product.{ProductDescribes};
ghost use Rattle.bench_rows.specs.Levels.{nested_grammar, tuple_grammar};

use bench_values::{Lent, Told, Value, tell};
use bpaf::parsers::{ParseChoice, ParseCon, ParseOrElse};
use bpaf::{Both, ByClosure, Error, Fields, Last, Meta, Parser, State, fail};
use std::alloc::{AllocError, Global};
use std::marker::PhantomData;

/// Two values.
pub type Two = (Value, Value);

/// Three values.
pub type Three = (Value, Two);

/// Four values.
type Four = (Value, Three);

/// The fields of two parsers.
pub type TwoFields<'p, P> = Both<Lent<'p, P>, Last<Lent<'p, P>>>;

/// The fields of three parsers.
pub type ThreeFields<'p, P> = Both<Lent<'p, P>, TwoFields<'p, P>>;

/// The fields of four parsers.
type FourFields<'p, P> = Both<Lent<'p, P>, ThreeFields<'p, P>>;

/// The values of fields, as one.
fn nested<V: Told + Drop, F: Fields<V> + Drop>(fields: F, state: &mut State) -> Result<Value, Error>
    requires { F.can_eval fields }
    ensures { outcome_of (nested_grammar V.told (F.grammar fields)) state.old result state.new }
{
    let product = ParseCon {
        fields,
        make: ByClosure {
            closure: |values: V| values,
        },
        values: PhantomData,
    };
    tell(product, state)
}

/// What fields show.
fn nested_meta<V: Drop, F: Fields<V> + Drop>(fields: F, alloc: Global) -> Result<Meta, AllocError>
    requires { F.can_eval fields }
    ensures { IfOk result (λ meta.
        ProductDescribes (describes_of (F.grammar fields)) (shape_of meta)) }
{
    let product = ParseCon {
        fields,
        make: ByClosure {
            closure: |values: V| values,
        },
        values: PhantomData,
    };
    product.meta(alloc)
}

/// The fields of two lent parsers.
pub fn two_fields<'p, P>(a: &'p P, b: &'p P) -> TwoFields<'p, P>
    ensures a { result.first.inner.now ≡ a.now }
    ensures b { result.rest.last.inner.now ≡ b.now }
{
    let last = Lent { inner: b };
    let rest = Last { last };
    let first = Lent { inner: a };
    Both { first, rest }
}

/// The fields of three lent parsers.
pub fn three_fields<'p, P>(a: &'p P, b: &'p P, c: &'p P) -> ThreeFields<'p, P>
    ensures a { result.first.inner.now ≡ a.now }
    ensures b { result.rest.first.inner.now ≡ b.now }
    ensures c { result.rest.rest.last.inner.now ≡ c.now }
{
    let rest = two_fields(b, c);
    let first = Lent { inner: a };
    Both { first, rest }
}

/// The fields of four lent parsers.
fn four_fields<'p, P>(a: &'p P, b: &'p P, c: &'p P, d: &'p P) -> FourFields<'p, P>
    ensures a { result.first.inner.now ≡ a.now }
    ensures b { result.rest.first.inner.now ≡ b.now }
    ensures c { result.rest.rest.first.inner.now ≡ c.now }
    ensures d { result.rest.rest.rest.last.inner.now ≡ d.now }
{
    let rest = three_fields(b, c, d);
    let first = Lent { inner: a };
    Both { first, rest }
}

/// The values of two, three or four parsers, the one after the other.
pub fn product<P: Parser<Value>>(parsers: &[P], state: &mut State) -> Result<Value, Error>
    requires { All P.can_eval parsers.now }
    ensures { outcome_of (tuple_grammar P.grammar parsers.now) state.old result state.new }
{
    match parsers {
        [a, b] => nested::<Two, TwoFields<'_, P>>(two_fields(a, b), state),
        [a, b, c] => nested::<Three, ThreeFields<'_, P>>(three_fields(a, b, c), state),
        [a, b, c, d] => nested::<Four, FourFields<'_, P>>(four_fields(a, b, c, d), state),
        _ => fail::<Value>("wrong number of parsers").eval(state),
    }
}

/// What a product shows.
pub fn product_meta<P: Parser<Value>>(parsers: &[P], alloc: Global) -> Result<Meta, AllocError>
    requires { All P.can_eval parsers.now }
    ensures { IfOk result (λ meta.
        describes_of (tuple_grammar P.grammar parsers.now) (shape_of meta)) }
{
    match parsers {
        [a, b] => nested_meta::<Two, TwoFields<'_, P>>(two_fields(a, b), alloc),
        [a, b, c] => nested_meta::<Three, ThreeFields<'_, P>>(three_fields(a, b, c), alloc),
        [a, b, c, d] => nested_meta::<Four, FourFields<'_, P>>(four_fields(a, b, c, d), alloc),
        _ => fail::<Value>("wrong number of parsers").meta(alloc),
    }
}

/// The choice of two lent parsers.
type EitherOf<'p, P> = ParseOrElse<Lent<'p, P>, Lent<'p, P>>;

/// The choice of three lent parsers.
type AnyOf<'p, P> = ParseOrElse<EitherOf<'p, P>, Lent<'p, P>>;

/// The value of one of the parsers: two or three are written one after the other.
pub fn or_else<P: Parser<Value> + Drop>(
    inner: &ParseChoice<P>,
    state: &mut State,
) -> Result<Value, Error>
    requires { All P.can_eval inner.now.parsers.items }
    ensures { outcome_of (choices_of P.grammar inner.now.parsers.items)
        state.old result state.new }
{
    match inner.parsers.as_slice() {
        [a, b] => {
            let this = Lent { inner: a };
            let that = Lent { inner: b };
            let parser: EitherOf<'_, P> = ParseOrElse { this, that };
            parser.eval(state)
        }
        [a, b, c] => {
            let this = Lent { inner: a };
            let that = Lent { inner: b };
            let this = ParseOrElse { this, that };
            let that = Lent { inner: c };
            let parser: AnyOf<'_, P> = ParseOrElse { this, that };
            parser.eval(state)
        }
        _ => inner.eval(state),
    }
}

/// What a choice shows.
pub fn or_else_meta<P: Parser<Value> + Drop>(
    inner: &ParseChoice<P>,
    alloc: Global,
) -> Result<Meta, AllocError>
    requires { All P.can_eval inner.now.parsers.items }
    ensures { IfOk result (λ meta.
        describes_of (choices_of P.grammar inner.now.parsers.items) (shape_of meta)) }
{
    match inner.parsers.as_slice() {
        [a, b] => {
            let this = Lent { inner: a };
            let that = Lent { inner: b };
            let parser: EitherOf<'_, P> = ParseOrElse { this, that };
            <EitherOf<'_, P> as Parser<Value>>::meta(&parser, alloc)
        }
        [a, b, c] => {
            let this = Lent { inner: a };
            let that = Lent { inner: b };
            let this = ParseOrElse { this, that };
            let that = Lent { inner: c };
            let parser: AnyOf<'_, P> = ParseOrElse { this, that };
            <AnyOf<'_, P> as Parser<Value>>::meta(&parser, alloc)
        }
        _ => inner.meta(alloc),
    }
}
