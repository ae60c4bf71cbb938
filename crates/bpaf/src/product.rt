//! Products: the fields of a record, read one after another.
ghost use Rattle.bpaf_grammar.specs.Grammar.{FieldsGrammar, alone, both, product};
ghost use Rattle.bpaf_grammar.specs.Grammar.{outcome_of, describes_of, fast_outcome_of};
ghost use Rattle.std.specs.Prelude.{◌≡◌, OnOk, map};
ghost use Rattle.bpaf_doc.specs.Shape.{shape_of};
ghost use Rattle.bpaf_laws.specs.Product.{AppendsShapes};
ghost use Rattle.bpaf.specs.Remembering.{IsErrorBefore, WithoutValue};

use bpaf_core::Parser;
use bpaf_doc::Meta;
use bpaf_line::{Error, State};
use std::alloc::{AllocError, Global};
use std::marker::PhantomData;

/// The fields of a product, in order: their values are nested pairs. bpaf has a closure in its
/// place.
pub trait Fields<V>: Sized {
    /// Whether each field may be evaluated.
    ghost can_eval: { Self → Type 0 };

    /// Of which parsers they are.
    ghost grammar: { Self → FieldsGrammar V };

    /// Evaluates every field in order, also after an error; the first failing field's error is the
    /// answer. Want of memory is the answer at once.
    fn eval_fields(&self, state: &mut State) -> Result<V, Error>
        requires { can_eval self.now }
        ensures { outcome_of (grammar self.now) state.old result state.new };

    /// The same, each value dropped where it was read: fields behind one that has failed are
    /// evaluated for want of memory alone.
    fn eval_without_value(&self, state: &mut State) -> Result<(), Error>
        requires { can_eval self.now }
        ensures { WithoutValue (outcome_of (grammar self.now)) state.old result state.new };

    /// Appends what each field shows; refused only for want of memory.
    fn push_metas(&self, alloc: Global, metas: &mut Vec<Meta>) -> Result<(), AllocError>
        requires { can_eval self.now }
        ensures { OnOk result (AppendsShapes (describes_of (grammar self.now))
            (map shape_of metas.old.items) (map shape_of metas.new.items)) };

    /// Evaluates the first field, where it fails no other one, and else the others as ever: an
    /// adjacent group finds its first item so.
    fn eval_fail_fast(&self, state: &mut State) -> Result<V, Error>
        requires { can_eval self.now }
        ensures { fast_outcome_of (grammar self.now) state.old result state.new };
}

/// The last field of a product.
pub struct Last<A> {
    /// Its parser.
    pub last: A,
}

impl<A: Drop> Drop for Last<A> {
    fn drop(self) {
        let Last { last: _last } = self;
    }
}

impl<T: Drop, A: Parser<T>> Fields<T> for Last<A> {
    ghost can_eval = { λ p. A.can_eval p.last };

    ghost grammar = { λ p. alone (A.grammar p.last) };

    fn eval_fields(&self, state: &mut State) -> Result<T, Error> {
        self.last.eval(state)
    }

    fn eval_without_value(&self, state: &mut State) -> Result<(), Error> {
        match self.last.eval(state) {
            Ok(_) => Ok(()),
            Err(error) => Err(error),
        }
    }

    fn push_metas(&self, alloc: Global, metas: &mut Vec<Meta>) -> Result<(), AllocError> {
        metas.push(self.last.meta(alloc)?)?;
        Ok(())
    }

    fn eval_fail_fast(&self, state: &mut State) -> Result<T, Error> {
        self.last.eval(state)
    }
}

/// A field of a product, and the fields after it.
pub struct Both<A, R> {
    /// The field's parser.
    pub first: A,
    /// The fields after it.
    pub rest: R,
}

impl<A: Drop, R: Drop> Drop for Both<A, R> {
    fn drop(self) {
        let Both {
            first: _first,
            rest: _rest,
        } = self;
    }
}

impl<T: Drop, V, A: Parser<T>, R: Fields<V>> Fields<(T, V)> for Both<A, R> {
    ghost can_eval = { λ p. A.can_eval p.first × R.can_eval p.rest };

    ghost grammar = { λ p. both (A.grammar p.first) (R.grammar p.rest) };

    fn eval_fields(&self, state: &mut State) -> Result<(T, V), Error> {
        match self.first.eval(state) {
            Ok(first) => match self.rest.eval_fields(state) {
                Ok(rest) => Ok((first, rest)),
                Err(error) => Err(error),
            },
            Err(error) => Err(error_before(error, &self.rest, state)),
        }
    }

    #[tactic(auto, using(crate::proofs::Remembering::rest_told))]
    fn eval_without_value(&self, state: &mut State) -> Result<(), Error> {
        match self.first.eval(state) {
            Ok(_) => self.rest.eval_without_value(state),
            Err(error) => Err(error_before(error, &self.rest, state)),
        }
    }

    fn push_metas(&self, alloc: Global, metas: &mut Vec<Meta>) -> Result<(), AllocError> {
        metas.push(self.first.meta(alloc)?)?;
        self.rest.push_metas(alloc, metas)
    }

    fn eval_fail_fast(&self, state: &mut State) -> Result<(T, V), Error> {
        match self.first.eval(state) {
            Ok(first) => match self.rest.eval_fields(state) {
                Ok(rest) => Ok((first, rest)),
                Err(error) => Err(error),
            },
            Err(error) => Err(error),
        }
    }
}

/// The field of a product of one, where the type of the product is written.
pub type Fields1<A> = Last<A>;

/// The fields of a product of two.
pub type Fields2<A, B> = Both<A, Last<B>>;

/// The fields of a product of three.
pub type Fields3<A, B, C> = Both<A, Fields2<B, C>>;

/// The fields of a product of four.
pub type Fields4<A, B, C, D> = Both<A, Fields3<B, C, D>>;

/// The error of a product whose first field has failed: the fields behind it are evaluated too,
/// unless it wanted memory, and the error is theirs where they want memory.
fn error_before<V, R: Fields<V>>(error: Error, rest: &R, state: &mut State) -> Error
    requires { R.can_eval rest.now }
    ensures { IsErrorBefore (outcome_of (R.grammar rest.now)) error state.old result state.new }
{
    if error.0.is_memory() {
        return error;
    }
    match rest.eval_without_value(state) {
        Ok(()) => error,
        Err(later) => {
            if later.0.is_memory() {
                drop(error);
                later
            } else {
                drop(later);
                error
            }
        }
    }
}

/// What makes a value of the values of fields: a closure, as `construct!` has it ([`ByClosure`]),
/// or a type of a program's own, so that the type of a product has a name. bpaf has a closure
/// alone.
///
/// ```text
/// struct MakePoint {}
///
/// impl Constructor<(u64, u64), Point> for MakePoint {
///     fn make(&self, (x, y): (u64, u64)) -> Point {
///         Point { x, y }
///     }
/// }
/// ```
///
/// A program that promises something of its values says what it makes, as
/// `ghost makes = { λ m v point. point ≡ record { x = v.0; y = v.1 } };`.
pub trait Constructor<V, T>: Sized {
    /// Whether it may be called on any values; by default it may.
    ghost can_make: { Self → Type 0 } = { λ m. Unit {0} };

    /// What it makes of values: those of the fields, as nested pairs. By default nothing is said.
    ghost makes: { Self → V → T → Type 0 } = { λ m values made. Unit {0} };

    /// The value that it makes.
    fn make(&self, values: V) -> T
        requires { can_make self.now }
        ensures { makes self.now values result };
}

/// A closure as a constructor.
pub struct ByClosure<F> {
    /// The closure.
    pub closure: F,
}

impl<F: Drop> Drop for ByClosure<F> {
    fn drop(self) {
        let ByClosure { closure: _closure } = self;
    }
}

impl<V, T, F: Fn(V) -> T> Constructor<V, T> for ByClosure<F> {
    ghost can_make = { λ m. F.IsAlwaysCallable m.closure };

    ghost makes = { λ m x y. F.post m.closure x y };

    fn make(&self, values: V) -> T {
        (self.closure)(values)
    }
}

/// The constructor of a tuple of two values, which are the fields' own.
#[derive(Drop)]
pub struct Tuple2 {}

impl<A, B> Constructor<(A, B), (A, B)> for Tuple2 {
    ghost makes = { λ m values tuple. tuple ≡ values };

    fn make(&self, values: (A, B)) -> (A, B) {
        values
    }
}

/// The constructor of a tuple of three values.
#[derive(Drop)]
pub struct Tuple3 {}

impl<A, B, C> Constructor<(A, (B, C)), (A, B, C)> for Tuple3 {
    ghost makes = { λ m values tuple. tuple ≡ (values.0, values.1.0, values.1.1) };

    fn make(&self, (a, (b, c)): (A, (B, C))) -> (A, B, C) {
        (a, b, c)
    }
}

/// The constructor of a tuple of four values.
#[derive(Drop)]
pub struct Tuple4 {}

impl<A, B, C, D> Constructor<(A, (B, (C, D))), (A, B, C, D)> for Tuple4 {
    ghost makes = { λ m values tuple.
        tuple ≡ (values.0, values.1.0, values.1.1.0, values.1.1.1) };

    fn make(&self, (a, (b, (c, d))): (A, (B, (C, D)))) -> (A, B, C, D) {
        (a, b, c, d)
    }
}

/// A product: what a constructor makes of the values of fields (bpaf's `ParseCon`, in
/// `structs.rs`).
///
/// `V` is the type of the fields' values, nested pairs; `M` that of the constructor.
pub struct ParseCon<V, P, M> {
    /// The fields, in order.
    pub fields: P,
    /// The constructor.
    pub make: M,
    /// The type of the fields' values.
    pub values: PhantomData<V>,
}

/// The parser that `construct!(a, b)` answers, of the values `S` and `T` of the fields `A` and `B`.
///
/// ```text
/// fn place() -> ParseTuple2<u64, u64, ParsePositional<u64>, ParsePositional<u64>> {
///     let x = positional::<u64>("X");
///     let y = positional::<u64>("Y");
///     construct!(x, y)
/// }
/// ```
pub type ParseTuple2<S, T, A, B> = ParseCon<(S, T), Fields2<A, B>, Tuple2>;

/// The parser that `construct!(a, b, c)` answers.
pub type ParseTuple3<S, T, U, A, B, C> = ParseCon<(S, (T, U)), Fields3<A, B, C>, Tuple3>;

/// The parser that `construct!(a, b, c, d)` answers.
pub type ParseTuple4<S, T, U, V, A, B, C, D> = ParseCon<
    (S, (T, (U, V))),
    Fields4<A, B, C, D>,
    Tuple4,
>;

impl<V, P: Drop, M: Drop> Drop for ParseCon<V, P, M> {
    fn drop(self) {
        let ParseCon {
            fields: _fields,
            make: _make,
            values: _,
        } = self;
    }
}

impl<V, P, M> ParseCon<V, P, M> {
    /// A product of these fields by a constructor, whose type can be named.
    pub fn by(fields: P, make: M) -> ParseCon<V, P, M>
        ensures fields { result.fields ≡ fields }
        ensures make { result.make ≡ make }
    {
        ParseCon {
            fields,
            make,
            values: PhantomData,
        }
    }
}

impl<V, P, F> ParseCon<V, P, ByClosure<F>> {
    /// A product of these fields by a closure.
    pub fn new<T>(fields: P, make: F) -> ParseCon<V, P, ByClosure<F>>
    where
        F: Fn(V) -> T,
        requires { F.IsAlwaysCallable make }
        ensures fields { result.fields ≡ fields }
        ensures make { result.make.closure ≡ make }
    {
        ParseCon {
            fields,
            make: ByClosure { closure: make },
            values: PhantomData,
        }
    }
}

impl<V, T, P: Fields<V>, M: Constructor<V, T>> Parser<T> for ParseCon<V, P, M> {
    ghost can_eval = { λ p. P.can_eval p.fields × M.can_make p.make };

    ghost grammar = { λ p. product (M.makes p.make) (P.grammar p.fields) };

    fn eval(&self, state: &mut State) -> Result<T, Error> {
        let values = self.fields.eval_fields(state);
        state.set_current(None);
        Ok(self.make.make(values?))
    }

    fn meta(&self, alloc: Global) -> Result<Meta, AllocError> {
        let mut metas = Vec::new(alloc);
        self.fields.push_metas(alloc, &mut metas)?;
        Ok(Meta::And(metas))
    }
}
