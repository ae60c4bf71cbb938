//! Which combinator a token names.
use bpaf_core::CommandNames;

/// What is made of one parser.
#[derive(Clone, Copy)]
pub enum Modifier {
    /// That parser itself.
    Same,
    /// Its value, or nothing; true is with `catch`, here and below.
    Optional(bool),
    /// Its values.
    Many(bool),
    /// Its values, one at least.
    Some(bool),
    /// Its values in a queue.
    Collect(bool),
    /// How many values there are.
    Count,
    /// Its last value.
    Last,
    /// Its value, a number halved and a bool negated.
    Map,
    /// Its value, refused by a check where its weight isn't below a limit.
    Guard(u64),
    /// The same, refused by a fault.
    Parse(u64),
    /// Its value, or a number.
    Fallback(u64),
    /// Its value, or what a closure answers: a number, or without one a fault.
    FallbackWith(Option<u64>),
    /// Its value; where it is missing, no item is named.
    Hide,
}

/// What a level makes of its inner parsers.
#[derive(Drop)]
pub enum Kind {
    /// A modifier of the choice of all of them.
    Over(Modifier),
    /// The product of two, three or four.
    Product,
    /// The adjacent group of two or three.
    Group,
    /// The choice of two or three, as `or_else` writes it.
    OrElse,
    /// A command of these names over the choice of all of them; true is an adjacent one.
    Command(CommandNames, bool),
}
