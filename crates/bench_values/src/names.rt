//! What the tokens of a description stand for.
use crate::kind::{Kind, Modifier};

/// What is made of a key.
#[derive(Clone, Copy)]
pub enum Keyed {
    /// A switch.
    Switch,
    /// A flag of two numbers.
    Flag,
    /// A required flag, whose number follows.
    RequiredFlag,
    /// An argument that is a number.
    Number,
    /// One whose value stands in the same word.
    AdjacentNumber,
    /// An argument that takes its last number.
    LastNumber,
    /// The same, whose value stands in the same word.
    LastAdjacentNumber,
    /// An argument that is a number with a sign.
    Integer,
    /// An argument that is a text.
    Text,
    /// An argument whose text is read as nothing, since memory is wanted for it.
    Unread,
}

/// What a token makes of the key behind it, if it stands before one.
pub fn kind_of_key(token: &str) -> Option<Keyed> {
    match token {
        "sw" | "switch" => Some(Keyed::Switch),
        "fl" | "flag" => Some(Keyed::Flag),
        "rf" | "required_flag" => Some(Keyed::RequiredFlag),
        "an" | "argument" => Some(Keyed::Number),
        "ana" | "argument_adjacent" => Some(Keyed::AdjacentNumber),
        "tl" | "take_last" => Some(Keyed::LastNumber),
        "tla" | "take_last_adjacent" => Some(Keyed::LastAdjacentNumber),
        "ai" | "argument_integer" => Some(Keyed::Integer),
        "as" | "argument_text" => Some(Keyed::Text),
        "ar" | "argument_refused" => Some(Keyed::Unread),
        _ => None,
    }
}

/// Whether a token stands before a number, and is no combination.
pub fn is_numbered(token: &str) -> bool {
    matches!(token, "pure" | "pwok" | "pure_with")
}

/// Whether a token stands before a text.
pub fn is_texted(token: &str) -> bool {
    matches!(
        token,
        "lit" | "literal" | "lita" | "literal_anywhere" | "any" | "anya" | "any_anywhere"
    )
}

/// What stands before one parser.
pub fn modifier(token: &str) -> Option<Modifier> {
    match token {
        "opt" | "optional" => Some(Modifier::Optional(false)),
        "optc" | "optional_catch" => Some(Modifier::Optional(true)),
        "many" => Some(Modifier::Many(false)),
        "manyc" | "many_catch" => Some(Modifier::Many(true)),
        "some" => Some(Modifier::Some(false)),
        "somec" | "some_catch" => Some(Modifier::Some(true)),
        "coll" | "collect" => Some(Modifier::Collect(false)),
        "collc" | "collect_catch" => Some(Modifier::Collect(true)),
        "count" => Some(Modifier::Count),
        "last" => Some(Modifier::Last),
        "map" => Some(Modifier::Map),
        "hide" => Some(Modifier::Hide),
        "fberr" | "fallback_with_fault" => Some(Modifier::FallbackWith(None)),
        _ => None,
    }
}

/// What stands before a number and one parser.
pub fn numbered_modifier(token: &str, number: u64) -> Option<Modifier> {
    match token {
        "guard" => Some(Modifier::Guard(number)),
        "parse" => Some(Modifier::Parse(number)),
        "fb" | "fallback" => Some(Modifier::Fallback(number)),
        "fbok" | "fallback_with" => Some(Modifier::FallbackWith(Some(number))),
        _ => None,
    }
}

/// What stands before several parsers, and how many.
pub fn several_kind(token: &str) -> Option<(Kind, u64)> {
    match token {
        "prod2" | "product2" => Some((Kind::Product, 2)),
        "prod3" | "product3" => Some((Kind::Product, 3)),
        "prod4" | "product4" => Some((Kind::Product, 4)),
        "adj2" | "adjacent2" => Some((Kind::Group, 2)),
        "adj3" | "adjacent3" => Some((Kind::Group, 3)),
        "alt2" | "or_else2" => Some((Kind::OrElse, 2)),
        "alt3" | "or_else3" => Some((Kind::OrElse, 3)),
        _ => None,
    }
}

/// Whether a number and so many parsers follow.
pub fn is_choice(token: &str) -> bool {
    token == "ch" || token == "choice"
}

/// Whether the names of a command and one parser follow.
pub fn is_command(token: &str) -> bool {
    token == "cmd" || token == "command" || is_adjacent_command(token)
}

/// Whether those of an adjacent command follow.
pub fn is_adjacent_command(token: &str) -> bool {
    token == "cmda" || token == "command_adjacent"
}

/// Whether other parsers follow.
pub fn is_combination(token: &str) -> bool {
    modifier(token).is_some()
        || numbered_modifier(token, 0).is_some()
        || several_kind(token).is_some()
        || is_choice(token)
        || is_command(token)
}
