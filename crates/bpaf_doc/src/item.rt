//! One item on a help page: a flag, an argument, a word or a command.
use crate::doc::Doc;
use crate::meta::Meta;
use bpaf_base::Text;

/// The name of a value in usage and messages, such as `NUM`.
#[derive(Clone, Copy)]
pub struct Metavar(pub &'static str);

/// The names by which a key is shown: the first short one, the first long one, or both.
///
/// Unlike in bpaf it holds its long name, so it is not `Copy`.
#[derive(Drop)]
pub enum ShortLong {
    /// A short name alone.
    Short(char),
    /// A long name alone.
    Long(Text),
    /// A short name and a long one.
    Both(char, Text),
}

/// One thing that a parser looks for, as it is shown (bpaf's `Item`).
///
/// `shorts` are all its short names, hidden aliases too; `env` is the environment variable that
/// stands for it, and `help` what is said of it.
#[cycle(meta)]
pub enum Item {
    /// A word that a test of the program's own accepts; `anywhere` where it may stand behind
    /// others.
    Any {
        metavar: Doc,
        help: Option<Doc>,
        anywhere: bool,
    },
    /// A word by itself.
    Positional {
        metavar: Text,
        help: Option<Doc>,
    },
    /// A word that another parser follows, which shows `meta`.
    Command {
        name: Text,
        short: Option<char>,
        help: Option<Doc>,
        meta: Box<Meta>,
    },
    /// A key without a value.
    Flag {
        name: ShortLong,
        shorts: Vec<char>,
        env: Option<Text>,
        help: Option<Doc>,
    },
    /// A key with a value.
    Argument {
        name: ShortLong,
        shorts: Vec<char>,
        metavar: Text,
        env: Option<Text>,
        help: Option<Doc>,
    },
}

/// One call, so that a function that drops an item isn't checked for each kind of it.
impl Drop for Item {
    #[cycle(meta)]
    fn drop(self) {
        match self {
            Item::Any {
                metavar: _metavar,
                help: _help,
                anywhere: _,
            } => {}
            Item::Positional {
                metavar: _metavar,
                help: _help,
            } => {}
            Item::Command {
                name: _name,
                short: _,
                help: _help,
                meta: _meta,
            } => {}
            Item::Flag {
                name: _name,
                shorts: _shorts,
                env: _env,
                help: _help,
            } => {}
            Item::Argument {
                name: _name,
                shorts: _shorts,
                metavar: _metavar,
                env: _env,
                help: _help,
            } => {}
        }
    }
}
